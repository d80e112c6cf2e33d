//! The quantiser of a macroblock, by what is left of its slice.
ghost use Rattle.std.specs.Prelude.{◌≡◌, ◌≤◌, max};
ghost use Rattle.m2v_rate.specs.Sharing.{raised, IsSliceSoFar};

/// A slice up to a macroblock that isn't its first.
#[derive(Clone, Copy, Debug, PartialEq, Eq)]
pub struct SliceSoFar {
    /// The work of the macroblocks before it: the sum of their bits, each times its quantiser.
    pub work: u64,
    /// The sum of the activities of those before it.
    pub before: u64,
    /// The sum of the activities from it to the row's end.
    pub ahead: u64,
    /// The bits of the slice's cap that are left, beside those that hold each macroblock from it on.
    pub left: u64,
}

/// The quantiser code by which a macroblock is chosen: that of the slice, or a coarser one where the macroblocks before took
/// more than their part of the slice's bits.
#[tactic(auto, unfolding(crate::specs::Sharing::raised))]
pub fn raised(q: u8, slice: SliceSoFar) -> u8
    requires slice { IsSliceSoFar slice }
    requires code { q ≤ 31 }
    ensures value { result ≡ raised q slice }
    ensures least { q ≤ result }
    ensures most { result ≤ 31 }
{
    let room = slice.before * slice.left.max(1);
    let wanted = (slice.work * slice.ahead + room - 1) / room;
    u64::from(q).max(wanted).min(31) as u8
}
