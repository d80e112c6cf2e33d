//! Escapes: a run in six bits and a level in twelve (clause 7.2.2.3 of ISO/IEC 13818-2).
ghost use Rattle.std.specs.Prelude.{◌≡◌, ◌≢◌, ◌^◌, ◌<◌, IsNone, pos, true};
ghost use Rattle.m2v_quant.specs.Kinds.{IsLevel};
ghost use Rattle.m2v_block.specs.Blocks.{escaped, is_allowed};
ghost use Rattle.m2v_block.specs.Reading.{IsFilled, LooksPair};

use crate::quick::set;
use m2v_bits::BitReader;
use m2v_quant::SparseLevels;

/// Whether an escape's level is neither 0 nor -2048.
#[inline(always)]
#[tactic(auto, unfolding(crate::specs::Blocks::is_allowed))]
pub fn is_allowed(n: u32) -> bool
    ensures { result ≡ is_allowed n }
{
    n != 0 && n != 2048
}

/// The level behind an escape.
#[inline(always)]
#[tactic(auto, unfolding(crate::specs::Blocks::escaped, crate::specs::Blocks::is_allowed))]
pub fn escaped(n: u32) -> i32
    requires below { n < 2 ^ 12 }
    requires allowed { is_allowed n ≡ true }
    ensures value { result ≡ escaped n }
    ensures some { result ≢ pos 0 }
    ensures within { IsLevel result }
{
    if n < 2048 { n as i32 } else { n as i32 - 4096 }
}

/// Reads an escaped pair by one look, if one with a level that is allowed stands well before the end of the bits, and its place is
/// inside the block: how many places are filled then.
#[inline(always)]
pub fn quick_escape(
    input: &mut BitReader,
    one: bool,
    filled: usize,
    out: &mut SparseLevels,
) -> Option<usize>
    requires { IsFilled filled out.old.at }
    ensures look { LooksPair one filled out.old.at out.new.at input.old input.new result }
    ensures none { IsNone result → out.new ≡ out.old }
{
    let bits = input.peek_inside(24)?;
    if bits >> 18 != 1 {
        return None;
    }
    let number = bits % 4096;
    if !is_allowed(number) {
        return None;
    }
    let at = filled + (bits / 4096 % 64) as usize;
    if at >= 64 {
        return None;
    }
    set(out, at, escaped(number));
    input.skip(24);
    Some(at + 1)
}
