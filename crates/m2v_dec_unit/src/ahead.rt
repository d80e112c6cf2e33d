ghost use Rattle.std.specs.Prelude.{◌≡◌, ◌+◌, ◌<◌, ◌≤◌, ◌^◌, IfOk, IfErr, IfSome, true, false, length};
ghost use Rattle.m2v_bits.specs.Leaves.{bits_at, end_at};
ghost use Rattle.m2v_model.specs.declared.fault.FaultKind.TheVariants.{Truncated, Forbidden};
ghost use Rattle.m2v_model.specs.Looking.{number_from, looking};
ghost use Rattle.m2v_model.specs.Stops.{Tells};

use m2v_bits::BitReader;
use m2v_model::{FaultKind, Stop, stopped};

/// The number of n bits that stands some bits on, where the unit has it. Nothing is taken.
#[tactic(auto, using(m2v_bits::proofs::Cursor::lengths), unfolding(m2v_model::specs::Looking::number_from))]
pub fn look(input: &BitReader, from: u8, n: u8) -> Option<u32>
    requires { n ≤ 32 }
    ensures value { result ≡ number_from from n input.now.rest }
    ensures below { IfSome result (λ v. v < 2 ^ n) }
{
    if input.left() < u64::from(from) + u64::from(n) {
        return None;
    }
    let mut ahead = input.fork();
    ahead.skip(from);
    Some(ahead.peek(n))
}

/// How many bits of the unit are left: the place of the header's first element.
pub fn left_of(input: &BitReader) -> u64
    ensures value { result ≡ length input.now.rest }
    ensures within { result ≤ length input.now.text }
{
    // what is left is not more than the whole text
    let _place = input.place();
    input.left()
}

/// A rule on an element at which so many bits are left.
pub fn check(holds: bool, kind: FaultKind, left: u64) -> Result<(), Stop>
    ensures held { IfOk result (λ done. holds ≡ true) }
    ensures broken { IfErr result (λ e. (holds ≡ false)
        × (e ≡ record { kind = kind; left = left })) }
{
    if holds {
        return Ok(());
    }
    Err(Stop { kind, left })
}

/// The zero bits behind a header's last element, up to the unit's end.
#[tactic(auto, unfolding(m2v_bits::specs::Leaves::end_at))]
pub fn end(input: &mut BitReader) -> Result<(), Stop>
    ensures exact { Tells result input.new.rest ((end_at Forbidden).read input.old.rest) }
    ensures left { IfErr result (λ e. e.left ≤ length input.old.text) }
{
    // what is left is not more than the whole text
    let _place = input.place();
    if input.rest_is_zero() {
        input.finish();
        return Ok(());
    }
    Err(Stop {
        kind: FaultKind::Forbidden,
        left: input.left_from_one(),
    })
}

/// The id with which an extension begins (clause 6.3.4). Nothing is taken.
#[tactic(auto, unfolding(m2v_model::specs::Looking::looking, m2v_bits::specs::Leaves::bits_at))]
pub fn id_ahead(input: &BitReader) -> Result<u32, Stop>
    ensures exact { Tells result input.now.rest
        ((looking (bits_at Truncated 4)).read input.now.rest) }
    ensures left { IfErr result (λ e. e.left ≤ length input.now.text) }
    ensures below { IfOk result (λ id. id < 2 ^ 4) }
{
    let mut ahead = input.fork();
    match ahead.take(4) {
        Some(id) => Ok(id),
        None => Err(stopped(input, FaultKind::Truncated)),
    }
}
