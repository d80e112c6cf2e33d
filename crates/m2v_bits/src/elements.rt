ghost use Rattle.std.specs.Prelude.{◌≡◌, ◌<◌, ◌≤◌, ◌^◌, IfOk, length, true};
ghost use Rattle.m2v_bits.specs.Syntax.{rule, Gives};
ghost use Rattle.m2v_bits.specs.Leaves.{bits_at};
ghost use Rattle.m2v_bits.specs.Elements.{flag_at};

use crate::reader::BitReader;

/// Reads a number of n bits, 32 at most, the highest first (mnemonic uimsbf, clause 4.6 of ISO/IEC 13818-2).
///
/// # Errors
/// `cut` where fewer bits are left; the reader stays.
#[inline(always)]
#[tactic(auto, unfolding(crate::specs::Leaves::bits_at))]
pub fn number<F: Copy>(input: &mut BitReader, n: u8, cut: F) -> Result<u32, F>
    requires { n ≤ 32 }
    ensures exact { Gives result input.new.rest ((bits_at cut n).read input.old.rest) }
    ensures text { input.new.text ≡ input.old.text }
    ensures below { IfOk result (λ v. v < 2 ^ n) }
{
    match input.take(n) {
        Some(v) => Ok(v),
        None => Err(cut),
    }
}

/// Reads a flag of one bit.
///
/// # Errors
/// `cut` where no bit is left.
#[inline(always)]
#[tactic(auto, unfolding(crate::specs::Elements::flag_at, crate::specs::Syntax::seq, crate::specs::Syntax::bind, crate::specs::Syntax::done))]
pub fn flag<F: Copy>(input: &mut BitReader, cut: F) -> Result<bool, F>
    ensures exact { Gives result input.new.rest ((flag_at cut).read input.old.rest) }
    ensures text { input.new.text ≡ input.old.text }
{
    let bit = number(input, 1, cut)?;
    Ok(bit == 1)
}

/// A rule about the element that began at `start`.
///
/// # Errors
/// `fault` where the rule doesn't hold; the reader goes back to `start`.
#[inline(always)]
#[tactic(auto, unfolding(crate::specs::Syntax::rule))]
pub fn check<'a, F: Copy>(
    input: &mut BitReader<'a>,
    start: &BitReader<'a>,
    holds: bool,
    fault: F,
) -> Result<(), F>
    requires { start.now.text ≡ input.old.text }
    ensures exact { Gives result input.new.rest
        ((rule holds fault (length start.now.rest)).read input.old.rest) }
    ensures held { IfOk result (λ done. holds ≡ true) }
    ensures text { input.new.text ≡ input.old.text }
{
    if holds {
        return Ok(());
    }
    *input = start.fork();
    Err(fault)
}
