//! The DC level of an intra block (clause 7.2.1 of ISO/IEC 13818-2).
ghost use Rattle.std.specs.Prelude.{◌≡◌, ◌^◌, ◌<◌, ◌≤◌, Bool, true, List, IfOk, IfSome, IsNone, OnErr, Ok};
ghost use Rattle.m2v_bits.specs.Syntax.{Gives};
ghost use Rattle.m2v_bits.specs.Leaves.{bits_at};
ghost use Rattle.m2v_quant.specs.Kinds.{IsLevel};
ghost use Rattle.m2v_block.specs.Faults.{cut};
ghost use Rattle.m2v_block.specs.Blocks.{difference, IsDc, is_dc, size_at, dc_at};
ghost use Rattle.m2v_block.specs.Reading.{ReadsDc};

use crate::fault::BlockFault;
use crate::fault::BlockFault::{Code, DcRange};
use m2v_bits::{BitReader, check, number};
use m2v_vlc::CodeFault::Truncated;
use m2v_vlc::{read_dc_chroma, read_dc_luma};

/// The size of a DC difference, by table B.12 for luma and table B.13 for chroma.
#[inline(always)]
#[tactic(auto, unfolding(crate::specs::Blocks::size_at, m2v_bits::specs::Syntax::choose, m2v_bits::specs::Syntax::renamed))]
fn size(input: &mut BitReader, luma: bool) -> Result<u8, BlockFault>
    ensures exact { Gives result input.new.rest ((size_at luma).read input.old.rest) }
    ensures text { input.new.text ≡ input.old.text }
    ensures same { OnErr result (input.new ≡ input.old) }
    ensures size { IfOk result (λ v. v < 12) }
{
    if luma {
        Ok(read_dc_luma(input)?)
    } else {
        Ok(read_dc_chroma(input)?)
    }
}

/// The difference that a size and so many bits mean.
#[inline(always)]
#[tactic(auto, using(crate::proofs::Ranges::power_most))]
fn difference(size: u8, bits: u32) -> i32
    requires size { size < 12 }
    requires bits { bits < 2 ^ size }
    ensures value { result ≡ difference size bits }
    ensures within { IsLevel result }
{
    // a size of 0 has no bits, and goes by the second case
    if 2 * bits >= 1 << size {
        bits as i32
    } else {
        (bits as i32 + 1) - (1 << size)
    }
}

/// Whether a DC level is in its range.
#[inline(always)]
#[tactic(auto, unfolding(crate::specs::Blocks::is_dc))]
fn is_dc(precision: u8, level: i32) -> bool
    requires { precision ≤ 3 }
    ensures value { result ≡ is_dc precision level }
    ensures held { result ≡ true → IsDc precision level }
{
    level >= 0 && level < 1 << (8 + precision)
}

/// Reads the size of a DC difference and its bits by one look, well before the end of the bits.
#[inline(always)]
fn quick_sized(input: &mut BitReader, luma: bool) -> Option<(u8, u32)>
    ensures read { IfSome result (λ x. (mid : List Bool)
        × ((size_at luma).read input.old.rest ≡ Ok (x.0, mid))
        × ((bits_at cut x.0).read mid ≡ Ok (x.1, input.new.rest))) }
    ensures size { IfSome result (λ x. x.0 < 12) }
    ensures bits { IfSome result (λ x. x.1 < 2 ^ x.0) }
    ensures here { IsNone result → input.new ≡ input.old }
    ensures text { input.new.text ≡ input.old.text }
{
    // a size has at most ten bits, and a difference eleven
    let look = input.peek_inside(21)?;
    let from = input.place();
    let Ok(size) = size(input, luma) else {
        return None;
    };
    let used = (input.place() - from) as u8;
    let bits = (look >> (21 - used - size)) % (1 << size);
    input.skip(size);
    Some((size, bits))
}

/// Reads the DC level of an intra block by one look, where one in its range stands well before the end of the bits.
#[inline(always)]
fn quick_dc(input: &mut BitReader, luma: bool, precision: u8, predictor: i32) -> Option<i32>
    requires precision { precision ≤ 3 }
    requires predictor { IsDc precision predictor }
    ensures read { IfSome result (λ level. (dc_at luma precision predictor).read input.old.rest
        ≡ Ok (level, input.new.rest)) }
    ensures here { IsNone result → input.new ≡ input.old }
    ensures text { input.new.text ≡ input.old.text }
    ensures range { IfSome result (λ level. IsDc precision level) }
{
    let start = input.fork();
    let (size, bits) = quick_sized(input, luma)?;
    let level = predictor + difference(size, bits);
    if !is_dc(precision, level) {
        *input = start;
        return None;
    }
    Some(level)
}

/// Reads the DC level of an intra block element by element.
#[cold]
#[inline(never)]
#[tactic(auto, unfolding(crate::specs::Blocks::dc_at, m2v_bits::specs::Syntax::seq, m2v_bits::specs::Syntax::bind, m2v_bits::specs::Syntax::here, m2v_bits::specs::Syntax::rule, m2v_bits::specs::Syntax::done))]
fn far_dc(
    input: &mut BitReader,
    luma: bool,
    precision: u8,
    predictor: i32,
) -> Result<i32, BlockFault>
    requires precision { precision ≤ 3 }
    requires predictor { IsDc precision predictor }
    ensures { ReadsDc luma precision predictor input.old input.new result }
{
    let start = input.fork();
    let size = size(input, luma)?;
    let bits = number(input, size, Code(Truncated))?;
    let level = predictor + difference(size, bits);
    check(input, &start, is_dc(precision, level), DcRange)?;
    Ok(level)
}

/// Reads the DC level of an intra block: by one look in most cases.
#[inline(always)]
pub fn dc(
    input: &mut BitReader,
    luma: bool,
    precision: u8,
    predictor: i32,
) -> Result<i32, BlockFault>
    requires precision { precision ≤ 3 }
    requires predictor { IsDc precision predictor }
    ensures { ReadsDc luma precision predictor input.old input.new result }
{
    if let Some(level) = quick_dc(input, luma, precision, predictor) {
        return Ok(level);
    }
    far_dc(input, luma, precision, predictor)
}
