//! Each table read at a cursor (Annex B).
ghost use Rattle.std.specs.Prelude.{◌≡◌, ◌-◌, ◌/◌, ◌<◌, ◌≤◌, pos, ◌≤ℤ◌, slice_index, OnErr, IfOk};
ghost use Rattle.m2v_bits.specs.Syntax.{Gives};
ghost use Rattle.m2v_vlc.specs.Codes.{code_at};
ghost use Rattle.m2v_vlc.specs.Lookups.{Points};
ghost use Rattle.m2v_vlc.specs.Tables.{block_pattern, dc_chroma, dc_luma, dmv, increment, motion, type_b, type_i, type_p};
ghost use Rattle.m2v_vlc.specs.Values.{IsIncrement, minus};
ghost use Rattle.m2v_vlc.specs.Coefficients.{IsCoefficient, IsFirst, coefficient_one, coefficient_zero, first_zero};

use crate::increment_rows::{INCREMENT_AT, INCREMENT_ROWS};
use crate::kind_rows::{TYPE_B_AT, TYPE_B_ROWS, TYPE_I_AT, TYPE_I_ROWS, TYPE_P_AT, TYPE_P_ROWS};
use crate::motion_rows::{DMV_AT, DMV_ROWS, MOTION_AT, MOTION_ROWS};
use crate::one_rows::{ONE_BY_9, ONE_BY_13, ONE_BY_17, ONE_ROWS};
use crate::pattern_rows::{PATTERN_AT, PATTERN_ROWS};
use crate::rows::{at, read_row};
use crate::size_rows::{CHROMA_AT, CHROMA_ROWS, LUMA_AT, LUMA_ROWS};
use crate::values::{CodeFault, Coefficient, Increment, MbType};
use crate::zero_rows::{ZERO_BY_9, ZERO_BY_13, ZERO_BY_17, ZERO_ROWS};
use m2v_bits::BitReader;

/// Reads a macroblock_address_increment or a macroblock_escape (clause 6.3.17, table B.1): a step is from 1 to 33.
///
/// Where no code stands there the reader stays.
#[inline(always)]
pub fn read_increment(input: &mut BitReader) -> Result<Increment, CodeFault>
    ensures exact { Gives result input.new.rest
        ((code_at CodeFault.Truncated CodeFault.NoCode increment).read input.old.rest) }
    ensures text { input.new.text ≡ input.old.text }
    ensures same { OnErr result (input.new ≡ input.old) }
    ensures range { IfOk result (λ v. IsIncrement v) }
{
    let i = at(&INCREMENT_AT, input.peek(11));
    read_row(&INCREMENT_ROWS, i, input)
}

/// Reads a macroblock_type of an I picture (clause 6.3.17.1, table B.2).
///
/// Where no code stands there the reader stays.
#[inline(always)]
pub fn read_type_i(input: &mut BitReader) -> Result<MbType, CodeFault>
    ensures exact { Gives result input.new.rest
        ((code_at CodeFault.Truncated CodeFault.NoCode type_i).read input.old.rest) }
    ensures text { input.new.text ≡ input.old.text }
    ensures same { OnErr result (input.new ≡ input.old) }
{
    let i = at(&TYPE_I_AT, input.peek(2));
    read_row(&TYPE_I_ROWS, i, input)
}

/// Reads a macroblock_type of a P picture (clause 6.3.17.1, table B.3).
///
/// Where no code stands there the reader stays.
#[inline(always)]
pub fn read_type_p(input: &mut BitReader) -> Result<MbType, CodeFault>
    ensures exact { Gives result input.new.rest
        ((code_at CodeFault.Truncated CodeFault.NoCode type_p).read input.old.rest) }
    ensures text { input.new.text ≡ input.old.text }
    ensures same { OnErr result (input.new ≡ input.old) }
{
    let i = at(&TYPE_P_AT, input.peek(6));
    read_row(&TYPE_P_ROWS, i, input)
}

/// Reads a macroblock_type of a B picture (clause 6.3.17.1, table B.4).
///
/// Where no code stands there the reader stays.
#[inline(always)]
pub fn read_type_b(input: &mut BitReader) -> Result<MbType, CodeFault>
    ensures exact { Gives result input.new.rest
        ((code_at CodeFault.Truncated CodeFault.NoCode type_b).read input.old.rest) }
    ensures text { input.new.text ≡ input.old.text }
    ensures same { OnErr result (input.new ≡ input.old) }
{
    let i = at(&TYPE_B_AT, input.peek(6));
    read_row(&TYPE_B_ROWS, i, input)
}

/// Reads a coded_block_pattern_420, from 1 to 63 (clause 6.3.17.4, table B.9).
///
/// Where no code stands there the reader stays.
#[inline(always)]
pub fn read_pattern(input: &mut BitReader) -> Result<u8, CodeFault>
    ensures exact { Gives result input.new.rest
        ((code_at CodeFault.Truncated CodeFault.NoCode block_pattern).read input.old.rest) }
    ensures text { input.new.text ≡ input.old.text }
    ensures same { OnErr result (input.new ≡ input.old) }
    ensures pattern { IfOk result (λ v. (0 < v) × (v < 64)) }
{
    let i = at(&PATTERN_AT, input.peek(9));
    read_row(&PATTERN_ROWS, i, input)
}

/// Reads a motion_code, from -16 to 16 (clause 6.3.17.3, table B.10).
///
/// Where no code stands there the reader stays.
#[inline(always)]
pub fn read_motion(input: &mut BitReader) -> Result<i8, CodeFault>
    ensures exact { Gives result input.new.rest
        ((code_at CodeFault.Truncated CodeFault.NoCode motion).read input.old.rest) }
    ensures text { input.new.text ≡ input.old.text }
    ensures same { OnErr result (input.new ≡ input.old) }
    ensures range { IfOk result (λ v. (minus 16 ≤ℤ v) × (v ≤ℤ pos 16)) }
{
    let i = at(&MOTION_AT, input.peek(11));
    read_row(&MOTION_ROWS, i, input)
}

/// Reads a dmvector, from -1 to 1 (clause 6.3.17.3, table B.11).
///
/// Where no code stands there the reader stays.
#[inline(always)]
pub fn read_dmv(input: &mut BitReader) -> Result<i8, CodeFault>
    ensures exact { Gives result input.new.rest
        ((code_at CodeFault.Truncated CodeFault.NoCode dmv).read input.old.rest) }
    ensures text { input.new.text ≡ input.old.text }
    ensures same { OnErr result (input.new ≡ input.old) }
    ensures range { IfOk result (λ v. (minus 1 ≤ℤ v) × (v ≤ℤ pos 1)) }
{
    let i = at(&DMV_AT, input.peek(2));
    read_row(&DMV_ROWS, i, input)
}

/// Reads a dct_dc_size_luminance, from 0 to 11 (clause 7.2.1, table B.12).
///
/// Where no code stands there the reader stays.
#[inline(always)]
pub fn read_dc_luma(input: &mut BitReader) -> Result<u8, CodeFault>
    ensures exact { Gives result input.new.rest
        ((code_at CodeFault.Truncated CodeFault.NoCode dc_luma).read input.old.rest) }
    ensures text { input.new.text ≡ input.old.text }
    ensures same { OnErr result (input.new ≡ input.old) }
    ensures size { IfOk result (λ v. v < 12) }
{
    let i = at(&LUMA_AT, input.peek(9));
    read_row(&LUMA_ROWS, i, input)
}

/// Reads a dct_dc_size_chrominance, from 0 to 11 (clause 7.2.1, table B.13).
///
/// Where no code stands there the reader stays.
#[inline(always)]
pub fn read_dc_chroma(input: &mut BitReader) -> Result<u8, CodeFault>
    ensures exact { Gives result input.new.rest
        ((code_at CodeFault.Truncated CodeFault.NoCode dc_chroma).read input.old.rest) }
    ensures text { input.new.text ≡ input.old.text }
    ensures same { OnErr result (input.new ≡ input.old) }
    ensures size { IfOk result (λ v. v < 12) }
{
    let i = at(&CHROMA_AT, input.peek(10));
    read_row(&CHROMA_ROWS, i, input)
}

/// The row that 17 bits point to, five zero bits first, by a table of 13 bits and one of 17.
#[cold]
#[inline(never)]
fn long_at(by_13: &[u8; 96], by_17: &[u8; 512], p: u32) -> u8
    requires { p < 2048 }
    ensures middle { 512 ≤ p → result ≡ slice_index by_13.now (p / 16 - 32) }
    ensures last { p < 512 → result ≡ slice_index by_17.now p }
{
    if p >= 512 {
        at(by_13, (p >> 4) - 32)
    } else {
        at(by_17, p)
    }
}

/// The row of the coefficient at the reader in table B.14, 255 for none.
#[inline(always)]
fn zero_at(input: &BitReader) -> u8
    ensures { Points coefficient_zero result input.now.rest }
{
    let p = input.peek(17);
    if p >= 2048 {
        at(&ZERO_BY_9, (p >> 8) - 8)
    } else {
        long_at(&ZERO_BY_13, &ZERO_BY_17, p)
    }
}

/// Reads a coefficient, the end of the block or the escape by table B.14 (clause 7.2.2): a run up to 31 and a level
/// within 40 that is not 0.
///
/// Where no code stands there the reader stays.
#[inline(always)]
pub fn read_coefficient_zero(input: &mut BitReader) -> Result<Coefficient, CodeFault>
    ensures exact { Gives result input.new.rest
        ((code_at CodeFault.Truncated CodeFault.NoCode coefficient_zero).read input.old.rest) }
    ensures text { input.new.text ≡ input.old.text }
    ensures same { OnErr result (input.new ≡ input.old) }
    ensures range { IfOk result (λ v. IsCoefficient v) }
{
    let i = zero_at(input);
    read_row(&ZERO_ROWS, i, input)
}

/// The row of the coefficient at the reader in table B.15, 255 for none.
#[inline(always)]
fn one_at(input: &BitReader) -> u8
    ensures { Points coefficient_one result input.now.rest }
{
    let p = input.peek(17);
    if p >= 2048 {
        at(&ONE_BY_9, (p >> 8) - 8)
    } else {
        long_at(&ONE_BY_13, &ONE_BY_17, p)
    }
}

/// Reads a coefficient, the end of the block or the escape by table B.15 (clause 7.2.2): a run up to 31 and a level
/// within 40 that is not 0.
///
/// Where no code stands there the reader stays.
#[inline(always)]
pub fn read_coefficient_one(input: &mut BitReader) -> Result<Coefficient, CodeFault>
    ensures exact { Gives result input.new.rest
        ((code_at CodeFault.Truncated CodeFault.NoCode coefficient_one).read input.old.rest) }
    ensures text { input.new.text ≡ input.old.text }
    ensures same { OnErr result (input.new ≡ input.old) }
    ensures range { IfOk result (λ v. IsCoefficient v) }
{
    let i = one_at(input);
    read_row(&ONE_ROWS, i, input)
}

/// Reads the first coefficient of a block that is not intra, or its escape (clause 7.2.2, table B.14), where run 0 and
/// level 1 have a code of two bits: a run up to 31 and a level within 40 that is not 0.
///
/// Where no code stands there the reader stays.
#[inline(always)]
pub fn read_first_zero(input: &mut BitReader) -> Result<Coefficient, CodeFault>
    ensures exact { Gives result input.new.rest
        ((code_at CodeFault.Truncated CodeFault.NoCode first_zero).read input.old.rest) }
    ensures text { input.new.text ≡ input.old.text }
    ensures same { OnErr result (input.new ≡ input.old) }
    ensures range { IfOk result (λ v. IsFirst v) }
{
    let p = input.peek(2);
    if p < 2 {
        return read_coefficient_zero(input);
    }
    if input.left() < 2 {
        return Err(CodeFault::Truncated);
    }
    input.skip(2);
    if p == 2 {
        Ok(Coefficient::Pair { run: 0, level: 1 })
    } else {
        Ok(Coefficient::Pair { run: 0, level: -1 })
    }
}
