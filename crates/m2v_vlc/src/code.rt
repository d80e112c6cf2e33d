//! The code of each value, as a number and its bits (Annex B).
ghost use Rattle.std.specs.Prelude.{◌≡◌, ◌^◌, ◌<◌, ◌≤◌, if◌then◌else◌};
ghost use Rattle.m2v_vlc.specs.Lookups.{code_in, spelled};
ghost use Rattle.m2v_vlc.specs.Tables.{block_pattern, dc_chroma_code, dc_luma_code, dmv, dmv_code, increment, increment_code, motion, motion_code, pattern_code, type_b_code, type_i_code, type_p_code};
ghost use Rattle.m2v_vlc.specs.Values.{flags};
ghost use Rattle.m2v_vlc.specs.Coefficients.{coefficient_one_code, coefficient_zero_code, first_zero_code};
ghost use Rattle.m2v_vlc.specs.Places.{coefficient_place, pair_place};

use crate::increment_rows::INCREMENT_ROWS;
use crate::kind_rows::{TYPE_B_ROW, TYPE_B_ROWS, TYPE_I_ROW, TYPE_I_ROWS, TYPE_P_ROW, TYPE_P_ROWS};
use crate::motion_rows::{DMV_ROWS, MOTION_ROWS};
use crate::one_rows::ONE_ROWS;
use crate::pattern_rows::PATTERN_ROWS;
use crate::rows::{Code, at, row_code};
use crate::size_rows::{CHROMA_ROWS, LUMA_ROWS};
use crate::values::{Coefficient, Increment, MbType};
use crate::zero_rows::ZERO_ROWS;

/// The row of the value in table B.1, 255 for none.
#[inline(always)]
fn increment_row(value: Increment) -> u8
    ensures { code_in increment result ≡ increment_code value }
{
    match value {
        Increment::Step(n) => { if n == 0 || n > 33 { 255 } else { n - 1 } }
        Increment::Escape => 33,
    }
}

/// The code of the value in table B.1, of no bits where there is none.
#[inline(always)]
pub fn code_increment(value: Increment) -> Code
    ensures spelled { spelled result ≡ increment_code value }
    ensures width { result.len ≤ 17 }
    ensures fits { result.number < 2 ^ result.len }
{
    row_code(&INCREMENT_ROWS, increment_row(value))
}

/// A flag as a number.
#[inline(always)]
fn weight(flag: bool, n: u32) -> u32
    ensures { result ≡ (if flag then n else 0) }
{
    if flag { n } else { 0 }
}

/// The flags of a type as a number: 16 for quant, 8 for forward, 4 for backward, 2 for pattern, 1 for intra.
#[inline(always)]
fn flags_of(value: MbType) -> u32
    ensures value { result ≡ flags value }
    ensures below { result < 32 }
{
    weight(value.quant, 16)
        + weight(value.forward, 8)
        + weight(value.backward, 4)
        + weight(value.pattern, 2)
        + weight(value.intra, 1)
}

/// The code of the type in table B.2, of no bits where there is none.
#[inline(always)]
pub fn code_type_i(value: MbType) -> Code
    ensures spelled { spelled result ≡ type_i_code value }
    ensures width { result.len ≤ 17 }
    ensures fits { result.number < 2 ^ result.len }
{
    row_code(&TYPE_I_ROWS, at(&TYPE_I_ROW, flags_of(value)))
}

/// The code of the value in table B.3, of no bits where there is none.
#[inline(always)]
pub fn code_type_p(value: MbType) -> Code
    ensures spelled { spelled result ≡ type_p_code value }
    ensures width { result.len ≤ 17 }
    ensures fits { result.number < 2 ^ result.len }
{
    row_code(&TYPE_P_ROWS, at(&TYPE_P_ROW, flags_of(value)))
}

/// The code of the value in table B.4, of no bits where there is none.
#[inline(always)]
pub fn code_type_b(value: MbType) -> Code
    ensures spelled { spelled result ≡ type_b_code value }
    ensures width { result.len ≤ 17 }
    ensures fits { result.number < 2 ^ result.len }
{
    row_code(&TYPE_B_ROWS, at(&TYPE_B_ROW, flags_of(value)))
}

/// The row of the pattern in table B.9, past the rows where there is none.
#[inline(always)]
fn pattern_row(pattern: u8) -> u8
    ensures { code_in block_pattern result ≡ pattern_code pattern }
{
    if pattern == 0 { 255 } else { pattern - 1 }
}

/// The code of the value in table B.9, of no bits where there is none.
#[inline(always)]
pub fn code_pattern(pattern: u8) -> Code
    ensures spelled { spelled result ≡ pattern_code pattern }
    ensures width { result.len ≤ 17 }
    ensures fits { result.number < 2 ^ result.len }
{
    row_code(&PATTERN_ROWS, pattern_row(pattern))
}

/// The row of the motion code in table B.10, 255 for none.
#[inline(always)]
fn motion_row(value: i8) -> u8
    ensures { code_in motion result ≡ motion_code value }
{
    let size = value.unsigned_abs();
    if size > 16 {
        255
    } else if value < 0 {
        16 - size
    } else {
        16 + size
    }
}

/// The row of the dmvector in table B.11, 255 for none.
#[inline(always)]
fn dmv_row(value: i8) -> u8
    ensures { code_in dmv result ≡ dmv_code value }
{
    let size = value.unsigned_abs();
    if size > 1 {
        255
    } else if value < 0 {
        1 - size
    } else {
        1 + size
    }
}

/// The code of the value in table B.10, of no bits where there is none.
#[inline(always)]
pub fn code_motion(value: i8) -> Code
    ensures spelled { spelled result ≡ motion_code value }
    ensures width { result.len ≤ 17 }
    ensures fits { result.number < 2 ^ result.len }
{
    row_code(&MOTION_ROWS, motion_row(value))
}

/// The code of the value in table B.11, of no bits where there is none.
#[inline(always)]
pub fn code_dmv(value: i8) -> Code
    ensures spelled { spelled result ≡ dmv_code value }
    ensures width { result.len ≤ 17 }
    ensures fits { result.number < 2 ^ result.len }
{
    row_code(&DMV_ROWS, dmv_row(value))
}

/// The code of the size in table B.12, of no bits where there is none.
#[inline(always)]
pub fn code_dc_luma(size: u8) -> Code
    ensures spelled { spelled result ≡ dc_luma_code size }
    ensures width { result.len ≤ 17 }
    ensures fits { result.number < 2 ^ result.len }
{
    row_code(&LUMA_ROWS, size)
}

/// The code of the size in table B.13, of no bits where there is none.
#[inline(always)]
pub fn code_dc_chroma(size: u8) -> Code
    ensures spelled { spelled result ≡ dc_chroma_code size }
    ensures width { result.len ≤ 17 }
    ensures fits { result.number < 2 ^ result.len }
{
    row_code(&CHROMA_ROWS, size)
}

/// How many pairs stand before each run, in tables B.14 and B.15 alike, and how many there are.
pub static RUN_START: [u8; 33] = [
    0, 40, 58, 63, 67, 70, 73, 76, 78, 80, 82, 84, 86, 88, 90, 92, 94, 96, 97, 98, 99, 100, 101,
    102, 103, 104, 105, 106, 107, 108, 109, 110, 111,
];

/// The row of a pair, in tables B.14 and B.15 alike, 255 for none.
#[inline(always)]
fn pair_row(run: u8, level: i16) -> u8
    ensures { result ≡ pair_place run level }
{
    let size = level.unsigned_abs();
    if run > 31 || size == 0 {
        return 255;
    }
    let start = at(&RUN_START, run as u32);
    let end = at(&RUN_START, run as u32 + 1);
    if start as u16 + size > end as u16 {
        return 255;
    }
    let row = 2 * (start + size as u8);
    if level < 0 { row + 1 } else { row }
}

/// The row of a coefficient, in tables B.14 and B.15 alike, 255 for none.
#[inline(always)]
fn coefficient_row(value: Coefficient) -> u8
    ensures { result ≡ coefficient_place value }
{
    match value {
        Coefficient::End => 0,
        Coefficient::Escape => 1,
        Coefficient::Pair { run, level } => pair_row(run, level),
    }
}

/// The code of the coefficient in table B.14, of no bits where there is none.
#[inline(always)]
pub fn code_coefficient_zero(value: Coefficient) -> Code
    ensures spelled { spelled result ≡ coefficient_zero_code value }
    ensures width { result.len ≤ 17 }
    ensures fits { result.number < 2 ^ result.len }
{
    row_code(&ZERO_ROWS, coefficient_row(value))
}

/// The code of the coefficient in table B.15, of no bits where there is none.
#[inline(always)]
pub fn code_coefficient_one(value: Coefficient) -> Code
    ensures spelled { spelled result ≡ coefficient_one_code value }
    ensures width { result.len ≤ 17 }
    ensures fits { result.number < 2 ^ result.len }
{
    row_code(&ONE_ROWS, coefficient_row(value))
}

/// The code of a pair at the first place, of no bits where there is none.
#[inline(always)]
fn pair_of(run: u8, level: i16) -> Code
    ensures spelled { spelled result ≡ first_zero_code (Coefficient.Pair run level) }
    ensures width { result.len ≤ 17 }
    ensures fits { result.number < 2 ^ result.len }
{
    if run == 0 && level == 1 {
        Code { number: 2, len: 2 }
    } else if run == 0 && level == -1 {
        Code { number: 3, len: 2 }
    } else {
        code_coefficient_zero(Coefficient::Pair { run, level })
    }
}

/// The code by table B.14 of the first coefficient of a block that is not intra, of no bits where there is none.
#[inline(always)]
pub fn code_first_zero(value: Coefficient) -> Code
    ensures spelled { spelled result ≡ first_zero_code value }
    ensures width { result.len ≤ 17 }
    ensures fits { result.number < 2 ^ result.len }
{
    match value {
        Coefficient::End => Code { number: 0, len: 0 },
        Coefficient::Escape => code_coefficient_zero(value),
        Coefficient::Pair { run, level } => pair_of(run, level),
    }
}
