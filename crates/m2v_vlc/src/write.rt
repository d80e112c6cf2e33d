//! The code of each value written, and how many bits it has (Annex B).
ghost use Rattle.std.specs.Prelude.{◌≡◌, ◌+◌, ◌<◌, ◌≤◌, ◌++◌, pos, ◌≤ℤ◌, length};
ghost use Rattle.m2v_vlc.specs.Tables.{dc_chroma_code, dc_luma_code, dmv_code, increment_code, motion_code, pattern_code, type_b_code, type_i_code, type_p_code};
ghost use Rattle.m2v_vlc.specs.Values.{IsIncrement, minus};
ghost use Rattle.m2v_vlc.specs.Coefficients.{coefficient_one_code, coefficient_zero_code, first_zero_code};

use crate::code::{
    code_coefficient_one, code_coefficient_zero, code_dc_chroma, code_dc_luma, code_dmv,
    code_first_zero, code_increment, code_motion, code_pattern, code_type_b, code_type_i,
    code_type_p,
};
use crate::rows::{bits_of_code, put_code};
use crate::values::{Coefficient, Increment, MbType};
use m2v_bits::BitWriter;

/// Writes the code of a step from 1 to 33 or of the escape (table B.1).
#[inline(always)]
pub fn write_increment(value: Increment, out: &mut BitWriter)
    requires known { IsIncrement value }
    requires room { length (increment_code value) ≤ out.old.room }
    ensures written { out.new.written ≡ out.old.written ++ increment_code value }
    ensures room { out.new.room + length (increment_code value) ≡ out.old.room }
{
    put_code(code_increment(value), out);
}

/// Writes the code of a macroblock type in an I picture (table B.2).
#[inline(always)]
pub fn write_type_i(value: MbType, out: &mut BitWriter)
    requires known { 0 < length (type_i_code value) }
    requires room { length (type_i_code value) ≤ out.old.room }
    ensures written { out.new.written ≡ out.old.written ++ type_i_code value }
    ensures room { out.new.room + length (type_i_code value) ≡ out.old.room }
{
    put_code(code_type_i(value), out);
}

/// Writes the code of a macroblock_type of a P picture (table B.3).
#[inline(always)]
pub fn write_type_p(value: MbType, out: &mut BitWriter)
    requires known { 0 < length (type_p_code value) }
    requires room { length (type_p_code value) ≤ out.old.room }
    ensures written { out.new.written ≡ out.old.written ++ type_p_code value }
    ensures room { out.new.room + length (type_p_code value) ≡ out.old.room }
{
    put_code(code_type_p(value), out);
}

/// Writes the code of a macroblock_type of a B picture (table B.4).
#[inline(always)]
pub fn write_type_b(value: MbType, out: &mut BitWriter)
    requires known { 0 < length (type_b_code value) }
    requires room { length (type_b_code value) ≤ out.old.room }
    ensures written { out.new.written ≡ out.old.written ++ type_b_code value }
    ensures room { out.new.room + length (type_b_code value) ≡ out.old.room }
{
    put_code(code_type_b(value), out);
}

/// Writes the code of a coded_block_pattern_420, from 1 to 63 (table B.9).
#[inline(always)]
pub fn write_pattern(pattern: u8, out: &mut BitWriter)
    requires some { 0 < pattern }
    requires known { pattern < 64 }
    requires room { length (pattern_code pattern) ≤ out.old.room }
    ensures written { out.new.written ≡ out.old.written ++ pattern_code pattern }
    ensures room { out.new.room + length (pattern_code pattern) ≡ out.old.room }
{
    put_code(code_pattern(pattern), out);
}

/// Writes the code of a motion_code, from -16 to 16 (table B.10).
#[inline(always)]
pub fn write_motion(value: i8, out: &mut BitWriter)
    requires low { minus 16 ≤ℤ value }
    requires high { value ≤ℤ pos 16 }
    requires room { length (motion_code value) ≤ out.old.room }
    ensures written { out.new.written ≡ out.old.written ++ motion_code value }
    ensures room { out.new.room + length (motion_code value) ≡ out.old.room }
{
    put_code(code_motion(value), out);
}

/// Writes the code of a dmvector, from -1 to 1 (table B.11).
#[inline(always)]
pub fn write_dmv(value: i8, out: &mut BitWriter)
    requires low { minus 1 ≤ℤ value }
    requires high { value ≤ℤ pos 1 }
    requires room { length (dmv_code value) ≤ out.old.room }
    ensures written { out.new.written ≡ out.old.written ++ dmv_code value }
    ensures room { out.new.room + length (dmv_code value) ≡ out.old.room }
{
    put_code(code_dmv(value), out);
}

/// Writes the code of a size from 0 to 11 (table B.12).
#[inline(always)]
pub fn write_dc_luma(size: u8, out: &mut BitWriter)
    requires known { size < 12 }
    requires room { length (dc_luma_code size) ≤ out.old.room }
    ensures written { out.new.written ≡ out.old.written ++ dc_luma_code size }
    ensures room { out.new.room + length (dc_luma_code size) ≡ out.old.room }
{
    put_code(code_dc_luma(size), out);
}

/// Writes the code of a size from 0 to 11 (table B.13).
#[inline(always)]
pub fn write_dc_chroma(size: u8, out: &mut BitWriter)
    requires known { size < 12 }
    requires room { length (dc_chroma_code size) ≤ out.old.room }
    ensures written { out.new.written ≡ out.old.written ++ dc_chroma_code size }
    ensures room { out.new.room + length (dc_chroma_code size) ≡ out.old.room }
{
    put_code(code_dc_chroma(size), out);
}

/// Writes the code of a coefficient by table B.14.
#[inline(always)]
pub fn write_coefficient_zero(value: Coefficient, out: &mut BitWriter)
    requires known { 0 < length (coefficient_zero_code value) }
    requires room { length (coefficient_zero_code value) ≤ out.old.room }
    ensures written { out.new.written ≡ out.old.written ++ coefficient_zero_code value }
    ensures room { out.new.room + length (coefficient_zero_code value) ≡ out.old.room }
{
    put_code(code_coefficient_zero(value), out);
}

/// Writes the code of a coefficient by table B.15.
#[inline(always)]
pub fn write_coefficient_one(value: Coefficient, out: &mut BitWriter)
    requires known { 0 < length (coefficient_one_code value) }
    requires room { length (coefficient_one_code value) ≤ out.old.room }
    ensures written { out.new.written ≡ out.old.written ++ coefficient_one_code value }
    ensures room { out.new.room + length (coefficient_one_code value) ≡ out.old.room }
{
    put_code(code_coefficient_one(value), out);
}

/// Writes the code of a coefficient by table B.14 at the first place of a block that is not intra.
#[inline(always)]
pub fn write_first_zero(value: Coefficient, out: &mut BitWriter)
    requires known { 0 < length (first_zero_code value) }
    requires room { length (first_zero_code value) ≤ out.old.room }
    ensures written { out.new.written ≡ out.old.written ++ first_zero_code value }
    ensures room { out.new.room + length (first_zero_code value) ≡ out.old.room }
{
    put_code(code_first_zero(value), out);
}

/// How many bits the code of an increment has, 0 where table B.1 has none.
#[inline(always)]
pub fn bits_increment(value: Increment) -> u32
    ensures { result ≡ length (increment_code value) }
{
    bits_of_code(code_increment(value))
}

/// How many bits the code of a macroblock type has, 0 where table B.2 has none.
#[inline(always)]
pub fn bits_type_i(value: MbType) -> u32
    ensures { result ≡ length (type_i_code value) }
{
    bits_of_code(code_type_i(value))
}

/// How many bits the code of a macroblock_type of a P picture has, 0 where table B.3 has none.
#[inline(always)]
pub fn bits_type_p(value: MbType) -> u32
    ensures { result ≡ length (type_p_code value) }
{
    bits_of_code(code_type_p(value))
}

/// How many bits the code of a macroblock_type of a B picture has, 0 where table B.4 has none.
#[inline(always)]
pub fn bits_type_b(value: MbType) -> u32
    ensures { result ≡ length (type_b_code value) }
{
    bits_of_code(code_type_b(value))
}

/// How many bits the code of a coded_block_pattern_420 has, 0 where table B.9 has none.
#[inline(always)]
pub fn bits_pattern(pattern: u8) -> u32
    ensures { result ≡ length (pattern_code pattern) }
{
    bits_of_code(code_pattern(pattern))
}

/// How many bits the code of a motion_code has, 0 where table B.10 has none.
#[inline(always)]
pub fn bits_motion(value: i8) -> u32
    ensures { result ≡ length (motion_code value) }
{
    bits_of_code(code_motion(value))
}

/// How many bits the code of a dmvector has, 0 where table B.11 has none.
#[inline(always)]
pub fn bits_dmv(value: i8) -> u32
    ensures { result ≡ length (dmv_code value) }
{
    bits_of_code(code_dmv(value))
}

/// How many bits the code of a size has, 0 where table B.12 has none.
#[inline(always)]
pub fn bits_dc_luma(size: u8) -> u32
    ensures { result ≡ length (dc_luma_code size) }
{
    bits_of_code(code_dc_luma(size))
}

/// How many bits the code of a size has, 0 where table B.13 has none.
#[inline(always)]
pub fn bits_dc_chroma(size: u8) -> u32
    ensures { result ≡ length (dc_chroma_code size) }
{
    bits_of_code(code_dc_chroma(size))
}

/// How many bits the code of a coefficient has by table B.14, 0 where it has none.
#[inline(always)]
pub fn bits_coefficient_zero(value: Coefficient) -> u32
    ensures { result ≡ length (coefficient_zero_code value) }
{
    bits_of_code(code_coefficient_zero(value))
}

/// How many bits the code of a coefficient has by table B.15, 0 where it has none.
#[inline(always)]
pub fn bits_coefficient_one(value: Coefficient) -> u32
    ensures { result ≡ length (coefficient_one_code value) }
{
    bits_of_code(code_coefficient_one(value))
}

/// How many bits the code of a coefficient has by table B.14 at the first place of a block that is not intra, 0 where it has none.
#[inline(always)]
pub fn bits_first_zero(value: Coefficient) -> u32
    ensures { result ≡ length (first_zero_code value) }
{
    bits_of_code(code_first_zero(value))
}
