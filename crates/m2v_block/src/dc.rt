ghost use Rattle.std.specs.Prelude.{◌≡◌, ℕ, ◌+◌, ◌-◌, ◌<◌, ◌≤◌, ◌^◌, ◌++◌, ℤ, pos, neg_ℤ, ◌≤ℤ◌, length, unsigned_abs};
ghost use Rattle.m2v_bits.specs.Bits.{bits_of};
ghost use Rattle.m2v_bits.specs.Outputs.{Gains};
ghost use Rattle.m2v_vlc.specs.Lookups.{spelled};
ghost use Rattle.m2v_block.specs.Dc.{dc_text, size_code, size_of, number_of};

use m2v_bits::{BitOutput, BitWriter};
use m2v_vlc::{Code, append_code, code_dc_chroma, code_dc_luma};

/// The size of a DC difference of this magnitude: how many bits its number has.
#[inline(always)]
fn size(magnitude: u32) -> u8
    requires { magnitude < 2 ^ 11 }
    ensures value { result ≡ size_of magnitude }
    ensures most { result < 12 }
    ensures fits { magnitude < 2 ^ result }
{
    let odd = 2 * magnitude + 1;
    (31 - odd.leading_zeros()) as u8
}

/// The code of a size, by table B.12 for luma and table B.13 for chroma.
#[inline(always)]
#[tactic(auto, unfolding(crate::specs::Dc::size_code))]
fn code_of(luma: bool, size: u8) -> Code
    ensures spelled { spelled result ≡ size_code luma size }
    ensures width { result.len ≤ 17 }
    ensures fits { result.number < 2 ^ result.len }
{
    if luma {
        code_dc_luma(size)
    } else {
        code_dc_chroma(size)
    }
}

/// The number of a difference of this size.
#[inline(always)]
fn number_of(size: u8, difference: i32) -> u32
    requires known { size < 12 }
    requires fits { unsigned_abs difference < 2 ^ size }
    ensures value { result ≡ number_of size difference }
    ensures fits { result < 2 ^ size }
{
    let magnitude = difference.unsigned_abs();
    if difference < 0 {
        (1u32 << size) - 1 - magnitude
    } else {
        magnitude
    }
}

/// Appends a DC difference within -2047 to 2047: the code of its size, by table B.12 for luma and table B.13 for
/// chroma, and its number in so many bits (clause 7.2.1).
#[inline(always)]
#[tactic(auto, using(m2v_bits::proofs::Cursor::lengths), unfolding(crate::specs::Dc::dc_text))]
pub fn put_dc<O: BitOutput>(difference: i32, luma: bool, out: &mut O)
    requires range { unsigned_abs difference < 2 ^ 11 }
    requires room { length (dc_text luma difference) ≤ O.space out.old }
    ensures { Gains O.took O.space out.old (dc_text luma difference) out.new }
{
    let size = size(difference.unsigned_abs());
    append_code(code_of(luma, size), out);
    out.append(number_of(size, difference), size);
}

/// How many bits a DC difference within -2047 to 2047 takes.
#[inline(always)]
#[tactic(auto, using(m2v_bits::proofs::Cursor::lengths), unfolding(crate::specs::Dc::dc_text))]
pub fn dc_bits(difference: i32, luma: bool) -> u32
    requires { unsigned_abs difference < 2 ^ 11 }
    ensures value { result ≡ length (dc_text luma difference) }
    ensures most { result < 32 }
{
    let size = size(difference.unsigned_abs());
    u32::from(code_of(luma, size).len) + u32::from(size)
}

/// Appends a DC difference within -2047 to 2047: the code of its size, by table B.12 for luma and table B.13 for
/// chroma, and its number in so many bits (clause 7.2.1).
pub fn write_dc(difference: i32, luma: bool, out: &mut BitWriter)
    requires range { unsigned_abs difference < 2 ^ 11 }
    requires room { length (dc_text luma difference) ≤ out.old.room }
    ensures written { out.new.written ≡ out.old.written ++ dc_text luma difference }
    ensures room { out.new.room + length (dc_text luma difference) ≡ out.old.room }
{
    put_dc(difference, luma, out);
}
