ghost use Rattle.std.specs.Int.{bit_at, int_shr};
ghost use Rattle.std.specs.Prelude.{◌+ℤ◌, ◌≤ℤ◌, ◌⊎◌, map, replicate, ◌≡◌, ◌<◌, ◌≤◌, ◌+◌, ◌*◌, ◌/◌, ℕ, ◌≢◌, All, IsTrue, ◌∷◌, [], pos, ◌*ℤ◌};
ghost use Rattle.m2v_idct.specs.Block.{at, nth};
ghost use Rattle.m2v_idct.specs.Inverse.{after_rows, clip, column, inverse_at, inverse_of, row};
ghost use Rattle.m2v_idct.specs.Ranges.{IsCoefficient, IsInRows, IsSample, Within};

use crate::block::{column_at, put_column, put_row, row_at};
use crate::combine::combine_terms;
use crate::row_lanes::full_row;
use crate::terms::column_terms;

/// The 64 samples or differences of samples, each clipped to -256 to 255, of a block of coefficients,
/// each from -2048 to 2047, by Annex A of ISO/IEC 13818-2 in the whole numbers of the reference decoder
/// of the MPEG Software Simulation Group. Both blocks hold the top line first, each line from the left.
pub fn inverse(b: &[i32; 64]) -> [i32; 64]
    requires { All IsCoefficient b.now }
    ensures value { result ≡ inverse_of b.now }
    ensures samples { All IsSample result }
{
    let mut block = *b;
    inverse_in_place(&mut block);
    block
}

/// The same, written over the coefficients.
pub fn inverse_in_place(block: &mut [i32; 64])
    requires { All IsCoefficient block.old }
    ensures value { block.new ≡ inverse_of block.old }
    ensures samples { All IsSample block.new }
{
    inverse_unclipped(block);
    clip_all(block);
}

/// The same, for a caller that clamps the sum with a sample: not yet clipped to -256 to 255.
pub fn inverse_unclipped(block: &mut [i32; 64])
    requires { All IsCoefficient block.old }
    ensures value { map clip block.new ≡ inverse_of block.old }
    ensures within { All (Within 30000) block.new }
{
    inverse_by_rows(block, 255);
}

/// The same, for a caller that knows where coefficients stand: bit y of `rows` is 0 only where row y has none other than 0.
pub fn inverse_by_rows(block: &mut [i32; 64], rows: u32)
    requires coefficients { All IsCoefficient block.old }
    requires rows { IsInRows rows block.old }
    ensures value { map clip block.new ≡ inverse_of block.old }
    ensures within { All (Within 30000) block.new }
{
    if has_mean(block, rows) {
        let dc = block[0];
        fill(block, mean(dc));
        return;
    }
    transform_rows(block, rows);
    transform_columns(block);
}

// Clips each number to a sample.
#[inline(always)]
fn clip_all(block: &mut [i32; 64])
    ensures { (k : ℕ) → k < 64 → nth block.new k ≡ clip (nth block.old k) }
{
    for k in 0..64 {
        block[k] = block[k].clamp(-256, 255);
    }
}

// All 64 results are one number: only the mean stands, and perhaps the 1 of mismatch control, which is too small to
// show where the mean isn't near a half.
#[inline(always)]
fn has_mean(block: &[i32; 64], rows: u32) -> bool
    requires coefficients { All IsCoefficient block.now }
    requires rows { IsInRows rows block.now }
    ensures { IsTrue result → (y x : ℕ) → y < 8 → x < 8
        → inverse_at block.now y x ≡ clip (int_shr (nth block.now 0 +ℤ pos 4) 3) }
{
    if !is_middle_empty(rows) {
        return false;
    }
    if !is_small(block[63]) {
        return false;
    }
    if !are_zero(block) {
        return false;
    }
    is_far(block[0], mean(block[0]))
}

#[inline(always)]
fn is_small(z: i32) -> bool
    ensures { IsTrue result → (z ≡ pos 0) ⊎ (z ≡ pos 1) }
{
    z == 0 || z == 1
}

// No row between the first and the last has a coefficient.
#[inline(always)]
fn is_middle_empty(rows: u32) -> bool
    ensures { IsTrue result → (y : ℕ) → 1 ≤ y → y < 7 → bit_at rows y ≡ 0 }
{
    rows / 2 % 64 == 0
}

// All but the first in the first row, and all but the last in the last row, are 0.
#[inline(always)]
fn are_zero(block: &[i32; 64]) -> bool
    ensures { IsTrue result → (j : ℕ) → j < 7
        → (nth block.now (1 + j) ≡ pos 0) × (nth block.now (56 + j) ≡ pos 0) }
{
    let mut bits = 0;
    for j in 0..7 {
        let first = block[1 + j].cast_unsigned();
        let last = block[56 + j].cast_unsigned();
        bits |= first | last;
    }
    bits == 0
}

#[inline(always)]
fn mean(c: i32) -> i32
    requires { Within 2048 c }
    ensures value { result ≡ int_shr (c +ℤ pos 4) 3 }
    ensures low { (pos 8 *ℤ result) ≤ℤ (c +ℤ pos 4) }
    ensures high { (c +ℤ pos 4) ≤ℤ (pos 8 *ℤ result +ℤ pos 7) }
    ensures within { Within 30000 result }
{
    (c + 4) >> 3
}

// The mean is a fourth away from where its rounding changes.
#[inline(always)]
fn is_far(c: i32, mean: i32) -> bool
    requires c { Within 2048 c }
    requires low { (pos 8 *ℤ mean) ≤ℤ (c +ℤ pos 4) }
    requires high { (c +ℤ pos 4) ≤ℤ (pos 8 *ℤ mean +ℤ pos 7) }
    ensures low { IsTrue result → (pos 8 *ℤ mean +ℤ pos 2) ≤ℤ (c +ℤ pos 4) }
    ensures high { IsTrue result → (c +ℤ pos 4) ≤ℤ (pos 8 *ℤ mean +ℤ pos 6) }
{
    let rest = c + 4 - 8 * mean;
    rest >= 2 && rest <= 6
}

#[inline(always)]
fn fill(block: &mut [i32; 64], value: i32)
    requires { Within 30000 value }
    ensures value { block.new ≡ replicate 64 value }
    ensures within { All (Within 30000) block.new }
{
    *block = [value; 64];
}

// Goes from one row that has a coefficient to the next. Most have none, and no result.
#[inline(always)]
fn transform_rows(block: &mut [i32; 64], rows: u32)
    requires coefficients { All IsCoefficient block.old }
    requires rows { IsInRows rows block.old }
    ensures { (y x : ℕ) → y < 8 → x < 8 → nth block.new (8 * y + x) ≡ after_rows block.old y x }
{
    let mut left = rows % 256;
    while left != 0 {
        let y = first_row(left);
        transform_row(block, y);
        left = without(left, y);
    }
}

// The first of some rows.
#[inline(always)]
fn first_row(rows: u32) -> usize
    requires some { 0 < rows }
    requires below { rows < 256 }
    ensures below { result < 8 }
    ensures here { bit_at rows result ≡ 1 }
{
    rows.trailing_zeros() as usize
}

// Some rows without one of them.
#[inline(always)]
fn without(rows: u32, y: usize) -> u32
    requires below { rows < 256 }
    requires y { y < 8 }
    requires here { bit_at rows y ≡ 1 }
    ensures less { result < rows }
    ensures gone { bit_at result y ≡ 0 }
    ensures others { (i : ℕ) → i < 8 → i ≢ y → bit_at result i ≡ bit_at rows i }
{
    rows & !(1 << y)
}

// Puts the results of line y in its place.
#[inline(always)]
fn transform_row(block: &mut [i32; 64], y: usize)
    requires y { y < 8 }
    requires within { (k : ℕ) → k < 8 → Within 2048 (at block.old y k) }
    ensures row { (k : ℕ) → k < 8 → nth block.new (8 * y + k) ≡ after_rows block.old y k }
    ensures rest { (i : ℕ) → ((k : ℕ) → k < 8 → i ≢ 8 * y + k) → nth block.new i ≡ nth block.old i }
{
    let coefficients = row_at(block, y);
    put_row(block, y, &full_row(&coefficients));
}

#[inline(always)]
fn transform_columns(block: &mut [i32; 64])
    requires { All (Within 160000) block.old }
    ensures { (y x : ℕ) → y < 8 → x < 8
        → nth block.new (8 * y + x) ≡ nth (column (λ k. at block.old k x)) y }
{
    for x in 0..8 {
        transform_column(block, x);
    }
}

// Puts the results of column x in its place.
#[inline(always)]
fn transform_column(block: &mut [i32; 64], x: usize)
    requires x { x < 8 }
    requires within { (k : ℕ) → k < 8 → Within 160000 (at block.old k x) }
    ensures column { (k : ℕ) → k < 8 → nth block.new (8 * k + x)
        ≡ nth (column (λ j. at block.old j x)) k }
    ensures rest { (i : ℕ) → ((k : ℕ) → k < 8 → i ≢ 8 * k + x) → nth block.new i ≡ nth block.old i }
{
    let left = column_at(block, x);
    put_column(block, x, &column_results(&left));
}

#[inline(always)]
fn column_results(c: &[i32; 8]) -> [i32; 8]
    requires { All (Within 160000) c.now }
    ensures { result ≡ column (nth c.now) }
{
    combine_terms(&column_terms(c), 14)
}
