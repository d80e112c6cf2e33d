//! Squares of differences of samples.
ghost use Rattle.std.specs.Prelude.{◌≡◌, ℕ, ◌≤◌, ◌<◌, ◌+◌, ◌-◌, true, false, ◌*◌, ◌^◌, cond, length, min, slice_index, sum_by};
ghost use Rattle.std.specs.List.{range_with_len};
ghost use Rattle.std.specs.Simd.Lanes.{sum_l};
ghost use Rattle.m2v_kernel.specs.Sums.{apart};
ghost use Rattle.m2v_choose.specs.Choice.{square_at, squared as squared_of};
ghost use Rattle.m2v_choose.specs.Trials.{block_squared as block_squared_of, uncoded_squared, AreSquares};

use crate::blocks::line_place;
use m2v_pred::Block16;
use m2v_recon::is_coded;
use std::simd::prelude::*;

/// The square of how far two samples lie apart.
#[inline(always)]
fn square(x: u8, y: u8) -> u32
    ensures value { result ≡ apart x y ^ 2 }
    ensures most { result ≤ 65025 }
{
    let far = (x as i32 - y as i32).unsigned_abs();
    far * far
}

/// The squares of eight samples of a line, side by side.
#[inline(always)]
fn eight_squares(source: &Block16, samples: &Block16, from: usize) -> [u32; 8]
    requires within { from + 8 ≤ 384 }
    ensures value { (c : ℕ) → c < 8
        → slice_index result c ≡ square_at source.now.at samples.now.at (from + c) }
    ensures most { (c : ℕ) → c < 8 → slice_index result c ≤ 65025 }
{
    let mut squares = [0; 8];
    for c in 0..8 {
        squares[c] = square(source.at[from + c], samples.at[from + c]);
    }
    squares
}

/// The same as lanes, so that the processor's own sum of products of neighbours is found.
#[inline(always)]
fn eight_lanes(source: &Block16, samples: &Block16, from: usize) -> u32x8
    requires within { from + 8 ≤ 384 }
    ensures len { length result ≡ 8 }
    ensures sum { sum_l result ≡ sum_by (λ c. square_at source.now.at samples.now.at (from + c))
        (range_with_len 0 8) }
    ensures most { sum_l result ≤ 520200 }
{
    u32x8::from_array(eight_squares(source, samples, from))
}

/// The sums of lanes.
#[inline(always)]
fn plus(x: u32x8, y: u32x8) -> u32x8
    requires x { length x ≡ 8 }
    requires y { length y ≡ 8 }
    requires fits { sum_l x + sum_l y < 2 ^ 32 }
    ensures len { length result ≡ 8 }
    ensures sum { sum_l result ≡ sum_l x + sum_l y }
{
    x.strict_add(y)
}

/// The sum of all lanes.
#[inline(always)]
fn total(x: u32x8) -> u32
    requires { sum_l x < 2 ^ 32 }
    ensures { result ≡ sum_l x }
{
    x.strict_reduce_sum()
}

/// The squares of a block's samples. Inlined, so that where its lines lie is known where the block is.
#[inline(always)]
fn lines_squared(source: &Block16, samples: &Block16, dct_field: bool, block: usize) -> u32
    requires block { block < 6 }
    ensures value { result ≡ block_squared_of dct_field source.now.at samples.now.at block }
    ensures most { result ≤ 4161600 }
{
    let mut sums = u32x8::splat(0);
    for line in 0..8 {
        let from = line_place(dct_field, block, line);
        sums = plus(sums, eight_lanes(source, samples, from));
    }
    total(sums)
}

/// The squares of a block's samples.
pub fn block_squared(source: &Block16, samples: &Block16, dct_field: bool, block: usize) -> u32
    requires block { block < 6 }
    ensures value { result ≡ block_squared_of dct_field source.now.at samples.now.at block }
    ensures most { result ≤ 8323200 }
{
    lines_squared(source, samples, dct_field, block)
}

/// The squares of the six blocks of a prediction, by DCT type 0.
#[inline(never)]
pub fn part_squares(source: &Block16, samples: &Block16, out: &mut [u32; 6])
    ensures value { AreSquares false source.now.at samples.now.at out.new }
    ensures most { (b : ℕ) → b < 6 → slice_index out.new b ≤ 4161600 }
{
    *out = [
        lines_squared(source, samples, false, 0),
        lines_squared(source, samples, false, 1),
        lines_squared(source, samples, false, 2),
        lines_squared(source, samples, false, 3),
        lines_squared(source, samples, false, 4),
        lines_squared(source, samples, false, 5),
    ];
}

/// The squares of two blocks less those of one of two others that have the same lines.
#[inline(always)]
fn other_lines(upper: u32, lower: u32, first: u32) -> u32
    requires upper { upper ≤ 4161600 }
    requires lower { lower ≤ 4161600 }
    requires first { first ≤ upper + lower }
    ensures { result ≡ upper + lower - first }
{
    upper + lower - first
}

/// The squares of the six blocks of a prediction by DCT type 1, behind those by DCT type 0: two blocks one above the other have the
/// same lines by either, and chroma blocks are the same.
#[inline(never)]
pub fn part_squares_by_fields(
    source: &Block16,
    samples: &Block16,
    frame: &[u32; 6],
    out: &mut [u32; 6],
)
    requires frame { AreSquares false source.now.at samples.now.at frame.now }
    requires most { (b : ℕ) → b < 6 → slice_index frame.now b ≤ 4161600 }
    ensures { AreSquares true source.now.at samples.now.at out.new }
{
    let left = lines_squared(source, samples, true, 0);
    let right = lines_squared(source, samples, true, 1);
    *out = [
        left,
        right,
        other_lines(frame[0], frame[2], left),
        other_lines(frame[1], frame[3], right),
        frame[4],
        frame[5],
    ];
}

/// The squares of the differences of all samples of a macroblock.
#[inline(never)]
pub fn squared(source: &Block16, samples: &Block16) -> u32
    ensures value { result ≡ squared_of source.now.at samples.now.at }
    ensures most { result ≤ 49939200 }
{
    lines_squared(source, samples, false, 0)
        + lines_squared(source, samples, false, 1)
        + lines_squared(source, samples, false, 2)
        + lines_squared(source, samples, false, 3)
        + lines_squared(source, samples, false, 4)
        + lines_squared(source, samples, false, 5)
}

/// The squares of the blocks that aren't coded.
pub fn uncoded_squares(squares: &[u32; 6], pattern: u8) -> u32
    requires most { (b : ℕ) → b < 6 → slice_index squares.now b ≤ 8323200 }
    ensures value { result ≡ uncoded_squared pattern (slice_index squares.now) }
    ensures most { result ≤ 49939200 }
{
    let mut sum = 0;
    for block in 0..6usize {
        sum += uncoded_square(squares[block], is_coded(pattern, block as u32));
    }
    sum
}

/// The squares of a block that isn't coded, 0 of one that is.
#[inline(always)]
fn uncoded_square(square: u32, coded: bool) -> u32
    ensures { result ≡ cond coded 0 square }
{
    if coded { 0 } else { square }
}

/// The least that six blocks add to a score where they may be coded: of each eight times its squares, or what four bits cost
/// where that is less.
pub fn least_blocks(squares: &[u32; 6], four: u64) -> u64
    requires most { (b : ℕ) → b < 6 → slice_index squares.now b ≤ 8323200 }
    ensures value { result ≡ sum_by (λ b. min (8 * slice_index squares.now b) four)
        (range_with_len 0 6) }
    ensures most { result ≤ 2 ^ 38 }
{
    let mut sum = 0;
    for block in 0..6usize {
        sum += (8 * u64::from(squares[block])).min(four);
    }
    sum
}
