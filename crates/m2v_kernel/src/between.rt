//! Sums of differences from a place between the samples of a window, for a search in half samples.
ghost use Rattle.std.specs.Prelude.{◌≡◌, ◌≤◌, ◌+◌, ◌-◌, ◌*◌, ◌⊎◌, length, take, drop};
ghost use Rattle.std.specs.Simd.Lanes.{zip2, sum_l};
ghost use Rattle.m2v_kernel.specs.Sums.{sad, mean, pair, quarter, means_at, quarters_at};

use crate::lanes::{apart_lanes, mean_lanes, plus, quarter_lanes, sixteen, total};
use std::simd::prelude::*;

/// How far a line of a block lies from the means of a line of a window and the one `behind` samples behind it.
#[inline(always)]
fn line_from_means(own: &[u8], window: &[u8], from: usize, behind: usize) -> u32x16
    requires own { length own.now ≡ 16 }
    requires within { from + behind + 16 ≤ length window.now }
    ensures len { length result ≡ 16 }
    ensures sum { sum_l result ≡ sad own.now (zip2 mean (take 16 (drop from window.now))
        (take 16 (drop (from + behind) window.now))) }
    ensures most { sum_l result ≤ 4080 }
{
    let means = mean_lanes(sixteen(window, from), sixteen(window, from + behind));
    apart_lanes(sixteen(own, 0), means)
}

/// The same of four lines.
#[inline(always)]
fn four_from_means(block: &[u8], window: &[u8], from: usize, behind: usize, stride: usize) -> u32x16
    requires block { length block.now ≡ 64 }
    requires within { from + behind + 3 * stride + 16 ≤ length window.now }
    ensures len { length result ≡ 16 }
    ensures sum { sum_l result ≡ sad block.now (means_at 4 window.now from behind stride) }
    ensures most { sum_l result ≤ 16320 }
{
    let first = line_from_means(&block[0..16], window, from, behind);
    let second = line_from_means(&block[16..32], window, from + stride, behind);
    let third = line_from_means(&block[32..48], window, from + 2 * stride, behind);
    let fourth = line_from_means(&block[48..64], window, from + 3 * stride, behind);
    plus(plus(first, second), plus(third, fourth))
}

/// The same of eight lines.
#[inline(always)]
fn eight_from_means(
    block: &[u8],
    window: &[u8],
    from: usize,
    behind: usize,
    stride: usize,
) -> u32x16
    requires block { length block.now ≡ 128 }
    requires within { from + behind + 7 * stride + 16 ≤ length window.now }
    ensures len { length result ≡ 16 }
    ensures sum { sum_l result ≡ sad block.now (means_at 8 window.now from behind stride) }
    ensures most { sum_l result ≤ 32640 }
{
    let upper = four_from_means(&block[0..64], window, from, behind, stride);
    let lower = four_from_means(&block[64..128], window, from + 4 * stride, behind, stride);
    plus(upper, lower)
}

/// The sum of the absolute differences between a block of 8 or 16 lines of 16 samples, which stand one after another, and the
/// means of as many lines of a window, the first of them at `place` and each `stride` behind the one before, and of the
/// samples `behind` them. Call it with constants behind `place`.
#[inline(always)]
pub fn sad_from_means(
    block: &[u8],
    lines: usize,
    window: &[u8],
    place: usize,
    behind: usize,
    stride: usize,
) -> u32
    requires lines { (lines ≡ 8) ⊎ (lines ≡ 16) }
    requires whole { length block.now ≡ 16 * lines }
    requires within { place + behind + (lines - 1) * stride + 16 ≤ length window.now }
    ensures value { result ≡ sad block.now (means_at lines window.now place behind stride) }
{
    // each eight lines are summed up by themselves, so that the processor's own sum of differences is found in both
    let upper = total(eight_from_means(&block[0..128], window, place, behind, stride));
    if lines == 8 {
        return upper;
    }
    let lower = total(eight_from_means(
        &block[128..256],
        window,
        place + 8 * stride,
        behind,
        stride,
    ));
    upper + lower
}

/// How far a line of a block lies from the means of four samples each of a window: two side by side, and the two below
/// them, in the line that stands `stride` behind.
#[inline(always)]
fn line_from_quarters(own: &[u8], window: &[u8], from: usize, stride: usize) -> u32x16
    requires own { length own.now ≡ 16 }
    requires within { from + stride + 17 ≤ length window.now }
    ensures len { length result ≡ 16 }
    ensures sum { sum_l result ≡ sad own.now (zip2 quarter
        (zip2 pair (take 16 (drop from window.now)) (take 16 (drop (from + 1) window.now)))
        (zip2 pair (take 16 (drop (from + stride) window.now))
        (take 16 (drop (from + stride + 1) window.now)))) }
    ensures most { sum_l result ≤ 4080 }
{
    let below = from + stride;
    let quarters = quarter_lanes(
        sixteen(window, from),
        sixteen(window, from + 1),
        sixteen(window, below),
        sixteen(window, below + 1),
    );
    apart_lanes(sixteen(own, 0), quarters)
}

/// The same of four lines.
#[inline(always)]
fn four_from_quarters(block: &[u8], window: &[u8], from: usize, stride: usize) -> u32x16
    requires block { length block.now ≡ 64 }
    requires within { from + 4 * stride + 17 ≤ length window.now }
    ensures len { length result ≡ 16 }
    ensures sum { sum_l result ≡ sad block.now (quarters_at 4 window.now from stride) }
    ensures most { sum_l result ≤ 16320 }
{
    let first = line_from_quarters(&block[0..16], window, from, stride);
    let second = line_from_quarters(&block[16..32], window, from + stride, stride);
    let third = line_from_quarters(&block[32..48], window, from + 2 * stride, stride);
    let fourth = line_from_quarters(&block[48..64], window, from + 3 * stride, stride);
    plus(plus(first, second), plus(third, fourth))
}

/// The same of eight lines.
#[inline(always)]
fn eight_from_quarters(block: &[u8], window: &[u8], from: usize, stride: usize) -> u32x16
    requires block { length block.now ≡ 128 }
    requires within { from + 8 * stride + 17 ≤ length window.now }
    ensures len { length result ≡ 16 }
    ensures sum { sum_l result ≡ sad block.now (quarters_at 8 window.now from stride) }
    ensures most { sum_l result ≤ 32640 }
{
    let upper = four_from_quarters(&block[0..64], window, from, stride);
    let lower = four_from_quarters(&block[64..128], window, from + 4 * stride, stride);
    plus(upper, lower)
}

/// The sum of the absolute differences between a block of 8 or 16 lines of 16 samples, which stand one after another, and the
/// means of four samples each of a window: those of lines, the first of them at `place` and each `stride` behind the one
/// before, those to their right, and the two below them. Call it with a constant stride.
#[inline(always)]
pub fn sad_from_quarters(
    block: &[u8],
    lines: usize,
    window: &[u8],
    place: usize,
    stride: usize,
) -> u32
    requires lines { (lines ≡ 8) ⊎ (lines ≡ 16) }
    requires whole { length block.now ≡ 16 * lines }
    requires within { place + lines * stride + 17 ≤ length window.now }
    ensures value { result ≡ sad block.now (quarters_at lines window.now place stride) }
{
    // each eight lines are summed up by themselves, so that the processor's own sum of differences is found in both
    let upper = total(eight_from_quarters(&block[0..128], window, place, stride));
    if lines == 8 {
        return upper;
    }
    let lower = total(eight_from_quarters(&block[128..256], window, place + 8 * stride, stride));
    upper + lower
}
