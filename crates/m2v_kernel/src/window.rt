//! Sums of differences from a place in a window, for a search.
ghost use Rattle.std.specs.Prelude.{◌≡◌, ◌≤◌, ◌<◌, ◌+◌, ◌-◌, ◌*◌, ◌%◌, ◌^◌, ◌↔◌, length, IsNone, IfSome, take, drop};
ghost use Rattle.std.specs.Simd.Lanes.{sum_l};
ghost use Rattle.m2v_kernel.specs.Sums.{sad, lines_at};

use crate::lanes::{far_lanes, plus, total};
use std::simd::prelude::*;

/// Sixteen samples of a window.
#[inline(always)]
fn line_from(window: &[u8], from: usize) -> &[u8]
    requires { from + 16 ≤ length window.now }
    ensures value { result.now ≡ take 16 (drop from window.now) }
    ensures len { length result.now ≡ 16 }
{
    &window[from..from + 16]
}

/// How far four lines of a block lie from four lines of a window, in sixteen sums.
#[inline(always)]
fn four_lanes(block: &[u8], window: &[u8], from: usize, stride: usize) -> u32x16
    requires block { length block.now ≡ 64 }
    requires within { from + 3 * stride + 16 ≤ length window.now }
    ensures len { length result ≡ 16 }
    ensures sum { sum_l result ≡ sad block.now (lines_at 4 window.now from stride) }
    ensures most { sum_l result ≤ 16320 }
{
    let first = far_lanes(&block[0..16], line_from(window, from));
    let second = far_lanes(&block[16..32], line_from(window, from + stride));
    let third = far_lanes(&block[32..48], line_from(window, from + 2 * stride));
    let fourth = far_lanes(&block[48..64], line_from(window, from + 3 * stride));
    plus(plus(first, second), plus(third, fourth))
}

/// How far four lines of a block lie from four lines of a window.
#[inline(always)]
fn four_at(block: &[u8], window: &[u8], from: usize, stride: usize) -> u32
    requires block { length block.now ≡ 64 }
    requires within { from + 3 * stride + 16 ≤ length window.now }
    ensures sum { result ≡ sad block.now (lines_at 4 window.now from stride) }
    ensures most { result ≤ 16320 }
{
    total(four_lanes(block, window, from, stride))
}

/// The same of eight lines, in sixteen sums.
#[inline(always)]
fn eight_lanes(block: &[u8], window: &[u8], from: usize, stride: usize) -> u32x16
    requires block { length block.now ≡ 128 }
    requires within { from + 7 * stride + 16 ≤ length window.now }
    ensures len { length result ≡ 16 }
    ensures sum { sum_l result ≡ sad block.now (lines_at 8 window.now from stride) }
    ensures most { sum_l result ≤ 32640 }
{
    let upper = four_lanes(&block[0..64], window, from, stride);
    let lower = four_lanes(&block[64..128], window, from + 4 * stride, stride);
    plus(upper, lower)
}

/// How far sixteen lines of a block lie from sixteen lines of a window.
#[inline(always)]
fn sixteen_at(block: &[u8], window: &[u8], from: usize, stride: usize) -> u32
    requires block { length block.now ≡ 256 }
    requires within { from + 15 * stride + 16 ≤ length window.now }
    ensures sum { result ≡ sad block.now (lines_at 16 window.now from stride) }
{
    let upper = eight_lanes(&block[0..128], window, from, stride);
    let lower = eight_lanes(&block[128..256], window, from + 8 * stride, stride);
    total(plus(upper, lower))
}

/// A sum, or None where it is at least `limit`.
#[inline(always)]
fn below(sum: u32, limit: u32) -> Option<u32>
    ensures none { IsNone result ↔ (limit ≤ sum) }
    ensures some { IfSome result (λ s. s ≡ sum) }
{
    if sum >= limit { None } else { Some(sum) }
}

/// The sum four lines at a time, which ends where it reaches the limit.
#[inline(always)]
fn fours_until(
    block: &[u8],
    lines: usize,
    window: &[u8],
    place: usize,
    stride: usize,
    limit: u32,
) -> Option<u32>
    requires some { 1 ≤ lines }
    requires few { lines ≤ 16 }
    requires fours { lines % 4 ≡ 0 }
    requires whole { length block.now ≡ 16 * lines }
    requires within { place + (lines - 1) * stride + 16 ≤ length window.now }
    ensures none { IsNone result
        ↔ (limit ≤ sad block.now (lines_at lines window.now place stride)) }
    ensures some { IfSome result (λ s. s ≡ sad block.now (lines_at lines window.now place stride)) }
{
    let mut sum = 0;
    let mut line = 0;
    while line < lines {
        let own = &block[16 * line..16 * line + 64];
        sum += four_at(own, window, line_place(place, line, lines, stride), stride);
        if sum >= limit {
            return None;
        }
        line += 4;
    }
    Some(sum)
}

/// The sum of the absolute differences between a block of `lines` lines of 16 samples and as many lines of a window,
/// the first of them at `place` and each `stride` behind the one before, or None where that sum is at least `limit`.
/// The lines of the block stand one after another; there are 4, 8, 12 or 16. Call it with a constant stride.
#[inline(always)]
pub fn sad_at_until(
    block: &[u8],
    lines: usize,
    window: &[u8],
    place: usize,
    stride: usize,
    limit: u32,
) -> Option<u32>
    requires some { 1 ≤ lines }
    requires few { lines ≤ 16 }
    requires fours { lines % 4 ≡ 0 }
    requires whole { length block.now ≡ 16 * lines }
    requires within { place + (lines - 1) * stride + 16 ≤ length window.now }
    ensures none { IsNone result
        ↔ (limit ≤ sad block.now (lines_at lines window.now place stride)) }
    ensures some { IfSome result (λ s. s ≡ sad block.now (lines_at lines window.now place stride)) }
{
    // a search passes over most places by bounds; of the others few end early, so all lines are summed before the test
    if lines == 16 {
        return below(sixteen_at(block, window, place, stride), limit);
    }
    fours_until(block, lines, window, place, stride, limit)
}

/// Where a line of a window begins, with three more lines behind it.
#[inline(always)]
fn line_place(place: usize, line: usize, lines: usize, stride: usize) -> usize
    requires line { line + 4 ≤ lines }
    requires fits { place + (lines - 1) * stride < 2 ^ 64 }
    ensures value { result ≡ place + line * stride }
    ensures within { result + 3 * stride ≤ place + (lines - 1) * stride }
{
    place + line * stride
}
