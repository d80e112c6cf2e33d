//! Bits that tell at which columns of a line a bound lies below a limit.
ghost use Rattle.std.specs.Prelude.{ℕ, ◌≡◌, ◌≢◌, ◌≤◌, ◌<◌, slice_index};
ghost use Rattle.std.specs.Int.{bit_at};
ghost use Rattle.m2v_search.specs.Bounds.{TellBelow};

use std::simd::prelude::*;

/// One bit a bound, the lowest for the first one: 1 where it lies below a limit.
#[inline(always)]
fn bits_below(bounds: &[u16; 32], limit: u32) -> u64
    requires most { (k : ℕ) → k < 32 → slice_index bounds.now k ≤ 65280 }
    ensures { (k : ℕ) → k < 32 → bit_at result k ≡ 0 → limit ≤ slice_index bounds.now k }
{
    let limit = limit.min(65535) as u16;
    u16x32::from_slice(bounds)
        .simd_lt(u16x32::splat(limit))
        .to_bitmask()
}

/// The same bits from a column on, and none before it.
#[inline(always)]
pub fn bits_from(bounds: &[u16; 32], limit: u32, at: u32) -> u64
    requires most { (k : ℕ) → k < 32 → slice_index bounds.now k ≤ 65280 }
    requires at { at ≤ 32 }
    ensures { TellBelow (slice_index bounds.now) limit at result }
{
    bits_below(bounds, limit) & !((1 << at) - 1)
}

/// The first column that has a bit which is 1: far behind all columns where none has.
#[inline(always)]
pub fn first_mark(left: u64) -> u32
    ensures none { (k : ℕ) → k < result → bit_at left k ≡ 0 }
    ensures some { result < 64 → bit_at left result ≡ 1 }
{
    left.trailing_zeros()
}

/// The bits that are left without one of them.
#[inline(always)]
pub fn without(left: u64, at: u32) -> u64
    requires at { at < 64 }
    ensures gone { bit_at result at ≡ 0 }
    ensures others { (k : ℕ) → k < 64 → k ≢ at → bit_at result k ≡ bit_at left k }
{
    left & !(1 << at)
}
