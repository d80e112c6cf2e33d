//! The bounds at the places of a line: how far the sums over the parts of a block lie from those there.
ghost use Rattle.std.specs.Prelude.{ℕ, ◌≡◌, ◌+◌, ◌-◌, ◌*◌, ◌≤◌, ◌<◌, ◌⊎◌, length, slice_index};
ghost use Rattle.m2v_kernel.specs.Sums.{apart};
ghost use Rattle.m2v_search.specs.Bounds.{pair_far, half_far, wide_far, bound_at, AreSumsFor, HasSmall};

use crate::parts::{Halves, Parts};

/// How far two sums lie apart. By signed lanes, of which one operation takes the absolute value.
#[inline(always)]
fn far(one: u16, other: u16) -> u16
    requires one { one ≤ 16320 }
    requires other { other ≤ 16320 }
    ensures value { result ≡ apart one other }
    ensures small { one ≤ 8160 → other ≤ 8160 → result ≤ 8160 }
    ensures most { result ≤ 16320 }
{
    (one as i16 - other as i16).unsigned_abs()
}

/// How far two sums lie from those at a place and four columns behind it.
#[tactic(auto, unfolding(crate::specs::Bounds::pair_far))]
#[inline(always)]
fn pair_far(sums: &[u16], left: u16, right: u16, k: usize) -> u16
    requires len { length sums.now ≡ 48 }
    requires place { k + 4 < 44 }
    requires left_most { slice_index sums.now k ≤ 8160 }
    requires right_most { slice_index sums.now (k + 4) ≤ 8160 }
    requires left { left ≤ 8160 }
    requires right { right ≤ 8160 }
    ensures value { result ≡ pair_far left right (slice_index sums.now) k }
    ensures most { result ≤ 16320 }
{
    far(sums[k], left) + far(sums[k + 4], right)
}

/// The bounds of a block of eight lines: how far the sums over them lie from those at a place.
#[inline(always)]
fn bounds_by_one(sums: &[u16], parts: Parts) -> [u16; 32]
    requires len { length sums.now ≡ 48 }
    requires most { (k : ℕ) → k < 44 → slice_index sums.now k ≤ 8160 }
    requires small { HasSmall parts }
    ensures value { (k : ℕ) → k < 32
        → slice_index result k ≡ half_far parts (slice_index sums.now) k }
    ensures most { (k : ℕ) → k < 32 → slice_index result k ≤ 65280 }
{
    let mut bounds = [0; 32];
    for k in 0..32 {
        bounds[k] = pair_far(sums, parts.first, parts.second, k)
            + pair_far(sums, parts.third, parts.fourth, k + 8);
    }
    bounds
}

/// How far the sums over eight lines and eight columns each, two parts side by side, lie from those at a place.
#[tactic(auto, unfolding(crate::specs::Bounds::wide_far))]
#[inline(always)]
fn wide_far(sums: &[u16], parts: Parts, k: usize) -> u16
    requires len { length sums.now ≡ 48 }
    requires place { k < 32 }
    requires most { (k : ℕ) → k < 40 → slice_index sums.now k ≤ 16320 }
    requires small { HasSmall parts }
    ensures value { result ≡ wide_far parts (slice_index sums.now) k }
    ensures most { result ≤ 32640 }
{
    far(sums[k], parts.first + parts.second) + far(sums[k + 8], parts.third + parts.fourth)
}

/// The bounds of a block of 16 lines.
#[inline(always)]
fn bounds_by_both(upper: &[u16], lower: &[u16], parts: Halves) -> [u16; 32]
    requires len { length upper.now ≡ 48 }
    requires lower_len { length lower.now ≡ 48 }
    requires most { (k : ℕ) → k < 40 → slice_index upper.now k ≤ 16320 }
    requires lower_most { (k : ℕ) → k < 40 → slice_index lower.now k ≤ 16320 }
    requires small { HasSmall parts.upper }
    requires lower_small { HasSmall parts.lower }
    ensures value { (k : ℕ) → k < 32 → slice_index result k
        ≡ wide_far parts.upper (slice_index upper.now) k
        + wide_far parts.lower (slice_index lower.now) k }
    ensures most { (k : ℕ) → k < 32 → slice_index result k ≤ 65280 }
{
    let mut bounds = [0; 32];
    for k in 0..32 {
        bounds[k] = wide_far(upper, parts.upper, k) + wide_far(lower, parts.lower, k);
    }
    bounds
}

/// The sums of a line.
#[inline(always)]
fn line_of(sums: &[u16; 1920], y: usize) -> &[u16]
    requires { y < 40 }
    ensures len { length result.now ≡ 48 }
    ensures value { (k : ℕ) → k < 48
        → slice_index result.now k ≡ slice_index sums.now (48 * y + k) }
{
    let from = 48 * y;
    &sums[from..from + 48]
}

/// Bounds of the differences at 32 places of a line of the window, of which the sums are known: of a block of 16 lines also
/// those eight lines below it. Such a block has four parts of eight columns: with eight of four columns there are twice as
/// many differences to make, and few places less are looked at.
#[inline(always)]
pub fn line_bounds(
    _window: &[u8],
    sums: &[u16; 1920],
    count: usize,
    y: usize,
    parts: Halves,
) -> [u16; 32]
    requires count { (count ≡ 8) ⊎ (count ≡ 16) }
    requires y { y < 32 }
    requires known { AreSumsFor count (slice_index _window.now) y (y + count - 7)
        (slice_index sums.now) }
    requires small { HasSmall parts.upper }
    requires lower_small { HasSmall parts.lower }
    ensures least { (k : ℕ) → k < 32 → slice_index result k
        ≤ bound_at count (slice_index _window.now) parts (48 * y + k) }
    ensures most { (k : ℕ) → k < 32 → slice_index result k ≤ 65280 }
{
    if count == 16 {
        let upper = line_of(sums, y);
        let lower = line_of(sums, y + 8);
        bounds_by_both(upper, lower, parts)
    } else {
        let line = line_of(sums, y);
        bounds_by_one(line, parts.upper)
    }
}
