//! Four numbers at a time: the steps of which the inverse transform's rows are made, each on all four lanes.
ghost use Rattle.std.specs.Prelude.{◌≡◌, All, ◌+ℤ◌, ◌-ℤ◌, ◌*ℤ◌, ◌∷◌, [], length, map, neg_ℤ, pos};
ghost use Rattle.std.specs.Int.{int_shr};
ghost use Rattle.std.specs.Simd.Lanes.{zip2};
ghost use Rattle.m2v_idct.specs.Block.{nth};
ghost use Rattle.m2v_idct.specs.Ranges.{Within};
ghost use Rattle.m2v_idct.specs.RowSums.{both_ways, four};

use std::simd::prelude::*;

#[inline(always)]
pub fn plus(x: i32x4, y: i32x4) -> i32x4
    requires x { All (Within 1000000000) x }
    requires y { All (Within 1000000000) y }
    ensures value { result ≡ zip2 (λ a b. a +ℤ b) x y }
    ensures within { All (Within 2000000000) result }
{
    x.strict_add(y)
}

#[inline(always)]
pub fn minus(x: i32x4, y: i32x4) -> i32x4
    requires x { All (Within 1000000000) x }
    requires y { All (Within 1000000000) y }
    ensures value { result ≡ zip2 (λ a b. a -ℤ b) x y }
    ensures within { All (Within 2000000000) result }
{
    x.strict_sub(y)
}

// Constants and coefficients.
#[inline(always)]
pub fn times(constants: i32x4, x: i32x4) -> i32x4
    requires constants { All (Within 4096) constants }
    requires x { All (Within 2048) x }
    ensures value { result ≡ zip2 (λ a b. a *ℤ b) constants x }
    ensures within { All (Within 8388608) result }
{
    constants.strict_mul(x)
}

// A sum of two such products.
#[inline(always)]
pub fn pair(x: i32x4, y: i32x4) -> i32x4
    requires x { All (Within 8388608) x }
    requires y { All (Within 8388608) y }
    ensures value { result ≡ zip2 (λ a b. a +ℤ b) x y }
    ensures within { All (Within 16777216) result }
{
    x.strict_add(y)
}

// A sum of two such sums.
#[inline(always)]
pub fn two_pairs(x: i32x4, y: i32x4) -> i32x4
    requires x { All (Within 17000000) x }
    requires y { All (Within 16777216) y }
    ensures value { result ≡ zip2 (λ a b. a +ℤ b) x y }
    ensures within { All (Within 1000000000) result }
{
    x.strict_add(y)
}

// With the half that rounds.
#[inline(always)]
pub fn rounding(x: i32x4) -> i32x4
    requires { All (Within 16777216) x }
    ensures value { result ≡ zip2 (λ a b. a +ℤ b) x (four (pos 128)) }
    ensures within { All (Within 17000000) result }
{
    x.strict_add(i32x4::from_array([128, 128, 128, 128]))
}

// Drops the low eight bits.
#[inline(always)]
pub fn shifted(x: i32x4) -> i32x4
    requires len { length x ≡ 4 }
    requires within { All (Within 2000000000) x }
    ensures value { result ≡ map (λ a. int_shr a 8) x }
    ensures within { All (Within 1000000000) result }
{
    x >> i32x4::splat(8)
}

// 75 times the two in the middle, with the sign turned.
#[inline(always)]
pub fn less_of(x: i32x4) -> i32x4
    requires { All (Within 22000000) x }
    ensures value { result ≡ zip2 (λ a b. a *ℤ b)
        (pos 0 ∷ neg_ℤ (pos 75) ∷ neg_ℤ (pos 75) ∷ pos 0 ∷ []) x }
    ensures within { All (Within 1650000000) result }
{
    i32x4::from_array([0, -75, -75, 0]).strict_mul(x)
}

// With the half that rounds, of the two in the middle.
#[inline(always)]
pub fn middle_rounding(x: i32x4) -> i32x4
    requires { All (Within 1650000000) x }
    ensures value { result ≡ zip2 (λ a b. a +ℤ b) x (pos 0 ∷ pos 128 ∷ pos 128 ∷ pos 0 ∷ []) }
    ensures within { All (Within 2000000000) result }
{
    x.strict_add(i32x4::from_array([0, 128, 128, 0]))
}

// Each of eight coefficients, four times.
#[derive(Clone, Copy)]
pub struct Fours {
    pub c0: i32x4,
    pub c1: i32x4,
    pub c2: i32x4,
    pub c3: i32x4,
    pub c4: i32x4,
    pub c5: i32x4,
    pub c6: i32x4,
    pub c7: i32x4,
}

#[inline(always)]
pub fn in_fours(b: &[i32; 8]) -> Fours
    requires { All (Within 2048) b.now }
    ensures c0 { result.c0 ≡ four (nth b.now 0) }
    ensures c1 { result.c1 ≡ four (nth b.now 1) }
    ensures c2 { result.c2 ≡ four (nth b.now 2) }
    ensures c3 { result.c3 ≡ four (nth b.now 3) }
    ensures c4 { result.c4 ≡ four (nth b.now 4) }
    ensures c5 { result.c5 ≡ four (nth b.now 5) }
    ensures c6 { result.c6 ≡ four (nth b.now 6) }
    ensures c7 { result.c7 ≡ four (nth b.now 7) }
{
    let all = i32x8::from_array(*b);
    Fours {
        c0: all.swizzle([0, 0, 0, 0]),
        c1: all.swizzle([1, 1, 1, 1]),
        c2: all.swizzle([2, 2, 2, 2]),
        c3: all.swizzle([3, 3, 3, 3]),
        c4: all.swizzle([4, 4, 4, 4]),
        c5: all.swizzle([5, 5, 5, 5]),
        c6: all.swizzle([6, 6, 6, 6]),
        c7: all.swizzle([7, 7, 7, 7]),
    }
}

// Four results from the left, and four from the right.
#[inline(always)]
pub fn joined(left: i32x4, right: i32x4) -> [i32; 8]
    requires left { length left ≡ 4 }
    requires right { length right ≡ 4 }
    requires left_within { All (Within 1000000000) left }
    requires right_within { All (Within 1000000000) right }
    ensures { result ≡ both_ways left right }
{
    left.shuffle(right, [0, 1, 2, 3, 7, 6, 5, 4]).to_array()
}
