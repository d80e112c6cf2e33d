//! The results of a row of coefficients: products with constants, four at a time.
ghost use Rattle.std.specs.Prelude.{◌≡◌, All, length};
ghost use Rattle.m2v_idct.specs.Block.{nth};
ghost use Rattle.m2v_idct.specs.Inverse.{row};
ghost use Rattle.m2v_idct.specs.Ranges.{Within};
ghost use Rattle.m2v_idct.specs.RowSums.{even_sums, middle_scaled, odd_sums};

use crate::lanes::{
    Fours, in_fours, joined, less_of, middle_rounding, minus, pair, plus, rounding, shifted, times,
    two_pairs,
};
use std::simd::prelude::*;

// The four sums of the even coefficients.
#[inline(always)]
fn even(b: &[i32; 8]) -> i32x4
    requires { All (Within 2048) b.now }
    ensures value { result ≡ even_sums (nth b.now) }
    ensures within { All (Within 1000000000) result }
{
    let f = in_fours(b);
    let k0 = i32x4::from_array([2048, 2048, 2048, 2048]);
    let k4 = i32x4::from_array([2048, -2048, -2048, 2048]);
    let k2 = i32x4::from_array([2676, 1108, -1108, -2676]);
    let k6 = i32x4::from_array([1108, -2676, 2676, -1108]);
    let first = rounding(pair(times(k0, f.c0), times(k4, f.c4)));
    two_pairs(first, pair(times(k2, f.c2), times(k6, f.c6)))
}

// The four sums of the odd coefficients, two of them not yet scaled.
#[inline(always)]
fn odd(b: &[i32; 8]) -> i32x4
    requires { All (Within 2048) b.now }
    ensures value { result ≡ odd_sums (nth b.now) }
{
    let f = in_fours(b);
    let k1 = i32x4::from_array([2841, 3406, 2276, 565]);
    let k3 = i32x4::from_array([2408, -799, -4017, -1609]);
    let k5 = i32x4::from_array([1609, -4017, 799, 2408]);
    let k7 = i32x4::from_array([565, -2276, 3406, -2841]);
    let first = pair(times(k1, f.c1), times(k3, f.c3));
    two_pairs(first, pair(times(k5, f.c5), times(k7, f.c7)))
}

// Scales the two in the middle by 181 / 256: t + (128 - 75 t) / 256 fits 32 bits, which 181 t doesn't.
#[inline(always)]
fn scale_middle(t: i32x4) -> i32x4
    requires len { length t ≡ 4 }
    requires within { All (Within 22000000) t }
    ensures { result ≡ middle_scaled t }
{
    plus(t, shifted(middle_rounding(less_of(t))))
}

// The eight results.
#[inline(always)]
pub fn full_row(b: &[i32; 8]) -> [i32; 8]
    requires { All (Within 2048) b.now }
    ensures { result ≡ row (nth b.now) }
{
    let e = even(b);
    let o = scale_middle(odd(b));
    joined(shifted(plus(e, o)), shifted(minus(e, o)))
}
