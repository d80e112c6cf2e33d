//! The second half of the forward transform: the sums of a column's numbers, each times a cosine, by two parts of each.
ghost use Rattle.std.specs.Prelude.{ℕ, ◌≡◌, ◌<◌, ◌≢◌, ◌+◌, ◌*◌, All, length, pos, ◌+ℤ◌, ◌-ℤ◌, ◌*ℤ◌};
ghost use Rattle.std.specs.Simd.Lanes.{zip2};
ghost use Rattle.m2v_idct.specs.Block.{at, nth};
ghost use Rattle.m2v_idct.specs.Forward.{projection, rounded};
ghost use Rattle.m2v_idct.specs.ForwardLanes.{all_rounded, eight, evens_of, inner_of, odds_of, outer_of, weighed, woven};
ghost use Rattle.m2v_idct.specs.Ranges.{Within};

use crate::forward_lanes::{added, differences, rounded_lanes, sums, weave, weigh};
use std::simd::prelude::*;

// Line y.
#[inline(always)]
fn line(part: &[i16; 64], y: usize) -> i16x8
    requires y { y < 8 }
    requires within { All (Within 8191) part.now }
    ensures { result ≡ eight (at part.now y) }
{
    i16x8::from_slice(&part[8 * y..8 * y + 8])
}

// Two lines, woven into one.
#[inline(always)]
fn two_lines(part: &[i16; 64], y: usize, z: usize) -> i16x16
    requires y { y < 8 }
    requires z { z < 8 }
    requires within { All (Within 8191) part.now }
    ensures value { result ≡ woven (at part.now y) (at part.now z) }
    ensures within { All (Within 8191) result }
{
    weave(line(part, y), line(part, z))
}

// Of the columns' even parts the even and the odd part again, and of their odd parts the outer and the inner lines. Each
// is two lines, woven into one.
#[derive(Clone, Copy)]
struct Folded {
    even: i16x16,
    odd: i16x16,
    outer: i16x16,
    inner: i16x16,
}

#[inline(always)]
fn fold_columns(part: &[i16; 64]) -> Folded
    requires { All (Within 8191) part.now }
    ensures even { result.even ≡ evens_of (at part.now) }
    ensures odd { result.odd ≡ odds_of (at part.now) }
    ensures outer { result.outer ≡ outer_of (at part.now) }
    ensures inner { result.inner ≡ inner_of (at part.now) }
{
    let a = two_lines(part, 0, 1);
    let b = two_lines(part, 7, 6);
    let c = two_lines(part, 3, 2);
    let d = two_lines(part, 4, 5);
    let outer = sums(a, b);
    let inner = sums(c, d);
    Folded {
        even: sums(outer, inner),
        odd: differences(outer, inner),
        outer: differences(a, b),
        inner: differences(c, d),
    }
}

// A line of coefficients with cosines that are the same from both ends, of either even part.
#[inline(always)]
fn even_line(high: i16x16, low: i16x16, a: i16, b: i16) -> i32x8
    requires high_len { length high ≡ 16 }
    requires low_len { length low ≡ 16 }
    requires high { All (Within 32767) high }
    requires low { All (Within 32767) low }
    requires a { Within 4096 a }
    requires b { Within 4096 b }
    ensures value { result ≡ all_rounded (weighed high a b) (weighed low a b) }
    ensures within { All (Within 600000000) result }
{
    rounded_lanes(weigh(high, a, b), weigh(low, a, b))
}

// Of the odd parts of the columns, each line times its cosine.
#[inline(always)]
fn odd_sums(x: Folded, a: i16, b: i16, c: i16, d: i16) -> i32x8
    requires outer_len { length x.outer ≡ 16 }
    requires inner_len { length x.inner ≡ 16 }
    requires outer { All (Within 32767) x.outer }
    requires inner { All (Within 32767) x.inner }
    requires a { Within 4096 a }
    requires b { Within 4096 b }
    requires c { Within 4096 c }
    requires d { Within 4096 d }
    ensures value { result ≡ zip2 (λ y z. y +ℤ z) (weighed x.outer a b) (weighed x.inner d c) }
    ensures within { All (Within 536870912) result }
{
    added(weigh(x.outer, a, b), weigh(x.inner, d, c))
}

// Writes line v.
#[inline(always)]
fn put_line(out: &mut [i32; 64], v: usize, x: i32x8)
    requires v { v < 8 }
    requires len { length x ≡ 8 }
    requires within { All (Within 600000000) x }
    ensures row { (k : ℕ) → k < 8 → nth out.new (8 * v + k) ≡ nth x k }
    ensures rest { (i : ℕ) → ((k : ℕ) → k < 8 → i ≢ 8 * v + k) → nth out.new i ≡ nth out.old i }
{
    x.copy_to_slice(&mut out[8 * v..8 * v + 8]);
}

// A line of coefficients with cosines that change their signs.
#[inline(always)]
fn odd_line(high: Folded, low: Folded, a: i16, b: i16, c: i16, d: i16) -> i32x8
    requires high_outer_len { length high.outer ≡ 16 }
    requires high_inner_len { length high.inner ≡ 16 }
    requires low_outer_len { length low.outer ≡ 16 }
    requires low_inner_len { length low.inner ≡ 16 }
    requires high_outer { All (Within 32767) high.outer }
    requires high_inner { All (Within 32767) high.inner }
    requires low_outer { All (Within 32767) low.outer }
    requires low_inner { All (Within 32767) low.inner }
    requires a { Within 4096 a }
    requires b { Within 4096 b }
    requires c { Within 4096 c }
    requires d { Within 4096 d }
    ensures value { result ≡ all_rounded
        (zip2 (λ y z. y +ℤ z) (weighed high.outer a b) (weighed high.inner d c))
        (zip2 (λ y z. y +ℤ z) (weighed low.outer a b) (weighed low.inner d c)) }
    ensures within { All (Within 600000000) result }
{
    rounded_lanes(odd_sums(high, a, b, c, d), odd_sums(low, a, b, c, d))
}

// The coefficients, of the two parts of the sums of each line.
#[inline(always)]
pub fn transform_columns(high: &[i16; 64], low: &[i16; 64], out: &mut [i32; 64])
    requires high { All (Within 8191) high.now }
    requires low { All (Within 8191) low.now }
    ensures { (v k : ℕ) → v < 8 → k < 8 → nth out.new (8 * v + k)
        ≡ rounded (projection v (λ y. pos 8192 *ℤ at high.now y k +ℤ at low.now y k)) }
{
    let h = fold_columns(high);
    let l = fold_columns(low);
    put_line(out, 0, even_line(h.even, l.even, 2896, 2896));
    put_line(out, 1, odd_line(h, l, 4017, 3406, 2276, 799));
    put_line(out, 2, even_line(h.odd, l.odd, 3784, 1567));
    put_line(out, 3, odd_line(h, l, 3406, -799, -4017, -2276));
    put_line(out, 4, even_line(h.even, l.even, 2896, -2896));
    put_line(out, 5, odd_line(h, l, 2276, -4017, 799, 3406));
    put_line(out, 6, even_line(h.odd, l.odd, 1567, -3784));
    put_line(out, 7, odd_line(h, l, 799, -2276, 3406, -4017));
}
