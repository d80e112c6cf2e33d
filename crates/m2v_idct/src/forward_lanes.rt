//! The steps of which the forward transform is made, each on all lanes: 16 bits hold what is multiplied, and 32 the sums
//! of the products of neighbours.
ghost use Rattle.std.specs.Prelude.{◌≡◌, ◌-◌, All, ◌∷◌, [], ◌+ℤ◌, ◌-ℤ◌, ◌*ℤ◌, length, map, pos};
ghost use Rattle.std.specs.Int.{int_shr};
ghost use Rattle.std.specs.Simd.Lanes.{zip2};
ghost use Rattle.m2v_idct.specs.Block.{nth};
ghost use Rattle.m2v_idct.specs.ForwardLanes.{all_rounded, eight, folded, four_times, high_of, low_of, neighbours, weighed, woven};
ghost use Rattle.m2v_idct.specs.Ranges.{Within};

use std::simd::prelude::*;

// A number of either line in turn, so that those which are multiplied and added are neighbours.
#[inline(always)]
pub fn weave(x: i16x8, y: i16x8) -> i16x16
    requires x { length x ≡ 8 }
    requires y { length y ≡ 8 }
    requires x_within { All (Within 8191) x }
    requires y_within { All (Within 8191) y }
    ensures { result ≡ woven (nth x) (nth y) }
{
    x.shuffle(y, [0, 8, 1, 9, 2, 10, 3, 11, 4, 12, 5, 13, 6, 14, 7, 15])
}

// Lines that are woven, each plus another.
#[inline(always)]
pub fn sums(x: i16x16, y: i16x16) -> i16x16
    requires x { All (Within 16383) x }
    requires y { All (Within 16383) y }
    ensures { result ≡ zip2 (λ a b. a +ℤ b) x y }
{
    x.strict_add(y)
}

// Lines that are woven, each less another.
#[inline(always)]
pub fn differences(x: i16x16, y: i16x16) -> i16x16
    requires x { All (Within 16383) x }
    requires y { All (Within 16383) y }
    ensures { result ≡ zip2 (λ a b. a -ℤ b) x y }
{
    x.strict_sub(y)
}

// Products in 32 bits.
#[inline(always)]
fn products(x: i16x16, y: i16x16) -> i32x16
    requires x { All (Within 32767) x }
    requires y { All (Within 4096) y }
    ensures value { result ≡ zip2 (λ a b. a *ℤ b) x y }
    ensures within { All (Within 134217728) result }
{
    x.cast::<i32>().strict_mul(y.cast::<i32>())
}

// With the products above, one instruction of the processor for each four sums.
#[inline(always)]
fn neighbour_sums(p: i32x16) -> i32x8
    requires len { length p ≡ 16 }
    requires within { All (Within 134217728) p }
    ensures value { result ≡ neighbours p }
    ensures within { All (Within 268435456) result }
{
    let even: i32x8 = p.swizzle([0, 2, 4, 6, 8, 10, 12, 14]);
    let odd: i32x8 = p.swizzle([1, 3, 5, 7, 9, 11, 13, 15]);
    even.strict_add(odd)
}

// The sums of the products of neighbours.
#[inline(always)]
pub fn product_sums(x: i16x16, y: i16x16) -> i32x8
    requires x_len { length x ≡ 16 }
    requires y_len { length y ≡ 16 }
    requires x { All (Within 32767) x }
    requires y { All (Within 4096) y }
    ensures value { result ≡ neighbours (zip2 (λ a b. a *ℤ b) x y) }
    ensures within { All (Within 268435456) result }
{
    neighbour_sums(products(x, y))
}

// Two such sums.
#[inline(always)]
pub fn added(x: i32x8, y: i32x8) -> i32x8
    requires x { All (Within 268435456) x }
    requires y { All (Within 268435456) y }
    ensures value { result ≡ zip2 (λ a b. a +ℤ b) x y }
    ensures within { All (Within 536870912) result }
{
    x.strict_add(y)
}

// Each number and the one as far from the other end.
#[inline(always)]
fn mirror_sums(x: i32x8) -> i32x8
    requires len { length x ≡ 8 }
    requires within { All (Within 256) x }
    ensures { result ≡ eight (λ k. nth x k +ℤ nth x (7 - k)) }
{
    x.strict_add(x.reverse())
}

// Each number less the one as far from the other end.
#[inline(always)]
fn mirror_differences(x: i32x8) -> i32x8
    requires len { length x ≡ 8 }
    requires within { All (Within 256) x }
    ensures { result ≡ eight (λ k. nth x k -ℤ nth x (7 - k)) }
{
    x.strict_sub(x.reverse())
}

// The first four of either, in 16 bits.
#[inline(always)]
fn first_fours(x: i32x8, y: i32x8) -> i16x8
    requires x { length x ≡ 8 }
    requires y { length y ≡ 8 }
    requires x_within { All (Within 512) x }
    requires y_within { All (Within 512) y }
    ensures { result ≡ nth x 0 ∷ nth x 1 ∷ nth x 2 ∷ nth x 3
        ∷ nth y 0 ∷ nth y 1 ∷ nth y 2 ∷ nth y 3 ∷ [] }
{
    let both: i32x8 = x.shuffle(y, [0, 1, 2, 3, 8, 9, 10, 11]);
    both.cast::<i16>()
}

// What is above the low sixteen bits.
#[inline(always)]
fn above(x: i32x8) -> i32x8
    requires len { length x ≡ 8 }
    requires within { All (Within 67200000) x }
    ensures { result ≡ map high_of x }
{
    x >> i32x8::splat(16)
}

// The same, moved up again.
#[inline(always)]
fn raised(x: i32x8) -> i32x8
    requires len { length x ≡ 8 }
    requires within { All (Within 1100) x }
    ensures { result ≡ map (λ a. pos 65536 *ℤ a) x }
{
    i32x8::splat(65536).strict_mul(x)
}

// What that leaves of a number.
#[inline(always)]
fn less(x: i32x8, y: i32x8) -> i32x8
    requires x { All (Within 67200000) x }
    requires y { All (Within 72089600) y }
    ensures { result ≡ zip2 (λ a b. a -ℤ b) x y }
{
    x.strict_sub(y)
}

// Numbers that were made eight times as large.
#[inline(always)]
fn eighths(x: i32x8) -> i32x8
    requires len { length x ≡ 8 }
    requires within { All (Within 65535) x }
    ensures { result ≡ map (λ a. int_shr a 3) x }
{
    x >> i32x8::splat(3)
}

// In 16 bits.
#[inline(always)]
fn narrow(x: i32x8) -> i16x8
    requires { All (Within 8191) x }
    ensures { result ≡ x }
{
    x.cast::<i16>()
}

// With the half that rounds.
#[inline(always)]
fn with_half(x: i32x8) -> i32x8
    requires len { length x ≡ 8 }
    requires within { All (Within 536870912) x }
    ensures { result ≡ map (λ a. a +ℤ pos 33554432) x }
{
    x.strict_add(i32x8::splat(1 << 25))
}

// Drops the low thirteen bits.
#[inline(always)]
fn dropped(x: i32x8) -> i32x8
    requires len { length x ≡ 8 }
    requires within { All (Within 1200000000) x }
    ensures { result ≡ map (λ a. int_shr a 13) x }
{
    x >> i32x8::splat(13)
}

// The high sums, with what the low ones add to them.
#[inline(always)]
fn carried(x: i32x8, y: i32x8) -> i32x8
    requires x { All (Within 536870912) x }
    requires y { All (Within 600000000) y }
    ensures { result ≡ zip2 (λ a b. a +ℤ b) x y }
{
    x.strict_add(y)
}

// A sum in two parts in the scale of coefficients, to the nearest.
#[inline(always)]
pub fn rounded_lanes(high: i32x8, low: i32x8) -> i32x8
    requires high_len { length high ≡ 8 }
    requires low_len { length low ≡ 8 }
    requires high { All (Within 536870912) high }
    requires low { All (Within 536870912) low }
    ensures value { result ≡ all_rounded high low }
    ensures within { All (Within 600000000) result }
{
    dropped(carried(high, dropped(with_half(low))))
}

// The even and the odd part of a line.
#[inline(always)]
pub fn fold_line(f: &[i32; 8]) -> i16x8
    requires { All (Within 256) f.now }
    ensures { result ≡ folded (nth f.now) }
{
    let x = i32x8::from_array(*f);
    first_fours(mirror_sums(x), mirror_differences(x))
}

// The first two of either part, four times.
#[inline(always)]
pub fn first_pairs(x: i16x8) -> i16x16
    requires len { length x ≡ 8 }
    requires within { All (Within 512) x }
    ensures { result ≡ four_times (nth x 0) (nth x 1) (nth x 4) (nth x 5) }
{
    x.swizzle([0, 1, 4, 5, 0, 1, 4, 5, 0, 1, 4, 5, 0, 1, 4, 5])
}

// The last two of either part, four times.
#[inline(always)]
pub fn second_pairs(x: i16x8) -> i16x16
    requires len { length x ≡ 8 }
    requires within { All (Within 512) x }
    ensures { result ≡ four_times (nth x 2) (nth x 3) (nth x 6) (nth x 7) }
{
    x.swizzle([2, 3, 6, 7, 2, 3, 6, 7, 2, 3, 6, 7, 2, 3, 6, 7])
}

// The two parts of eight numbers, in 16 bits each.
#[derive(Clone, Copy)]
pub struct Parts {
    pub high: i16x8,
    pub low: i16x8,
}

#[inline(always)]
pub fn split(x: i32x8) -> Parts
    requires len { length x ≡ 8 }
    requires within { All (Within 67200000) x }
    ensures high { result.high ≡ map high_of x }
    ensures low { result.low ≡ map low_of x }
{
    let high = above(x);
    let low = eighths(less(x, raised(high)));
    Parts {
        high: narrow(high),
        low: narrow(low),
    }
}

// Two numbers in turn.
#[inline(always)]
fn alternating(a: i16, b: i16) -> i16x16
    requires a { Within 4096 a }
    requires b { Within 4096 b }
    ensures value { result ≡ woven (λ k. a) (λ k. b) }
    ensures within { All (Within 4096) result }
{
    i16x16::from_array([a, b, a, b, a, b, a, b, a, b, a, b, a, b, a, b])
}

// Of two lines that are woven, a times the one and b times the other.
#[inline(always)]
pub fn weigh(x: i16x16, a: i16, b: i16) -> i32x8
    requires len { length x ≡ 16 }
    requires x { All (Within 32767) x }
    requires a { Within 4096 a }
    requires b { Within 4096 b }
    ensures value { result ≡ weighed x a b }
    ensures within { All (Within 268435456) result }
{
    product_sums(x, alternating(a, b))
}
