ghost use Rattle.std.specs.Prelude.{◌≡◌, All, ◌+ℤ◌, ◌-ℤ◌, ◌*ℤ◌, ◌≤ℤ◌, pos};
ghost use Rattle.m2v_idct.specs.Block.{nth};
ghost use Rattle.m2v_idct.specs.Inverse.{eighth, w1, w2, w3, w5, w6, w7};
ghost use Rattle.m2v_idct.specs.Ranges.{Within};
ghost use Rattle.m2v_idct.specs.Terms.{AreTerms};

use crate::combine::Terms;

// 2048 times the root of two and the cosine of so many sixteenths of a half turn, to the nearest.
const W1: i32 = 2841;

const W2: i32 = 2676;

const W3: i32 = 2408;

const W5: i32 = 1609;

const W6: i32 = 1108;

const W7: i32 = 565;

// The terms of a column of what the rows leave.
#[inline(always)]
pub fn column_terms(c: &[i32; 8]) -> Terms
    requires { All (Within 160000) c.now }
    ensures a1 { result.a1 ≡ eighth (w1 *ℤ nth c.now 1 +ℤ w7 *ℤ nth c.now 7) }
    ensures a7 { result.a7 ≡ eighth (w7 *ℤ nth c.now 1 -ℤ w1 *ℤ nth c.now 7) }
    ensures a5 { result.a5 ≡ eighth (w3 *ℤ nth c.now 3 +ℤ w5 *ℤ nth c.now 5) }
    ensures a3 { result.a3 ≡ eighth (w3 *ℤ nth c.now 5 -ℤ w5 *ℤ nth c.now 3) }
    ensures e2 { result.e2 ≡ eighth (w2 *ℤ nth c.now 2 +ℤ w6 *ℤ nth c.now 6) }
    ensures e6 { result.e6 ≡ eighth (w6 *ℤ nth c.now 2 -ℤ w2 *ℤ nth c.now 6) }
    ensures p { result.p ≡ pos 256 *ℤ (nth c.now 0 +ℤ nth c.now 4) +ℤ pos 8192 }
    ensures m { result.m ≡ pos 256 *ℤ (nth c.now 0 -ℤ nth c.now 4) +ℤ pos 8192 }
    ensures terms { AreTerms result }
{
    Terms {
        a1: eighth_of(one_plus(c[1], c[7])),
        a7: eighth_of(one_minus(c[1], c[7])),
        a5: eighth_of(three_plus(c[3], c[5])),
        a3: eighth_of(three_minus(c[5], c[3])),
        e2: eighth_of(two_plus(c[2], c[6])),
        e6: eighth_of(two_minus(c[2], c[6])),
        p: column_sum(c[0], c[4]),
        m: column_difference(c[0], c[4]),
    }
}

#[inline(always)]
fn one_plus(x: i32, y: i32) -> i32
    requires x { Within 160000 x }
    requires y { Within 160000 y }
    ensures value { result ≡ w1 *ℤ x +ℤ w7 *ℤ y }
    ensures within { Within 650000000 result }
{
    W1 * x + W7 * y
}

#[inline(always)]
fn one_minus(x: i32, y: i32) -> i32
    requires x { Within 160000 x }
    requires y { Within 160000 y }
    ensures value { result ≡ w7 *ℤ x -ℤ w1 *ℤ y }
    ensures within { Within 650000000 result }
{
    W7 * x - W1 * y
}

#[inline(always)]
fn three_plus(x: i32, y: i32) -> i32
    requires x { Within 160000 x }
    requires y { Within 160000 y }
    ensures value { result ≡ w3 *ℤ x +ℤ w5 *ℤ y }
    ensures within { Within 650000000 result }
{
    W3 * x + W5 * y
}

#[inline(always)]
fn three_minus(x: i32, y: i32) -> i32
    requires x { Within 160000 x }
    requires y { Within 160000 y }
    ensures value { result ≡ w3 *ℤ x -ℤ w5 *ℤ y }
    ensures within { Within 650000000 result }
{
    W3 * x - W5 * y
}

#[inline(always)]
fn two_plus(x: i32, y: i32) -> i32
    requires x { Within 160000 x }
    requires y { Within 160000 y }
    ensures value { result ≡ w2 *ℤ x +ℤ w6 *ℤ y }
    ensures within { Within 650000000 result }
{
    W2 * x + W6 * y
}

#[inline(always)]
fn two_minus(x: i32, y: i32) -> i32
    requires x { Within 160000 x }
    requires y { Within 160000 y }
    ensures value { result ≡ w6 *ℤ x -ℤ w2 *ℤ y }
    ensures within { Within 650000000 result }
{
    W6 * x - W2 * y
}

#[inline(always)]
fn eighth_of(t: i32) -> i32
    requires { Within 650000000 t }
    ensures value { result ≡ eighth t }
    ensures within { Within 82000000 result }
{
    (t + 4) >> 3
}

#[inline(always)]
fn column_sum(x: i32, y: i32) -> i32
    requires x { Within 160000 x }
    requires y { Within 160000 y }
    ensures value { result ≡ pos 256 *ℤ (x +ℤ y) +ℤ pos 8192 }
    ensures within { Within 82000000 result }
{
    256 * (x + y) + 8192
}

#[inline(always)]
fn column_difference(x: i32, y: i32) -> i32
    requires x { Within 160000 x }
    requires y { Within 160000 y }
    ensures value { result ≡ pos 256 *ℤ (x -ℤ y) +ℤ pos 8192 }
    ensures within { Within 82000000 result }
{
    256 * (x - y) + 8192
}
