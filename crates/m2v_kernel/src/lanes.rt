//! Sixteen samples at a time.
ghost use Rattle.std.specs.Prelude.{◌≡◌, ◌+◌, ◌≤◌, ◌<◌, ◌*◌, ◌^◌, length, take, drop};
ghost use Rattle.std.specs.Simd.Lanes.{zip2, sum_l};
ghost use Rattle.m2v_kernel.specs.Sums.{apart, sad, mean, pair, quarter, AreBytes};

use std::simd::prelude::*;

/// Sixteen samples from a place on.
#[inline(always)]
pub fn sixteen(samples: &[u8], from: usize) -> u8x16
    requires { from + 16 ≤ length samples.now }
    ensures value { result ≡ take 16 (drop from samples.now) }
    ensures len { length result ≡ 16 }
    ensures bytes { AreBytes result }
{
    u8x16::from_slice(&samples[from..from + 16])
}

/// How far 16 samples lie from 16 others. By signed lanes of 32 bits, so that the processor's own sum of differences
/// is found.
#[inline(always)]
pub fn apart_lanes(x: u8x16, y: u8x16) -> u32x16
    requires x { length x ≡ 16 }
    requires y { length y ≡ 16 }
    requires one { AreBytes x }
    requires other { AreBytes y }
    ensures value { result ≡ zip2 apart x y }
    ensures len { length result ≡ 16 }
    ensures most { sum_l result ≤ 4080 }
    ensures sum { sum_l result ≡ sad x y }
{
    (x.cast::<i32>() - y.cast::<i32>()).abs().cast::<u32>()
}

/// The same of samples in memory.
#[inline(always)]
pub fn far_lanes(a: &[u8], b: &[u8]) -> u32x16
    requires one { length a.now ≡ 16 }
    requires other { length b.now ≡ 16 }
    ensures value { result ≡ zip2 apart a.now b.now }
    ensures len { length result ≡ 16 }
    ensures most { sum_l result ≤ 4080 }
    ensures sum { sum_l result ≡ sad a.now b.now }
{
    apart_lanes(sixteen(a, 0), sixteen(b, 0))
}

/// The means of 16 samples and 16 others, rounded up. By lanes of bytes, so that the sum of differences from them
/// still is one of bytes.
#[inline(always)]
pub fn mean_lanes(x: u8x16, y: u8x16) -> u8x16
    requires x { length x ≡ 16 }
    requires y { length y ≡ 16 }
    requires one { AreBytes x }
    requires other { AreBytes y }
    ensures value { result ≡ zip2 mean x y }
    ensures len { length result ≡ 16 }
    ensures bytes { AreBytes result }
{
    (x | y) - ((x ^ y) >> u8x16::splat(1))
}

/// The means of four samples each, `a` beside `b` and `c` beside `d`, rounded up. The mean of two means is one more
/// than that exactly where one of them was rounded up and their sum is odd. The means of a line serve the lines above and below
/// it: they are computed once.
#[inline(always)]
pub fn quarter_lanes(a: u8x16, b: u8x16, c: u8x16, d: u8x16) -> u8x16
    requires a { length a ≡ 16 }
    requires b { length b ≡ 16 }
    requires c { length c ≡ 16 }
    requires d { length d ≡ 16 }
    requires first { AreBytes a }
    requires second { AreBytes b }
    requires third { AreBytes c }
    requires fourth { AreBytes d }
    ensures value { result ≡ zip2 quarter (zip2 pair a b) (zip2 pair c d) }
    ensures len { length result ≡ 16 }
    ensures bytes { AreBytes result }
{
    let upper = mean_lanes(a, b);
    let lower = mean_lanes(c, d);
    let rounded = (a ^ b) | (c ^ d);
    mean_lanes(upper, lower) - (rounded & (upper ^ lower) & u8x16::splat(1))
}

#[inline(always)]
pub fn plus(x: u32x16, y: u32x16) -> u32x16
    requires x { length x ≡ 16 }
    requires y { length y ≡ 16 }
    requires fits { sum_l x + sum_l y < 2 ^ 32 }
    ensures len { length result ≡ 16 }
    ensures sum { sum_l result ≡ sum_l x + sum_l y }
{
    x.strict_add(y)
}

#[inline(always)]
pub fn total(x: u32x16) -> u32
    requires { sum_l x < 2 ^ 32 }
    ensures { result ≡ sum_l x }
{
    x.strict_reduce_sum()
}
