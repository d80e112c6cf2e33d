//! Eight samples at a time, and what is added to them.
ghost use Rattle.std.specs.Prelude.{ℕ, ◌≡◌, ◌+◌, ◌≤◌, ◌<◌, All, length, map, slice_index, pos, ◌+ℤ◌};
ghost use Rattle.std.specs.Simd.Lanes.{zip2};
ghost use Rattle.m2v_idct.specs.Block.{nth};
ghost use Rattle.m2v_idct.specs.Ranges.{Within};
ghost use Rattle.m2v_recon.specs.Macro.{clamped};

use std::simd::prelude::*;

/// A difference in 16 bits. They hold it, so its limits don't change it, and let one instruction narrow eight.
#[inline(always)]
fn narrowed(difference: i32) -> i16
    requires { Within 30000 difference }
    ensures { result ≡ difference }
{
    difference.clamp(-32768, 32767) as i16
}

/// Eight of a block's differences.
#[inline(always)]
pub fn eight_differences(values: &[i32; 64], at: usize) -> [i16; 8]
    requires at { at + 8 ≤ 64 }
    requires values { All (Within 30000) values.now }
    ensures value { (j : ℕ) → j < 8 → nth result j ≡ nth values.now (at + j) }
    ensures within { All (Within 30000) result }
{
    let mut line = [0; 8];
    for j in 0..8 {
        line[j] = narrowed(values[at + j]);
    }
    line
}

/// Eight samples.
#[inline(always)]
pub fn eight_samples(samples: &[u8], from: usize) -> [i16; 8]
    requires { from + 8 ≤ length samples.now }
    ensures value { (j : ℕ) → j < 8 → nth result j ≡ pos (slice_index samples.now (from + j)) }
    ensures within { All (Within 255) result }
{
    let mut line = [0; 8];
    for j in 0..8 {
        line[j] = i16::from(samples[from + j]);
    }
    line
}

/// The nearest numbers from 0 to 255.
#[inline(always)]
pub fn nearest(x: i16x8) -> u8x8
    requires len { length x ≡ 8 }
    requires within { All (Within 30255) x }
    ensures { result ≡ map clamped x }
{
    x.simd_clamp(i16x8::splat(0), i16x8::splat(255))
        .cast::<u8>()
}

/// The same of samples with what is added to them.
#[inline(always)]
pub fn nearest_sums(x: i16x8, y: i16x8) -> u8x8
    requires len { (length x ≡ 8) × (length y ≡ 8) }
    requires x { All (Within 255) x }
    requires y { All (Within 30000) y }
    ensures { result ≡ map clamped (zip2 (λ a b. a +ℤ b) x y) }
{
    let sums = x.strict_add(y);
    nearest(sums)
}
