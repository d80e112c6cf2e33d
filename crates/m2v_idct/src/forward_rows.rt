//! The first half of the forward transform: the sums of a line's samples, each times a cosine, in two parts of 16 bits.
ghost use Rattle.std.specs.Prelude.{ℕ, ◌≡◌, ◌<◌, ◌≢◌, ◌+◌, ◌*◌, All, length, pos, ◌*ℤ◌};
ghost use Rattle.m2v_idct.specs.Block.{at, nth};
ghost use Rattle.m2v_idct.specs.Forward.{projection};
ghost use Rattle.m2v_idct.specs.ForwardLanes.{eight, high_of, low_of};
ghost use Rattle.m2v_idct.specs.Ranges.{IsSample, Within};

use crate::block::row_at;
use crate::forward_lanes::{added, first_pairs, fold_line, product_sums, second_pairs, split};
use std::simd::prelude::*;

// The sums of a line's samples, each times eight times a cosine, so that 16 bits are where such a sum is cut in two.
#[inline(always)]
fn line_sums(f: &[i32; 8]) -> i32x8
    requires { All IsSample f.now }
    ensures value { result ≡ eight (λ u. pos 8 *ℤ projection u (nth f.now)) }
    ensures within { All (Within 67200000) result }
{
    let x = fold_line(f);
    let c = i16x16::from_array([
        23168, 23168, 32136, 27248, 30272, 12536, 27248, -6392, 23168, -23168, 18208, -32136,
        12536, -30272, 6392, -18208,
    ]);
    let d = i16x16::from_array([
        23168, 23168, 18208, 6392, -12536, -30272, -32136, -18208, -23168, 23168, 6392, 27248,
        30272, -12536, 27248, -32136,
    ]);
    added(
        product_sums(c, first_pairs(x)),
        product_sums(d, second_pairs(x)),
    )
}

// Writes line y.
#[inline(always)]
fn put_line(rows: &mut [i16; 64], y: usize, x: i16x8)
    requires y { y < 8 }
    requires len { length x ≡ 8 }
    requires within { All (Within 8191) x }
    ensures row { (k : ℕ) → k < 8 → nth rows.new (8 * y + k) ≡ nth x k }
    ensures rest { (i : ℕ) → ((k : ℕ) → k < 8 → i ≢ 8 * y + k) → nth rows.new i ≡ nth rows.old i }
{
    x.copy_to_slice(&mut rows[8 * y..8 * y + 8]);
}

// Writes the two parts of line y's sums.
#[inline(always)]
fn transform_line(f: &[i32; 64], y: usize, high: &mut [i16; 64], low: &mut [i16; 64])
    requires y { y < 8 }
    requires samples { All IsSample f.now }
    ensures high { (u : ℕ) → u < 8
        → nth high.new (8 * y + u) ≡ high_of (pos 8 *ℤ projection u (at f.now y)) }
    ensures low { (u : ℕ) → u < 8
        → nth low.new (8 * y + u) ≡ low_of (pos 8 *ℤ projection u (at f.now y)) }
    ensures high_rest { (i : ℕ) → ((k : ℕ) → k < 8 → i ≢ 8 * y + k)
        → nth high.new i ≡ nth high.old i }
    ensures low_rest { (i : ℕ) → ((k : ℕ) → k < 8 → i ≢ 8 * y + k)
        → nth low.new i ≡ nth low.old i }
{
    let parts = split(line_sums(&row_at(f, y)));
    put_line(high, y, parts.high);
    put_line(low, y, parts.low);
}

// The sums of each line's samples, in their two parts. The lines are written out, since eight turns are longer than
// what the compiler unrolls by itself.
#[inline(always)]
pub fn transform_rows(f: &[i32; 64], high: &mut [i16; 64], low: &mut [i16; 64])
    requires { All IsSample f.now }
    ensures high { (y u : ℕ) → y < 8 → u < 8
        → nth high.new (8 * y + u) ≡ high_of (pos 8 *ℤ projection u (at f.now y)) }
    ensures low { (y u : ℕ) → y < 8 → u < 8
        → nth low.new (8 * y + u) ≡ low_of (pos 8 *ℤ projection u (at f.now y)) }
{
    transform_line(f, 0, high, low);
    transform_line(f, 1, high, low);
    transform_line(f, 2, high, low);
    transform_line(f, 3, high, low);
    transform_line(f, 4, high, low);
    transform_line(f, 5, high, low);
    transform_line(f, 6, high, low);
    transform_line(f, 7, high, low);
}
