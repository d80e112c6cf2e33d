ghost use Rattle.std.specs.Prelude.{◌≡◌, ◌<◌, ◌+◌, ◌*◌, ℕ, ◌≢◌, ◌∷◌, []};
ghost use Rattle.m2v_idct.specs.Block.{at, nth};
ghost use Rattle.m2v_idct.specs.Ranges.{Within};

use std::simd::prelude::*;

// The numbers of line y, from the left.
#[inline(always)]
pub fn row_at(b: &[i32; 64], y: usize) -> [i32; 8]
    requires y { y < 8 }
    requires within { (k : ℕ) → k < 8 → Within 2048 (at b.now y k) }
    ensures { result ≡ at b.now y 0 ∷ at b.now y 1 ∷ at b.now y 2 ∷ at b.now y 3
        ∷ at b.now y 4 ∷ at b.now y 5 ∷ at b.now y 6 ∷ at b.now y 7 ∷ [] }
{
    i32x8::from_slice(&b[8 * y..8 * y + 8]).to_array()
}

// The numbers of column x, from the top.
#[inline(always)]
pub fn column_at(b: &[i32; 64], x: usize) -> [i32; 8]
    requires { x < 8 }
    ensures { result ≡ at b.now 0 x ∷ at b.now 1 x ∷ at b.now 2 x ∷ at b.now 3 x
        ∷ at b.now 4 x ∷ at b.now 5 x ∷ at b.now 6 x ∷ at b.now 7 x ∷ [] }
{
    [
        b[x],
        b[8 + x],
        b[16 + x],
        b[24 + x],
        b[32 + x],
        b[40 + x],
        b[48 + x],
        b[56 + x],
    ]
}

// Writes line y.
#[inline(always)]
pub fn put_row(rows: &mut [i32; 64], y: usize, results: &[i32; 8])
    requires { y < 8 }
    ensures row { (k : ℕ) → k < 8 → nth rows.new (8 * y + k) ≡ nth results.now k }
    ensures rest { (i : ℕ) → ((k : ℕ) → k < 8 → i ≢ 8 * y + k) → nth rows.new i ≡ nth rows.old i }
{
    for k in 0..8 {
        rows[8 * y + k] = results[k];
    }
}

// Writes column x.
#[inline(always)]
pub fn put_column(block: &mut [i32; 64], x: usize, results: &[i32; 8])
    requires { x < 8 }
    ensures column { (k : ℕ) → k < 8 → nth block.new (8 * k + x) ≡ nth results.now k }
    ensures rest { (i : ℕ) → ((k : ℕ) → k < 8 → i ≢ 8 * k + x) → nth block.new i ≡ nth block.old i }
{
    for k in 0..8 {
        block[8 * k + x] = results[k];
    }
}
