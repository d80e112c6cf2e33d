//! What is added to a prediction.
ghost use Rattle.std.specs.Prelude.{ℕ, ◌≡◌, ◌≢◌, ◌+◌, ◌-◌, ◌*◌, ◌/◌, ◌%◌, ◌≤◌, ◌<◌, All, IsTrue, cond, map, slice_index, slice_index_or, length, ℤ, pos, ◌+ℤ◌};
ghost use Rattle.m2v_quant.specs.Kinds.{IsKind, IsLevel};
ghost use Rattle.m2v_quant.specs.Coefficients.{coefficients_of};
ghost use Rattle.m2v_idct.specs.Inverse.{clip, inverse_of};
ghost use Rattle.m2v_idct.specs.Block.{nth};
ghost use Rattle.m2v_idct.specs.Ranges.{Within};
ghost use Rattle.m2v_recon.specs.Macro.{clamped, is_coded};
ghost use Rattle.m2v_recon.specs.Steps.{luma_line, luma_place, rebuilt, AddsBlock, AreRebuilt};

use crate::lanes::{eight_differences, eight_samples, nearest, nearest_sums};
use m2v_idct::inverse_by_rows;
use m2v_quant::{BlockKind, BlockLevels};
use std::simd::prelude::*;

/// Whether a block is coded: its bit `32 >> block` of the pattern is 1 (clause 6.3.17.4).
#[inline(always)]
pub fn is_coded(pattern: u8, block: u32) -> bool
    requires { block < 6 }
    ensures value { result ≡ is_coded pattern block }
{
    (pattern >> (5 - block)) % 2 == 1
}

/// The differences of a coded block, not yet clipped.
fn differences<L: BlockLevels>(levels: &L, kind: &BlockKind, out: &mut [i32; 64])
    requires kind { IsKind kind.now }
    requires levels { All IsLevel (L.list levels.now) }
    ensures value { map clip out.new ≡ inverse_of (coefficients_of (L.list levels.now) kind.now) }
    ensures within { All (Within 30000) out.new }
{
    let rows = levels.coefficients(kind, out);
    inverse_by_rows(out, rows);
}

/// Where line k of a luma block begins in 16 lines of 16.
#[inline(always)]
fn luma_place(dct_field: bool, block: usize, k: usize) -> usize
    requires block { block < 4 }
    requires line { k < 8 }
    ensures value { result ≡ luma_place dct_field block k }
    ensures within { result + 8 ≤ 256 }
{
    let line = if dct_field {
        2 * k + block / 2
    } else {
        8 * (block / 2) + k
    };
    16 * line + 8 * (block % 2)
}

/// A line of eight samples with what is added to them, or that alone in an intra block. In an array of its own, which
/// never leaves the registers.
#[inline(always)]
fn eight_sums<const INTRA: bool>(
    samples: &[u8],
    from: usize,
    values: &[i32; 64],
    at: usize,
) -> [u8; 8]
    requires from { from + 8 ≤ length samples.now }
    requires at { at + 8 ≤ 64 }
    requires values { All (Within 30000) values.now }
    ensures { (j : ℕ) → j < 8
        → slice_index result j
        ≡ clamped (pos (cond INTRA 0 (slice_index samples.now (from + j)))
        +ℤ clip (nth values.now (at + j))) }
{
    let differences = i16x8::from_array(eight_differences(values, at));
    if INTRA {
        return nearest(differences).to_array();
    }
    let samples = i16x8::from_array(eight_samples(samples, from));
    nearest_sums(samples, differences).to_array()
}

/// Eight samples, put by one move.
#[inline(always)]
fn put_all(out: &mut [u8], line: &[u8; 8])
    requires { length out.old ≡ 8 }
    ensures value { out.new ≡ line.now }
{
    u8x8::from_array(*line).copy_to_slice(out);
}

/// The same in the place of eight others.
#[inline(always)]
fn put_eight(samples: &mut [u8], from: usize, line: &[u8; 8])
    requires { from + 8 ≤ length samples.old }
    ensures within { (j : ℕ) → j < 8
        → slice_index samples.new (from + j) ≡ slice_index line.now j }
    ensures before { (i : ℕ) → i < from → slice_index samples.new i ≡ slice_index samples.old i }
    ensures behind { (i : ℕ) → from + 8 ≤ i → slice_index samples.new i
        ≡ slice_index samples.old i }
{
    put_all(&mut samples[from..from + 8], line);
}

/// Adds a line of eight to samples, or puts it in their place in an intra block.
#[inline(always)]
fn add_eight<const INTRA: bool>(samples: &mut [u8], from: usize, values: &[i32; 64], at: usize)
    requires from { from + 8 ≤ length samples.old }
    requires at { at + 8 ≤ 64 }
    requires values { All (Within 30000) values.now }
    ensures within { (j : ℕ) → j < 8
        → slice_index samples.new (from + j)
        ≡ clamped (pos (cond INTRA 0 (slice_index samples.old (from + j)))
        +ℤ clip (nth values.now (at + j))) }
    ensures before { (i : ℕ) → i < from → slice_index samples.new i ≡ slice_index samples.old i }
    ensures behind { (i : ℕ) → from + 8 ≤ i → slice_index samples.new i
        ≡ slice_index samples.old i }
{
    let line = eight_sums::<INTRA>(samples, from, values, at);
    put_eight(samples, from, &line);
}

/// Adds the lines of a luma block to 16 lines of 16 samples. With constants the lines' distances are constants too, and
/// nothing is asked of each line.
#[inline(always)]
fn add_lines<const FIELD: bool, const INTRA: bool>(
    samples: &mut [u8],
    block: usize,
    values: &[i32; 64],
)
    requires samples { length samples.old ≡ 256 }
    requires block { block < 4 }
    requires values { All (Within 30000) values.now }
    ensures { AddsBlock FIELD INTRA block values.now samples.old samples.new }
{
    for k in 0..8 {
        add_eight::<INTRA>(samples, luma_place(FIELD, block, k), values, 8 * k);
    }
}

/// Adds the lines of a luma block to 16 lines of 16 samples, in frame or in field order.
#[inline(always)]
fn add_block(samples: &mut [u8], dct_field: bool, block: usize, intra: bool, values: &[i32; 64])
    requires samples { length samples.old ≡ 256 }
    requires block { block < 4 }
    requires values { All (Within 30000) values.now }
    ensures { AddsBlock dct_field intra block values.now samples.old samples.new }
{
    match (dct_field, intra) {
        (false, false) => add_lines::<false, false>(samples, block, values),
        (false, true) => add_lines::<false, true>(samples, block, values),
        (true, false) => add_lines::<true, false>(samples, block, values),
        (true, true) => add_lines::<true, true>(samples, block, values),
    }
}

/// Adds a luma block's differences, none where it isn't coded. `room` is for the block.
#[inline(always)]
fn add_coded<L: BlockLevels>(
    samples: &mut [u8],
    dct_field: bool,
    block: usize,
    coded: bool,
    levels: &L,
    kind: &BlockKind,
    room: &mut [i32; 64],
)
    requires samples { length samples.old ≡ 256 }
    requires block { block < 4 }
    requires kind { IsKind kind.now }
    requires levels { All IsLevel (L.list levels.now) }
    ensures lines { (k j : ℕ) → k < 8 → j < 8
        → slice_index samples.new (luma_place dct_field block k + j)
        ≡ rebuilt coded (L.list levels.now) kind.now (8 * k + j)
        (slice_index samples.old (luma_place dct_field block k + j)) }
    ensures rest { (i : ℕ) → ((k j : ℕ) → k < 8 → j < 8 → i ≢ luma_place dct_field block k + j)
        → slice_index samples.new i ≡ slice_index samples.old i }
{
    if !coded {
        return;
    }
    differences(levels, kind, room);
    add_block(samples, dct_field, block, kind.intra, room);
}

/// Adds the differences of luma to 16 lines of 16 samples. `room` is for a block.
#[inline(always)]
pub fn add_luma<L: BlockLevels>(
    samples: &mut [u8],
    levels: &[L; 6],
    pattern: u8,
    kinds: &[BlockKind; 2],
    dct_field: bool,
    room: &mut [i32; 64],
)
    requires samples { length samples.old ≡ 256 }
    requires kinds { All IsKind kinds.now }
    requires levels { All (λ l. All IsLevel (L.list l)) levels.now }
    ensures value { AreRebuilt (map L.list levels.now) pattern kinds.now dct_field samples.old
        samples.new }
{
    for block in 0..4 {
        let coded = is_coded(pattern, block as u32);
        add_coded(
            samples,
            dct_field,
            block,
            coded,
            &levels[block],
            &kinds[0],
            room,
        );
    }
}

/// Adds 64 differences to as many samples. With a constant nothing is asked of each line.
#[inline(always)]
fn add_rows<const INTRA: bool>(samples: &mut [u8], values: &[i32; 64])
    requires samples { length samples.old ≡ 64 }
    requires values { All (Within 30000) values.now }
    ensures { (i : ℕ) → i < 64
        → slice_index samples.new i
        ≡ clamped (pos (cond INTRA 0 (slice_index samples.old i)) +ℤ clip (nth values.now i)) }
{
    for k in 0..8 {
        add_eight::<INTRA>(samples, 8 * k, values, 8 * k);
    }
}

/// Adds 64 differences to as many samples, or puts them in their place in an intra block.
#[inline(always)]
fn add_all(samples: &mut [u8], intra: bool, values: &[i32; 64])
    requires samples { length samples.old ≡ 64 }
    requires values { All (Within 30000) values.now }
    ensures { (i : ℕ) → i < 64
        → slice_index samples.new i
        ≡ clamped (pos (cond intra 0 (slice_index samples.old i)) +ℤ clip (nth values.now i)) }
{
    if intra {
        add_rows::<true>(samples, values);
    } else {
        add_rows::<false>(samples, values);
    }
}

/// Adds the differences of a chroma block, none where it isn't coded. `room` is for the block.
#[inline(always)]
pub fn add_chroma<L: BlockLevels>(
    samples: &mut [u8],
    coded: bool,
    levels: &L,
    kind: &BlockKind,
    room: &mut [i32; 64],
)
    requires samples { length samples.old ≡ 64 }
    requires kind { IsKind kind.now }
    requires levels { All IsLevel (L.list levels.now) }
    ensures value { (i : ℕ) → i < 64 → slice_index samples.new i
        ≡ rebuilt coded (L.list levels.now) kind.now i (slice_index samples.old i) }
{
    if !coded {
        return;
    }
    differences(levels, kind, room);
    add_all(samples, kind.intra, room);
}
