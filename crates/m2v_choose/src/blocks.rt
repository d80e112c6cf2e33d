//! The blocks of a macroblock: what is transformed, the transforms, the levels, and the pattern.
ghost use Rattle.std.specs.Prelude.{true, false, not, nat_lt, ◌-◌, ℕ, ◌≡◌, ◌≤◌, ◌<◌, ◌+◌, ◌*◌, All, [], cond, replicate, slice_index, slice_index_or, pos, ◌-ℤ◌, unsigned_abs};
ghost use Rattle.m2v_quant.specs.Kinds.{IsKind, IsLevel};
ghost use Rattle.m2v_quant.specs.Quantiser.{levels_of as quantised};
ghost use Rattle.m2v_recon.specs.Macro.{kind_at, kind_of};
ghost use Rattle.m2v_idct.specs.Block.{nth};
ghost use Rattle.m2v_idct.specs.Ranges.{IsSample, IsCoefficient};
ghost use Rattle.m2v_idct.specs.Forward.{forward_of};
ghost use Rattle.m2v_recon.specs.Steps.{levels_of};
ghost use Rattle.m2v_choose.specs.Decisions.{block_place, differences as differences_of, pattern_of as pattern_in};
ghost use Rattle.m2v_choose.specs.Trials.{is_empty, difference_at, transforms_of, quantised_by, AreFar, AreSquares, HaveSame, StandsFor, block_squared};

use m2v_idct::forward_in_place;
use m2v_pred::Block16;
use m2v_quant::{BlockKind, Levels, quantise};

/// Where a line of a block begins among the samples of its macroblock.
#[inline(always)]
#[tactic(auto, unfolding(crate::specs::Decisions::block_place))]
pub fn line_place(dct_field: bool, block: usize, line: usize) -> usize
    requires block { block < 6 }
    requires line { line < 8 }
    ensures value { (j : ℕ) → j < 8 → block_place dct_field block (8 * line + j) ≡ result + j }
    ensures within { result + 8 ≤ 384 }
{
    if block >= 4 {
        return 256 + (64 * (block - 4) + 8 * line);
    }
    let down = if dct_field {
        2 * line + block / 2
    } else {
        8 * (block / 2) + line
    };
    16 * down + 8 * (block % 2)
}

/// The difference of two samples.
#[inline(always)]
fn difference(x: u8, y: u8) -> i32
    ensures value { result ≡ pos x -ℤ pos y }
    ensures sample { IsSample result }
{
    x as i32 - y as i32
}

/// The differences of a line of a block, put behind those of the lines before.
#[inline(always)]
fn put_line(
    source: &Block16,
    prediction: &Block16,
    dct_field: bool,
    block: usize,
    line: usize,
    out: &mut [i32; 64],
)
    requires block { block < 6 }
    requires line { line < 8 }
    requires value { (k : ℕ) → k < 8 * line
        → nth out.old k ≡ difference_at source.now.at prediction.now.at dct_field block k }
    requires samples { (k : ℕ) → k < 8 * line → IsSample (nth out.old k) }
    ensures value { (k : ℕ) → k < 8 * line + 8
        → nth out.new k ≡ difference_at source.now.at prediction.now.at dct_field block k }
    ensures samples { (k : ℕ) → k < 8 * line + 8 → IsSample (nth out.new k) }
{
    let from = line_place(dct_field, block, line);
    for j in 0..8 {
        out[8 * line + j] = difference(source.at[from + j], prediction.at[from + j]);
    }
}

/// What is transformed of a block: the source less its prediction.
fn differences(
    source: &Block16,
    prediction: &Block16,
    dct_field: bool,
    block: usize,
    out: &mut [i32; 64],
)
    requires block { block < 6 }
    ensures value { out.new ≡ differences_of source.now.at prediction.now.at dct_field block }
    ensures samples { All IsSample out.new }
{
    for line in 0..8 {
        put_line(source, prediction, dct_field, block, line, out);
    }
}

/// The transform of a block's differences. One body for all that call it, with the transform inside.
#[inline(never)]
pub fn transform_one(
    source: &Block16,
    prediction: &Block16,
    dct_field: bool,
    block: usize,
    out: &mut [i32; 64],
)
    requires block { block < 6 }
    ensures value { out.new ≡ forward_of
        (differences_of source.now.at prediction.now.at dct_field block) }
    ensures coefficients { All IsCoefficient out.new }
{
    // in an array of its own, which no other reference can reach: so the differences are made by lanes
    let mut own = [0; 64];
    differences(source, prediction, dct_field, block, &mut own);
    forward_in_place(&mut own);
    *out = own;
}

/// How far a coefficient lies from 0.
#[inline(always)]
fn size(coefficient: i32) -> u32
    ensures { result ≡ unsigned_abs coefficient }
{
    coefficient.unsigned_abs()
}

/// The larger one of two numbers.
#[inline(always)]
fn larger(x: u32, y: u32) -> u32
    ensures first { x ≤ result }
    ensures second { y ≤ result }
{
    if x < y { y } else { x }
}

/// How far a block's coefficients lie from 0 at most.
#[inline(always)]
fn largest(transform: &[i32; 64]) -> u32
    requires { All IsCoefficient transform.now }
    ensures { (k : ℕ) → k < 64 → unsigned_abs (nth transform.now k) ≤ result }
{
    let mut most = 0;
    for k in 0..64 {
        most = larger(most, size(transform[k]));
    }
    most
}

/// Whether the squares of a block's differences are so few that no coefficient of it lies as far from 0 as `least`: the
/// square of one is at most a little more than all of them.
#[inline(always)]
fn is_near(squares: u32, least: u32) -> bool
    requires some { 2 ≤ least }
    requires most { least ≤ 62 }
    ensures { result ≡ nat_lt squares (least * (least - 1)) }
{
    squares < least * (least - 1)
}

/// The transform of a block's differences, whose squares these are, and how far its coefficients lie from 0 at most. Where
/// the squares tell that none lies as far as `least` it isn't made: 0 stands in its place.
#[inline(always)]
fn transform_far(
    source: &Block16,
    prediction: &Block16,
    dct_field: bool,
    block: usize,
    squares: u32,
    least: u32,
    out: &mut [i32; 64],
) -> u32
    requires block { block < 6 }
    requires squares { squares ≡ block_squared dct_field source.now.at prediction.now.at block }
    requires some { 2 ≤ least }
    requires most { least ≤ 62 }
    ensures { StandsFor least (forward_of
        (differences_of source.now.at prediction.now.at dct_field block)) out.new result }
{
    if is_near(squares, least) {
        *out = [0; 64];
        return 0;
    }
    transform_one(source, prediction, dct_field, block, out);
    largest(out)
}

/// The transforms of the six blocks by a DCT type.
#[derive(Clone, Copy)]
pub struct FarTransforms<'a> {
    /// The transforms; 0 may stand for one that has no level.
    pub at: &'a [[i32; 64]; 6],
    /// So far the coefficients of each lie from 0 at most.
    pub most: &'a [u32; 6],
}

/// The transforms of the differences of the six blocks by DCT type 0, and how far the coefficients of each lie from 0 at
/// most. 0 stands for a block of so few squares that none of them lies as far as `least`.
pub fn transform(
    source: &Block16,
    prediction: &Block16,
    squares: &[u32; 6],
    least: u32,
    out: &mut [[i32; 64]; 6],
) -> [u32; 6]
    requires squares { AreSquares false source.now.at prediction.now.at squares.now }
    requires some { 2 ≤ least }
    requires most { least ≤ 62 }
    ensures alike { HaveSame least out.new
        (transforms_of source.now.at prediction.now.at false) }
    ensures coefficients { All (All IsCoefficient) out.new }
    ensures far { AreFar out.new result }
{
    let mut most = [0; 6];
    for block in 0..6usize {
        let own = squares[block];
        most[block] = transform_far(
            source,
            prediction,
            false,
            block,
            own,
            least,
            &mut out[block],
        );
    }
    most
}

/// One of six blocks.
#[inline(always)]
fn copy_block(blocks: &[[i32; 64]; 6], block: usize, out: &mut [i32; 64])
    requires block { block < 6 }
    requires known { All (All IsCoefficient) blocks.now }
    ensures value { out.new ≡ slice_index_or blocks.now block [] }
    ensures coefficients { All IsCoefficient out.new }
{
    *out = blocks[block];
}

/// The same of one block by DCT type 1. A chroma block has that by DCT type 0, which `frame` holds.
#[inline(always)]
fn block_by_fields(
    source: &Block16,
    prediction: &Block16,
    frame: &FarTransforms,
    block: usize,
    squares: u32,
    least: u32,
    out: &mut [i32; 64],
) -> u32
    requires block { block < 6 }
    requires frame { HaveSame least frame.now.at.now
        (transforms_of source.now.at prediction.now.at false) }
    requires known { All (All IsCoefficient) frame.now.at.now }
    requires far { AreFar frame.now.at.now frame.now.most.now }
    requires squares { squares ≡ block_squared true source.now.at prediction.now.at block }
    requires some { 2 ≤ least }
    requires most { least ≤ 62 }
    ensures { StandsFor least (forward_of
        (differences_of source.now.at prediction.now.at true block)) out.new result }
{
    if block >= 4 {
        copy_block(frame.at, block, out);
        return frame.most[block];
    }
    transform_far(source, prediction, true, block, squares, least, out)
}

/// The transforms by DCT type 1, behind those by DCT type 0.
pub fn transform_by_fields(
    source: &Block16,
    prediction: &Block16,
    frame: &FarTransforms,
    squares: &[u32; 6],
    least: u32,
    out: &mut [[i32; 64]; 6],
) -> [u32; 6]
    requires frame { HaveSame least frame.now.at.now
        (transforms_of source.now.at prediction.now.at false) }
    requires known { All (All IsCoefficient) frame.now.at.now }
    requires far { AreFar frame.now.at.now frame.now.most.now }
    requires squares { AreSquares true source.now.at prediction.now.at squares.now }
    requires some { 2 ≤ least }
    requires most { least ≤ 62 }
    ensures alike { HaveSame least out.new
        (transforms_of source.now.at prediction.now.at true) }
    ensures coefficients { All (All IsCoefficient) out.new }
    ensures far { AreFar out.new result }
{
    let mut most = [0; 6];
    for block in 0..6usize {
        let own = squares[block];
        most[block] = block_by_fields(
            source,
            prediction,
            frame,
            block,
            own,
            least,
            &mut out[block],
        );
    }
    most
}

/// Whether a coefficient of the six blocks may lie so far from 0.
#[inline(always)]
pub fn reaches(most: &[u32; 6], least: u32) -> bool
    ensures { result ≡ false → (b : ℕ) → b < 6 → slice_index most.now b < least }
{
    for block in 0..6usize {
        if most[block] >= least {
            return true;
        }
    }
    false
}

/// The kind of a block, of those of luma and of chroma blocks.
#[inline(always)]
fn kind_of_block(kinds: &[BlockKind; 2], block: usize) -> &BlockKind
    requires kinds { All IsKind kinds.now }
    requires precision { All (λ kind. kind.precision ≡ 0) kinds.now }
    ensures value { result.now ≡ kind_of (kind_at kinds.now 0) (kind_at kinds.now 1) block }
    ensures kind { IsKind result.now }
    ensures precision { result.now.precision ≡ 0 }
{
    if block < 4 { &kinds[0] } else { &kinds[1] }
}

/// The levels of a block: whether any isn't 0.
#[inline(always)]
pub fn quantise_one(
    transform: &[i32; 64],
    kinds: &[BlockKind; 2],
    block: usize,
    out: &mut Levels,
) -> bool
    requires kinds { All IsKind kinds.now }
    requires precision { All (λ kind. kind.precision ≡ 0) kinds.now }
    requires coefficients { All IsCoefficient transform.now }
    ensures value { out.new.at
        ≡ quantised transform.now (kind_of (kind_at kinds.now 0) (kind_at kinds.now 1) block) }
    ensures levels { All IsLevel out.new.at }
    ensures some { result ≡ not (is_empty out.new.at) }
{
    quantise(transform, kind_of_block(kinds, block), out)
}

/// The same of a block whose coefficients lie from 0 at most so far; where that is less than the least that has a level it has
/// none, and isn't looked at.
#[inline(always)]
fn quantise_reached(
    transform: &[i32; 64],
    kinds: &[BlockKind; 2],
    block: usize,
    most: u32,
    least: u32,
    out: &mut Levels,
) -> bool
    requires kinds { All IsKind kinds.now }
    requires precision { All (λ kind. kind.precision ≡ 0) kinds.now }
    requires coefficients { All IsCoefficient transform.now }
    requires none { most < least → quantised transform.now
        (kind_of (kind_at kinds.now 0) (kind_at kinds.now 1) block) ≡ replicate 64 (pos 0) }
    ensures value { out.new.at
        ≡ quantised transform.now (kind_of (kind_at kinds.now 0) (kind_at kinds.now 1) block) }
    ensures levels { All IsLevel out.new.at }
    ensures some { result ≡ not (is_empty out.new.at) }
{
    if most < least {
        out.at = [0; 64];
        return false;
    }
    quantise_one(transform, kinds, block, out)
}

/// The pattern with one block more, behind those that it holds.
#[inline(always)]
fn pattern_with(pattern: u8, some: bool) -> u8
    requires { pattern < 32 }
    ensures { result ≡ 2 * pattern + cond some 1 0 }
{
    if some { 2 * pattern + 1 } else { 2 * pattern }
}

/// The levels of the six blocks, by the kinds of luma and of chroma blocks, and their coded block pattern. The coefficients of
/// each lie from 0 at most so far; a block where that is less than `least` has no level.
pub fn quantise_blocks(
    transforms: &[[i32; 64]; 6],
    kinds: &[BlockKind; 2],
    most: &[u32; 6],
    least: u32,
    out: &mut [Levels; 6],
) -> u8
    requires kinds { All IsKind kinds.now }
    requires precision { All (λ kind. kind.precision ≡ 0) kinds.now }
    requires coefficients { All (All IsCoefficient) transforms.now }
    requires none { (b : ℕ) → b < 6 → slice_index most.now b < least
        → quantised (slice_index_or transforms.now b [])
        (kind_of (kind_at kinds.now 0) (kind_at kinds.now 1) b) ≡ replicate 64 (pos 0) }
    ensures value { levels_of out.new
        ≡ quantised_by transforms.now (kind_at kinds.now 0) (kind_at kinds.now 1) }
    ensures levels { All (λ l. All IsLevel l.at) out.new }
    ensures pattern { result ≡ pattern_in (levels_of out.new) }
    ensures most { result < 64 }
{
    let mut pattern = 0;
    for block in 0..6usize {
        let far = most[block];
        let some = quantise_reached(
            &transforms[block],
            kinds,
            block,
            far,
            least,
            &mut out[block],
        );
        pattern = pattern_with(pattern, some);
    }
    pattern
}
