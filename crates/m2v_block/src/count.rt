//! How many bits blocks take, without writing them.
ghost use Rattle.std.specs.Prelude.{◌≡◌, ℕ, Bool, ℤ, ◌+◌, ◌*◌, ◌^◌, ◌<◌, ◌≤◌, ◌&&◌, true, false, length, drop, slice_index, slice_index_or, All, pos, neg_ℤ, ◌+ℤ◌, ◌-ℤ◌, ◌≤ℤ◌, ◌<ℤ◌, int_le, int_lt, unsigned_abs, nat_eq, cond};
ghost use Rattle.m2v_quant.specs.Kinds.{IsKind, IsLevel};
ghost use Rattle.m2v_quant.specs.declared.kind.BlockKind.{BlockKind};
ghost use Rattle.m2v_block.specs.Blocks.{IsDc};
ghost use Rattle.m2v_block.specs.Texts.{IsBlock, code_text, pair_text, pairs_text, block_text};
ghost use Rattle.m2v_block.specs.Lengths.{pair_lengths, is_near as is_near_of};
ghost use Rattle.m2v_block.specs.Marked.{AreMarked};

use crate::dc::dc_bits;
use crate::lengths::{ONE_LENGTHS, ZERO_LENGTHS};
use crate::write::{code_of, marks_behind, marks_from, pair_code, run_at};
use m2v_quant::{BlockKind, Levels};
use m2v_vlc::Coefficient;

/// The lengths by the table that holds there.
#[inline(always)]
fn lengths_of(one: bool) -> &'static [u8; 2048]
    ensures { result.now ≡ pair_lengths one }
{
    if one {
        return &ONE_LENGTHS;
    }
    &ZERO_LENGTHS
}

/// Whether the tables of lengths have the level.
#[inline(always)]
fn is_near(level: i32) -> bool
    ensures { result ≡ is_near_of level }
{
    -16 <= level && level < 16
}

/// Where the tables of lengths have a pair.
#[inline(always)]
fn place(run: u8, level: i32) -> usize
    requires run { run < 64 }
    requires near { is_near_of level ≡ true }
    ensures value { pos result ≡ pos (32 * run + 16) +ℤ level }
    ensures below { result < 2048 }
{
    32 * run as usize + (level + 16) as usize
}

/// How many bits a pair takes that the tables of lengths haven't.
#[cold]
#[inline(never)]
#[tactic(auto, using(m2v_bits::proofs::Cursor::lengths))]
fn far_bits(one: bool, run: u8, level: i32) -> u32
    requires run { run < 64 }
    requires level { IsLevel level }
    ensures value { result ≡ length (pair_text false one run level) }
    ensures most { result ≤ 24 }
{
    pair_code(false, one, run, level).len as u32
}

/// How many bits a level that isn't 0 takes behind a run of zeros.
#[inline(always)]
fn pair_bits(lengths: &[u8; 2048], one: bool, run: u8, level: i32) -> u32
    requires lengths { lengths.now ≡ pair_lengths one }
    requires run { run < 64 }
    requires level { IsLevel level }
    ensures value { result ≡ length (pair_text false one run level) }
    ensures most { result ≤ 24 }
{
    if is_near(level) {
        return lengths[place(run, level)] as u32;
    }
    far_bits(one, run, level)
}

/// How many bits the end of a block takes.
#[inline(always)]
#[tactic(auto, using(m2v_bits::proofs::Cursor::lengths))]
fn end_bits(one: bool) -> u32
    ensures value { result ≡ length (code_text false one Coefficient.End) }
    ensures most { result ≤ 17 }
{
    code_of(false, one, Coefficient::End).len as u32
}

/// How many bits the levels from a place of the scan on take, none of them the first of a block that is not intra, and
/// the end of the block.
#[inline(always)]
fn pairs_bits(levels: &Levels, from: usize, one: bool) -> u32
    requires from { from ≤ 64 }
    requires levels { All IsLevel levels.now.at }
    ensures value { result ≡ length (pairs_text false one 0 (drop from levels.now.at)) }
    ensures most { result ≤ 1540 }
{
    let _levels = &levels.at;
    let lengths = lengths_of(one);
    let mut bits = 0;
    let mut at = from;
    let mut rest = marks_from(levels, from);
    while rest != 0 {
        let run = run_at(levels, at, rest);
        bits += pair_bits(lengths, one, run, levels.at[at + run as usize]);
        rest = marks_behind(levels, at, rest, run);
        at = at + run as usize + 1;
    }
    bits + end_bits(one)
}

/// How many bits less the first level of a block that is not intra takes, by its own code for run 0 and level 1.
#[inline(always)]
fn first_less(levels: &Levels) -> u32
    ensures { result ≡ cond (nat_eq (unsigned_abs (slice_index_or levels.now.at 0 (pos 0))) 1) 1 0 }
{
    if levels.at[0].unsigned_abs() == 1 {
        1
    } else {
        0
    }
}

/// How many bits an intra block takes behind its DC predictor.
#[inline(always)]
pub fn intra_bits(levels: &Levels, luma: bool, table_one: bool, dc_pred: i32) -> u32
    requires levels { All IsLevel levels.now.at }
    requires dc { IsDc 3 (slice_index_or levels.now.at 0 (pos 0)) }
    requires predictor { IsDc 3 dc_pred }
    ensures value { (kind : BlockKind) → kind.intra ≡ true → kind.luma ≡ luma
        → result ≡ length (block_text kind table_one dc_pred levels.now.at) }
    ensures most { result ≤ 1538 }
{
    let _levels = &levels.at;
    dc_bits(levels.at[0] - dc_pred, luma) + pairs_bits(levels, 1, table_one)
}

/// How many bits a block takes that is not intra.
#[inline(always)]
pub fn other_bits(levels: &Levels) -> u32
    requires levels { All IsLevel levels.now.at }
    ensures value { (kind : BlockKind) → kind.intra ≡ false → (table_one : Bool) (dc_pred : ℤ)
        → result ≡ length (block_text kind table_one dc_pred levels.now.at) }
    ensures most { result ≤ 1538 }
{
    let _levels = &levels.at;
    pairs_bits(levels, 0, false) - first_less(levels)
}

/// How many bits `write_block` takes for a block, at most 1538: 64 escaped pairs, and the end. Nothing is written.
pub fn block_bits(levels: &Levels, kind: &BlockKind, table_one: bool, dc_pred: i32) -> u32
    requires kind { IsKind kind.now }
    requires levels { IsBlock kind.now levels.now.at }
    requires predictor { kind.now.intra ≡ true → IsDc kind.now.precision dc_pred }
    ensures value { result ≡ length (block_text kind.now table_one dc_pred levels.now.at) }
    ensures most { result ≤ 1538 }
{
    if kind.intra {
        return intra_bits(levels, kind.luma, table_one, dc_pred);
    }
    other_bits(levels)
}
