ghost use Rattle.std.specs.Prelude.{◌≡◌, ℕ, ◌+◌, ◌^◌, ◌<◌, ◌≤◌, ◌++◌, Bool, true, false, length, drop, slice_index_or, All, ℤ, pos};
ghost use Rattle.m2v_bits.specs.Syntax.{Spells};
ghost use Rattle.m2v_bits.specs.Outputs.{Gains};
ghost use Rattle.m2v_vlc.specs.Lookups.{spelled};
ghost use Rattle.m2v_quant.specs.Kinds.{IsKind, IsLevel};
ghost use Rattle.m2v_block.specs.Dc.{dc_text};
ghost use Rattle.m2v_block.specs.Blocks.{IsDc, block_at, predictor_after};
ghost use Rattle.m2v_block.specs.Texts.{IsBlock, code_text, twelve, escape_text, pair_text, is_zero, pairs_text, block_text};
ghost use Rattle.m2v_block.specs.Marked.{AreMarked};

use crate::dc::put_dc;
use m2v_bits::{BitOutput, BitWriter};
use m2v_quant::{BlockKind, Levels};
use m2v_vlc::{
    Code, Coefficient, append_code, code_coefficient_one, code_coefficient_zero, code_first_zero,
};
use std::simd::prelude::*;

/// The code by the table that holds there, of no bits where it has none.
#[inline(always)]
#[tactic(auto, unfolding(crate::specs::Texts::code_text))]
pub fn code_of(first: bool, one: bool, c: Coefficient) -> Code
    ensures spelled { spelled result ≡ code_text first one c }
    ensures width { result.len ≤ 17 }
    ensures fits { result.number < 2 ^ result.len }
{
    if first {
        code_first_zero(c)
    } else if one {
        code_coefficient_one(c)
    } else {
        code_coefficient_zero(c)
    }
}

/// Appends a code by the table that holds there.
#[inline(always)]
#[tactic(auto, using(m2v_bits::proofs::Cursor::lengths))]
fn put_code<O: BitOutput>(first: bool, one: bool, c: Coefficient, out: &mut O)
    requires { length (code_text first one c) ≤ O.space out.old }
    ensures { Gains O.took O.space out.old (code_text first one c) out.new }
{
    append_code(code_of(first, one, c), out);
}

/// A run and a level.
#[inline(always)]
fn pair_of(run: u8, level: i32) -> Coefficient
    requires { IsLevel level }
    ensures { result ≡ Coefficient.Pair run level }
{
    Coefficient::Pair {
        run,
        level: level as i16,
    }
}

/// A level in twelve bits of two's complement.
#[inline(always)]
#[tactic(auto, unfolding(crate::specs::Texts::twelve))]
fn twelve(level: i32) -> u32
    requires { IsLevel level }
    ensures value { result ≡ twelve level }
    ensures below { result < 2 ^ 12 }
{
    if level < 0 {
        4096 - level.unsigned_abs()
    } else {
        level.unsigned_abs()
    }
}

/// The escape, a run and a level, as one code of 24 bits.
#[inline(always)]
fn escape_of(run: u8, level: i32) -> Code
    requires run { run < 64 }
    requires level { IsLevel level }
    ensures spelled { (first one : Bool) → spelled result ≡ escape_text first one run level }
    ensures width { result.len ≡ 24 }
    ensures fits { result.number < 2 ^ 24 }
{
    Code {
        number: (64 + run as u32) * 4096 + twelve(level),
        len: 24,
    }
}

/// The code of a pair, or the escape where there is none.
#[inline(always)]
pub fn pair_code(first: bool, one: bool, run: u8, level: i32) -> Code
    requires run { run < 64 }
    requires level { IsLevel level }
    ensures spelled { spelled result ≡ pair_text first one run level }
    ensures width { result.len ≤ 24 }
    ensures fits { result.number < 2 ^ result.len }
{
    let code = code_of(first, one, pair_of(run, level));
    if code.len == 0 {
        return escape_of(run, level);
    }
    code
}

/// Appends a level that isn't 0 behind a run of zeros.
#[inline(always)]
#[tactic(auto, using(m2v_bits::proofs::Cursor::lengths))]
fn put_pair<O: BitOutput>(first: bool, one: bool, run: u8, level: i32, out: &mut O)
    requires run { run < 64 }
    requires level { IsLevel level }
    requires room { length (pair_text first one run level) ≤ O.space out.old }
    ensures { Gains O.took O.space out.old (pair_text first one run level) out.new }
{
    let code = pair_code(first, one, run, level);
    out.append(code.number, code.len);
}

/// One bit a level, the lowest bit for the first one: 1 where the level isn't 0.
#[inline(always)]
fn marks(levels: &Levels) -> u64
    requires { All IsLevel levels.now.at }
    ensures { AreMarked levels.now.at 0 result }
{
    i32x64::from_slice(&levels.at)
        .simd_ne(i32x64::splat(0))
        .to_bitmask()
}

/// The same from a place of the scan on.
#[inline(always)]
pub fn marks_from(levels: &Levels, from: usize) -> u64
    requires from { from ≤ 64 }
    requires levels { All IsLevel levels.now.at }
    ensures { AreMarked levels.now.at from result }
{
    let _levels = &levels.at;
    if from == 64 {
        return 0;
    }
    marks(levels) >> from
}

/// How many levels from this place on are 0, before one that isn't.
#[inline(always)]
pub fn run_at(levels: &Levels, at: usize, rest: u64) -> u8
    requires some { 0 < rest }
    requires marks { AreMarked levels.now.at at rest }
    ensures within { at + result < 64 }
    ensures zeros { (j : ℕ) → j < result → slice_index_or levels.now.at (at + j) (pos 0) ≡ pos 0 }
    ensures some { is_zero (slice_index_or levels.now.at (at + result) (pos 0)) ≡ false }
{
    let _levels = &levels.at;
    rest.trailing_zeros() as u8
}

/// The marks of what stands behind a run and its level.
#[inline(always)]
pub fn marks_behind(_levels: &Levels, _at: usize, rest: u64, run: u8) -> u64
    requires run { run < 64 }
    requires marks { AreMarked _levels.now.at _at rest }
    ensures { AreMarked _levels.now.at (_at + run + 1) result }
{
    (rest >> run) >> 1
}

/// Appends the levels from a place of the scan on, and the end of the block. Most levels are 0: by lanes it is found which
/// aren't.
#[inline(always)]
fn put_pairs<O: BitOutput>(levels: &Levels, from: usize, first: bool, one: bool, out: &mut O)
    requires from { from ≤ 64 }
    requires levels { All IsLevel levels.now.at }
    requires room { length (pairs_text first one 0 (drop from levels.now.at)) ≤ O.space out.old }
    ensures { Gains O.took O.space out.old (pairs_text first one 0 (drop from levels.now.at))
        out.new }
{
    let mut none = first;
    let mut at = from;
    let mut rest = marks_from(levels, from);
    while rest != 0 {
        let run = run_at(levels, at, rest);
        put_pair(none, one, run, levels.at[at + run as usize], out);
        none = false;
        rest = marks_behind(levels, at, rest, run);
        at = at + run as usize + 1;
    }
    put_code(false, one, Coefficient::End, out);
}

/// Appends a block as `write_block` does, behind the DC predictor, to whatever takes bits.
#[inline(always)]
#[tactic(auto, unfolding(crate::specs::Texts::block_text))]
pub fn put_block<O: BitOutput>(
    levels: &Levels,
    kind: &BlockKind,
    table_one: bool,
    dc_pred: i32,
    out: &mut O,
)
    requires kind { IsKind kind.now }
    requires levels { IsBlock kind.now levels.now.at }
    requires predictor { kind.now.intra ≡ true → IsDc kind.now.precision dc_pred }
    requires room { length (block_text kind.now table_one dc_pred levels.now.at) ≤ O.space out.old }
    ensures { Gains O.took O.space out.old (block_text kind.now table_one dc_pred levels.now.at)
        out.new }
{
    if kind.intra {
        put_dc(levels.at[0] - dc_pred, kind.luma, out);
        put_pairs(levels, 1, false, table_one, out);
    } else {
        put_pairs(levels, 0, true, false, out);
    }
}

/// Appends a block (clauses 6.2.6 and 7.2) of 64 levels in scan order: an intra DC by its difference to the predictor,
/// each pair by its code, or by escape where its table has none, and the end of the block. `table_one` is
/// intra_vlc_format; `dc_pred` becomes the DC level of an intra block, and stays at any other.
pub fn write_block(
    levels: &Levels,
    kind: &BlockKind,
    table_one: bool,
    dc_pred: &mut i32,
    out: &mut BitWriter,
)
    requires kind { IsKind kind.now }
    requires levels { IsBlock kind.now levels.now.at }
    requires predictor { kind.now.intra ≡ true → IsDc kind.now.precision dc_pred.old }
    requires room { length (block_text kind.now table_one dc_pred.old levels.now.at)
        ≤ out.old.room }
    ensures written { out.new.written ≡ out.old.written ++ block_text kind.now table_one dc_pred.old
        levels.now.at }
    ensures room { out.new.room + length (block_text kind.now table_one dc_pred.old levels.now.at)
        ≡ out.old.room }
    ensures predictor { dc_pred.new ≡ predictor_after kind.now dc_pred.old levels.now.at }
    ensures spells { Spells (block_at kind.now table_one dc_pred.old) levels.now.at
        (block_text kind.now table_one dc_pred.old levels.now.at) }
{
    put_block(levels, kind, table_one, *dc_pred, out);
    if kind.intra {
        *dc_pred = levels.at[0];
    }
}
