//! Intra macroblocks: how one is held, and the codings of one, in order.
ghost use Rattle.std.specs.Prelude.{◌≡◌, ◌≤◌, ◌<◌, ◌+◌, ◌*◌, ◌^◌, ℕ, true, false, All, IsTrue, [], ◌∷◌, length, map, slice_index_or, replicate};
ghost use Rattle.m2v_quant.specs.Kinds.{IsLevel};
ghost use Rattle.m2v_macro.specs.States.{after};
ghost use Rattle.m2v_macro.specs.Texts.{macro_text};
ghost use Rattle.m2v_recon.specs.Steps.{levels_of};
ghost use Rattle.m2v_macroblock.specs.Macroblocks.{predictor as predictor_of};
ghost use Rattle.m2v_macroblock.specs.Texts.{block_in_text, blocks_text};
ghost use Rattle.m2v_choose.specs.Decisions.{Coding, intra_syntax as intra_syntax_of};
ghost use Rattle.m2v_choose.specs.Candidates.{codings_at, codings, intra_by};
ghost use Rattle.m2v_choose.specs.Choice.{squared as squared_of};
ghost use Rattle.m2v_choose.specs.Own.{IsCode};
ghost use Rattle.m2v_choose.specs.Trials.{References, decided, IsTask, IsRated, Tried, has_types, AreReached, first_by, CanTryIntra, IsIntraWhole, intra_macroblock, rebuilt_by};

use crate::blocks::quantise_one;
use crate::coding::{has_dct_type, intra_syntax, second_q};
use crate::reached::{begin, reach, transform_at};
use crate::scratch::{BothTransforms, CodingScratch};
use crate::task::Task;
use crate::trial::{Best, bit_cost, no_levels, no_prediction, rebuilt_block};
use m2v_macro::{MacroSyntax, macro_bits};
use m2v_macroblock::block::intra_bits;
use m2v_macroblock::{kinds, predictor};
use m2v_pred::Block16;
use m2v_quant::{BlockKind, Levels};

/// The bits of the blocks of an intra macroblock, and their squares.
#[derive(Clone, Copy)]
pub struct Sums {
    /// The bits. Of blocks that aren't reached four each: a block has at least two of its DC difference, and two of its end.
    pub bits: u32,
    /// The squares of the blocks that are reached.
    pub squares: u32,
}

/// What bits and squares add to a score.
#[inline(always)]
fn part_score(task: &Task, bits: u32, squares: u32) -> u64
    ensures { result ≡ (2 * task.now.limits.now.q) ^ 2 * bits + 8 * squares }
{
    bit_cost(task.limits, bits) + 8 * u64::from(squares)
}

/// How many bits an intra block takes whose levels are made, and those of the block before it.
#[inline(always)]
fn counted(
    task: &Task,
    _syntax: &MacroSyntax,
    _kinds: &[BlockKind; 2],
    block: usize,
    levels: &[Levels; 6],
) -> u32
    requires task { IsTask task.now }
    requires can { CanTryIntra task.now _syntax.now _kinds.now }
    requires block { block < 6 }
    requires levels { (b : ℕ) → b < block + 1 → slice_index_or (levels_of levels.now) b []
        ≡ slice_index_or (intra_macroblock task.now _syntax.now _kinds.now).levels b [] }
    ensures value { result ≡ length (block_in_text task.now.context.now
        (after task.now.context.now task.now.first _syntax.now)
        (intra_macroblock task.now _syntax.now _kinds.now) block) }
    ensures least { 4 ≤ result }
    ensures most { result ≤ 1538 }
{
    let one = task.context.extension.intra_vlc_format;
    let dc = predictor(&task.first.dc, levels, block);
    intra_bits(&levels[block], block < 4, one, dc)
}

/// Makes the levels of an intra block, behind those of the blocks before it.
#[inline(always)]
fn put_levels(
    _task: &Task,
    syntax: &MacroSyntax,
    transforms: &BothTransforms,
    kinds: &[BlockKind; 2],
    block: usize,
    levels: &mut [Levels; 6],
)
    requires task { IsTask _task.now }
    requires can { CanTryIntra _task.now syntax.now kinds.now }
    requires block { block < 6 }
    requires made { AreReached _task.now.source.now.at transforms.now }
    requires reached { block < (first_by syntax.now.dct_field transforms.now).count }
    requires levels { (b : ℕ) → b < block → slice_index_or (levels_of levels.old) b []
        ≡ slice_index_or (intra_macroblock _task.now syntax.now kinds.now).levels b [] }
    requires within { All (λ l. All IsLevel l.at) levels.old }
    ensures levels { (b : ℕ) → b < block + 1 → slice_index_or (levels_of levels.new) b []
        ≡ slice_index_or (intra_macroblock _task.now syntax.now kinds.now).levels b [] }
    ensures within { All (λ l. All IsLevel l.at) levels.new }
{
    let transform = transform_at(transforms, syntax.dct_field, block);
    quantise_one(transform, kinds, block, &mut levels[block]);
}

/// The bits and the squares of an intra macroblock's blocks, each of which is transformed, quantised, counted and rebuilt
/// when it is reached. Where what is known reaches a limit it is told, and no further block is; else all are.
fn sums_until(
    task: &Task,
    syntax: &MacroSyntax,
    kinds: &[BlockKind; 2],
    limit: u64,
    transforms: &mut BothTransforms,
    levels: &mut [Levels; 6],
    rebuilt: &mut Block16,
) -> Sums
    requires task { IsTask task.now }
    requires can { CanTryIntra task.now syntax.now kinds.now }
    requires limit { (2 * task.now.limits.now.q) ^ 2 * 24 < limit }
    requires made { AreReached task.now.source.now.at transforms.old }
    requires within { All (λ l. All IsLevel l.at) levels.old }
    ensures made { AreReached task.now.source.now.at transforms.new }
    ensures within { All (λ l. All IsLevel l.at) levels.new }
    ensures most { (2 * task.now.limits.now.q) ^ 2 * result.bits + 8 * result.squares
        ≤ (2 * task.now.limits.now.q) ^ 2 * length (blocks_text task.now.context.now
        (after task.now.context.now task.now.first syntax.now)
        (intra_macroblock task.now syntax.now kinds.now) 0 6)
        + 8 * squared_of task.now.source.now.at (rebuilt_by task.now (replicate 384 0)
        (intra_macroblock task.now syntax.now kinds.now)) }
    ensures whole { (2 * task.now.limits.now.q) ^ 2 * result.bits + 8 * result.squares < limit
        → IsIntraWhole task.now (intra_macroblock task.now syntax.now kinds.now) result levels.new
        rebuilt.new.at }
    ensures bits { result.bits ≤ 9252 }
    ensures squares { result.squares ≤ 49939200 }
{
    *rebuilt = *no_prediction();
    let mut bits = 24;
    let mut squares = 0;
    for block in 0..6usize {
        reach(task.source, syntax.dct_field, block, transforms);
        put_levels(task, syntax, transforms, kinds, block, levels);
        bits = bits + counted(task, syntax, kinds, block, levels) - 4;
        if part_score(task, bits, squares) >= limit {
            return Sums { bits, squares };
        }
        squares += rebuilt_block(task.source, syntax, levels, rebuilt, kinds, block);
        if part_score(task, bits, squares) >= limit {
            return Sums { bits, squares };
        }
    }
    Sums { bits, squares }
}

/// At least so many bits stand before the blocks of an intra macroblock: in a P or B picture five of its type (tables B.3 and
/// B.4).
#[inline(always)]
fn least_header(task: &Task) -> u32
    requires task { IsTask task.now }
    ensures value { (r : References) (k : Coding) → result ≤ length
        (macro_text task.now.context.now task.now.first (intra_syntax_of (decided r task.now) k)) }
    ensures most { result ≤ 5 }
{
    if task.context.kind == 1 { 0 } else { 5 }
}

impl Best {
    /// Tries an intra macroblock, as far as it may score less than the best so far.
    fn try_intra_coding(&mut self, task: &Task, q: u8, dct_field: bool, scratch: &mut CodingScratch)
        requires task { IsTask task.now }
        requires q { IsCode q }
        requires dct { dct_field ≡ true → has_types task.now.context.now ≡ true }
        requires made { AreReached task.now.source.now.at scratch.old.transforms }
        requires within { All (λ l. All IsLevel l.at) scratch.old.levels }
        ensures tried { (r : References) → IsRated (decided r task.now) self.old
            → Tried (decided r task.now) self.old self.new
            (intra_by (decided r task.now) (record { q = q; dct_field = dct_field }) ∷ []) }
        ensures made { AreReached task.now.source.now.at scratch.new.transforms }
        ensures within { All (λ l. All IsLevel l.at) scratch.new.levels }
    {
        let syntax = intra_syntax(task, q, dct_field);
        let kinds = kinds(task.context, true, q);
        let header = least_header(task);
        if bit_cost(task.limits, header + 24) >= self.below {
            return;
        }
        let limit = self.below - bit_cost(task.limits, header);
        let CodingScratch {
            transforms,
            levels,
            rebuilt,
        } = scratch;
        let sums = sums_until(task, &syntax, &kinds, limit, transforms, levels, rebuilt);
        if part_score(task, sums.bits, sums.squares) >= limit {
            return;
        }
        let bits = macro_bits(&syntax, task.context, &task.first) + sums.bits;
        self.try_rebuilt(task, &syntax, levels, bits, sums.squares, rebuilt);
    }

    /// Tries an intra macroblock by a quantiser, with both DCT types where the picture has them.
    fn try_intra_at(&mut self, task: &Task, q: u8, scratch: &mut CodingScratch)
        requires task { IsTask task.now }
        requires q { IsCode q }
        requires made { AreReached task.now.source.now.at scratch.old.transforms }
        requires within { All (λ l. All IsLevel l.at) scratch.old.levels }
        ensures tried { (r : References) → IsRated (decided r task.now) self.old
            → Tried (decided r task.now) self.old self.new
            (map (intra_by (decided r task.now)) (codings_at (decided r task.now) q)) }
        ensures made { AreReached task.now.source.now.at scratch.new.transforms }
        ensures within { All (λ l. All IsLevel l.at) scratch.new.levels }
    {
        self.try_intra_coding(task, q, false, scratch);
        if has_dct_type(task.context) {
            self.try_intra_coding(task, q, true, scratch);
        }
    }

    /// Whether an intra macroblock scores no less than the best so far, however it is coded: in a P or B picture its type has
    /// at least five bits (tables B.3 and B.4), and each block four.
    fn rules_out_intra(&self, task: &Task) -> bool
        requires task { IsTask task.now }
        ensures { IsTrue result → (r : References) → IsRated (decided r task.now) self.now
            → Tried (decided r task.now) self.now self.now
            (map (intra_by (decided r task.now)) (codings (decided r task.now))) }
    {
        if task.context.kind == 1 {
            return false;
        }
        bit_cost(task.limits, 5 + 6 * 4) >= self.below
    }

    /// Tries all codings of an intra macroblock, in order.
    pub fn try_intra(&mut self, task: &Task, scratch: &mut CodingScratch)
        requires task { IsTask task.now }
        ensures tried { (r : References) → IsRated (decided r task.now) self.old
            → Tried (decided r task.now) self.old self.new
            (map (intra_by (decided r task.now)) (codings (decided r task.now))) }
    {
        if self.rules_out_intra(task) {
            return;
        }
        begin(&mut scratch.transforms);
        scratch.levels = *no_levels();
        let q = task.limits.q;
        self.try_intra_at(task, q, scratch);
        let second = second_q(q);
        if second != q {
            self.try_intra_at(task, second, scratch);
        }
    }
}
