//! The best candidate of a macroblock so far, and candidates that are tried against it.
ghost use Rattle.std.specs.Prelude.{◌≡◌, ◌≢◌, ℕ, ◌+◌, ◌*◌, ◌^◌, ◌≤◌, ◌<◌, ◌&&◌, ◌⊎◌, All, List, true, cond, slice_index, nat_le, if◌then◌else◌, [], ◌∷◌, false, length, replicate};
ghost use Rattle.m2v_macro.specs.Conditions.{IsMacro};
ghost use Rattle.m2v_macro.specs.Texts.{macro_text};
ghost use Rattle.m2v_macroblock.specs.Macroblocks.{macroblock_of};
ghost use Rattle.m2v_macroblock.specs.Modes.{skipped_mode};
ghost use Rattle.m2v_quant.specs.Kinds.{IsKind, IsLevel};
ghost use Rattle.m2v_recon.specs.Macro.{is_coded as is_coded_in};
ghost use Rattle.m2v_recon.specs.Steps.{levels_of};
ghost use Rattle.m2v_pred.specs.Predicted.{predicted, block_by};
ghost use Rattle.m2v_choose.specs.Decisions.{place_of, skipped, written, no_levels as no_levels_of};
ghost use Rattle.m2v_choose.specs.Choice.{squared as squared_of, bits_taken, score};
ghost use Rattle.m2v_choose.specs.Laws.{IsWritable};
ghost use Rattle.m2v_choose.specs.Trials.{AreCoded, decided, References, IsTask, IsRated, Tried, Predicts, candidate_of, rebuilt_by, block_squared as block_squared_of, AreAlike, coded_squared, uncoded_squared, rebuilt_with};

use crate::bits::bits_until;
use crate::squares::{block_squared, squared};
use crate::task::Task;
use crate::values::{Choice, Limits};
use m2v_macro::MacroSyntax;
use m2v_macroblock::{kinds, macroblock_bits};
use m2v_pred::Block16;
use m2v_quant::{BlockKind, Levels};
use m2v_recon::{is_coded, rebuild_block};

static NO_LEVELS: [Levels; 6] = [
    Levels { at: [0; 64] },
    Levels { at: [0; 64] },
    Levels { at: [0; 64] },
    Levels { at: [0; 64] },
    Levels { at: [0; 64] },
    Levels { at: [0; 64] },
];

/// Six blocks without levels.
#[inline(always)]
pub fn no_levels() -> &'static [Levels; 6]
    ensures { levels_of result.now ≡ no_levels_of }
{
    &NO_LEVELS
}

static NO_PREDICTION: Block16 = Block16 { at: [0; 384] };

/// The prediction of an intra macroblock: samples 0.
#[inline(always)]
pub fn no_prediction() -> &'static Block16
    ensures { result.now.at ≡ replicate 384 0 }
{
    &NO_PREDICTION
}

/// The best candidate so far.
#[derive(Clone, Copy)]
pub struct Best {
    /// What is chosen with it.
    pub choice: Choice,
    /// Below what another one must score to be taken in its place: its score, or a lower limit.
    pub below: u64,
}

/// What bits cost in a score.
#[inline(always)]
pub fn bit_cost(limits: &Limits, bits: u32) -> u64
    ensures value { result ≡ (2 * limits.now.q) ^ 2 * bits }
    ensures most { result ≤ 2 ^ 52 }
{
    let step = 2 * u64::from(limits.q);
    step * step * u64::from(bits)
}

/// Whether so many bits fit any macroblock, and the room that is left in the slice.
#[inline(always)]
fn fits(limits: &Limits, bits: u32) -> bool
    ensures { result ≡ (nat_le bits 4608 && nat_le bits limits.now.room) }
{
    bits <= 4608 && u64::from(bits) <= limits.room
}

/// The quantiser code that a macroblock's blocks go by.
#[inline(always)]
fn quantiser_behind(task: &Task, syntax: &MacroSyntax) -> u8
    requires task { IsTask task.now }
    requires syntax { IsMacro task.now.context.now task.now.first syntax.now }
    ensures value { result ≡ (if syntax.now.kind.quant then syntax.now.quantiser else
        task.now.state.now.quantiser) }
    ensures code { (1 ≤ result) × (result ≤ 31) }
{
    if syntax.kind.quant {
        syntax.quantiser
    } else {
        task.state.quantiser
    }
}

/// The samples of a written macroblock as they are rebuilt, and the squares of its source less these.
fn rebuilt_squares(
    task: &Task,
    syntax: &MacroSyntax,
    levels: &[Levels; 6],
    prediction: &Block16,
    rebuilt: &mut Block16,
) -> u32
    requires task { IsTask task.now }
    requires writable { IsWritable task.now.context.now task.now.first
        (macroblock_of syntax.now levels.now) }
    ensures value { result ≡ squared_of task.now.source.now.at
        (rebuilt_by task.now prediction.now.at (macroblock_of syntax.now levels.now)) }
    ensures samples { rebuilt.new.at
        ≡ rebuilt_by task.now prediction.now.at (macroblock_of syntax.now levels.now) }
    ensures still { syntax.now.pattern ≡ 0
        → result ≡ squared_of task.now.source.now.at prediction.now.at }
    ensures most { result ≤ 49939200 }
{
    are_bytes(&prediction.at);
    is_whole(prediction);
    *rebuilt = *prediction;
    if syntax.pattern == 0 {
        return squared(task.source, prediction);
    }
    let quantiser = quantiser_behind(task, syntax);
    let kinds = kinds(task.context, syntax.kind.intra, quantiser);
    rebuild_block(rebuilt, levels, syntax.pattern, &kinds, syntax.dct_field);
    squared(task.source, rebuilt)
}

/// A macroblock has 384 samples.
#[inline(always)]
fn is_whole(samples: &Block16)
    ensures { length samples.now.at ≡ 384 }
{
    let _samples = &samples.at;
}

/// The pattern of one block.
#[inline(always)]
fn single(block: u32) -> u8
    requires block { block < 6 }
    ensures coded { is_coded_in result block ≡ true }
    ensures alone { (b : ℕ) → b < 6 → b ≢ block → is_coded_in result b ≡ false }
{
    32 >> block
}

/// The squares of one coded block: of its source less its samples as they are rebuilt. They are written over those of its
/// prediction, and no other block is touched.
#[inline(always)]
pub fn rebuilt_block(
    source: &Block16,
    syntax: &MacroSyntax,
    levels: &[Levels; 6],
    rebuilt: &mut Block16,
    kinds: &[BlockKind; 2],
    block: usize,
) -> u32
    requires block { block < 6 }
    requires kinds { All IsKind kinds.now }
    requires levels { All (λ l. All IsLevel l.at) levels.now }
    requires coded { is_coded_in syntax.now.pattern block ≡ true }
    ensures value { result ≡ block_squared_of syntax.now.dct_field source.now.at
        (rebuilt_with rebuilt.old.at syntax.now (levels_of levels.now) kinds.now) block }
    ensures most { result ≤ 8323200 }
    ensures len { length rebuilt.new.at ≡ 384 }
    ensures own { AreAlike syntax.now.dct_field block rebuilt.new.at
        (rebuilt_with rebuilt.old.at syntax.now (levels_of levels.now) kinds.now) }
    ensures rest { (b : ℕ) → b < 6 → b ≢ block
        → AreAlike syntax.now.dct_field b rebuilt.new.at rebuilt.old.at }
{
    are_bytes(&rebuilt.at);
    let one = single(block as u32);
    rebuild_block(rebuilt, levels, one, kinds, syntax.dct_field);
    block_squared(source, rebuilt, syntax.dct_field, block)
}

/// The squares of a block, 0 where it isn't coded. It is rebuilt over its prediction, and no other block is touched.
#[inline(always)]
fn coded_block(
    source: &Block16,
    syntax: &MacroSyntax,
    levels: &[Levels; 6],
    rebuilt: &mut Block16,
    kinds: &[BlockKind; 2],
    block: usize,
) -> u32
    requires block { block < 6 }
    requires kinds { All IsKind kinds.now }
    requires levels { All (λ l. All IsLevel l.at) levels.now }
    ensures value { result ≡ cond (is_coded_in syntax.now.pattern block)
        (block_squared_of syntax.now.dct_field source.now.at
        (rebuilt_with rebuilt.old.at syntax.now (levels_of levels.now) kinds.now) block) 0 }
    ensures most { result ≤ 8323200 }
    ensures len { length rebuilt.new.at ≡ 384 }
    ensures own { AreAlike syntax.now.dct_field block rebuilt.new.at
        (rebuilt_with rebuilt.old.at syntax.now (levels_of levels.now) kinds.now) }
    ensures rest { (b : ℕ) → b < 6 → b ≢ block
        → AreAlike syntax.now.dct_field b rebuilt.new.at rebuilt.old.at }
{
    are_bytes(&rebuilt.at);
    is_whole(rebuilt);
    if !is_coded(syntax.pattern, block as u32) {
        return 0;
    }
    rebuilt_block(source, syntax, levels, rebuilt, kinds, block)
}

/// The squares of the coded blocks, rebuilt one after another in one copy of the prediction: they share no sample. Where
/// eight times those of the first blocks reach a limit they are told, and no further one is rebuilt; else all are, and the
/// copy is handed out.
fn squares_until(
    source: &Block16,
    syntax: &MacroSyntax,
    levels: &[Levels; 6],
    prediction: &Block16,
    kinds: &[BlockKind; 2],
    limit: u64,
    out: &mut Block16,
) -> u32
    requires kinds { All IsKind kinds.now }
    requires levels { All (λ l. All IsLevel l.at) levels.now }
    requires limit { 0 < limit }
    ensures most { result ≤ coded_squared syntax.now.pattern
        (block_squared_of syntax.now.dct_field source.now.at
        (rebuilt_with prediction.now.at syntax.now (levels_of levels.now) kinds.now)) }
    ensures enough { (result ≡ coded_squared syntax.now.pattern
        (block_squared_of syntax.now.dct_field source.now.at
        (rebuilt_with prediction.now.at syntax.now (levels_of levels.now) kinds.now)))
        ⊎ (limit ≤ 8 * result) }
    ensures bound { result ≤ 49939200 }
    ensures rebuilt { 8 * result < limit → out.new.at
        ≡ rebuilt_with prediction.now.at syntax.now (levels_of levels.now) kinds.now }
    ensures kept { limit ≤ 8 * result → out.new ≡ out.old }
{
    are_bytes(&prediction.at);
    is_whole(prediction);
    if syntax.pattern == 0 {
        *out = *prediction;
        return 0;
    }
    let mut rebuilt = *prediction;
    let mut sum = 0;
    for block in 0..6usize {
        sum += coded_block(source, syntax, levels, &mut rebuilt, kinds, block);
        if limit <= 8 * u64::from(sum) {
            return sum;
        }
    }
    *out = rebuilt;
    sum
}

/// Samples are bytes.
#[inline(always)]
pub fn are_bytes(samples: &[u8])
    ensures { (k : ℕ) → slice_index samples.now k < 2 ^ 8 }
{}

/// The squares of a written macroblock's coded blocks, as long as eight times them lie below a limit: where they do, its
/// samples as they are rebuilt are written.
fn coded_squares(
    task: &Task,
    syntax: &MacroSyntax,
    levels: &[Levels; 6],
    prediction: &Block16,
    limit: u64,
    out: &mut Block16,
) -> u32
    requires task { IsTask task.now }
    requires writable { IsWritable task.now.context.now task.now.first
        (macroblock_of syntax.now levels.now) }
    requires limit { 0 < limit }
    ensures most { result ≤ coded_squared syntax.now.pattern
        (block_squared_of syntax.now.dct_field task.now.source.now.at
        (rebuilt_by task.now prediction.now.at (macroblock_of syntax.now levels.now))) }
    ensures enough { (result ≡ coded_squared syntax.now.pattern
        (block_squared_of syntax.now.dct_field task.now.source.now.at
        (rebuilt_by task.now prediction.now.at (macroblock_of syntax.now levels.now))))
        ⊎ (limit ≤ 8 * result) }
    ensures bound { result ≤ 49939200 }
    ensures rebuilt { 8 * result < limit → out.new.at
        ≡ rebuilt_by task.now prediction.now.at (macroblock_of syntax.now levels.now) }
    ensures kept { limit ≤ 8 * result → out.new ≡ out.old }
{
    let quantiser = quantiser_behind(task, syntax);
    let kinds = kinds(task.context, syntax.kind.intra, quantiser);
    squares_until(task.source, syntax, levels, prediction, &kinds, limit, out)
}

/// How many bits a written macroblock takes.
#[inline(always)]
pub fn bits_of(task: &Task, syntax: &MacroSyntax, levels: &[Levels; 6]) -> u32
    requires task { IsTask task.now }
    requires increment { syntax.now.increment ≡ task.now.increment }
    requires writable { IsWritable task.now.context.now task.now.first
        (macroblock_of syntax.now levels.now) }
    ensures value { (r : References)
        → result ≡ bits_taken (decided r task.now) (written syntax.now (levels_of levels.now)) }
    ensures most { result ≤ 2 ^ 22 }
{
    macroblock_bits(syntax, levels, task.context, &task.first)
}

impl Best {
    /// Takes a written candidate in the place of the best so far, but for its samples.
    #[inline(always)]
    fn take(&mut self, syntax: &MacroSyntax, levels: &[Levels; 6], bits: u32, score: u64)
        ensures skip { self.new.choice.skip ≡ false }
        ensures syntax { self.new.choice.syntax ≡ syntax.now }
        ensures levels { self.new.choice.levels ≡ levels.now }
        ensures bits { self.new.choice.bits ≡ bits }
        ensures samples { self.new.choice.samples ≡ self.old.choice.samples }
        ensures below { self.new.below ≡ score }
    {
        self.choice.skip = false;
        self.choice.syntax = *syntax;
        self.choice.levels = *levels;
        self.choice.bits = bits;
        self.below = score;
    }

    /// Tries a written candidate that isn't intra, whose prediction has these samples. So many bits stand before its blocks,
    /// and `still` are the squares of its blocks without levels, whose samples are the prediction's.
    pub fn try_written(
        &mut self,
        task: &Task,
        syntax: &MacroSyntax,
        levels: &[Levels; 6],
        prediction: &Block16,
        header: u32,
        still: u32,
    )
        requires task { IsTask task.now }
        requires increment { syntax.now.increment ≡ task.now.increment }
        requires coded { AreCoded syntax.now levels.now }
        requires header { header
            ≡ length (macro_text task.now.context.now task.now.state.now syntax.now) }
        requires short { header ≤ 2 ^ 23 }
        requires writable { IsWritable task.now.context.now task.now.first
            (macroblock_of syntax.now levels.now) }
        requires still { still ≡ uncoded_squared syntax.now.pattern (block_squared_of
            syntax.now.dct_field task.now.source.now.at prediction.now.at) }
        requires most { still ≤ 49939200 }
        ensures tried { (r : References) → Predicts r task.now syntax.now prediction.now.at
            → IsRated (decided r task.now) self.old
            → Tried (decided r task.now) self.old self.new
            (written syntax.now (levels_of levels.now) ∷ []) }
    {
        are_bytes(&prediction.at);
        let limit = self.below.saturating_sub(8 * u64::from(still));
        let bits = bits_until(task, syntax, levels, header, limit);
        if bit_cost(task.limits, bits) >= limit {
            return;
        }
        self.try_counted(task, syntax, levels, bits, prediction, still);
    }

    /// Tries a written candidate whose bits are counted, as [`try_written`](Self::try_written) does.
    pub fn try_counted(
        &mut self,
        task: &Task,
        syntax: &MacroSyntax,
        levels: &[Levels; 6],
        bits: u32,
        prediction: &Block16,
        still: u32,
    )
        requires task { IsTask task.now }
        requires writable { IsWritable task.now.context.now task.now.first
            (macroblock_of syntax.now levels.now) }
        requires bits { (r : References) → bits
            ≡ bits_taken (decided r task.now) (written syntax.now (levels_of levels.now)) }
        requires still { still ≡ uncoded_squared syntax.now.pattern (block_squared_of
            syntax.now.dct_field task.now.source.now.at prediction.now.at) }
        requires most { still ≤ 49939200 }
        ensures tried { (r : References) → Predicts r task.now syntax.now prediction.now.at
            → IsRated (decided r task.now) self.old
            → Tried (decided r task.now) self.old self.new
            (written syntax.now (levels_of levels.now) ∷ []) }
    {
        are_bytes(&prediction.at);
        if !fits(task.limits, bits) {
            return;
        }
        let cost = bit_cost(task.limits, bits) + 8 * u64::from(still);
        if cost >= self.below {
            return;
        }
        let limit = self.below - cost;
        let rebuilt = &mut self.choice.samples;
        let squares = coded_squares(task, syntax, levels, prediction, limit, rebuilt);
        let score = 8 * u64::from(squares) + cost;
        if score < self.below {
            self.take(syntax, levels, bits, score);
        }
    }

    /// Tries a written candidate that is rebuilt: its bits and its squares are known, and its samples.
    pub fn try_rebuilt(
        &mut self,
        task: &Task,
        syntax: &MacroSyntax,
        levels: &[Levels; 6],
        bits: u32,
        squares: u32,
        rebuilt: &Block16,
    )
        requires task { IsTask task.now }
        requires bits { (r : References) → bits
            ≡ bits_taken (decided r task.now) (written syntax.now (levels_of levels.now)) }
        requires squares { squares ≡ squared_of task.now.source.now.at rebuilt.now.at }
        ensures tried { (r : References) (prediction : List ℕ)
            → Predicts r task.now syntax.now prediction
            → rebuilt.now.at ≡ rebuilt_by task.now prediction (macroblock_of syntax.now levels.now)
            → IsRated (decided r task.now) self.old
            → Tried (decided r task.now) self.old self.new
            (written syntax.now (levels_of levels.now) ∷ []) }
    {
        if !fits(task.limits, bits) {
            return;
        }
        let score = 8 * u64::from(squares) + bit_cost(task.limits, bits);
        if score < self.below {
            self.take(syntax, levels, bits, score);
            self.choice.samples = *rebuilt;
        }
    }

    /// Tries to skip the macroblock, whose prediction has these samples, and these squares.
    pub fn try_skipped(&mut self, task: &Task, prediction: &Block16, squares: u32)
        requires task { IsTask task.now }
        requires most { squares ≤ 49939200 }
        ensures tried { (r : References)
            → prediction.now.at ≡ block_by
            (predicted r.forward r.backward
            (skipped_mode task.now.context.now task.now.state.now) (place_of (decided r task.now)))
            → squares ≡ squared_of task.now.source.now.at prediction.now.at
            → IsRated (decided r task.now) self.old
            → Tried (decided r task.now) self.old self.new (skipped ∷ []) }
    {
        let score = 8 * u64::from(squares);
        if score < self.below {
            let syntax = MacroSyntax::blank();
            self.take(&syntax, no_levels(), 0, score);
            self.choice.skip = true;
            self.choice.samples = *prediction;
        }
    }

    /// Holds the macroblock: the first candidate, whatever its bits are. Tells the squares of its samples.
    pub fn hold_written(
        &mut self,
        task: &Task,
        syntax: &MacroSyntax,
        levels: &[Levels; 6],
        prediction: &Block16,
    ) -> u32
        requires task { IsTask task.now }
        requires increment { syntax.now.increment ≡ task.now.increment }
        requires writable { IsWritable task.now.context.now task.now.first
            (macroblock_of syntax.now levels.now) }
        ensures candidate { candidate_of self.new.choice
            ≡ written syntax.now (levels_of levels.now) }
        ensures rated { (r : References) → Predicts r task.now syntax.now prediction.now.at
            → IsRated (decided r task.now) self.new }
        ensures score { (r : References) → Predicts r task.now syntax.now prediction.now.at
            → self.new.below ≡ score (decided r task.now) (candidate_of self.new.choice) }
        ensures still { syntax.now.pattern ≡ 0
            → result ≡ squared_of task.now.source.now.at prediction.now.at }
        ensures most { result ≤ 49939200 }
    {
        let bits = bits_of(task, syntax, levels);
        let rebuilt = &mut self.choice.samples;
        let squares = rebuilt_squares(task, syntax, levels, prediction, rebuilt);
        let score = 8 * u64::from(squares) + bit_cost(task.limits, bits);
        self.take(syntax, levels, bits, score);
        squares
    }
}
