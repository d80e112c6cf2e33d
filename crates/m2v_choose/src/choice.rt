//! The choice of a macroblock.
ghost use Rattle.std.specs.Prelude.{◌≡◌, ◌≢◌, ◌≤◌, ◌<◌, ◌+◌, ◌⊎◌, ◌++◌, true, false, cond, map, IsTrue, slice_index_or, pos, replicate, List, ℕ, [], ◌∷◌};
ghost use Rattle.std.specs.List.{flat_map};
ghost use Rattle.m2v_plane.specs.declared.dims.Dims.{Dims};
ghost use Rattle.m2v_pred.specs.Vectors.{IsInside, IsPlace};
ghost use Rattle.m2v_pred.specs.Predicted.{predicted, block_by};
ghost use Rattle.m2v_recon.specs.Steps.{levels_of};
ghost use Rattle.m2v_macroblock.specs.Modes.{skipped_mode as skipped_mode_of};
ghost use Rattle.m2v_macroblock.specs.Predictions.{View};
ghost use Rattle.m2v_macroblock.specs.Conditions.{AreDc};
ghost use Rattle.m2v_choose.specs.Decisions.{Decision, skipped, increment_of};
ghost use Rattle.m2v_choose.specs.Candidates.{still_vector as still_vector_of, held_levels as held_levels_of, hold as hold_of, may_skip as may_skip_of, codings, intra_by, by_prediction};
ghost use Rattle.m2v_choose.specs.Choice.{bits_taken, choice_of, samples_of, score, squared as squared_of};
ghost use Rattle.m2v_choose.specs.Own.{IsOwn, IsOwnState, AreLimits};
ghost use Rattle.m2v_choose.specs.Trials.{References, decided, references_of, IsTask, IsRead, IsRated, IsStill, zero_predictions, later_predictions, Tried, AreReferences, IsBefore, HasDirection, decision, place_at, candidate_of, direction_by, place_for};

use crate::coding::intra_syntax;
use crate::motion::plain_form;
use crate::predictions::{moving_syntax, predict_moving};
use crate::scratch::{ChoiceScratch, SearchedScratch, TrialScratch};
use crate::squares::squared;
use crate::task::{Task, task_of};
use crate::trial::{Best, bit_cost, no_levels, no_prediction};
use crate::values::{Choice, Limits};
use crate::vectors::{FieldVector, Vectors, no_vector, place_of};
use m2v_macro::{PictureContext, SliceState};
use m2v_macroblock::skipped_mode;
use m2v_plane::RefView;
use m2v_pred::{Block16, Mode, inside, predict_in};
use m2v_quant::Levels;

/// Vector zero; in a field picture from the field of the same parity.
#[inline(always)]
fn still_vector(context: &PictureContext) -> Vectors
    ensures { direction_by result ≡ still_vector_of context.now }
{
    Vectors {
        first: FieldVector {
            bottom: context.extension.structure == 2,
            vector: [0, 0],
        },
        second: no_vector(),
    }
}

/// A block that has a DC level alone.
#[inline(always)]
fn dc_block(dc: &[i32; 3], component: usize) -> Levels
    requires { component < 3 }
    ensures { result.at ≡ slice_index_or dc.now component (pos 0) ∷ replicate 63 (pos 0) }
{
    let mut levels = Levels { at: [0; 64] };
    levels.at[0] = dc[component];
    levels
}

/// The levels of a held intra macroblock: its DC predictors, so that all differences are 0.
#[tactic(auto, unfolding(crate::specs::Candidates::held_levels))]
fn held_levels(task: &Task) -> [Levels; 6]
    requires task { IsTask task.now }
    ensures value { (r : References) → levels_of result ≡ held_levels_of (decided r task.now) }
{
    let luma = dc_block(&task.first.dc, 0);
    let blue = dc_block(&task.first.dc, 1);
    let red = dc_block(&task.first.dc, 2);
    [luma, luma, luma, luma, blue, red]
}

impl Best {
    /// Holds the macroblock in an I picture.
    fn hold_intra(&mut self, task: &Task)
        requires task { IsTask task.now }
        requires kind { task.now.context.now.kind ≡ 1 }
        ensures candidate { (r : References)
            → candidate_of self.new.choice ≡ hold_of (decided r task.now) }
        ensures rated { (r : References) → IsRated (decided r task.now) self.new }
        ensures score { (r : References) → self.new.below
            ≡ score (decided r task.now) (candidate_of self.new.choice) }
    {
        let syntax = intra_syntax(task, task.state.quantiser, false);
        let levels = held_levels(task);
        self.hold_written(task, &syntax, &levels, no_prediction());
    }

    /// Holds the macroblock in a P or B picture: by vector zero, forward or backward. Leaves the samples of its prediction,
    /// and tells their squares.
    fn hold_still<V: RefView>(
        &mut self,
        task: &Task,
        forward: &V,
        backward: &V,
        second: &mut Block16,
        still: &mut Block16,
    ) -> u32
        requires task { IsTask task.now }
        requires kind { (task.now.context.now.kind ≡ 2) ⊎ (task.now.context.now.kind ≡ 3) }
        requires references { AreReferences task.now.context.now.kind (place_for task.now)
            (V.size forward.now) (V.size backward.now)
            (V.Holds forward.now) (V.Holds backward.now) }
        ensures candidate { candidate_of self.new.choice
            ≡ hold_of (decided (references_of (V.size forward.now) (V.at forward.now)
            (V.at backward.now)) task.now) }
        ensures rated { IsRated (decided
            (references_of (V.size forward.now) (V.at forward.now) (V.at backward.now)) task.now)
            self.new }
        ensures score { self.new.below ≡ score (decided
            (references_of (V.size forward.now) (V.at forward.now) (V.at backward.now)) task.now)
            (candidate_of self.new.choice) }
        ensures still { IsStill
            (references_of (V.size forward.now) (V.at forward.now) (V.at backward.now)) task.now
            still.new.at }
        ensures squares { result ≡ squared_of task.now.source.now.at still.new.at }
        ensures most { result ≤ 49939200 }
    {
        let vector = still_vector(task.context);
        let kind = task.context.kind;
        let form = plain_form(task.context);
        let m = moving_syntax(task, form, kind == 2, kind == 3, &vector, &vector);
        predict_moving(task, forward, backward, &m, second, still);
        self.hold_written(task, &m, no_levels(), still)
    }

    /// Holds the macroblock: the first candidate. In a P or B picture leaves the samples of its prediction, and tells their
    /// squares.
    fn hold<V: RefView>(
        &mut self,
        task: &Task,
        forward: &V,
        backward: &V,
        second: &mut Block16,
        still: &mut Block16,
    ) -> u32
        requires task { IsTask task.now }
        requires references { AreReferences task.now.context.now.kind (place_for task.now)
            (V.size forward.now) (V.size backward.now)
            (V.Holds forward.now) (V.Holds backward.now) }
        ensures candidate { candidate_of self.new.choice
            ≡ hold_of (decided (references_of (V.size forward.now) (V.at forward.now)
            (V.at backward.now)) task.now) }
        ensures rated { IsRated (decided
            (references_of (V.size forward.now) (V.at forward.now) (V.at backward.now)) task.now)
            self.new }
        ensures score { self.new.below ≡ score (decided
            (references_of (V.size forward.now) (V.at forward.now) (V.at backward.now)) task.now)
            (candidate_of self.new.choice) }
        ensures still { IsStill
            (references_of (V.size forward.now) (V.at forward.now) (V.at backward.now)) task.now
            still.new.at }
        ensures squares { task.now.context.now.kind ≡ 2
            → result ≡ squared_of task.now.source.now.at still.new.at }
        ensures most { result ≤ 49939200 }
    {
        if task.context.kind == 1 {
            self.hold_intra(task);
            return 0;
        }
        self.hold_still(task, forward, backward, second, still)
    }
}

/// Whether the macroblock may be skipped: it is neither the first nor the last one of its slice, and in a B picture not
/// behind an intra one, and only where its prediction stays inside. `mode` is that of a skipped macroblock.
#[tactic(auto, unfolding(crate::specs::Candidates::may_skip))]
fn may_skip<V: RefView>(task: &Task, forward: &V, mode: &Mode) -> bool
    requires task { IsTask task.now }
    requires mode { mode.now ≡ skipped_mode_of task.now.context.now task.now.state.now }
    requires place { task.now.context.now.kind ≡ 3
        → IsPlace (place_for task.now) (V.size forward.now) }
    ensures value { (f b : View)
        → result ≡ may_skip_of (decided (references_of (V.size forward.now) f b) task.now) }
    ensures inside { IsTrue result → task.now.context.now.kind ≡ 3
        → IsInside (skipped_mode_of task.now.context.now task.now.state.now) (place_for task.now)
        (V.size forward.now) }
{
    if task.limits.first || task.limits.last {
        return false;
    }
    if task.context.kind == 2 {
        return true;
    }
    if task.context.kind != 3 || task.state.intra {
        return false;
    }
    inside(mode, place_of(task), forward.dims())
}

impl Best {
    /// Tries to skip the macroblock, where it may be skipped. `still` are the samples of the held one in a P picture, and
    /// `squares` its squares.
    fn try_skip<V: RefView>(
        &mut self,
        task: &Task,
        forward: &V,
        backward: &V,
        still: &Block16,
        squares: u32,
        scratch: &mut TrialScratch,
    )
        requires task { IsTask task.now }
        requires direction { HasDirection task.now.context.now task.now.state.now
            task.now.limits.now }
        requires references { AreReferences task.now.context.now.kind (place_for task.now)
            (V.size forward.now) (V.size backward.now)
            (V.Holds forward.now) (V.Holds backward.now) }
        requires most { squares ≤ 49939200 }
        ensures tried { let r = references_of (V.size forward.now)
            (V.at forward.now) (V.at backward.now) in
            let d = decided r task.now in
            IsStill r task.now still.now.at
            → (task.now.context.now.kind ≡ 2
            → squares ≡ squared_of task.now.source.now.at still.now.at)
            → IsRated d self.old → Tried d self.old self.new
            (cond (may_skip_of d) (skipped ∷ []) []) }
    {
        let mode = skipped_mode(task.context, task.state);
        if !may_skip(task, forward, &mode) {
            return;
        }
        if task.context.kind == 2 {
            self.try_skipped(task, still, squares);
            return;
        }
        let TrialScratch {
            prediction,
            second,
            ..
        } = scratch;
        predict_in(forward, backward, &mode, place_of(task), second, prediction);
        self.try_skipped(task, prediction, squared(task.source, prediction));
    }
}

/// Below what a candidate must score to be taken in the place of one that comes before it, and of one that comes behind it
/// and wins no tie.
#[inline(always)]
fn limit_of(before: u64, behind: u64) -> u64
    ensures most { result ≤ before }
    ensures near { result ≤ behind + 1 }
    ensures one { (result ≡ before) ⊎ (result ≡ behind + 1) }
{
    if behind < before { behind + 1 } else { before }
}

impl Best {
    /// Whether hold or skip scores no more than any other candidate's bits alone: in a P or B picture each has at least three,
    /// one of its address and two of its type or of its pattern (tables B.1, B.3, B.4 and B.9). Then nothing is searched.
    #[inline(always)]
    fn is_settled(&self, task: &Task) -> bool
        requires task { IsTask task.now }
        ensures { IsTrue result → (r : References) → IsRated (decided r task.now) self.now
            → (Tried (decided r task.now) self.now self.now (map (intra_by (decided r task.now))
            (codings (decided r task.now)) ++ flat_map (by_prediction (decided r task.now))
            (zero_predictions (decided r task.now))))
            × (Tried (decided r task.now) self.now self.now
            (flat_map (by_prediction (decided r task.now))
            (later_predictions (decided r task.now)))) }
    {
        if task.context.kind == 1 {
            return false;
        }
        bit_cost(task.limits, 3) >= self.below
    }

    /// Decides a macroblock: of the candidates that are short enough, the first of least score. Predictions by vectors are
    /// tried first, though they come last: intra macroblocks and the type without a direction, which seldom score less, are
    /// then looked at only as far as they score no more.
    fn decide<V: RefView>(
        &mut self,
        task: &Task,
        forward: &V,
        backward: &V,
        still: &mut Block16,
        scratch: &mut SearchedScratch,
    )
        requires task { IsTask task.now }
        requires direction { HasDirection task.now.context.now task.now.state.now
            task.now.limits.now }
        requires references { AreReferences task.now.context.now.kind (place_for task.now)
            (V.size forward.now) (V.size backward.now)
            (V.Holds forward.now) (V.Holds backward.now) }
        ensures value { candidate_of self.new.choice
            ≡ choice_of (decided (references_of (V.size forward.now) (V.at forward.now)
            (V.at backward.now)) task.now) }
        ensures bits { let d = decided
            (references_of (V.size forward.now) (V.at forward.now) (V.at backward.now)) task.now in
            self.new.choice.bits ≡ bits_taken d (choice_of d) }
        ensures samples { let d = decided
            (references_of (V.size forward.now) (V.at forward.now) (V.at backward.now)) task.now in
            self.new.choice.samples.at ≡ samples_of d (choice_of d) }
    {
        let squares = self.hold(task, forward, backward, &mut scratch.trial.second, still);
        self.try_skip(task, forward, backward, still, squares, &mut scratch.trial);
        if self.is_settled(task) {
            return;
        }
        let before = self.below;
        self.try_later(task, forward, backward, scratch);
        self.below = limit_of(before, self.below);
        self.try_intra(task, &mut scratch.trial.coding);
        self.try_zero(task, still, &mut scratch.trial.coding);
    }
}

/// What is chosen of a macroblock (clauses 6.2.5 and 6.3.17): of all candidates that have at most 4,608 bits and at most the
/// room, the first of least score, which weighs the squares of its samples' differences against its bits. In a P picture the
/// forward reference is read, in a B picture both are, and both are of one size; of a view that isn't read nothing is asked.
/// A view that is read holds the macroblock rows before, at and after the macroblock's. Takes no memory.
pub fn choose<V: RefView>(
    source: &Block16,
    forward: &V,
    backward: &V,
    context: &PictureContext,
    state: &SliceState,
    limits: &Limits,
) -> Choice
    requires own { IsOwn context.now }
    requires state { IsOwnState state.now }
    requires dc { AreDc 0 state.now.dc }
    requires direction { HasDirection context.now state.now limits.now }
    requires address { IsBefore context.now state.now limits.now }
    requires limits { AreLimits limits.now }
    requires row { limits.now.row < 72 }
    requires column { limits.now.column < context.now.columns }
    requires forward { context.now.kind ≢ 1
        → IsRead (V.size forward.now) (V.Holds forward.now) (place_at context.now limits.now) }
    requires backward { context.now.kind ≡ 3
        → IsRead (V.size backward.now) (V.Holds backward.now) (place_at context.now limits.now) }
    requires sizes { context.now.kind ≡ 3 → V.size backward.now ≡ V.size forward.now }
    requires room { let d = decision (V.size forward.now) source.now.at (V.at forward.now)
        (V.at backward.now) context.now state.now limits.now in
        bits_taken d (hold_of d) ≤ limits.now.room }
    ensures value { candidate_of result
        ≡ choice_of (decision (V.size forward.now) source.now.at (V.at forward.now)
        (V.at backward.now) context.now state.now limits.now) }
    ensures bits { let d = decision (V.size forward.now) source.now.at (V.at forward.now)
        (V.at backward.now) context.now state.now limits.now in
        result.bits ≡ bits_taken d (choice_of d) }
    ensures samples { let d = decision (V.size forward.now) source.now.at (V.at forward.now)
        (V.at backward.now) context.now state.now limits.now in
        result.samples.at ≡ samples_of d (choice_of d) }
    ensures most { result.bits ≤ 4608 }
    ensures fits { result.bits ≤ limits.now.room }
{
    let mut scratch = ChoiceScratch::new();
    choose_in(
        source,
        forward,
        backward,
        context,
        state,
        limits,
        &mut scratch,
    )
}

/// What `choose` chooses, in room that is lent: whatever stands in it before.
pub fn choose_in<V: RefView>(
    source: &Block16,
    forward: &V,
    backward: &V,
    context: &PictureContext,
    state: &SliceState,
    limits: &Limits,
    scratch: &mut ChoiceScratch,
) -> Choice
    requires own { IsOwn context.now }
    requires state { IsOwnState state.now }
    requires dc { AreDc 0 state.now.dc }
    requires direction { HasDirection context.now state.now limits.now }
    requires address { IsBefore context.now state.now limits.now }
    requires limits { AreLimits limits.now }
    requires row { limits.now.row < 72 }
    requires column { limits.now.column < context.now.columns }
    requires forward { context.now.kind ≢ 1
        → IsRead (V.size forward.now) (V.Holds forward.now) (place_at context.now limits.now) }
    requires backward { context.now.kind ≡ 3
        → IsRead (V.size backward.now) (V.Holds backward.now) (place_at context.now limits.now) }
    requires sizes { context.now.kind ≡ 3 → V.size backward.now ≡ V.size forward.now }
    requires room { let d = decision (V.size forward.now) source.now.at (V.at forward.now)
        (V.at backward.now) context.now state.now limits.now in
        bits_taken d (hold_of d) ≤ limits.now.room }
    ensures value { candidate_of result
        ≡ choice_of (decision (V.size forward.now) source.now.at (V.at forward.now)
        (V.at backward.now) context.now state.now limits.now) }
    ensures bits { let d = decision (V.size forward.now) source.now.at (V.at forward.now)
        (V.at backward.now) context.now state.now limits.now in
        result.bits ≡ bits_taken d (choice_of d) }
    ensures samples { let d = decision (V.size forward.now) source.now.at (V.at forward.now)
        (V.at backward.now) context.now state.now limits.now in
        result.samples.at ≡ samples_of d (choice_of d) }
    ensures most { result.bits ≤ 4608 }
    ensures fits { result.bits ≤ limits.now.room }
{
    let task = task_of(source, context, state, limits);
    let ChoiceScratch {
        best,
        still,
        searched,
    } = scratch;
    best.decide(&task, forward, backward, still, searched);
    best.choice
}
