//! The predictions of a macroblock, in order: each without blocks where it may be, and with coded blocks.
ghost use Rattle.std.specs.Prelude.{◌≡◌, ◌≢◌, ◌≤◌, ◌*◌, ◌^◌, ◌<◌, slice_index, ℕ, Bool, ◌||◌, true, false, cond, is_some, nat_eq, IsTrue, [], ◌∷◌};
ghost use Rattle.std.specs.List.{flat_map};
ghost use Rattle.m2v_macro.specs.declared.values.Direction.{Direction};
ghost use Rattle.m2v_macro.specs.Conditions.{IsMacro};
ghost use Rattle.m2v_macro.specs.Macros.{no_vectors};
ghost use Rattle.m2v_macroblock.specs.Predictions.{prediction_of};
ghost use Rattle.m2v_choose.specs.Decisions.{Prediction, uncoded_syntax, written, no_levels as no_levels_of};
ghost use Rattle.m2v_choose.specs.Candidates.{prediction, predictions_by, samples_by, by_prediction};
ghost use Rattle.m2v_choose.specs.Choice.{squared as squared_of};
ghost use Rattle.m2v_choose.specs.Trials.{IsMeasured, IsAlone, AreKinds, coded_least, shared_length, has_types, References, decided, references_of, IsTask, IsRead, IsRated, Tried, Predicts, CanCode, CanPredict, CanTry, direction_by, moving_syntax as moving_syntax_of, place_for};

use crate::bits::{KindBits, headers_of, kind_bits, least_header, shared_bits};
use crate::coding::{Uncoded, field_squares, has_dct_type, least_score, sends, with_blocks};
use crate::scratch::{CodingScratch, TrialScratch};
use crate::squares::{part_squares, uncoded_squares};
use crate::task::Task;
use crate::trial::{Best, no_levels};
use crate::vectors::{FieldVector, Vectors, no_vector, place_of};
use m2v_macro::MacroSyntax;
use m2v_macroblock::mode;
use m2v_plane::RefView;
use m2v_pred::{Block16, predict_in};

/// The vectors of a direction that is told, or none.
#[inline(always)]
fn told_vectors(told: bool, vectors: &Vectors) -> Vectors
    ensures { direction_by result ≡ cond told (direction_by vectors.now) no_vectors }
{
    if told {
        *vectors
    } else {
        Vectors {
            first: no_vector(),
            second: no_vector(),
        }
    }
}

/// The elements of a macroblock with a motion type and directions, without blocks.
#[tactic(auto, unfolding(crate::specs::Trials::moving_syntax))]
pub fn moving_syntax(
    task: &Task,
    form: u8,
    has_forward: bool,
    has_backward: bool,
    forward: &Vectors,
    backward: &Vectors,
) -> MacroSyntax
    ensures { result ≡ moving_syntax_of task.now.increment form has_forward has_backward
        (direction_by forward.now) (direction_by backward.now) }
{
    let f = told_vectors(has_forward, forward);
    let b = told_vectors(has_backward, backward);
    let mut m = MacroSyntax::blank();
    m.increment = task.increment;
    m.kind.forward = has_forward;
    m.kind.backward = has_backward;
    m.form = form;
    let (ahead, behind) = (f.first.vector, b.first.vector);
    m.vectors[0] = [ahead, behind];
    let (ahead, behind) = (f.second.vector, b.second.vector);
    m.vectors[1] = [ahead, behind];
    m.bottom[0] = [f.first.bottom, b.first.bottom];
    m.bottom[1] = [f.second.bottom, b.second.bottom];
    m
}

/// Predicts a macroblock by its own motion, or forward by vector 0 where it has none. `second` is room for the second of two
/// predictions whose mean is taken.
pub fn predict_moving<V: RefView>(
    task: &Task,
    forward: &V,
    backward: &V,
    bare: &MacroSyntax,
    second: &mut Block16,
    out: &mut Block16,
)
    requires task { IsTask task.now }
    requires code { CanCode task.now bare.now }
    requires predict { CanPredict task.now (V.size forward.now) (V.Holds forward.now)
        (V.Holds backward.now) bare.now }
    requires size { bare.now.kind.backward ≡ true → V.size backward.now ≡ V.size forward.now }
    ensures { out.new.at ≡ prediction_of (V.at forward.now)
        (V.at backward.now) task.now.context.now (place_for task.now) bare.now }
{
    let q = task.state.quantiser;
    let coded = with_blocks(bare, sends(task, q), q, false, 63);
    let mode = mode(task.context, &coded);
    predict_in(forward, backward, &mode, place_of(task), second, out);
}

/// The bits of a prediction without blocks, where it may be without: `shared` it has with blocks too.
#[inline(always)]
fn count_alone(
    task: &Task,
    bare: &MacroSyntax,
    kinds: &KindBits,
    shared: u32,
    uncoded: bool,
) -> Option<u32>
    requires task { IsTask task.now }
    requires code { CanCode task.now bare.now }
    requires stands { uncoded ≡ true → IsMacro task.now.context.now task.now.first bare.now }
    requires pattern { bare.now.pattern ≡ 0 }
    requires kinds { AreKinds task.now bare.now kinds.now }
    requires value { shared ≡ shared_length task.now.context.now task.now.state.now bare.now }
    requires most { shared ≤ 2 ^ 21 }
    ensures some { is_some result ≡ uncoded }
    ensures alone { IsAlone task.now bare.now result }
{
    if !uncoded {
        return None;
    }
    Some(shared + kinds.bare)
}

/// The least that a prediction scores with coded blocks by DCT type 1, where the picture has it.
#[inline(always)]
fn field_least(task: &Task, squares: &[u32; 6], header: u32) -> u64
    requires most { has_types task.now.context.now ≡ true
        → (b : ℕ) → b < 6 → slice_index squares.now b ≤ 8323200 }
    ensures { has_types task.now.context.now ≡ true
        → result ≡ coded_least ((2 * task.now.limits.now.q) ^ 2) header (slice_index squares.now) }
{
    if has_dct_type(task.context) {
        return least_score(task, squares, header);
    }
    0
}

impl Best {
    /// Tries a prediction without blocks, where it may be without: `alone` are its bits.
    fn try_uncoded(
        &mut self,
        task: &Task,
        bare: &MacroSyntax,
        alone: Option<u32>,
        prediction: &Block16,
        whole: u32,
    )
        requires task { IsTask task.now }
        requires alone { IsAlone task.now bare.now alone }
        requires pattern { bare.now.pattern ≡ 0 }
        requires whole { whole ≡ squared_of task.now.source.now.at prediction.now.at }
        requires most { whole ≤ 49939200 }
        ensures tried { (r : References) → Predicts r task.now bare.now prediction.now.at
            → IsRated (decided r task.now) self.old
            → Tried (decided r task.now) self.old self.new
            (cond (is_some alone) (written bare.now no_levels_of ∷ []) []) }
    {
        if let Some(bits) = alone {
            self.try_counted(task, bare, no_levels(), bits, prediction, whole);
        }
    }

    /// Tries a prediction that has these samples: without blocks where it may be, and all its codings. `alone` are its bits
    /// without blocks.
    fn try_predicted(
        &mut self,
        task: &Task,
        plain: &Uncoded,
        alone: Option<u32>,
        scratch: &mut CodingScratch,
    )
        requires task { IsTask task.now }
        requires code { CanCode task.now plain.now.bare.now }
        requires alone { IsAlone task.now plain.now.bare.now alone }
        requires pattern { plain.now.bare.now.pattern ≡ 0 }
        requires measured { IsMeasured task.now plain.now }
        ensures tried { (r : References) (p : Prediction)
            → plain.now.bare.now ≡ uncoded_syntax (decided r task.now) p
            → p.uncoded ≡ is_some alone
            → plain.now.prediction.now.at ≡ samples_by (decided r task.now) p
            → IsRated (decided r task.now) self.old
            → Tried (decided r task.now) self.old self.new (by_prediction (decided r task.now) p) }
    {
        let whole = uncoded_squares(plain.frame, 0);
        self.try_uncoded(task, plain.bare, alone, plain.prediction, whole);
        self.try_codings(task, plain, scratch);
    }

    /// Tries a prediction that has these samples.
    pub fn try_samples(
        &mut self,
        task: &Task,
        bare: &MacroSyntax,
        uncoded: bool,
        prediction: &Block16,
        coding: &mut CodingScratch,
    )
        requires task { IsTask task.now }
        requires code { CanCode task.now bare.now }
        requires stands { uncoded ≡ true → IsMacro task.now.context.now task.now.first bare.now }
        requires pattern { bare.now.pattern ≡ 0 }
        ensures tried { (r : References) (p : Prediction)
            → bare.now ≡ uncoded_syntax (decided r task.now) p → p.uncoded ≡ uncoded
            → prediction.now.at ≡ samples_by (decided r task.now) p
            → IsRated (decided r task.now) self.old
            → Tried (decided r task.now) self.old self.new (by_prediction (decided r task.now) p) }
    {
        let (mut frame, mut field) = ([0; 6], [0; 6]);
        part_squares(task.source, prediction, &mut frame);
        field_squares(task, prediction, &frame, &mut field);
        let kinds = kind_bits(task, bare);
        let shared = shared_bits(task, bare, &kinds);
        let headers = headers_of(task, bare, &kinds, shared);
        let header = least_header(task, bare, &headers);
        let alone = count_alone(task, bare, &kinds, shared, uncoded);
        let plain = Uncoded {
            bare,
            prediction,
            frame: &frame,
            field: &field,
            frame_least: least_score(task, &frame, header),
            field_least: field_least(task, &field, header),
            headers,
        };
        self.try_predicted(task, &plain, alone, coding);
    }

    /// Tries a prediction, whose samples then stand in the room.
    pub fn try_prediction<V: RefView>(
        &mut self,
        task: &Task,
        forward: &V,
        backward: &V,
        bare: &MacroSyntax,
        uncoded: bool,
        scratch: &mut TrialScratch,
    )
        requires task { IsTask task.now }
        requires can { CanTry task.now (V.size forward.now) (V.Holds forward.now)
            (V.Holds backward.now) bare.now uncoded }
        requires size { bare.now.kind.backward ≡ true → V.size backward.now ≡ V.size forward.now }
        ensures tried { (p : Prediction)
            → let d = decided (references_of (V.size forward.now) (V.at forward.now)
            (V.at backward.now)) task.now in
            bare.now ≡ uncoded_syntax d p → p.uncoded ≡ uncoded → IsRated d self.old
            → Tried d self.old self.new (by_prediction d p) }
        ensures samples { scratch.new.prediction.at ≡ prediction_of (V.at forward.now)
            (V.at backward.now) task.now.context.now (place_for task.now) bare.now }
        ensures kept { scratch.new.ahead ≡ scratch.old.ahead }
    {
        let TrialScratch {
            prediction,
            second,
            coding,
            ..
        } = scratch;
        predict_moving(task, forward, backward, bare, second, prediction);
        self.try_samples(task, bare, uncoded, prediction, coding);
    }
}
