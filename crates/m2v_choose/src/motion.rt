//! The predictions that a macroblock has, by its picture: what is searched, and in which directions.
ghost use Rattle.std.specs.Prelude.{◌≡◌, ◌≢◌, Bool, ◌||◌, ◌⊎◌, true, false, cond, []};
ghost use Rattle.std.specs.List.{flat_map};
ghost use Rattle.m2v_macro.specs.declared.values.Direction.{Direction};
ghost use Rattle.m2v_macro.specs.Conditions.{IsMacro};
ghost use Rattle.m2v_macroblock.specs.Predictions.{prediction_of};
ghost use Rattle.m2v_choose.specs.Decisions.{has_dct_type as has_dct_type_of};
ghost use Rattle.m2v_choose.specs.Candidates.{plain_form as plain_form_of, plain_direction as plain_direction_of, field_direction as field_direction_of, prediction, predictions_by, by_prediction};
ghost use Rattle.m2v_choose.specs.Trials.{References, decided, references_of, IsTask, IsRead, IsRated, IsStill, Tried, CanCode, CanTry, Goes, zero_predictions, later_predictions, AreReferences, direction_by, moving_syntax as moving_syntax_of, place_for};

use crate::coding::{has_dct_type, no_form};
use crate::predictions::moving_syntax;
use crate::scratch::{CodingScratch, SearchedScratch, TrialScratch};
use crate::task::Task;
use crate::trial::Best;
use crate::vectors::{Vectors, field_direction, no_vector, plain_direction};
use m2v_kernel::average_into;
use m2v_macro::PictureContext;
use m2v_plane::RefView;
use m2v_pred::Block16;
use m2v_search::SearchScratch;

/// What was searched: a motion type, and the vectors of both directions.
#[derive(Clone, Copy)]
struct Searched {
    form: u8,
    ahead: Vectors,
    behind: Vectors,
}

/// The directions in which a macroblock is predicted.
#[derive(Clone, Copy)]
struct Directions {
    forward: bool,
    backward: bool,
}

const FORWARD: Directions = Directions {
    forward: true,
    backward: false,
};

const BACKWARD: Directions = Directions {
    forward: false,
    backward: true,
};

/// The motion type of one vector: frame prediction in a frame picture, field prediction in a field picture.
#[inline(always)]
#[tactic(auto, unfolding(crate::specs::Candidates::plain_form))]
pub fn plain_form(context: &PictureContext) -> u8
    ensures { result ≡ plain_form_of context.now }
{
    if context.extension.structure == 3 {
        2
    } else {
        1
    }
}

/// No vectors.
#[inline(always)]
pub fn no_vectors() -> Vectors {
    Vectors {
        first: no_vector(),
        second: no_vector(),
    }
}

/// The vectors of one each from the backward reference, in a B picture.
#[inline(always)]
fn plain_backward<V: RefView>(task: &Task, backward: &V, scratch: &mut SearchScratch) -> Vectors
    requires task { IsTask task.now }
    requires view { task.now.context.now.kind ≡ 3
        → IsRead (V.size backward.now) (V.Holds backward.now) (place_for task.now) }
    ensures value { task.now.context.now.kind ≡ 3 → (r : References) → r.dims ≡ V.size backward.now
        → direction_by result ≡ plain_direction_of (decided r task.now) (V.at backward.now) }
{
    if task.context.kind == 3 {
        return plain_direction(task, backward, scratch);
    }
    no_vectors()
}

/// The vectors of both fields from the backward reference, in a B picture.
#[inline(always)]
fn field_backward<V: RefView>(task: &Task, backward: &V, scratch: &mut SearchScratch) -> Vectors
    requires task { IsTask task.now }
    requires view { task.now.context.now.kind ≡ 3
        → IsRead (V.size backward.now) (V.Holds backward.now) (place_for task.now) }
    requires structure { task.now.context.now.extension.structure ≡ 3 }
    ensures value { task.now.context.now.kind ≡ 3 → (r : References) → r.dims ≡ V.size backward.now
        → direction_by result ≡ field_direction_of (decided r task.now) (V.at backward.now) }
{
    if task.context.kind == 3 {
        return field_direction(task, backward, scratch);
    }
    no_vectors()
}

impl Best {
    /// Tries a prediction by a motion type, with vectors in its directions. Its samples then stand in the room.
    fn try_moving<V: RefView>(
        &mut self,
        task: &Task,
        forward: &V,
        backward: &V,
        searched: &Searched,
        goes: Directions,
        scratch: &mut TrialScratch,
    )
        requires task { IsTask task.now }
        requires can { CanTry task.now (V.size forward.now) (V.Holds forward.now)
            (V.Holds backward.now)
            (moving_syntax_of task.now.increment searched.now.form goes.forward goes.backward
            (direction_by searched.now.ahead) (direction_by searched.now.behind)) true }
        requires size { goes.backward ≡ true → V.size backward.now ≡ V.size forward.now }
        ensures tried { (f b : Direction)
            → let d = decided (references_of (V.size forward.now) (V.at forward.now)
            (V.at backward.now)) task.now in
            (goes.forward ≡ true → direction_by searched.now.ahead ≡ f)
            → (goes.backward ≡ true → direction_by searched.now.behind ≡ b)
            → IsRated d self.old → Tried d self.old self.new
            (by_prediction d (prediction searched.now.form goes.forward goes.backward f b)) }
        ensures samples { scratch.new.prediction.at ≡ prediction_of (V.at forward.now)
            (V.at backward.now) task.now.context.now (place_for task.now)
            (moving_syntax_of task.now.increment searched.now.form goes.forward goes.backward
            (direction_by searched.now.ahead) (direction_by searched.now.behind)) }
        ensures kept { scratch.new.ahead ≡ scratch.old.ahead }
    {
        let Searched {
            form,
            ahead,
            behind,
        } = searched;
        let m = moving_syntax(task, *form, goes.forward, goes.backward, ahead, behind);
        self.try_prediction(task, forward, backward, &m, true, scratch);
    }

    /// Tries the prediction in both directions by a motion type: the mean of the one forward, which stands in `ahead`, and
    /// of the one backward.
    fn try_both(&mut self, task: &Task, searched: &Searched, scratch: &mut TrialScratch)
        requires task { IsTask task.now }
        requires code { CanCode task.now
            (moving_syntax_of task.now.increment searched.now.form true true
            (direction_by searched.now.ahead) (direction_by searched.now.behind)) }
        requires stands { IsMacro task.now.context.now task.now.first
            (moving_syntax_of task.now.increment searched.now.form true true
            (direction_by searched.now.ahead) (direction_by searched.now.behind)) }
        requires form { searched.now.form ≢ 3 }
        ensures tried { (r : References) (f b : Direction)
            → scratch.old.ahead.at ≡ prediction_of r.forward r.backward task.now.context.now
            (place_for task.now) (moving_syntax_of task.now.increment searched.now.form true false
            (direction_by searched.now.ahead) (direction_by searched.now.behind))
            → scratch.old.prediction.at ≡ prediction_of r.forward r.backward task.now.context.now
            (place_for task.now) (moving_syntax_of task.now.increment searched.now.form false true
            (direction_by searched.now.ahead) (direction_by searched.now.behind))
            → direction_by searched.now.ahead ≡ f → direction_by searched.now.behind ≡ b
            → IsRated (decided r task.now) self.old
            → Tried (decided r task.now) self.old self.new (by_prediction (decided r task.now)
            (prediction searched.now.form true true f b)) }
    {
        let TrialScratch {
            prediction,
            ahead,
            coding,
            ..
        } = scratch;
        average_into(&mut ahead.at, &prediction.at);
        let m = moving_syntax(
            task,
            searched.form,
            true,
            true,
            &searched.ahead,
            &searched.behind,
        );
        self.try_samples(task, &m, true, ahead, coding);
    }

    /// Tries the predictions by a motion type: forward in a P picture; forward, backward and both in a B picture.
    fn try_directions<V: RefView>(
        &mut self,
        task: &Task,
        forward: &V,
        backward: &V,
        searched: &Searched,
        scratch: &mut TrialScratch,
    )
        requires task { IsTask task.now }
        requires kind { (task.now.context.now.kind ≡ 2) ⊎ (task.now.context.now.kind ≡ 3) }
        requires can { (hf hb : Bool) → Goes task.now.context.now.kind hf hb
            → CanTry task.now (V.size forward.now) (V.Holds forward.now) (V.Holds backward.now)
            (moving_syntax_of task.now.increment searched.now.form hf hb
            (direction_by searched.now.ahead) (direction_by searched.now.behind)) true }
        requires size { task.now.context.now.kind ≡ 3 → V.size backward.now ≡ V.size forward.now }
        requires form { searched.now.form ≢ 3 }
        ensures tried { (f b : Direction)
            → let d = decided (references_of (V.size forward.now) (V.at forward.now)
            (V.at backward.now)) task.now in
            direction_by searched.now.ahead ≡ f
            → (task.now.context.now.kind ≡ 3 → direction_by searched.now.behind ≡ b)
            → IsRated d self.old → Tried d self.old self.new
            (flat_map (by_prediction d) (predictions_by d searched.now.form f b)) }
    {
        self.try_moving(task, forward, backward, searched, FORWARD, scratch);
        if task.context.kind == 2 {
            return;
        }
        scratch.ahead = scratch.prediction;
        self.try_moving(task, forward, backward, searched, BACKWARD, scratch);
        self.try_both(task, searched, scratch);
    }

    /// Tries the type without a direction, in a P picture: its prediction is that of the held macroblock, which is told.
    pub fn try_zero(&mut self, task: &Task, still: &Block16, coding: &mut CodingScratch)
        requires task { IsTask task.now }
        ensures tried { (r : References) → IsStill r task.now still.now.at
            → IsRated (decided r task.now) self.old
            → Tried (decided r task.now) self.old self.new
            (flat_map (by_prediction (decided r task.now))
            (zero_predictions (decided r task.now))) }
    {
        if task.context.kind == 2 {
            let none = no_vectors();
            let m = moving_syntax(task, no_form(task.context), false, false, &none, &none);
            self.try_samples(task, &m, false, still, coding);
        }
    }

    /// Tries the predictions by one vector.
    fn try_plain<V: RefView>(
        &mut self,
        task: &Task,
        forward: &V,
        backward: &V,
        scratch: &mut SearchedScratch,
    )
        requires task { IsTask task.now }
        requires kind { (task.now.context.now.kind ≡ 2) ⊎ (task.now.context.now.kind ≡ 3) }
        requires references { AreReferences task.now.context.now.kind (place_for task.now)
            (V.size forward.now) (V.size backward.now)
            (V.Holds forward.now) (V.Holds backward.now) }
        ensures tried { let d = decided
            (references_of (V.size forward.now) (V.at forward.now) (V.at backward.now)) task.now in
            IsRated d self.old → Tried d self.old self.new (flat_map (by_prediction d)
            (predictions_by d (plain_form_of d.context) (plain_direction_of d d.forward)
            (plain_direction_of d d.backward))) }
    {
        let _size = forward.dims();
        let SearchedScratch { search, trial } = scratch;
        let ahead = plain_direction(task, forward, search);
        let behind = plain_backward(task, backward, search);
        let form = plain_form(task.context);
        let searched = Searched {
            form,
            ahead,
            behind,
        };
        self.try_directions(task, forward, backward, &searched, trial);
    }

    /// Tries field prediction in a frame picture, where the picture has it.
    fn try_fields<V: RefView>(
        &mut self,
        task: &Task,
        forward: &V,
        backward: &V,
        scratch: &mut SearchedScratch,
    )
        requires task { IsTask task.now }
        requires kind { (task.now.context.now.kind ≡ 2) ⊎ (task.now.context.now.kind ≡ 3) }
        requires references { AreReferences task.now.context.now.kind (place_for task.now)
            (V.size forward.now) (V.size backward.now)
            (V.Holds forward.now) (V.Holds backward.now) }
        ensures tried { let d = decided
            (references_of (V.size forward.now) (V.at forward.now) (V.at backward.now)) task.now in
            IsRated d self.old → Tried d self.old self.new (flat_map (by_prediction d)
            (cond (has_dct_type_of d)
            (predictions_by d 1 (field_direction_of d d.forward)
            (field_direction_of d d.backward)) [])) }
    {
        if has_dct_type(task.context) {
            let _size = forward.dims();
            let SearchedScratch { search, trial } = scratch;
            let ahead = field_direction(task, forward, search);
            let behind = field_backward(task, backward, search);
            let searched = Searched {
                form: 1,
                ahead,
                behind,
            };
            self.try_directions(task, forward, backward, &searched, trial);
        }
    }

    /// Tries all predictions of the picture but the type without a direction, in order.
    pub fn try_later<V: RefView>(
        &mut self,
        task: &Task,
        forward: &V,
        backward: &V,
        scratch: &mut SearchedScratch,
    )
        requires task { IsTask task.now }
        requires references { AreReferences task.now.context.now.kind (place_for task.now)
            (V.size forward.now) (V.size backward.now)
            (V.Holds forward.now) (V.Holds backward.now) }
        ensures tried { let d = decided
            (references_of (V.size forward.now) (V.at forward.now) (V.at backward.now)) task.now in
            IsRated d self.old → Tried d self.old self.new
            (flat_map (by_prediction d) (later_predictions d)) }
    {
        if task.context.kind == 1 {
            return;
        }
        self.try_plain(task, forward, backward, scratch);
        self.try_fields(task, forward, backward, scratch);
    }
}
