//! How macroblocks are predicted.
ghost use Rattle.std.specs.Prelude.{◌≡◌, ◌<◌, ◌≤◌, ◌⊎◌, ◌||◌, nat_eq, if◌then◌else◌, cond, [], ◌∷◌, slice_index_or, ℤ, pos, neg_ℤ, ◌≤ℤ◌};
ghost use Rattle.m2v_macro.specs.m2v_vector.Predictors.{number_of, zero, zeros};
ghost use Rattle.m2v_macro.specs.States.{is_field as is_field_of};
ghost use Rattle.m2v_macro.specs.Conditions.{IsContext, IsDm};
ghost use Rattle.m2v_macroblock.specs.Modes.{form_of as form_in, own_parity, without_motion_type as without_motion_type_of, zero_motion as zero_motion_of, skipped_mode as skipped_mode_of, opposite_of as opposite_in, opposite_parity_vectors as opposite_parity_vectors_of, told_mode as told_mode_of, mode_of};
ghost use Rattle.m2v_macroblock.specs.Conditions.{CanStand, IsDual};

use m2v_macro::vector::{Pmv, dual};
use m2v_macro::{MacroSyntax, PictureContext, SliceState};
use m2v_recon::pred::{Form, Mode};

/// Whether the picture is a field.
#[inline(always)]
fn is_field(context: &PictureContext) -> bool
    ensures { result ≡ is_field_of context.now }
{
    context.extension.structure != 3
}

/// The form of a motion type.
#[inline(always)]
#[tactic(auto, unfolding(crate::specs::Modes::form_of))]
fn form_of(field_picture: bool, form: u8) -> Form
    ensures { result ≡ form_in field_picture form }
{
    if form == 3 {
        Form::Dual
    } else if field_picture {
        if form == 2 { Form::Half } else { Form::Field }
    } else if form == 1 {
        Form::Field
    } else {
        Form::Frame
    }
}

/// A prediction without motion type: frame prediction in a frame, from the field of the same parity in a field.
#[inline(always)]
#[tactic(auto, unfolding(crate::specs::Modes::without_motion_type))]
fn without_motion_type(context: &PictureContext, forward: bool, backward: bool, pmv: &Pmv) -> Mode
    ensures { result ≡ without_motion_type_of context.now forward backward pmv.now.at }
{
    let own = context.extension.structure == 2;
    let mut mode = Mode::none();
    mode.form = if is_field(context) {
        Form::Field
    } else {
        Form::Frame
    };
    mode.forward = forward;
    mode.backward = backward;
    mode.vectors[0] = pmv.at[0];
    mode.vectors[1] = pmv.at[1];
    mode.bottom[0] = [own, own];
    mode.bottom[1] = [own, own];
    mode
}

/// Forward, by vector 0.
#[inline(always)]
fn zero_motion(context: &PictureContext) -> Mode
    ensures { result ≡ zero_motion_of context.now }
{
    without_motion_type(context, true, false, &Pmv::zero())
}

/// How a skipped macroblock is predicted (clause 7.6.6): in a P picture by vector 0, in a B picture in the directions
/// of the macroblock before, by entry 0 of the predictors of vectors. `state` is that behind the macroblock before.
#[tactic(auto, unfolding(crate::specs::Modes::skipped_mode))]
pub fn skipped_mode(context: &PictureContext, state: &SliceState) -> Mode
    ensures value { result ≡ skipped_mode_of context.now state.now }
{
    if context.kind == 3 {
        without_motion_type(context, state.forward, state.backward, &state.pmv)
    } else {
        zero_motion(context)
    }
}

/// An opposite vector of dual prime: `factor` is the distance of the fields, 1 or 3, `correction` that of their lines.
#[inline(always)]
fn opposite_of(m: &MacroSyntax, factor: i32, correction: i32) -> [i32; 2]
    requires dual { IsDual m.now }
    requires factor { (factor ≡ pos 1) ⊎ (factor ≡ pos 3) }
    requires correction { (neg_ℤ (pos 1) ≤ℤ correction) × (correction ≤ℤ pos 1) }
    ensures { result ≡ opposite_in m.now factor correction }
{
    let across = dual(m.vectors[0][0][0], m.dmvector[0] as i8, factor, 0);
    let down = dual(m.vectors[0][0][1], m.dmvector[1] as i8, factor, correction);
    [across, down]
}

/// The opposite vectors of dual prime.
#[tactic(auto, unfolding(crate::specs::Modes::opposite_parity_vectors))]
fn opposite_parity_vectors(context: &PictureContext, m: &MacroSyntax) -> [[i32; 2]; 2]
    requires dual { IsDual m.now }
    ensures { result ≡ opposite_parity_vectors_of context.now m.now }
{
    if is_field(context) {
        let correction = if context.extension.structure == 1 {
            -1
        } else {
            1
        };
        return [opposite_of(m, 1, correction), [0, 0]];
    }
    let top_first = context.extension.top_field_first;
    let top = opposite_of(m, if top_first { 1 } else { 3 }, -1);
    let bottom = opposite_of(m, if top_first { 3 } else { 1 }, 1);
    [top, bottom]
}

/// The opposite vectors of a macroblock: only dual prime has them.
#[inline(always)]
fn opposite(context: &PictureContext, m: &MacroSyntax) -> [[i32; 2]; 2]
    requires dual { m.now.form ≡ 3 → IsDual m.now }
    ensures { result ≡ (if nat_eq m.now.form 3 then opposite_parity_vectors_of context.now m.now
        else zeros ∷ zeros ∷ []) }
{
    if m.form == 3 {
        return opposite_parity_vectors(context, m);
    }
    [[0, 0], [0, 0]]
}

/// The motion of a macroblock that has a direction.
#[inline(always)]
#[tactic(auto, unfolding(crate::specs::Modes::told_mode))]
fn told_mode(context: &PictureContext, m: &MacroSyntax) -> Mode
    requires dual { m.now.form ≡ 3 → IsDual m.now }
    ensures { result ≡ told_mode_of context.now m.now }
{
    let opposite = opposite(context, m);
    let mut mode = Mode::none();
    mode.form = form_of(is_field(context), m.form);
    mode.forward = m.kind.forward;
    mode.backward = m.kind.backward;
    mode.vectors[0] = m.vectors[0];
    mode.vectors[1] = m.vectors[1];
    mode.bottom[0] = m.bottom[0];
    mode.bottom[1] = m.bottom[1];
    mode.opposite[0] = opposite[0];
    mode.opposite[1] = opposite[1];
    mode
}

/// How a macroblock is predicted that isn't skipped (clauses 7.6.2 to 7.6.5): by its own motion, or forward by vector 0
/// where it has none. An intra macroblock has no motion. Dual prime's opposite vectors are made here.
#[tactic(auto, unfolding(crate::specs::Modes::mode_of))]
pub fn mode(context: &PictureContext, m: &MacroSyntax) -> Mode
    requires context { IsContext context.now }
    requires fits { CanStand context.now m.now }
    ensures value { result ≡ mode_of context.now m.now }
{
    if m.kind.intra {
        return Mode::none();
    }
    if m.kind.forward || m.kind.backward {
        return told_mode(context, m);
    }
    zero_motion(context)
}
