//! A macroblock that is to be decided, and where it stands.
ghost use Rattle.std.specs.Prelude.{◌≡◌, ℕ, ◌≤◌, ◌<◌, if◌then◌else◌, pos, ◌-ℤ◌, ◌+◌, ◌*◌, nat_abs};
ghost use Rattle.m2v_macro.specs.States.{skips as skips_of, dc_reset as dc_reset_of};
ghost use Rattle.m2v_macro.specs.Conditions.{IsAddress};
ghost use Rattle.m2v_choose.specs.Decisions.{increment_of};
ghost use Rattle.m2v_choose.specs.Trials.{References, decided, as_first as as_first_of, IsTask, IsBefore, AreAsked};

use crate::values::Limits;
use m2v_macro::{PictureContext, SliceState, dc_reset, pmv_before, skips};
use m2v_pred::Block16;

/// A macroblock that is to be decided.
#[derive(Clone, Copy)]
pub struct Task<'a> {
    /// Its samples in the source.
    pub source: &'a Block16,
    /// What the headers say of the picture.
    pub context: &'a PictureContext,
    /// What the slice so far leaves.
    pub state: &'a SliceState,
    /// What the choice keeps to.
    pub limits: &'a Limits,
    /// Its address less that of the macroblock before.
    pub increment: u32,
    /// A state in which it is the first of its slice, and takes the same bits.
    pub first: SliceState,
}

/// The DC predictors behind the macroblocks that are skipped before this one.
#[inline(always)]
fn dc_before(context: &PictureContext, state: &SliceState, increment: u32) -> [i32; 3]
    requires { context.now.extension.dc_precision ≤ 3 }
    ensures { result ≡ (if skips_of state.now increment then dc_reset_of context.now else
        state.now.dc) }
{
    if skips(state, increment) {
        return dc_reset(context);
    }
    state.dc
}

/// A state in which the macroblock is the first of its slice, behind the same predictors.
#[tactic(auto, unfolding(crate::specs::Trials::as_first))]
fn as_first(context: &PictureContext, state: &SliceState, increment: u32) -> SliceState
    requires precision { context.now.extension.dc_precision ≤ 3 }
    requires some { 1 ≤ increment }
    ensures { result ≡ as_first_of context.now state.now increment }
{
    SliceState {
        quantiser: state.quantiser,
        dc: dc_before(context, state, increment),
        pmv: pmv_before(context, state, increment),
        forward: state.forward,
        backward: state.backward,
        intra: state.intra,
        first: true,
        address: -1,
        next: increment - 1,
    }
}

/// The increment of the macroblock's address.
#[inline(always)]
fn increment(context: &PictureContext, state: &SliceState, limits: &Limits) -> u32
    requires row { limits.now.row < 72 }
    requires columns { context.now.columns ≤ 120 }
    requires column { limits.now.column < context.now.columns }
    requires address { IsBefore context.now state.now limits.now }
    ensures value { result ≡ nat_abs
        (pos (limits.now.row * context.now.columns + limits.now.column) -ℤ state.now.address) }
    ensures some { 1 ≤ result }
    ensures most { result ≤ context.now.columns }
{
    let place = i64::from(limits.row * context.columns + limits.column);
    (place - state.address).unsigned_abs() as u32
}

/// The task of a macroblock.
#[tactic(auto, unfolding(crate::specs::Decisions::increment_of))]
pub fn task_of<'a>(
    source: &'a Block16,
    context: &'a PictureContext,
    state: &'a SliceState,
    limits: &'a Limits,
) -> Task<'a>
    requires { AreAsked context.now state.now limits.now }
    ensures source { result.source.now ≡ source.now }
    ensures context { result.context.now ≡ context.now }
    ensures state { result.state.now ≡ state.now }
    ensures limits { result.limits.now ≡ limits.now }
    ensures task { IsTask result }
{
    let increment = increment(context, state, limits);
    Task {
        source,
        context,
        state,
        limits,
        increment,
        first: as_first(context, state, increment),
    }
}
