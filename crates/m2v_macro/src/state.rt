ghost use Rattle.std.specs.Prelude.{◌≡◌, ◌+◌, ◌-◌, ◌*◌, ◌≤◌, ◌<◌, ◌^◌, ◌&&◌, ◌||◌, not, nat_eq, cond, if◌then◌else◌, true, false, replicate, length, pos, neg_ℤ, ◌≤ℤ◌, ◌+ℤ◌, ◌-ℤ◌};
ghost use Rattle.m2v_vector.specs.Vectors.{scale, IsVector};
ghost use Rattle.m2v_vector.specs.Predictors.{zero, AreSmall, predictors_after};
ghost use Rattle.m2v_macro.specs.States.{is_field as is_field_of, address, skipped as skipped_of, motion as motion_of, pmv_before as pmv_before_of, dc_reset as dc_reset_of, dc_behind as dc_behind_of, at_start as at_start_of, after as after_of};
ghost use Rattle.m2v_macro.specs.Plain.{is_plain as is_plain_of, plain_entry as plain_entry_of};
ghost use Rattle.m2v_macro.specs.Macros.{f_codes_of};
ghost use Rattle.m2v_macro.specs.Conditions.{IsContext, IsReady, IsAddress, ArePredictors, IsMacro, is_used};

use crate::increments::skips;
use crate::modes::is_field;
use crate::values::{MacroSyntax, PictureContext, SliceState};
use m2v_vector::{Motion, Pmv};

static STILL: Motion = Motion {
    field_picture: false,
    kind: 0,
    intra: false,
    concealment: false,
    forward: false,
    backward: false,
    form: 0,
    vectors: [[[0, 0], [0, 0]], [[0, 0], [0, 0]]],
};

/// The same motion.
#[inline(always)]
fn copied(m: &Motion) -> Motion
    ensures { result ≡ m.now }
{
    *m
}

/// What skipped macroblocks do to the predictors.
#[inline(always)]
fn skipped(context: &PictureContext) -> Motion
    ensures { result ≡ skipped_of context.now }
{
    let mut motion = copied(&STILL);
    motion.field_picture = is_field(context);
    motion.kind = context.kind;
    motion.concealment = context.extension.concealment;
    motion
}

/// What a macroblock does to the predictors.
#[inline(always)]
fn motion(context: &PictureContext, m: &MacroSyntax) -> Motion
    ensures { result ≡ motion_of context.now m.now }
{
    let mut motion = skipped(context);
    motion.intra = m.kind.intra;
    motion.forward = m.kind.forward;
    motion.backward = m.kind.backward;
    motion.form = m.form;
    let first = m.vectors[0];
    let second = m.vectors[1];
    motion.vectors[0] = first;
    motion.vectors[1] = second;
    motion
}

/// The predictors behind the macroblocks that are skipped before this one.
#[inline(always)]
#[tactic(auto, unfolding(crate::specs::States::pmv_before))]
pub fn pmv_before(context: &PictureContext, state: &SliceState, increment: u32) -> Pmv
    ensures { result ≡ pmv_before_of context.now state.now increment }
{
    if skips(state, increment) {
        return state.pmv.after(&skipped(context));
    }
    state.pmv
}

/// The DC predictors as they are reset (clause 7.2.1).
#[inline(always)]
#[tactic(auto, unfolding(crate::specs::States::dc_reset))]
pub fn dc_reset(context: &PictureContext) -> [i32; 3]
    requires { context.now.extension.dc_precision ≤ 3 }
    ensures { result ≡ dc_reset_of context.now }
{
    [1 << (7 + context.extension.dc_precision); 3]
}

/// The DC predictors behind the elements of a macroblock.
#[inline(always)]
#[tactic(auto, unfolding(crate::specs::States::dc_behind))]
fn dc_behind(context: &PictureContext, state: &SliceState, m: &MacroSyntax) -> [i32; 3]
    requires { context.now.extension.dc_precision ≤ 3 }
    ensures { result ≡ dc_behind_of context.now state.now m.now }
{
    if m.kind.intra && !skips(state, m.increment) {
        return state.dc;
    }
    dc_reset(context)
}

/// The quantiser code in force behind a macroblock.
#[inline(always)]
fn quantiser_behind(state: &SliceState, m: &MacroSyntax) -> u8
    ensures { result ≡ (if m.now.kind.quant then m.now.quantiser else state.now.quantiser) }
{
    if m.kind.quant {
        m.quantiser
    } else {
        state.quantiser
    }
}

/// Whether a macroblock is predicted forward, and has one vector of each direction that it has, of the picture's own
/// lines. Most are so.
#[inline(always)]
fn is_plain(context: &PictureContext, m: &MacroSyntax) -> bool
    ensures { result ≡ is_plain_of context.now m.now }
{
    let one = if is_field(context) { 1 } else { 2 };
    !m.kind.intra && m.kind.forward && m.form == one
}

/// An entry behind a macroblock that has one vector of a direction, or none.
#[inline(always)]
#[tactic(auto, unfolding(m2v_vector::specs::Predictors::left_by))]
fn plain_entry(
    m: &MacroSyntax,
    told: bool,
    before: &Pmv,
    entry: usize,
    direction: usize,
) -> [i32; 2]
    requires entry { entry < 2 }
    requires direction { direction < 2 }
    ensures { result ≡ plain_entry_of m.now told before.now entry direction }
{
    if told {
        let vector = &m.vectors[0][direction];
        return [vector[0], vector[1]];
    }
    before.at[entry][direction]
}

/// The predictors of vectors behind such a macroblock.
#[inline(always)]
#[tactic(auto, using(crate::proofs::Plain::plain_after))]
fn plain_behind(context: &PictureContext, m: &MacroSyntax, before: &Pmv) -> Pmv
    requires { is_plain_of context.now m.now ≡ true }
    ensures { result ≡ predictors_after (motion_of context.now m.now) before.now }
{
    let mut next = Pmv::zero();
    next.at[0][0] = plain_entry(m, m.kind.forward, before, 0, 0);
    next.at[0][1] = plain_entry(m, m.kind.backward, before, 0, 1);
    next.at[1][0] = plain_entry(m, m.kind.forward, before, 1, 0);
    next.at[1][1] = plain_entry(m, m.kind.backward, before, 1, 1);
    next
}

/// The predictors of vectors behind a macroblock.
#[inline(always)]
fn pmv_behind(context: &PictureContext, state: &SliceState, m: &MacroSyntax) -> Pmv
    requires { AreSmall m.now.vectors }
    ensures { result ≡ predictors_after (motion_of context.now m.now)
        (pmv_before_of context.now state.now m.now.increment) }
{
    let before = pmv_before(context, state, m.increment);
    if is_plain(context, m) {
        return plain_behind(context, m, &before);
    }
    let motion = motion(context, m);
    before.after(&motion)
}

/// The address of a macroblock.
#[inline(always)]
fn address_of(state: &SliceState, m: &MacroSyntax) -> i64
    requires { IsAddress state.now.address }
    ensures { result ≡ address state.now m.now.increment }
{
    state.address + i64::from(m.increment)
}

impl SliceState {
    /// The state at the start of a slice: the row counted from 0, the slice header's quantiser code, and the next
    /// uncovered macroblock of the picture.
    #[tactic(auto, unfolding(crate::specs::States::at_start))]
    pub fn at_start(context: &PictureContext, row: u32, quantiser: u8, next: u32) -> SliceState
        requires precision { context.now.extension.dc_precision ≤ 3 }
        requires columns { context.now.columns ≤ 120 }
        requires quantiser { (1 ≤ quantiser) × (quantiser ≤ 31) }
        ensures value { result ≡ at_start_of context.now row quantiser next }
        ensures ready { IsReady context.now result }
        ensures address { row * context.now.columns ≤ 2 ^ 16 → IsAddress result.address }
    {
        let dc = dc_reset(context);
        SliceState {
            quantiser,
            dc,
            pmv: Pmv::zero(),
            forward: false,
            backward: false,
            intra: false,
            first: true,
            address: i64::from(row) * i64::from(context.columns) - 1,
            next,
        }
    }

    /// The DC predictors that a macroblock's blocks go by: those of the state behind its elements.
    #[inline(always)]
    pub fn dc_behind(&self, context: &PictureContext, m: &MacroSyntax) -> [i32; 3]
        requires { context.now.extension.dc_precision ≤ 3 }
        ensures { result ≡ dc_behind_of context.now self.now m.now }
    {
        dc_behind(context, self, m)
    }

    /// The state becomes that behind a macroblock (clauses 7.2.1 and 7.6.3), but for what its blocks do to the DC
    /// predictors.
    #[inline(always)]
    #[tactic(auto, unfolding(crate::specs::States::after))]
    pub fn go_on(&mut self, context: &PictureContext, m: &MacroSyntax)
        requires context { IsContext context.now }
        requires address { IsAddress self.old.address }
        requires fits { IsMacro context.now self.old m.now }
        ensures { self.new ≡ after_of context.now self.old m.now }
    {
        // all of these look at the state before
        let dc = dc_behind(context, self, m);
        let pmv = pmv_behind(context, self, m);
        let quantiser = quantiser_behind(self, m);
        let address = address_of(self, m);
        self.dc = dc;
        self.pmv = pmv;
        self.quantiser = quantiser;
        self.address = address;
        self.forward = m.kind.forward;
        self.backward = m.kind.backward;
        self.intra = m.kind.intra;
        self.first = false;
    }

    /// The state behind a macroblock (clauses 7.2.1 and 7.6.3), but for what its blocks do to the DC predictors.
    pub fn after(&self, context: &PictureContext, m: &MacroSyntax) -> SliceState
        requires context { IsContext context.now }
        requires address { IsAddress self.now.address }
        requires fits { IsMacro context.now self.now m.now }
        ensures { result ≡ after_of context.now self.now m.now }
    {
        let mut next = *self;
        next.go_on(context, m);
        next
    }
}
