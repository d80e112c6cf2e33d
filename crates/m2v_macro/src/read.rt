ghost use Rattle.std.specs.Prelude.{◌≡◌, ◌≤◌, ◌<◌, ◌^◌, ◌||◌, true, false, IfOk, OnOk, OnErr, length};
ghost use Rattle.m2v_bits.specs.Syntax.{Gives};
ghost use Rattle.m2v_macro.specs.States.{is_field as is_field_of, pmv_before as pmv_before_of, after};
ghost use Rattle.m2v_macro.specs.Vectors.{shape_of as shape_as};
ghost use Rattle.m2v_macro.specs.Macros.{no_kind, macro_of, directions_at, macro_at, is_concealed as is_concealed_of, f_codes_of};
ghost use Rattle.m2v_macro.specs.Reading.{GivesMacro};
ghost use Rattle.m2v_macro.specs.Conditions.{IsContext, IsReady, IsAddress, IsBegun, IsDirection, IsMacro, has_type, is_used, ArePredictors, AreScales};

use crate::fault::MacroFault;
use crate::increments::step;
use crate::modes::{dct, form, has_forward, is_field, kind, marker, pattern, quantiser};
use crate::state::pmv_before;
use crate::values::{Direction, MacroSyntax, PictureContext, SliceState};
use crate::vectors::{direction, shape_of};
use m2v_bits::BitReader;
use m2v_vector::Pmv;
use m2v_vlc::MbType;

/// A macroblock gets the vectors of both directions, and nothing else yet.
#[inline(always)]
fn set_vectors(m: &mut MacroSyntax, forward: &Direction, backward: &Direction)
    ensures { m.new ≡ macro_of 0 no_kind 0 false 0 forward.now backward.now 0 }
{
    *m = MacroSyntax::blank();
    m.vectors[0][0] = forward.first.vector;
    m.vectors[0][1] = backward.first.vector;
    m.vectors[1][0] = forward.second.vector;
    m.vectors[1][1] = backward.second.vector;
    m.bottom = [
        [forward.first.bottom, backward.first.bottom],
        [forward.second.bottom, backward.second.bottom],
    ];
    m.dmvector = forward.first.dmvector;
}

/// A macroblock gets its other elements.
#[inline(always)]
fn set_modes(
    m: &mut MacroSyntax,
    increment: u32,
    kind: MbType,
    form: u8,
    dct_field: bool,
    quantiser: u8,
    pattern: u8,
)
    ensures { m.new ≡ record m.old {
      increment = increment;
      kind = kind;
      form = form;
      dct_field = dct_field;
      quantiser = quantiser;
      pattern = pattern;
    } }
{
    m.increment = increment;
    m.kind = kind;
    m.form = form;
    m.dct_field = dct_field;
    m.quantiser = quantiser;
    m.pattern = pattern;
}

/// The vectors of a macroblock's directions, and the marker behind concealment vectors.
#[inline(always)]
#[tactic(auto, unfolding(crate::specs::Macros::directions_at, m2v_bits::specs::Syntax::seq, m2v_bits::specs::Syntax::bind, m2v_bits::specs::Syntax::done))]
fn directions(
    input: &mut BitReader,
    context: &PictureContext,
    kind: MbType,
    form: u8,
    pmv: &Pmv,
) -> Result<(Direction, Direction), MacroFault>
    requires context { IsContext context.now }
    requires kind { has_type context.now.kind kind ≡ true }
    requires forward { is_used context.now 0 ≡ true
        → ArePredictors (f_codes_of context.now 0) pmv.now 0 }
    requires backward { is_used context.now 1 ≡ true
        → ArePredictors (f_codes_of context.now 1) pmv.now 1 }
    ensures exact { Gives result input.new.rest
        ((directions_at context.now kind form pmv.now).read input.old.rest) }
    ensures text { input.new.text ≡ input.old.text }
    ensures forward { IfOk result
        (λ x. IsDirection (kind.forward || is_concealed_of context.now kind)
        (shape_as (is_field_of context.now) form) (f_codes_of context.now 0) x.0) }
    ensures backward { IfOk result
        (λ x. IsDirection kind.backward (shape_as (is_field_of context.now) form)
        (f_codes_of context.now 1) x.1) }
{
    let shape = shape_of(is_field(context), form);
    let codes = &context.extension.f_code;
    let told = has_forward(context, kind);
    let forward = direction(input, told, &shape, &codes[0], pmv, 0)?;
    let backward = direction(input, kind.backward, &shape, &codes[1], pmv, 1)?;
    marker(input, context, kind)?;
    Ok((forward, backward))
}

/// Reads a macroblock up to its blocks into `m`.
#[inline(always)]
#[tactic(auto, unfolding(crate::specs::Macros::macro_at, m2v_bits::specs::Syntax::seq, m2v_bits::specs::Syntax::bind, m2v_bits::specs::Syntax::done))]
fn macroblock(
    input: &mut BitReader,
    context: &PictureContext,
    state: &SliceState,
    m: &mut MacroSyntax,
) -> Result<(), MacroFault>
    requires state { IsReady context.now state.now }
    requires begun { IsBegun context.now state.now }
    ensures exact { GivesMacro result m.new input.new.rest
        ((macro_at context.now state.now).read input.old.rest) }
    ensures text { input.new.text ≡ input.old.text }
    ensures fits { OnOk result (IsMacro context.now state.now m.new) }
{
    let increment = step(input, context, state)?;
    let kind = kind(input, context.kind)?;
    let form = form(input, context, kind)?;
    let dct_field = dct(input, context, kind)?;
    let quantiser = quantiser(input, kind)?;
    let pmv = pmv_before(context, state, increment);
    let (forward, backward) = directions(input, context, kind, form, &pmv)?;
    let pattern = pattern(input, kind)?;
    set_vectors(m, &forward, &backward);
    set_modes(m, increment, kind, form, dct_field, quantiser, pattern);
    Ok(())
}

/// Reads a macroblock up to its blocks (clauses 6.2.5 and 6.3.17) into `m`, and leaves the state behind it, as
/// [`read_macro`] does, with nothing made to be handed on. Nothing is said of what stands in `m` after an error.
///
/// # Errors
/// Those of [`read_macro`].
pub fn read_macro_into(
    input: &mut BitReader,
    context: &PictureContext,
    state: &mut SliceState,
    m: &mut MacroSyntax,
) -> Result<(), MacroFault>
    requires context { IsContext context.now }
    requires state { IsReady context.now state.old }
    requires address { IsAddress state.old.address }
    requires next { state.old.next ≤ 2 ^ 16 }
    ensures exact { GivesMacro result m.new input.new.rest
        ((macro_at context.now state.old).read input.old.rest) }
    ensures text { input.new.text ≡ input.old.text }
    ensures fits { OnOk result (IsMacro context.now state.old m.new) }
    ensures state { OnOk result (state.new ≡ after context.now state.old m.new) }
    ensures ready { OnOk result (IsReady context.now state.new) }
    ensures same { OnErr result (state.new ≡ state.old) }
{
    macroblock(input, context, state, m)?;
    state.go_on(context, m);
    Ok(())
}

/// Reads a macroblock up to its blocks (clauses 6.2.5 and 6.3.17), and leaves the state behind it. The DC predictors
/// are those that its first blocks go by.
///
/// # Errors
/// The first fault in reading order. The reader then stands at its place, and the state is as it was. `SliceOrder`,
/// `MissingMacroblocks` and `SkipRule` stand at the increment, `PatternZero` at the pattern, `VectorRange` at the
/// vertical motion code, every other fault at its element.
pub fn read_macro(
    input: &mut BitReader,
    context: &PictureContext,
    state: &mut SliceState,
) -> Result<MacroSyntax, MacroFault>
    requires context { IsContext context.now }
    requires state { IsReady context.now state.old }
    requires address { IsAddress state.old.address }
    requires next { state.old.next ≤ 2 ^ 16 }
    ensures exact { Gives result input.new.rest
        ((macro_at context.now state.old).read input.old.rest) }
    ensures text { input.new.text ≡ input.old.text }
    ensures fits { IfOk result (λ m. IsMacro context.now state.old m) }
    ensures state { IfOk result (λ m. state.new ≡ after context.now state.old m) }
    ensures ready { IfOk result (λ m. IsReady context.now state.new) }
    ensures same { OnErr result (state.new ≡ state.old) }
{
    let mut m = MacroSyntax::blank();
    read_macro_into(input, context, state, &mut m)?;
    Ok(m)
}
