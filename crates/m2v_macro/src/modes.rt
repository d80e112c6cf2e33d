ghost use Rattle.std.specs.Prelude.{◌≡◌, ◌+◌, ◌≤◌, ◌<◌, ◌^◌, ◌&&◌, ◌||◌, not, nat_eq, true, false, IfOk, length};
ghost use Rattle.m2v_bits.specs.Syntax.{Gives};
ghost use Rattle.m2v_macro.specs.States.{is_field as is_field_of};
ghost use Rattle.m2v_macro.specs.Macros.{kind_at, has_form as has_form_of, is_form as is_form_of, no_form, told_form_at, form_at, has_dct as has_dct_of, dct_at, told_quantiser_at, quantiser_at, is_concealed as is_concealed_of, told_marker_at, marker_at, told_pattern_at, pattern_at, zero_pattern};
ghost use Rattle.m2v_macro.specs.Conditions.{has_type};

use crate::fault::MacroFault;
use crate::fault::MacroFault::Code;
use crate::values::PictureContext;
use m2v_bits::{BitReader, check, flag, number};
use m2v_vlc::CodeFault::Truncated;
use m2v_vlc::{MbType, read_pattern, read_type_b, read_type_i, read_type_p};

/// Whether the picture is a field.
#[inline(always)]
pub fn is_field(context: &PictureContext) -> bool
    ensures { result ≡ is_field_of context.now }
{
    context.extension.structure != 3
}

/// A macroblock_type, by the picture's type (clause 6.3.17.1).
#[inline(always)]
#[tactic(auto, unfolding(crate::specs::Macros::kind_at, crate::specs::Conditions::has_type, m2v_bits::specs::Syntax::choose, m2v_bits::specs::Syntax::renamed))]
pub fn kind(input: &mut BitReader, kind: u8) -> Result<MbType, MacroFault>
    ensures exact { Gives result input.new.rest ((kind_at kind).read input.old.rest) }
    ensures text { input.new.text ≡ input.old.text }
    ensures known { IfOk result (λ v. has_type kind v ≡ true) }
{
    if kind == 1 {
        let v = read_type_i(input)?;
        Ok(v)
    } else if kind == 2 {
        let v = read_type_p(input)?;
        Ok(v)
    } else {
        let v = read_type_b(input)?;
        Ok(v)
    }
}

/// Whether the macroblock has a motion type.
#[inline(always)]
#[tactic(auto, unfolding(crate::specs::Macros::has_form))]
pub fn has_form(context: &PictureContext, kind: MbType) -> bool
    ensures { result ≡ has_form_of context.now kind }
{
    (kind.forward || kind.backward)
        && (is_field(context) || !context.extension.frame_pred_frame_dct)
}

/// Whether a motion type can stand in a picture of this type.
#[inline(always)]
#[tactic(auto, unfolding(crate::specs::Macros::is_form))]
fn is_form(kind: u8, form: u32) -> bool
    ensures { result ≡ is_form_of kind form }
{
    form != 0 && !(kind == 3 && form == 3)
}

/// A motion type that stands there.
#[inline(always)]
#[tactic(auto, unfolding(crate::specs::Macros::told_form_at, m2v_bits::specs::Syntax::seq, m2v_bits::specs::Syntax::bind, m2v_bits::specs::Syntax::here, m2v_bits::specs::Syntax::done))]
fn told_form(input: &mut BitReader, kind: u8) -> Result<u8, MacroFault>
    ensures exact { Gives result input.new.rest ((told_form_at kind).read input.old.rest) }
    ensures text { input.new.text ≡ input.old.text }
    ensures known { IfOk result (λ v. (is_form_of kind v ≡ true) × (v < 4)) }
{
    let start = input.fork();
    let form = number(input, 2, Code(Truncated))?;
    check(
        input,
        &start,
        is_form(kind, form),
        MacroFault::BadMotionType,
    )?;
    Ok(form as u8)
}

/// The motion type of a macroblock (clause 6.3.17.1).
#[inline(always)]
#[tactic(auto, unfolding(crate::specs::Macros::form_at, m2v_bits::specs::Syntax::choose, m2v_bits::specs::Syntax::done))]
pub fn form(input: &mut BitReader, context: &PictureContext, kind: MbType) -> Result<u8, MacroFault>
    ensures exact { Gives result input.new.rest ((form_at context.now kind).read input.old.rest) }
    ensures text { input.new.text ≡ input.old.text }
    ensures known { has_form_of context.now kind ≡ true
        → IfOk result (λ v. (is_form_of context.now.kind v ≡ true) × (v < 4)) }
    ensures none { has_form_of context.now kind ≡ false
        → IfOk result (λ v. v ≡ no_form context.now) }
{
    if has_form(context, kind) {
        return told_form(input, context.kind);
    }
    Ok(if is_field(context) { 0 } else { 2 })
}

/// Whether the macroblock has a dct_type.
#[inline(always)]
#[tactic(auto, unfolding(crate::specs::Macros::has_dct))]
pub fn has_dct(context: &PictureContext, kind: MbType) -> bool
    ensures { result ≡ has_dct_of context.now kind }
{
    !is_field(context) && !context.extension.frame_pred_frame_dct && (kind.intra || kind.pattern)
}

/// The dct_type of a macroblock (clause 6.3.17.1).
#[inline(always)]
#[tactic(auto, unfolding(crate::specs::Macros::dct_at, m2v_bits::specs::Syntax::choose, m2v_bits::specs::Syntax::done))]
pub fn dct(
    input: &mut BitReader,
    context: &PictureContext,
    kind: MbType,
) -> Result<bool, MacroFault>
    ensures exact { Gives result input.new.rest ((dct_at context.now kind).read input.old.rest) }
    ensures text { input.new.text ≡ input.old.text }
    ensures none { has_dct_of context.now kind ≡ false → IfOk result (λ v. v ≡ false) }
{
    if has_dct(context, kind) {
        return flag(input, Code(Truncated));
    }
    Ok(false)
}

/// A quantiser code that stands there.
#[inline(always)]
#[tactic(auto, unfolding(crate::specs::Macros::told_quantiser_at, m2v_bits::specs::Syntax::seq, m2v_bits::specs::Syntax::bind, m2v_bits::specs::Syntax::here, m2v_bits::specs::Syntax::done))]
fn told_quantiser(input: &mut BitReader) -> Result<u8, MacroFault>
    ensures exact { Gives result input.new.rest (told_quantiser_at.read input.old.rest) }
    ensures text { input.new.text ≡ input.old.text }
    ensures known { IfOk result (λ v. (1 ≤ v) × (v ≤ 31)) }
{
    let start = input.fork();
    let code = number(input, 5, Code(Truncated))?;
    check(input, &start, code != 0, MacroFault::QuantZero)?;
    Ok(code as u8)
}

/// The quantiser code of a macroblock (clause 6.3.17).
#[inline(always)]
#[tactic(auto, unfolding(crate::specs::Macros::quantiser_at, m2v_bits::specs::Syntax::choose, m2v_bits::specs::Syntax::done))]
pub fn quantiser(input: &mut BitReader, kind: MbType) -> Result<u8, MacroFault>
    ensures exact { Gives result input.new.rest ((quantiser_at kind).read input.old.rest) }
    ensures text { input.new.text ≡ input.old.text }
    ensures known { kind.quant ≡ true → IfOk result (λ v. (1 ≤ v) × (v ≤ 31)) }
    ensures none { kind.quant ≡ false → IfOk result (λ v. v ≡ 0) }
{
    if kind.quant {
        return told_quantiser(input);
    }
    Ok(0)
}

/// Whether the macroblock has concealment vectors.
#[inline(always)]
pub fn is_concealed(context: &PictureContext, kind: MbType) -> bool
    ensures { result ≡ is_concealed_of context.now kind }
{
    kind.intra && context.extension.concealment
}

/// Whether the macroblock has forward vectors, or concealment vectors in their place.
#[inline(always)]
pub fn has_forward(context: &PictureContext, kind: MbType) -> bool
    ensures { result ≡ (kind.forward || is_concealed_of context.now kind) }
{
    kind.forward || is_concealed(context, kind)
}

/// A marker that stands there.
#[inline(always)]
#[tactic(auto, unfolding(crate::specs::Macros::told_marker_at, m2v_bits::specs::Syntax::seq, m2v_bits::specs::Syntax::bind, m2v_bits::specs::Syntax::here))]
fn told_marker(input: &mut BitReader) -> Result<(), MacroFault>
    ensures exact { Gives result input.new.rest (told_marker_at.read input.old.rest) }
    ensures text { input.new.text ≡ input.old.text }
{
    let start = input.fork();
    let bit = number(input, 1, Code(Truncated))?;
    check(input, &start, bit == 1, MacroFault::Marker)
}

/// The marker behind concealment vectors.
#[inline(always)]
#[tactic(auto, unfolding(crate::specs::Macros::marker_at, m2v_bits::specs::Syntax::choose, m2v_bits::specs::Syntax::done))]
pub fn marker(
    input: &mut BitReader,
    context: &PictureContext,
    kind: MbType,
) -> Result<(), MacroFault>
    ensures exact { Gives result input.new.rest ((marker_at context.now kind).read input.old.rest) }
    ensures text { input.new.text ≡ input.old.text }
{
    if is_concealed(context, kind) {
        return told_marker(input);
    }
    Ok(())
}

/// A coded block pattern that stands there.
#[inline(always)]
#[tactic(auto, using(crate::proofs::Patterns::pattern_ahead), unfolding(crate::specs::Macros::told_pattern_at, crate::specs::Faults::ahead_at, crate::specs::Faults::look_at, m2v_bits::specs::Syntax::seq, m2v_bits::specs::Syntax::bind, m2v_bits::specs::Syntax::here, m2v_bits::specs::Syntax::renamed))]
fn told_pattern(input: &mut BitReader) -> Result<u8, MacroFault>
    ensures exact { Gives result input.new.rest (told_pattern_at.read input.old.rest) }
    ensures text { input.new.text ≡ input.old.text }
    ensures known { IfOk result (λ v. (0 < v) × (v < 64)) }
{
    let start = input.fork();
    let none = input.peek(9) == 1;
    check(input, &start, !none, MacroFault::PatternZero)?;
    let pattern = read_pattern(input)?;
    Ok(pattern)
}

/// The coded block pattern of a macroblock (clause 6.3.17.4).
#[inline(always)]
#[tactic(auto, unfolding(crate::specs::Macros::pattern_at, m2v_bits::specs::Syntax::choose, m2v_bits::specs::Syntax::done))]
pub fn pattern(input: &mut BitReader, kind: MbType) -> Result<u8, MacroFault>
    ensures exact { Gives result input.new.rest ((pattern_at kind).read input.old.rest) }
    ensures text { input.new.text ≡ input.old.text }
    ensures intra { kind.intra ≡ true → IfOk result (λ v. v ≡ 63) }
    ensures known { kind.intra ≡ false → kind.pattern ≡ true
        → IfOk result (λ v. (0 < v) × (v < 64)) }
    ensures none { kind.intra ≡ false → kind.pattern ≡ false → IfOk result (λ v. v ≡ 0) }
{
    if kind.intra {
        return Ok(63);
    }
    if kind.pattern {
        return told_pattern(input);
    }
    Ok(0)
}
