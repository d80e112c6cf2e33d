ghost use Rattle.std.specs.Prelude.{◌≡◌, ◌≤◌, ◌<◌, ◌^◌, true, length};
ghost use Rattle.m2v_bits.specs.Outputs.{Gains};
ghost use Rattle.m2v_vlc.specs.Lookups.{spelled};
ghost use Rattle.m2v_macro.specs.Texts.{flag as flag_text, kind_text, form_text, dct_text, quantiser_text, marker_text, pattern_text};
ghost use Rattle.m2v_macro.specs.Macros.{has_form as has_form_of};

use crate::modes::{has_dct, has_form, is_concealed};
use crate::values::PictureContext;
use m2v_bits::{BitOutput, flag_bit};
use m2v_vlc::{Code, MbType, append_code, code_pattern, code_type_b, code_type_i, code_type_p};

/// Appends a flag.
#[inline(always)]
pub fn put_flag<O: BitOutput>(b: bool, out: &mut O)
    requires { 1 ≤ O.space out.old }
    ensures { Gains O.took O.space out.old (flag_text b) out.new }
{
    out.append(flag_bit(b), 1);
}

/// The code of a macroblock_type by the picture's type, of no bits where its table has none.
#[inline(always)]
#[tactic(auto, unfolding(crate::specs::Texts::kind_text))]
fn code_of(kind: u8, v: MbType) -> Code
    ensures spelled { spelled result ≡ kind_text kind v }
    ensures width { result.len ≤ 17 }
    ensures fits { result.number < 2 ^ result.len }
{
    if kind == 1 {
        code_type_i(v)
    } else if kind == 2 {
        code_type_p(v)
    } else {
        code_type_b(v)
    }
}

/// Appends a macroblock_type, by the picture's type.
#[inline(always)]
#[tactic(auto, using(m2v_bits::proofs::Cursor::lengths))]
pub fn put_kind<O: BitOutput>(kind: u8, v: MbType, out: &mut O)
    requires { length (kind_text kind v) ≤ O.space out.old }
    ensures { Gains O.took O.space out.old (kind_text kind v) out.new }
{
    append_code(code_of(kind, v), out);
}

/// Appends a motion type, where there is one.
#[inline(always)]
#[tactic(auto, using(m2v_bits::proofs::Cursor::lengths, m2v_bits::proofs::Outputs::gains_none), unfolding(crate::specs::Texts::form_text))]
pub fn put_form<O: BitOutput>(context: &PictureContext, kind: MbType, form: u8, out: &mut O)
    requires known { has_form_of context.now kind ≡ true → form < 4 }
    requires room { length (form_text context.now kind form) ≤ O.space out.old }
    ensures { Gains O.took O.space out.old (form_text context.now kind form) out.new }
{
    if has_form(context, kind) {
        out.append(u32::from(form), 2);
    }
}

/// Appends a dct_type, where there is one.
#[inline(always)]
#[tactic(auto, using(m2v_bits::proofs::Outputs::gains_none), unfolding(crate::specs::Texts::dct_text))]
pub fn put_dct<O: BitOutput>(context: &PictureContext, kind: MbType, dct_field: bool, out: &mut O)
    requires { length (dct_text context.now kind dct_field) ≤ O.space out.old }
    ensures { Gains O.took O.space out.old (dct_text context.now kind dct_field) out.new }
{
    if has_dct(context, kind) {
        put_flag(dct_field, out);
    }
}

/// Appends a quantiser code, where the type has one.
#[inline(always)]
#[tactic(auto, using(m2v_bits::proofs::Cursor::lengths, m2v_bits::proofs::Outputs::gains_none), unfolding(crate::specs::Texts::quantiser_text))]
pub fn put_quantiser<O: BitOutput>(kind: MbType, quantiser: u8, out: &mut O)
    requires known { kind.quant ≡ true → quantiser ≤ 31 }
    requires room { length (quantiser_text kind quantiser) ≤ O.space out.old }
    ensures { Gains O.took O.space out.old (quantiser_text kind quantiser) out.new }
{
    if kind.quant {
        out.append(u32::from(quantiser), 5);
    }
}

/// Appends the marker behind concealment vectors.
#[inline(always)]
#[tactic(auto, using(m2v_bits::proofs::Outputs::gains_none), unfolding(crate::specs::Texts::marker_text))]
pub fn put_marker<O: BitOutput>(context: &PictureContext, kind: MbType, out: &mut O)
    requires { length (marker_text context.now kind) ≤ O.space out.old }
    ensures { Gains O.took O.space out.old (marker_text context.now kind) out.new }
{
    if is_concealed(context, kind) {
        put_flag(true, out);
    }
}

/// Appends a coded block pattern, where the type has one.
#[inline(always)]
#[tactic(auto, using(m2v_bits::proofs::Cursor::lengths, m2v_bits::proofs::Outputs::gains_none), unfolding(crate::specs::Texts::pattern_text))]
pub fn put_pattern<O: BitOutput>(kind: MbType, pattern: u8, out: &mut O)
    requires { length (pattern_text kind pattern) ≤ O.space out.old }
    ensures { Gains O.took O.space out.old (pattern_text kind pattern) out.new }
{
    if !kind.intra && kind.pattern {
        append_code(code_pattern(pattern), out);
    }
}
