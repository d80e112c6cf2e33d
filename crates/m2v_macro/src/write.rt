ghost use Rattle.std.specs.Prelude.{◌≡◌, ◌+◌, ◌-◌, ◌/◌, ◌%◌, ◌≤◌, ◌<◌, ◌^◌, ◌++◌, true, length};
ghost use Rattle.m2v_bits.specs.Outputs.{Gains};
ghost use Rattle.m2v_bits.specs.Syntax.{Spells};
ghost use Rattle.m2v_vlc.specs.Tables.{increment_code};
ghost use Rattle.m2v_macro.specs.Texts.{escapes_text, increment_text, modes_text, directions_text, macro_text};
ghost use Rattle.m2v_macro.specs.States.{after};
ghost use Rattle.m2v_macro.specs.Macros.{f_codes_of, macro_at};
ghost use Rattle.m2v_macro.specs.Conditions.{IsContext, IsReady, IsAddress, IsMacro, ArePredictors, is_used, forward_of as forward_as, backward_of as backward_as};

use crate::modes::{has_forward, is_field};
use crate::state::pmv_before;
use crate::values::{Direction, MacroSyntax, PictureContext, Selected, SliceState};
use crate::vectors::shape_of;
use crate::write_modes::{put_dct, put_form, put_kind, put_marker, put_pattern, put_quantiser};
use crate::write_vectors::put_direction;
use m2v_bits::{BitCount, BitOutput, BitWriter};
use m2v_vector::Pmv;
use m2v_vlc::{Increment, append_code, code_increment};

/// Appends the code of an increment or of the escape.
#[inline(always)]
#[tactic(auto, using(m2v_bits::proofs::Cursor::lengths))]
fn put_increment<O: BitOutput>(value: Increment, out: &mut O)
    requires { length (increment_code value) ≤ O.space out.old }
    ensures { Gains O.took O.space out.old (increment_code value) out.new }
{
    append_code(code_increment(value), out);
}

/// Appends escapes.
fn put_escapes<O: BitOutput>(count: u32, out: &mut O)
    requires { length (escapes_text count) ≤ O.space out.old }
    ensures { Gains O.took O.space out.old (escapes_text count) out.new }
{
    let mut left = count;
    while left > 0 {
        put_increment(Increment::Escape, out);
        left -= 1;
    }
}

/// Appends an increment with its escapes.
#[inline(always)]
#[tactic(auto, using(m2v_bits::proofs::Cursor::lengths), unfolding(crate::specs::Texts::increment_text))]
fn put_step<O: BitOutput>(increment: u32, out: &mut O)
    requires some { 1 ≤ increment }
    requires room { length (increment_text increment) ≤ O.space out.old }
    ensures { Gains O.took O.space out.old (increment_text increment) out.new }
{
    if increment <= 33 {
        put_increment(Increment::Step(increment as u8), out);
        return;
    }
    put_escapes((increment - 1) / 33, out);
    put_increment(Increment::Step(((increment - 1) % 33 + 1) as u8), out);
}

/// The forward vectors of a macroblock.
#[inline(always)]
fn forward_of(m: &MacroSyntax) -> Direction
    ensures { result ≡ forward_as m.now }
{
    let first = m.vectors[0][0];
    let second = m.vectors[1][0];
    let dmvector = m.dmvector;
    Direction {
        first: Selected {
            bottom: m.bottom[0][0],
            vector: first,
            dmvector,
        },
        second: Selected {
            bottom: m.bottom[1][0],
            vector: second,
            dmvector: [0, 0],
        },
    }
}

/// The backward vectors of a macroblock.
#[inline(always)]
fn backward_of(m: &MacroSyntax) -> Direction
    ensures { result ≡ backward_as m.now }
{
    let first = m.vectors[0][1];
    let second = m.vectors[1][1];
    Direction {
        first: Selected {
            bottom: m.bottom[0][1],
            vector: first,
            dmvector: [0, 0],
        },
        second: Selected {
            bottom: m.bottom[1][1],
            vector: second,
            dmvector: [0, 0],
        },
    }
}

/// Appends what stands before the vectors of a macroblock.
#[tactic(auto, using(m2v_bits::proofs::Cursor::lengths), unfolding(crate::specs::Texts::modes_text))]
fn put_modes<O: BitOutput>(
    m: &MacroSyntax,
    context: &PictureContext,
    state: &SliceState,
    out: &mut O,
)
    requires fits { IsMacro context.now state.now m.now }
    requires room { length (modes_text context.now m.now) ≤ O.space out.old }
    ensures { Gains O.took O.space out.old (modes_text context.now m.now) out.new }
{
    put_step(m.increment, out);
    put_kind(context.kind, m.kind, out);
    put_form(context, m.kind, m.form, out);
    put_dct(context, m.kind, m.dct_field, out);
    put_quantiser(m.kind, m.quantiser, out);
}

/// Appends the vectors of both directions, and the marker behind concealment vectors.
#[tactic(auto, using(m2v_bits::proofs::Cursor::lengths), unfolding(crate::specs::Texts::directions_text))]
fn put_directions<O: BitOutput>(
    m: &MacroSyntax,
    context: &PictureContext,
    state: &SliceState,
    pmv: &Pmv,
    out: &mut O,
)
    requires context { IsContext context.now }
    requires fits { IsMacro context.now state.now m.now }
    requires forward { is_used context.now 0 ≡ true
        → ArePredictors (f_codes_of context.now 0) pmv.now 0 }
    requires backward { is_used context.now 1 ≡ true
        → ArePredictors (f_codes_of context.now 1) pmv.now 1 }
    requires room { length (directions_text context.now pmv.now m.now) ≤ O.space out.old }
    ensures { Gains O.took O.space out.old (directions_text context.now pmv.now m.now) out.new }
{
    let shape = shape_of(is_field(context), m.form);
    let codes = &context.extension.f_code;
    let told = has_forward(context, m.kind);
    put_direction(told, &shape, &codes[0], pmv, 0, &forward_of(m), out);
    let behind = backward_of(m);
    put_direction(m.kind.backward, &shape, &codes[1], pmv, 1, &behind, out);
    put_marker(context, m.kind, out);
}

/// Appends a macroblock up to its blocks as `write_macro` does, behind the state before it, to whatever takes bits.
#[tactic(auto, using(m2v_bits::proofs::Cursor::lengths), unfolding(crate::specs::Texts::macro_text))]
pub fn put_macro<O: BitOutput>(
    m: &MacroSyntax,
    context: &PictureContext,
    state: &SliceState,
    out: &mut O,
)
    requires context { IsContext context.now }
    requires state { IsReady context.now state.now }
    requires fits { IsMacro context.now state.now m.now }
    requires room { length (macro_text context.now state.now m.now) ≤ O.space out.old }
    ensures { Gains O.took O.space out.old (macro_text context.now state.now m.now) out.new }
{
    let pmv = pmv_before(context, state, m.increment);
    put_modes(m, context, state, out);
    put_directions(m, context, state, &pmv, out);
    put_pattern(m.kind, m.pattern, out);
}

/// Appends a macroblock up to its blocks (clauses 6.2.5 and 6.3.17), and leaves the state behind it. The DC predictors
/// are those that its first blocks go by. Of the two spellings of a vector the one is written whose difference lies
/// from `-16 f` to `16 f - 1`, where f is 2 ^ (f_code - 1).
pub fn write_macro(
    m: &MacroSyntax,
    context: &PictureContext,
    state: &mut SliceState,
    out: &mut BitWriter,
)
    requires context { IsContext context.now }
    requires state { IsReady context.now state.old }
    requires address { IsAddress state.old.address }
    requires fits { IsMacro context.now state.old m.now }
    requires room { length (macro_text context.now state.old m.now) ≤ out.old.room }
    ensures written { out.new.written ≡ out.old.written ++ macro_text context.now state.old m.now }
    ensures room { out.new.room + length (macro_text context.now state.old m.now) ≡ out.old.room }
    ensures spells { Spells (macro_at context.now state.old) m.now
        (macro_text context.now state.old m.now) }
    ensures state { state.new ≡ after context.now state.old m.now }
    ensures ready { IsReady context.now state.new }
{
    put_macro(m, context, state, out);
    *state = state.after(context, m);
}

/// How many bits `write_macro` takes for a macroblock. Nothing is written.
pub fn macro_bits(m: &MacroSyntax, context: &PictureContext, state: &SliceState) -> u32
    requires context { IsContext context.now }
    requires state { IsReady context.now state.now }
    requires address { IsAddress state.now.address }
    requires fits { IsMacro context.now state.now m.now }
    ensures value { result ≡ length (macro_text context.now state.now m.now) }
    ensures most { result ≤ 2 ^ 21 }
{
    let mut count = BitCount { bits: 0 };
    put_macro(m, context, state, &mut count);
    count.bits
}
