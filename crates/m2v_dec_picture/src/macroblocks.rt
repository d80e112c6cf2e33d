ghost use Rattle.std.specs.Prelude.{◌≡◌, ◌<◌, ◌≤◌, ◌+◌, ◌*◌, ℕ, All, IfOk, OnOk, IfErr, length, true, false};
ghost use Rattle.m2v_bits.specs.Syntax.{renamed};
ghost use Rattle.m2v_quant.specs.Kinds.{IsLevel};
ghost use Rattle.m2v_pred.specs.declared.mode.MbPlace.{MbPlace as MbPlaceOf};
ghost use Rattle.m2v_macro.specs.Macros.{macro_at};
ghost use Rattle.m2v_macro.specs.States.{after};
ghost use Rattle.m2v_macro.specs.Conditions.{IsMacro};
ghost use Rattle.m2v_macroblock.specs.Modes.{mode_of};
ghost use Rattle.m2v_model.specs.Faults as faults;
ghost use Rattle.m2v_model.specs.Slices.{macroblock_at};
ghost use Rattle.m2v_dec_picture.specs.Conditions.{IsPicture, IsSetup, IsState, AreSliceKinds, AreDc, LiesInRow, rows_in, HoldReferences, TakesRow, CanPaint, IsColumn, IsGap, last_dc, GoesOn, AreFew};
ghost use Rattle.m2v_dec_picture.specs.Reads.{TellsElements, TellsMacroblock, TellsRound, TellsRow, seen_by};

use crate::basis::PictureBasis;
use crate::blocks::{blocks, dc_after};
use crate::gap::{column, gap_before};
use crate::paint::{paint_gap, paint_own};
use crate::rules::check;
use crate::scratch::Scratch;
use crate::slice_kinds::SliceKinds;
use crate::target::Target;
use m2v_bits::BitReader;
use m2v_macro::{MacroSyntax, PictureContext, SliceState, read_macro_into};
use m2v_macroblock::mode;
use m2v_model::{SliceSetup, Stop, of_macro, stopped};
use m2v_plane::RefView;

/// What is told of a macroblock beside its samples.
#[derive(Clone, Copy, Debug, PartialEq, Eq)]
pub struct Round {
    /// Another macroblock follows.
    pub more: bool,
    /// It has more than 4,608 bits.
    pub large: bool,
}

/// How many bits are left.
#[inline(always)]
fn bits_left(input: &BitReader) -> u64
    ensures value { result ≡ length input.now.rest }
    ensures within { result ≤ length input.now.text }
{
    // what is left is not more than the whole text
    let _place = input.place();
    input.left()
}

/// A macroblock's elements up to its pattern, and the state behind them.
#[tactic(auto, unfolding(m2v_bits::specs::Syntax::renamed))]
fn elements(
    input: &mut BitReader,
    c: &PictureContext,
    row: u32,
    state: &mut SliceState,
    m: &mut MacroSyntax,
) -> Result<(), Stop>
    requires picture { IsPicture c.now }
    requires state { IsState c.now row state.old }
    ensures exact { TellsElements result m.new input.new.rest
        ((renamed faults.of_macro (macro_at c.now state.old)).read input.old.rest) }
    ensures text { input.new.text ≡ input.old.text }
    ensures left { IfErr result (λ e. e.left ≤ length input.old.text) }
    ensures fits { OnOk result (IsMacro c.now state.old m.new) }
    ensures state { OnOk result (state.new ≡ after c.now state.old m.new) }
    ensures inside { OnOk result (IsState c.now row state.new) }
    ensures place { OnOk result (LiesInRow c.now row state.new.address) }
{
    match read_macro_into(input, c, state, m) {
        Ok(()) => Ok(()),
        Err(e) => Err(stopped(input, of_macro(e))),
    }
}

/// A macroblock, read into `scratch.found`, and the levels of its blocks into `scratch.levels`. `before` is the state before
/// it, `state` becomes that behind its elements.
#[tactic(auto, unfolding(m2v_model::specs::Slices::macroblock_at, m2v_bits::specs::Syntax::here, m2v_bits::specs::Syntax::rule, m2v_bits::specs::Syntax::seq, m2v_bits::specs::Syntax::bind, m2v_bits::specs::Syntax::done))]
fn macroblock(
    input: &mut BitReader,
    s: &SliceSetup,
    row: u32,
    before: &SliceState,
    state: &mut SliceState,
    kinds: &mut SliceKinds,
    scratch: &mut Scratch,
) -> Result<(), Stop>
    requires setup { IsSetup s.now }
    requires row { row < rows_in s.now }
    requires before { state.old ≡ before.now }
    requires state { IsState s.now.context row state.old }
    requires kinds { AreSliceKinds s.now.context kinds.old }
    ensures exact { TellsMacroblock result scratch.new.found.syntax scratch.new.levels
        input.new.rest ((macroblock_at s.now state.old).read input.old.rest) }
    ensures text { input.new.text ≡ input.old.text }
    ensures left { IfErr result (λ e. e.left ≤ length input.old.text) }
    ensures can { OnOk result (CanPaint s.now state.old scratch.new.found.syntax) }
    ensures gap { OnOk result (IsGap s.now.context row state.old scratch.new.found.syntax
        scratch.new.found.gap) }
    ensures column { OnOk result (IsColumn s.now.context row state.old scratch.new.found.syntax
        scratch.new.found.column) }
    ensures mode { OnOk result (scratch.new.found.mode
        ≡ mode_of s.now.context scratch.new.found.syntax) }
    ensures state { OnOk result (state.new
        ≡ after s.now.context state.old scratch.new.found.syntax) }
    ensures inside { OnOk result (IsState s.now.context row state.new) }
    ensures place { OnOk result (LiesInRow s.now.context row state.new.address) }
    ensures kinds { OnOk result (AreSliceKinds s.now.context kinds.new) }
    ensures quantiser { OnOk result (kinds.new.quantiser
        ≡ (after s.now.context state.old scratch.new.found.syntax).quantiser) }
    ensures levels { OnOk result (All (λ l. All IsLevel l.at) scratch.new.levels) }
    ensures dc { OnOk result (scratch.new.found.syntax.kind.intra ≡ true
        → AreDc s.now.context.extension.dc_precision (last_dc scratch.new.levels)) }
{
    let x = &mut scratch.found;
    let left = bits_left(input);
    elements(input, &s.context, row, state, &mut x.syntax)?;
    x.gap = gap_before(&s.context, row, before, &x.syntax);
    x.column = column(&s.context, row, state);
    x.mode = mode(&s.context, &x.syntax);
    check(s, row, before, x, left)?;
    kinds.set_quantiser(&s.context, state.quantiser);
    let own = kinds.of(&s.context, x.syntax.kind.intra);
    blocks(
        input,
        &s.context,
        &x.syntax,
        state,
        own,
        &mut scratch.levels,
    )?;
    Ok(())
}

/// One macroblock, put with those skipped before it.
#[tactic(auto, unfolding(m2v_model::specs::Samples::painted, m2v_macroblock::specs::Macroblocks::after_macroblock))]
fn next_macroblock<V: RefView, T: Target>(
    input: &mut BitReader,
    basis: &PictureBasis<V>,
    row: u32,
    state: &mut SliceState,
    kinds: &mut SliceKinds,
    scratch: &mut Scratch,
    out: &mut T,
) -> Result<Round, Stop>
    requires setup { IsSetup basis.now.setup.now }
    requires row { row < rows_in basis.now.setup.now }
    requires state { IsState basis.now.setup.now.context row state.old }
    requires kinds { AreSliceKinds basis.now.setup.now.context kinds.old }
    requires references { HoldReferences V.size V.Holds basis.now }
    requires takes { TakesRow (T.Takes out.old) basis.now.setup.now row }
    ensures exact { TellsRound T.placed basis.now.setup.now
        (seen_by (V.at basis.now.forward.now) (V.at basis.now.backward.now))
        state.old input.old.rest (T.samples out.old)
        result state.new input.new.rest (T.samples out.new) }
    ensures text { input.new.text ≡ input.old.text }
    ensures left { IfErr result (λ e. e.left ≤ length input.old.text) }
    ensures state { IfOk result (λ r. IsState basis.now.setup.now.context row state.new) }
    ensures place { IfOk result (λ r. LiesInRow basis.now.setup.now.context row state.new.address) }
    ensures kinds { OnOk result (AreSliceKinds basis.now.setup.now.context kinds.new) }
    ensures goes_on { IfOk result (λ r. GoesOn state.old state.new) }
    ensures takes { IfOk result (λ r. (p : MbPlaceOf) → T.Takes out.old p → T.Takes out.new p) }
{
    let before = *state;
    let start = bits_left(input);
    macroblock(input, basis.setup, row, &before, state, kinds, scratch)?;
    let end = bits_left(input);
    paint_gap(
        basis,
        row,
        &before,
        &scratch.found,
        &mut scratch.second,
        &mut scratch.block,
        out,
    );
    paint_own(basis, row, &before, kinds, scratch, out);
    state.dc = dc_after(scratch.found.syntax.kind.intra, &scratch.levels, state.dc);
    Ok(Round {
        more: !input.rest_is_zero(),
        large: start.saturating_sub(end) > 4608,
    })
}

/// Macroblocks, each put with those skipped before it, until the rest of the unit is zero. Answers the state behind the
/// last one, and how many of them have more than 4,608 bits.
pub fn macroblocks<V: RefView, T: Target>(
    input: &mut BitReader,
    basis: &PictureBasis<V>,
    row: u32,
    first: SliceState,
    scratch: &mut Scratch,
    out: &mut T,
) -> Result<(SliceState, u32), Stop>
    requires setup { IsSetup basis.now.setup.now }
    requires row { row < rows_in basis.now.setup.now }
    requires state { IsState basis.now.setup.now.context row first }
    requires begins { first.first ≡ true }
    requires references { HoldReferences V.size V.Holds basis.now }
    requires takes { TakesRow (T.Takes out.old) basis.now.setup.now row }
    ensures exact { TellsRow T.placed basis.now.setup.now
        (seen_by (V.at basis.now.forward.now) (V.at basis.now.backward.now))
        first input.old.rest (T.samples out.old)
        result input.new.rest (T.samples out.new) }
    ensures left { IfErr result (λ e. e.left ≤ length input.old.text) }
    ensures place { IfOk result (λ z. LiesInRow basis.now.setup.now.context row z.0.address) }
    ensures few { IfOk result (λ z. AreFew first.next z.0 z.1) }
    ensures some { IfOk result (λ z. z.0.first ≡ false) }
    ensures takes { IfOk result (λ z. (p : MbPlaceOf) → T.Takes out.old p → T.Takes out.new p) }
{
    let mut state = first;
    let mut kinds = SliceKinds::new(&basis.setup.context, first.quantiser);
    let mut large = 0;
    loop {
        let r = next_macroblock(input, basis, row, &mut state, &mut kinds, scratch, out)?;
        if r.large {
            large += 1;
        }
        if !r.more {
            return Ok((state, large));
        }
    }
}
