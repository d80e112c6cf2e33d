ghost use Rattle.std.specs.Prelude.{◌≡◌, ℕ, ◌+◌, ◌*◌, ◌<◌, ◌≤◌, All, false};
ghost use Rattle.m2v_quant.specs.Kinds.{IsLevel};
ghost use Rattle.m2v_pred.specs.declared.mode.MbPlace.{MbPlace as MbPlaceOf};
ghost use Rattle.m2v_macro.specs.States.{after};
ghost use Rattle.m2v_macroblock.specs.Macroblocks.{macroblock_of};
ghost use Rattle.m2v_macroblock.specs.Modes.{first_skipped, mode_of};
ghost use Rattle.m2v_macroblock.specs.Predictions.{prediction_of};
ghost use Rattle.m2v_model.specs.Samples.{skipped_painted, own_painted};
ghost use Rattle.m2v_dec_picture.specs.Conditions.{IsSetup, IsState, AreSliceKinds, rows_in, place_in, HoldReferences, TakesRow, CanPaint, CanPredict, IsColumn, IsGap};
ghost use Rattle.m2v_dec_picture.specs.Reads.{seen_by};

use crate::basis::PictureBasis;
use crate::located::Located;
use crate::prediction::{place, predict};
use crate::scratch::Scratch;
use crate::slice_kinds::SliceKinds;
use crate::target::Target;
use m2v_macro::SliceState;
use m2v_macroblock::skipped_mode;
use m2v_plane::RefView;
use m2v_pred::{Block16, MbPlace};
use m2v_recon::rebuild_block;

/// Puts the macroblocks that are skipped before one: each is its prediction. `before` is the state before them, `second`
/// room for the second of two predictions. A target that wants no samples gets none.
pub fn paint_gap<V: RefView, T: Target>(
    basis: &PictureBasis<V>,
    row: u32,
    before: &SliceState,
    x: &Located,
    second: &mut Block16,
    block: &mut Block16,
    out: &mut T,
)
    requires setup { IsSetup basis.now.setup.now }
    requires row { row < rows_in basis.now.setup.now }
    requires state { IsState basis.now.setup.now.context row before.now }
    requires can { CanPaint basis.now.setup.now before.now x.now.syntax }
    requires gap { IsGap basis.now.setup.now.context row before.now x.now.syntax x.now.gap }
    requires references { HoldReferences V.size V.Holds basis.now }
    requires takes { TakesRow (T.Takes out.old) basis.now.setup.now row }
    ensures value { T.samples out.new
        ≡ skipped_painted T.placed basis.now.setup.now
        (seen_by (V.at basis.now.forward.now) (V.at basis.now.backward.now))
        before.now (first_skipped before.now) x.now.gap.count (T.samples out.old) }
    ensures takes { (p : MbPlaceOf) → T.Takes out.old p → T.Takes out.new p }
{
    if !out.wants() {
        return;
    }
    let gap = x.gap;
    if gap.count == 0 {
        return;
    }
    let mode = skipped_mode(&basis.setup.context, before);
    for k in 0..gap.count {
        let at = place(basis.setup, row, gap.column + k);
        predict(basis, &mode, at, second, block);
        out.put(at, block);
    }
}

/// The prediction of a macroblock by its mode, at its place. An intra one has none, and the block stays as it is: all of its
/// blocks are coded, and no sample of it depends on what the block holds.
fn predict_own<V: RefView>(
    basis: &PictureBasis<V>,
    x: &Located,
    at: MbPlace,
    second: &mut Block16,
    block: &mut Block16,
)
    requires mode { x.now.mode ≡ mode_of basis.now.setup.now.context x.now.syntax }
    requires can { x.now.syntax.kind.intra ≡ false
        → CanPredict basis.now.setup.now x.now.mode at }
    requires references { HoldReferences V.size V.Holds basis.now }
    ensures value { x.now.syntax.kind.intra ≡ false → block.new.at
        ≡ prediction_of (V.at basis.now.forward.now) (V.at basis.now.backward.now)
        basis.now.setup.now.context at x.now.syntax }
{
    if x.syntax.kind.intra {
        return;
    }
    predict(basis, &x.mode, at, second, block);
}

/// Puts the macroblock that `scratch` has. `before` is the state before it and those skipped before it, the kinds are
/// those at its quantiser code. A target that wants no samples gets none.
pub fn paint_own<V: RefView, T: Target>(
    basis: &PictureBasis<V>,
    row: u32,
    before: &SliceState,
    kinds: &SliceKinds,
    scratch: &mut Scratch,
    out: &mut T,
)
    requires setup { IsSetup basis.now.setup.now }
    requires row { row < rows_in basis.now.setup.now }
    requires kinds { AreSliceKinds basis.now.setup.now.context kinds.now }
    requires quantiser { kinds.now.quantiser
        ≡ (after basis.now.setup.now.context before.now scratch.old.found.syntax).quantiser }
    requires can { CanPaint basis.now.setup.now before.now scratch.old.found.syntax }
    requires mode { scratch.old.found.mode
        ≡ mode_of basis.now.setup.now.context scratch.old.found.syntax }
    requires column { IsColumn basis.now.setup.now.context row before.now scratch.old.found.syntax
        scratch.old.found.column }
    requires levels { All (λ l. All IsLevel l.at) scratch.old.levels }
    requires references { HoldReferences V.size V.Holds basis.now }
    requires takes { T.Takes out.old (place_in basis.now.setup.now row scratch.old.found.column) }
    ensures value { T.samples out.new
        ≡ own_painted T.placed basis.now.setup.now
        (seen_by (V.at basis.now.forward.now) (V.at basis.now.backward.now))
        before.now (macroblock_of scratch.old.found.syntax scratch.old.levels) (T.samples out.old) }
    ensures levels { scratch.new.levels ≡ scratch.old.levels }
    ensures found { scratch.new.found ≡ scratch.old.found }
    ensures takes { (p : MbPlaceOf) → T.Takes out.old p → T.Takes out.new p }
{
    if !out.wants() {
        return;
    }
    let x = &scratch.found;
    let block = &mut scratch.block;
    let at = place(basis.setup, row, x.column);
    predict_own(basis, x, at, &mut scratch.second, block);
    let context = &basis.setup.context;
    let m = &x.syntax;
    let own = kinds.of(context, m.kind.intra);
    rebuild_block(block, &scratch.levels, m.pattern, own, m.dct_field);
    out.put(at, block);
}
