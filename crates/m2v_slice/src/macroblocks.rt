//! The macroblocks of a slice: what is chosen of each, its text and its samples.
ghost use Rattle.std.specs.Prelude.{ℕ, ◌≡◌, ◌≤◌, ◌<◌, ◌+◌, ◌++◌, false, length};
ghost use Rattle.m2v_plane.specs.declared.planes.Plane.{Plane};
ghost use Rattle.m2v_pred.specs.Predicted.{block_by};
ghost use Rattle.m2v_macroblock.specs.m2v_macro.Conditions.{IsAddress};
ghost use Rattle.m2v_macroblock.specs.m2v_recon.Macro.{with_macroblock};
ghost use Rattle.m2v_macroblock.specs.Macroblocks.{macroblock_of, after_macroblock};
ghost use Rattle.m2v_macroblock.specs.Conditions.{AreDc};
ghost use Rattle.m2v_macroblock.specs.Texts.{text_written};
ghost use Rattle.m2v_choose.specs.Choice.{candidate_at, choice_of, samples_of, state_behind};
ghost use Rattle.m2v_choose.specs.Own.{IsOwn, IsOwnState};
ghost use Rattle.m2v_choose.specs.Laws.{IsWritable};
ghost use Rattle.m2v_choose.specs.Trials.{candidate_of};
ghost use Rattle.m2v_slice.specs.Steps.{CanCode, decision_at, text_of};

use crate::source::copy_block;
use m2v_bits::BitWriter;
use m2v_choose::{Choice, ChoiceScratch, Limits, choose_in};
use m2v_macroblock::macro_library::{PictureContext, SliceState};
use m2v_macroblock::write_macroblock;
use m2v_plane::{Frame, Plane, RefView, RowSamples};
use m2v_pred::Block16;

/// What the slices of a picture are coded of: the source, the views of its references, and what its headers say.
#[derive(Drop)]
pub struct SliceBasis<'a, V> {
    /// The frame that is coded.
    pub source: &'a Frame,
    /// The reference that it is predicted forward from.
    pub forward: &'a V,
    /// The reference that it is predicted backward from.
    pub backward: &'a V,
    /// What the headers say of the picture.
    pub context: &'a PictureContext,
}

/// Room for the macroblocks of a slice. Of what stands in it only what was written for a macroblock is read.
#[derive(Drop)]
pub struct SliceScratch {
    block: Block16,
    choice: ChoiceScratch,
}

impl SliceScratch {
    /// Room for macroblocks. In place, so that nothing of it is moved.
    #[inline(always)]
    pub fn new() -> SliceScratch {
        SliceScratch {
            block: Block16 { at: [0; 384] },
            choice: ChoiceScratch::new(),
        }
    }
}

/// What is chosen of a macroblock of the source, with its samples.
fn chosen<V: RefView>(
    basis: &SliceBasis<V>,
    state: &SliceState,
    limits: &Limits,
    scratch: &mut SliceScratch,
) -> Choice
    requires can { CanCode (decision_at basis.now.source.now (V.at basis.now.forward.now)
        (V.at basis.now.backward.now) basis.now.context.now state.now limits.now)
        (V.size basis.now.forward.now) (V.size basis.now.backward.now)
        (V.Holds basis.now.forward.now) (V.Holds basis.now.backward.now) }
    ensures value { candidate_of result
        ≡ choice_of (decision_at basis.now.source.now (V.at basis.now.forward.now)
        (V.at basis.now.backward.now) basis.now.context.now
        state.now limits.now) }
    ensures samples { let d = decision_at basis.now.source.now (V.at basis.now.forward.now)
        (V.at basis.now.backward.now) basis.now.context.now state.now limits.now in
        result.samples.at ≡ samples_of d (choice_of d) }
{
    let SliceBasis {
        source,
        forward,
        backward,
        context,
    } = basis;
    let SliceScratch { block, choice } = scratch;
    let structure = context.extension.structure;
    copy_block(source, structure, limits.row, limits.column, block);
    choose_in(block, *forward, *backward, context, state, limits, choice)
}

/// Writes a macroblock that isn't skipped. Leaves the state behind it.
fn write_chosen(
    context: &PictureContext,
    choice: &Choice,
    state: &mut SliceState,
    bits: &mut BitWriter,
)
    requires own { IsOwn context.now }
    requires state { IsOwnState state.old }
    requires dc { AreDc 0 state.old.dc }
    requires address { IsAddress state.old.address }
    requires writable { IsWritable context.now state.old
        (macroblock_of choice.now.syntax choice.now.levels) }
    requires room { length (text_written context.now state.old choice.now.syntax
        choice.now.levels)
        ≤ bits.old.room }
    ensures state { state.new
        ≡ after_macroblock context.now state.old
        (macroblock_of choice.now.syntax choice.now.levels) }
    ensures written { bits.new.written
        ≡ bits.old.written ++ text_written context.now state.old choice.now.syntax
        choice.now.levels }
    ensures room { bits.new.room + length
        (text_written context.now state.old choice.now.syntax choice.now.levels) ≡
        bits.old.room }
{
    write_macroblock(&choice.syntax, &choice.levels, context, state, bits);
}

/// Writes the samples of a macroblock at its column of the row.
fn paint(block: &Block16, column: u32, out: &mut RowSamples)
    requires column { column < out.old.dims.mb_width }
    ensures value { (f : Plane → ℕ → ℕ → ℕ) → block.now.at ≡ block_by f → out.new
        ≡ with_macroblock 1 0 column f out.old }
{
    out.set_square(Plane::Y, column, &block.at[..256]);
    out.set_square(Plane::Cb, column, &block.at[256..320]);
    out.set_square(Plane::Cr, column, &block.at[320..384]);
}

/// Codes a macroblock: chooses, appends what is written of it, and writes its samples into the row.
pub fn code_macroblock<V: RefView>(
    basis: &SliceBasis<V>,
    limits: &Limits,
    state: &mut SliceState,
    bits: &mut BitWriter,
    row: &mut RowSamples,
    scratch: &mut SliceScratch,
)
    requires can { CanCode (decision_at basis.now.source.now (V.at basis.now.forward.now)
        (V.at basis.now.backward.now) basis.now.context.now state.old limits.now)
        (V.size basis.now.forward.now) (V.size basis.now.backward.now)
        (V.Holds basis.now.forward.now) (V.Holds basis.now.backward.now) }
    requires row { row.old.dims ≡ basis.now.source.now.dims }
    requires room { 4608 ≤ bits.old.room }
    ensures state { let d = decision_at basis.now.source.now (V.at basis.now.forward.now)
        (V.at basis.now.backward.now) basis.now.context.now state.old limits.now in
        state.new ≡ state_behind d (choice_of d) }
    ensures written { let d = decision_at basis.now.source.now (V.at basis.now.forward.now)
        (V.at basis.now.backward.now) basis.now.context.now state.old limits.now in
        bits.new.written ≡ bits.old.written ++ text_of d (choice_of d) }
    ensures room { let d = decision_at basis.now.source.now (V.at basis.now.forward.now)
        (V.at basis.now.backward.now) basis.now.context.now state.old limits.now in
        bits.new.room + length (text_of d (choice_of d)) ≡ bits.old.room }
    ensures row { let d = decision_at basis.now.source.now (V.at basis.now.forward.now)
        (V.at basis.now.backward.now) basis.now.context.now
        state.old limits.now in
        row.new ≡ with_macroblock 1 0 limits.now.column (candidate_at d (choice_of d)) row.old }
{
    let choice = chosen(basis, state, limits, scratch);
    paint(&choice.samples, limits.column, row);
    if !choice.skip {
        write_chosen(basis.context, &choice, state, bits);
    }
}
