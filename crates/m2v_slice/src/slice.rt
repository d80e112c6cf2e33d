//! A slice with its start code and its header.
ghost use Rattle.std.specs.Prelude.{◌≡◌, ◌≢◌, ◌+◌, ◌*◌, ◌/◌, ◌%◌, ◌^◌, ◌≤◌, ◌<◌, ◌++◌, IfOk, [], length};
ghost use Rattle.m2v_bits.specs.Bits.{bits, start_code};
ghost use Rattle.m2v_head.specs.Texts.{slice_text};
ghost use Rattle.m2v_plane.specs.declared.planes.Plane.TheVariants.{Y};
ghost use Rattle.m2v_plane.specs.Sizes.{lines_of};
ghost use Rattle.m2v_plane.specs.Samples.{blank, HasRows};
ghost use Rattle.m2v_set.specs.Numbers.{slice_least, dims_of};
ghost use Rattle.m2v_pred.specs.Motion.{own_lines};
ghost use Rattle.m2v_choose.specs.Own.{IsOwn, IsCode};
ghost use Rattle.m2v_choose.specs.Trials.{IsRead};
ghost use Rattle.m2v_slice.specs.Slices.{CodedSlice, slice_info, slice_of, slice_header_bits, most_bits_of};
ghost use Rattle.m2v_slice.specs.Laws.{AreSliceActivities, IsSlice};
ghost use Rattle.m2v_slice.specs.Steps.{HasReferences, row_place, task_by};

use crate::row::{RowPlan, code_row};
use m2v_bits::BitWriter;
use m2v_head::SliceInfo;
use m2v_macroblock::macro_library::PictureContext;
use m2v_plane::{Frame, Memory, RefView, RowSamples};
use m2v_rate::Plan;
use m2v_set::Passed;
use std::alloc::Global;
use std::marker::Model;

/// Appends the start code and the header of a slice (clause 6.2.4). The row counts from 0.
#[tactic(auto, using(m2v_bits::proofs::Cursor::lengths, crate::proofs::Fits::header_length))]
fn write_header(row: u32, q: u8, bits: &mut BitWriter)
    requires row { row < 72 }
    requires q { IsCode q }
    requires empty { bits.old.written ≡ [] }
    requires room { slice_header_bits ≤ bits.old.room }
    ensures written { bits.new.written ≡ start_code (row + 1) ++ slice_text (slice_info q) }
    ensures room { bits.new.room + slice_header_bits ≡ bits.old.room }
{
    bits.put(1, 24);
    bits.put(row + 1, 8);
    let info = SliceInfo {
        quantiser: q,
        intra_slice: None,
        reserved: 0,
    };
    info.write(bits);
}

/// Writes a slice with its start code, and its samples into the row, and tells its work.
fn write_slice<V: RefView>(
    source: &Frame,
    forward: &V,
    backward: &V,
    context: &PictureContext,
    plan: &RowPlan,
    bits: &mut BitWriter,
    row: &mut RowSamples,
) -> u64
    requires slice { IsSlice (task_by source.now (V.at forward.now) (V.at backward.now) context.now
        plan.now) }
    requires activities { AreSliceActivities context.now.columns plan.now.activities.now }
    requires most { 0 < length plan.now.activities.now → plan.now.cap < 2 ^ 24 }
    requires references { HasReferences context.now.kind source.now.dims
        (row_place context.now plan.now.row)
        (V.size forward.now) (V.size backward.now) (V.Holds forward.now) (V.Holds backward.now) }
    requires row { row.old.dims ≡ source.now.dims }
    requires room { bits.old.room + length bits.old.written ≡ most_bits_of context.now.columns }
    ensures text { bits.new.written
        ≡ (slice_of (task_by source.now (V.at forward.now) (V.at backward.now) context.now
        plan.now)).text }
    ensures row { row.new
        ≡ (slice_of (task_by source.now (V.at forward.now) (V.at backward.now) context.now
        plan.now)).row }
    ensures room { bits.new.room + length bits.new.written ≡ most_bits_of context.now.columns }
    ensures work { result
        ≡ (slice_of (task_by source.now (V.at forward.now) (V.at backward.now) context.now
        plan.now)).work }
{
    // the row holds whole macroblocks
    let _dims = row.dims();
    bits.clear();
    write_header(plan.row, plan.q, bits);
    let work = code_row(source, forward, backward, context, plan, bits, row);
    bits.align();
    work
}

/// Where a slice is coded: its bytes, and its samples as a decoder rebuilds them. It has room for any slice of its size,
/// and is used for one slice after another. Contracts see its text, its row and its work.
#[derive(Drop)]
pub struct SliceOut {
    bits: BitWriter,
    row: RowSamples,
    work: u64,
}

impl Model for SliceOut {
    ghost use Rattle.std.specs.Prelude.{◌≡◌, ◌+◌, ◌%◌, length};
    ghost use Rattle.m2v_slice.specs.Slices.{CodedSlice, most_bits_of};

    ghost Value = { CodedSlice };

    ghost view = { λ s. record { text = s.bits.written; row = s.row; work = s.work } };

    ghost invariant = { λ s. (s.bits.room + length s.bits.written
        ≡ most_bits_of s.row.dims.mb_width) × (length s.bits.written % 8 ≡ 0) };
}

impl SliceOut {
    /// Nothing written, and a row of samples 0, for frames of the settings' size.
    ///
    /// # Errors
    /// `Memory` where no memory is left.
    pub fn blank(alloc: Global, settings: &Passed) -> Result<SliceOut, Memory>
        ensures text { IfOk result (λ s. s.text ≡ []) }
        ensures row { IfOk result (λ s. s.row ≡ blank (dims_of settings.now) 1) }
    {
        let dims = settings.dims();
        let row = RowSamples::blank(alloc, dims)?;
        let room = (38 + 4608 * dims.mb_width as usize + 7) / 8;
        let bits = BitWriter::over(vec![in alloc; 0; room]?);
        Ok(SliceOut { bits, row, work: 0 })
    }

    /// The bytes of the slice, with its start code.
    pub fn bytes(&self) -> &[u8]
        ensures { bits result.now ≡ self.now.text }
    {
        self.bits.bytes()
    }

    /// The samples of the slice.
    pub fn row(&self) -> &RowSamples
        ensures { result.now ≡ self.now.row }
    {
        &self.row
    }

    /// The work of the slice: the bits of each macroblock, as often as its quantiser says.
    pub fn work(&self) -> u64
        ensures value { result ≡ self.now.work }
    {
        self.work
    }
}

/// Codes a slice as a row's plan says.
pub(crate) fn code_row_slice<V: RefView>(
    source: &Frame,
    forward: &V,
    backward: &V,
    context: &PictureContext,
    plan: &RowPlan,
    out: &mut SliceOut,
)
    requires slice { IsSlice (task_by source.now (V.at forward.now) (V.at backward.now) context.now
        plan.now) }
    requires activities { AreSliceActivities context.now.columns plan.now.activities.now }
    requires most { 0 < length plan.now.activities.now → plan.now.cap < 2 ^ 24 }
    requires references { HasReferences context.now.kind source.now.dims
        (row_place context.now plan.now.row)
        (V.size forward.now) (V.size backward.now) (V.Holds forward.now) (V.Holds backward.now) }
    requires out { out.old.row.dims ≡ source.now.dims }
    ensures value { out.new ≡ slice_of (task_by source.now (V.at forward.now) (V.at backward.now)
        context.now plan.now) }
    ensures cap { length out.new.text ≤ plan.now.cap }
    ensures edge { length out.new.text % 8 ≡ 0 }
{
    out.work = write_slice(
        source,
        forward,
        backward,
        context,
        plan,
        &mut out.bits,
        &mut out.row,
    );
}

/// Codes the slice of a macroblock row of the picture, counted from 0, with the quantiser of a plan: the choices from left
/// to right, in at most `cap` bits, which are whole bytes and enough to hold each macroblock. Vectors are searched up to
/// `search` samples to each side, at most 15. In a P picture the forward reference is read, in a B picture both are; a view
/// that is read is of the source's size, and holds the macroblock rows before, at and after this one. What `out` held before
/// is gone. Takes no memory.
pub fn code_slice<V: RefView>(
    source: &Frame,
    forward: &V,
    backward: &V,
    context: &PictureContext,
    row: u32,
    plan: &Plan,
    cap: u64,
    search: u32,
    out: &mut SliceOut,
)
    requires own { IsOwn context.now }
    requires columns { context.now.columns ≡ source.now.dims.mb_width }
    requires row { 16 * row + 16 ≤ lines_of source.now.dims Y
        (own_lines context.now.extension.structure) }
    requires q { IsCode plan.now.q }
    requires search { search ≤ 15 }
    requires least { slice_least context.now.columns ≤ cap }
    requires whole { cap % 8 ≡ 0 }
    requires out { out.old.row.dims ≡ source.now.dims }
    requires forward { context.now.kind ≢ 1
        → IsRead (V.size forward.now) (V.Holds forward.now) (row_place context.now row) }
    requires forward_size { context.now.kind ≢ 1 → V.size forward.now ≡ source.now.dims }
    requires backward { context.now.kind ≡ 3
        → IsRead (V.size backward.now) (V.Holds backward.now) (row_place context.now row) }
    requires backward_size { context.now.kind ≡ 3 → V.size backward.now ≡ source.now.dims }
    ensures value { out.new ≡ slice_of (record {
      source = source.now;
      forward = V.at forward.now;
      backward = V.at backward.now;
      context = context.now;
      row = row;
      q = plan.now.q;
      cap = cap;
      search = search;
      activities = [];
    }) }
    ensures cap { length out.new.text ≤ cap }
    ensures edge { length out.new.text % 8 ≡ 0 }
{
    // the size of the frame bounds the row
    let _size = source.dims();
    let row_plan = RowPlan {
        row,
        q: plan.q,
        cap,
        search,
        activities: &[],
    };
    code_row_slice(source, forward, backward, context, &row_plan, out);
}
