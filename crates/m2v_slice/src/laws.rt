//! What holds of the code of a slice.
//! What holds of the headers' text.
ghost use Rattle.std.specs.Prelude.{ℕ, suc, ◌≡◌, ◌<◌, ◌≤◌, false, length};
ghost use Rattle.m2v_plane.specs.Samples.{Samples};
ghost use Rattle.m2v_choose.specs.Choice.{choice_of};
ghost use Rattle.m2v_slice.specs.Slices.{SliceTask, begun, decision};
ghost use Rattle.m2v_slice.specs.Laws.{IsSlice, IsRow, IsChosen, Keeps, SliceFits, skipped_before};
ghost use Rattle.m2v_set.specs.declared.settings.Settings.{Settings};
ghost use Rattle.m2v_order.specs.declared.jobs.PictureJob.{PictureJob};
ghost use Rattle.m2v_slice.specs.Headers.{header_units, header_bits, IsJob};

/// What holds behind the first n macroblocks of a slice, whatever row it is begun with: the state is one of this encoder,
/// and stands at the right address; each macroblock to come can still be held within the cap, 31 bits each, and so can
/// those that are skipped right before it; no macroblock has more than 4,608 bits.
pub fn law_slice_keeps()
    ensures { (t : SliceTask) → IsSlice t → (row : Samples) (n : ℕ) → n ≤ t.context.columns
        → Keeps t n (skipped_before t (begun t row n) n) (begun t row n) }
{}

/// What holds of the choice of each macroblock: it fits, it can be written where it isn't skipped, and its prediction stays
/// inside the references.
pub fn law_slice_chosen()
    ensures { (t : SliceTask) → IsSlice t → (row : Samples) (n : ℕ) → n < t.context.columns
        → IsChosen (decision t (begun t row n) n) }
{}

/// A slice has at most the bits of its cap and of any slice's room, and whole bytes.
pub fn law_slice_fits()
    ensures { (t : SliceTask) → IsSlice t → SliceFits t }
{}

/// The last macroblock of a slice is written, so the slice covers its row.
pub fn law_slice_covers()
    ensures { (t : SliceTask) → IsSlice t → (row : Samples) (n : ℕ) → suc n ≡ t.context.columns
        → (choice_of (decision t (begun t row n) n)).skip ≡ false }
{}

/// A slice's state and text don't depend on the row that it is begun with, nor, once all its macroblocks stand, do its
/// samples.
pub fn law_slice_any_row()
    ensures state { (t : SliceTask) (a b : Samples) → IsRow t a → IsRow t b → (n : ℕ)
        → (begun t a n).state ≡ (begun t b n).state }
    ensures text { (t : SliceTask) (a b : Samples) → IsRow t a → IsRow t b → (n : ℕ)
        → (begun t a n).text ≡ (begun t b n).text }
    ensures row { (t : SliceTask) (a b : Samples) → IsRow t a → IsRow t b
        → begun t a t.source.dims.mb_width ≡ begun t b t.source.dims.mb_width }
{}

/// The headers of a picture have as many bits as is told of them: 376 where they begin a group, 136 in other I pictures, and
/// 144 in P and B pictures.
pub fn law_headers()
    ensures { (s : Settings) (job : PictureJob) (delay : ℕ) → IsJob job
        → length (header_units s job delay) ≡ header_bits job }
{}
