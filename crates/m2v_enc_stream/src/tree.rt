//! What holds of the encoder's slices.
//! What holds of the encoder's stream.
ghost use Rattle.std.specs.Prelude.{ℕ, ◌≡◌, ◌*◌, ◌++◌, List, Bool, false, replicate, ◌≤◌, length};
ghost use Rattle.m2v_slice.specs.Slices.{SliceTask};
ghost use Rattle.m2v_slice.specs.Laws.{IsSlice};
ghost use Rattle.m2v_model.specs.Slices.{slice_at, large_in};
ghost use Rattle.m2v_model.specs.Texts.{IsCalm};
ghost use Rattle.m2v_enc_stream.specs.Slices.{AreDecoded, setup_of, slice_body, slice_read};
ghost use Rattle.m2v_set.specs.declared.settings.Settings.{Settings};
ghost use Rattle.m2v_set.specs.Rules.{Passes};
ghost use Rattle.m2v_enc_stream.specs.Streams.{Coded};
ghost use Rattle.m2v_model.specs.Decoding.{Stream};
ghost use Rattle.m2v_enc_stream.specs.Trees.{tree_of};

/// No start code stands inside a slice.
pub fn law_slice_calm()
    ensures { (t : SliceTask) → IsSlice t → IsCalm (slice_body t) }
{}

/// A slice stands in its text, whatever zero bits follow, behind the last macroblock of the row above; and none of its
/// macroblocks is large.
pub fn law_slice_reads()
    ensures stands { (t : SliceTask) (references : List Bool) (zeros : ℕ) → IsSlice t
        → AreDecoded t.context.kind references
        → (slice_at (setup_of t references) (t.row * t.context.columns) t.row).Stands (slice_read t)
        (slice_body t ++ replicate zeros false) (replicate zeros false) }
    ensures large { (t : SliceTask) → IsSlice t → large_in (slice_read t) ≡ 0 }
{}

/// The stream of raw frames stands in its bytes: the parts are those of its tree, without a fault.
pub fn law_stream()
    ensures { (s : Settings) (frames : List (List ℕ)) → Passes s → 1 ≤ length frames
        → length frames ≤ 999999 → Stream (Coded s frames) (tree_of s frames) }
{
    law_slice_calm();
    law_slice_reads();
}
