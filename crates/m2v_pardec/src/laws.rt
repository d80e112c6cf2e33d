//! What holds of the frames at hand while the pictures of a batch are taken in.
ghost use Rattle.std.specs.Prelude.{ℕ, slice_get, ◌≡◌, Some, ◌+◌, ◌<◌, true, None, Ok};
ghost use Rattle.m2v_dec_batch.specs.Jobs.{header_at};
ghost use Rattle.m2v_dec_batch.specs.declared.picture.BatchPicture.{BatchPicture};
ghost use Rattle.m2v_dec_batch.specs.Batches.{Batch, IsBatch, headers};
ghost use Rattle.m2v_plane.specs.Samples.{Samples};
ghost use Rattle.m2v_model.specs.Pictures.{Store};
ghost use Rattle.m2v_model.specs.declared.state.State.{State};
ghost use Rattle.m2v_dec_piece.specs.declared.answer.Piece.{Piece};
ghost use Rattle.m2v_decode.specs.m2v_dec_rows.declared.opened.Opened.{Opened};
ghost use Rattle.m2v_decode.specs.m2v_dec_rows.Headers.{TellsHeaders};
ghost use Rattle.m2v_decode.specs.Rebuilt.{IsRebuilt, refs_for};
ghost use Rattle.m2v_pardec.specs.Behind.{Tracks, AreRebuilt, IsNoted, store_behind};

/// Before the first picture of a batch the frames at hand are those before the batch.
pub fn law_behind_none()
    ensures { (b : Batch) (store : Store) → store.older ≡ b.older → store.newer ≡ b.newer
        → ((header_at (headers b) 0).second ≡ true → store.current ≡ b.waiting)
        → Tracks b 0 store }
{}

/// The rows of a batch's picture are what the decoder takes: read by themselves, and predicted from the frames at hand; and
/// where they are rebuilt, and there are some, no fault of the headers stands in the picture's piece.
pub fn law_rows_behind()
    ensures rows { (b : Batch) (p : ℕ) (x : BatchPicture) (store : Store)
        (samples : ℕ → Samples) → IsBatch b → slice_get b.pictures p ≡ Some x
        → Tracks b p store → AreRebuilt b p samples
        → (r : ℕ) → r < x.opened.rows
        → IsRebuilt (refs_for x.opened store) x.piece x.opened r (samples r) }
    ensures whole { (b : Batch) (p : ℕ) (x : BatchPicture) (samples : ℕ → Samples)
        → IsBatch b → slice_get b.pictures p ≡ Some x → AreRebuilt b p samples
        → 0 < x.opened.rows → x.opened.fault ≡ None }
{}

/// What is told of a picture that was opened by its headers is what its macroblocks are read by.
pub fn law_noted()
    ensures { (st now : State) (p : Piece) (o : Opened) → TellsHeaders st p (Ok (Some o)) now
        → IsNoted o }
{}

/// Once a picture's rows are set into its frame, the frames at hand are those before the batch's next picture.
pub fn law_next_behind()
    ensures { (b : Batch) (p : ℕ) (x : BatchPicture) (store : Store) (samples : ℕ → Samples)
        → IsBatch b → slice_get b.pictures p ≡ Some x → IsNoted x.opened
        → Tracks b p store → AreRebuilt b p samples
        → Tracks b (p + 1) (store_behind x.opened samples store) }
{}
