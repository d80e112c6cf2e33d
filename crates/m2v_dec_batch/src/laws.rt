//! What holds of the jobs of a batch.
ghost use Rattle.std.specs.Prelude.{ℕ, slice_get, ◌≡◌, [], ◌∷◌, Some};
ghost use Rattle.m2v_dec_batch.specs.declared.picture.FramePlace.TheVariants.{Newer, Waiting, Behind};
ghost use Rattle.m2v_dec_batch.specs.Jobs.{read_by, needs_of, jobs_of, picture_of_job, row_of_job};
ghost use Rattle.m2v_dec_batch.specs.declared.picture.BatchPicture.{BatchPicture};
ghost use Rattle.m2v_dec_batch.specs.Batches.{Batch, IsBatch};
ghost use Rattle.m2v_dec_batch.specs.Painted.{SetsRows};
ghost use Rattle.m2v_dec_batch.specs.Examples.{ipbb, field_pairs};

/// Worked rows: of an I, a P and two B pictures of two rows each; and of a second field whose first field waits, and two P
/// fields, of one row each.
pub fn law_worked_rows()
    ensures frames { (jobs_of ipbb ≡ 8) × (picture_of_job ipbb 5 ≡ 2) × (row_of_job ipbb 5 ≡ 1) }
    ensures intra { needs_of ipbb 1 ≡ [] }
    ensures forward { needs_of ipbb 3 ≡ 0 ∷ 1 ∷ [] }
    ensures both { (needs_of ipbb 5 ≡ 0 ∷ 1 ∷ 2 ∷ 3 ∷ [])
        × (needs_of ipbb 6 ≡ 0 ∷ 1 ∷ 2 ∷ 3 ∷ []) }
    ensures before { (jobs_of field_pairs ≡ 3)
        × (read_by field_pairs 0 ≡ record { forward = Some Newer; other = Some Waiting })
        × (needs_of field_pairs 0 ≡ []) }
    ensures fields { (needs_of field_pairs 1 ≡ 0 ∷ [])
        × (read_by field_pairs 2 ≡ record { forward = Some (Behind 0); other = Some (Behind 1) })
        × (needs_of field_pairs 2 ≡ 0 ∷ 1 ∷ []) }
{}

/// Where all rows of a picture of a batch are rebuilt, they set into a frame give what the picture's slices, read one behind
/// another, give the frame, predicted from the frames that the rows before them make.
pub fn law_rows_in_frame()
    ensures { (b : Batch) (p : ℕ) (x : BatchPicture) → IsBatch b → slice_get b.pictures p ≡ Some x
        → SetsRows b p x }
{}
