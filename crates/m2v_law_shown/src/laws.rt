//! What holds of what a decoder shows of the encoder's tree.
//! What holds of the encoder's headers by the rules that the verifier looks at.
//! What holds of what the encoder's stream tells.
ghost use Rattle.std.specs.Prelude.{ℕ, suc, ◌≡◌, ◌*◌, ◌≤◌, ◌<◌, Bool, false, not, nat_eq, List, length, map, filter, Option, ◌++◌, All, []};
ghost use Rattle.std.specs.List.{range_with_len, flat_map};
ghost use Rattle.m2v_plane.specs.declared.planes.Plane.{Plane};
ghost use Rattle.m2v_plane.specs.Samples.{Samples};
ghost use Rattle.m2v_set.specs.declared.settings.Settings.{Settings};
ghost use Rattle.m2v_set.specs.Rules.{Passes};
ghost use Rattle.m2v_order.specs.Coding.{frames_between, in_order, coding_order, kind_of};
ghost use Rattle.m2v_order.specs.Groups.{past_last, Group};
ghost use Rattle.m2v_order.specs.Display.{is_b, Shown, frames_of, Order};
ghost use Rattle.m2v_slice.specs.Slices.{SliceTask};
ghost use Rattle.m2v_slice.specs.Laws.{IsSlice};
ghost use Rattle.m2v_slice.specs.Books.{Book, rows, job_at, coded};
ghost use Rattle.m2v_slice.specs.Conditions.{IsBook};
ghost use Rattle.m2v_enc_stream.specs.Streams.{frame_of, Coded, Recon};
ghost use Rattle.m2v_model.specs.Samples.{References};
ghost use Rattle.m2v_model.specs.Painting.{IsPainted, lines_in};
ghost use Rattle.m2v_model.specs.Decoding.{frames_of as shown_by};
ghost use Rattle.m2v_enc_stream.specs.Trees.{task_at, tree_of, groups_of};
ghost use Rattle.m2v_law_shown.specs.Rows.{rows_in, fresh_of};
ghost use Rattle.m2v_model.specs.Pictures.{Store, references_by, Picture, Events};
ghost use Rattle.m2v_law_shown.specs.Stores.{HoldsBefore};
ghost use Rattle.m2v_law_shown.specs.Showing.{ShowAll};
ghost use Rattle.m2v_law_shown.specs.Laws.{DecodesTo};
ghost use Rattle.m2v_law_shown.specs.Views.{AreReferencesOf, HasRowOf, slice_in};
ghost use Rattle.m2v_order.specs.declared.jobs.PictureJob.{PictureJob};
ghost use Rattle.m2v_order.specs.Calls.{jobs_in};
ghost use Rattle.m2v_order.specs.Whole.{IsGroupOf};
ghost use Rattle.m2v_slice.specs.Headers.{IsJob};
ghost use Rattle.m2v_model.specs.declared.state.Sequence.{Sequence};
ghost use Rattle.m2v_model.specs.Lawful.{Numbered, sequence_breaches, picture_breaches, display_place, sequences_in, all_numbered, breaches, Lawful};
ghost use Rattle.m2v_law_shown.specs.Own.{own_sequence, IsOwnPicture, FitsScan, BreaksNone};
ghost use Rattle.m2v_law_shown.specs.Places.{frames_from, HavePlaces, AreOwn, AreOwnGroups};
ghost use Rattle.m2v_law_shown.specs.Telling.{told_all, IsMade};
ghost use Rattle.m2v_order.specs.Times.{intervals_of};
ghost use Rattle.m2v_model.specs.Buffering.{intervals};
ghost use Rattle.m2v_law_shown.specs.Told.{TellsJobs, numbers_of, TellsNumbers};

/// Frames in coding order are shown in display order, and none is dropped: all frames of a stream, and any run of anchors,
/// each with the B frames before it, behind whatever anchor is held.
pub fn law_display_order<F>()
    ensures all { (s : Settings) (count : ℕ) (f : ℕ → F) (dropped : F → Bool) → Passes s → 1 ≤ count
        → ((i : ℕ) → i < count → dropped (f i) ≡ false)
        → frames_of
        (Shown dropped false (map (λ i. (f i, kind_of s count i)) (coding_order s count)))
        ≡ map f (range_with_len 0 count) }
    ensures run { (f : ℕ → F × ℕ) (p : ℕ → Bool) (from n : ℕ) (before : Option F)
        → ((i : ℕ) → is_b (f i) ≡ not (p i))
        → let anchors = filter p (range_with_len from n) in
        ShowAll before (map f (in_order from anchors))
        (map (λ i. (f i).0) (frames_between from (past_last from anchors))) }
{}

/// A slice is painted as it was coded: by references that show the same inside the frame, into a frame of which all
/// macroblocks before the row have the samples of a picture whose samples in the row are those of the slice, its
/// macroblocks, those that are skipped too, leave a frame of which all up to the row's end have them.
pub fn law_slice_painted()
    ensures { (t : SliceTask) (references : List Bool) (refs : References)
        (at : Plane → ℕ → ℕ → ℕ) (now : Samples)
        → IsSlice t → AreReferencesOf t refs → HasRowOf t at
        → IsPainted (lines_in t.context) t.source.dims (t.row * t.context.columns) at now
        → IsPainted (lines_in t.context) t.source.dims (suc t.row * t.context.columns) at
        (slice_in t references refs now) }
{}

/// The slices of a picture, painted one after another by references that show what they were coded by, are its frame: of a
/// frame picture into a frame of zeros, and of two field pictures the second one's into what the first one leaves.
pub fn law_frame_painted()
    ensures whole { (b : Book) (p : ℕ) (references : List Bool) (refs : References)
        → IsBook b → p < length b.pictures → (job_at b p).structure ≡ 3
        → ((r : ℕ) → r < rows b → AreReferencesOf (task_at b p r) refs)
        → rows_in (λ r. task_at b p r) references refs (rows b) (fresh_of b)
        ≡ frame_of b (coded b (length b.pictures)) (job_at b p).frame }
    ensures fields { (b : Book) (p q : ℕ) (first second : List Bool) (refs others : References)
        → IsBook b → p < length b.pictures → q < length b.pictures
        → (job_at b p).structure ≡ 1 → (job_at b q).structure ≡ 2
        → (job_at b p).frame ≡ (job_at b q).frame
        → ((r : ℕ) → r < rows b → AreReferencesOf (task_at b p r) refs)
        → ((r : ℕ) → r < rows b → AreReferencesOf (task_at b q r) others)
        → rows_in (λ r. task_at b q r) second others (rows b)
        (rows_in (λ r. task_at b p r) first refs (rows b) (fresh_of b))
        ≡ frame_of b (coded b (length b.pictures)) (job_at b p).frame }
{}

/// Before a picture of a group a decoder has at hand what it was coded by: where it holds the last two anchors as they were
/// rebuilt, and before a second field the first one, the picture's references show the same inside the frame.
pub fn law_references()
    ensures { (b : Book) (older : Option Samples) (p r : ℕ) (store : Store) → IsBook b
        → p < length b.pictures → HoldsBefore b older p store
        → AreReferencesOf (task_at b p r)
        (references_by (job_at b p).kind (nat_eq (job_at b p).structure 2) (job_at b p).structure
        store) }
{}

/// A decoder shows the reconstructions of the raw frames, in display order: all of them, and nothing else.
pub fn law_shown()
    ensures { (s : Settings) (frames : List (List ℕ)) → Passes s → 1 ≤ length frames
        → length frames ≤ 999999 → shown_by (tree_of s frames) ≡ Recon s frames }
{}

/// The stream of raw frames decodes to their reconstructions in display order and to nothing else, and no fault stands in it.
pub fn law_encoded_decodes()
    ensures { (s : Settings) (frames : List (List ℕ)) → Passes s → 1 ≤ length frames
        → length frames ≤ 999999 → DecodesTo (Coded s frames) (Recon s frames) }
{}

/// For settings that pass, the encoder's sequence headers keep to the level's bounds, and each of its pictures to the
/// rules on pictures by themselves.
pub fn law_lawful_headers()
    ensures sequences { (s : Settings) (ss : List Sequence) → Passes s
        → All (λ (t : Sequence). t ≡ own_sequence s) ss → sequence_breaches ss ≡ [] }
    ensures pictures { (s : Settings) (job : PictureJob) (n : Numbered) (constant : Bool) → Passes s
        → IsJob job → FitsScan s.scan job → IsOwnPicture s job n → BreaksNone constant n }
{}

/// Of the pictures of a group, whose frames are numbered in coding order from any number on, each has the place of its
/// frame in the group's display order as that of its frame in the group. So the numbered pictures of a group, among
/// those of other groups, break no rule; a stream of such groups breaks none; and neither does what is told of the jobs
/// of groups and their pictures.
pub fn law_lawful_groups<F>()
    ensures places { (s : Settings) (g : Group F) (base : ℕ) → Passes s → IsGroupOf s g
        → let order = Order false (frames_from base g.pictures) in
        HavePlaces (λ frame. display_place frame order) base g.pictures }
    ensures group { (s : Settings) (constant : Bool) (g : Group F) (group frame : ℕ)
        (before ns later : List Numbered) → Passes s → IsGroupOf s g
        → AreOwn s group frame g.pictures ns
        → All (λ (n : Numbered). nat_eq n.group group ≡ false) before
        → All (λ (n : Numbered). nat_eq n.group group ≡ false) later
        → let all = before ++ (ns ++ later) in
        All (λ (n : Numbered). picture_breaches false constant all n ≡ []) ns }
    ensures stream { (s : Settings) (gs : List (Group F)) (es : Events) → Passes s
        → All (λ (g : Group F). IsGroupOf s g) gs
        → All (λ (t : Sequence). t ≡ own_sequence s) (sequences_in es)
        → AreOwnGroups s 1 0 gs (all_numbered es) → breaches false es ≡ [] }
    ensures told { (s : Settings) (gs : List (Group F)) (made : List (PictureJob × Picture))
        → Passes s → All (λ (g : Group F). IsGroupOf s g) gs → All (IsMade s) made
        → map (λ (m : PictureJob × Picture). m.0) made ≡ jobs_in gs
        → breaches false (told_all s made) ≡ [] }
{}

/// The stream of raw frames tells the jobs of its groups, each with its own picture: in front of the first picture of a
/// group its headers, and nothing else. Numbered, each picture stands behind the encoder's sequence header, has the delay
/// of the one that is sent, and is removed as long before the next one as its job asks for.
pub fn law_told()
    ensures told { (s : Settings) (frames : List (List ℕ)) → Passes s → 1 ≤ length frames
        → length frames ≤ 999999 → TellsJobs s frames }
    ensures numbers { (s : Settings) (frames : List (List ℕ)) → Passes s → 1 ≤ length frames
        → length frames ≤ 999999 → TellsNumbers s frames }
    ensures intervals { (s : Settings) (frames : List (List ℕ)) → Passes s → 1 ≤ length frames
        → length frames ≤ 999999 → intervals false s.rate_code false (numbers_of s frames)
        ≡ flat_map (λ (g : Group Samples). intervals_of s g.before g.pictures)
        (groups_of s frames) }
{}

/// The stream of raw frames is one without a fault, and breaks none of the verifier's rules.
pub fn law_encoded_lawful()
    ensures { (s : Settings) (frames : List (List ℕ)) → Passes s → 1 ≤ length frames
        → length frames ≤ 999999 → Lawful (Coded s frames) }
{}
