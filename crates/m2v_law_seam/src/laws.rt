//! What holds of mended streams.
ghost use Rattle.std.specs.Prelude.{◌≡◌, ℕ, true, false, List};
ghost use Rattle.m2v_model.specs.Units.{Units, cut};
ghost use Rattle.m2v_law_seam.specs.Worked.{WorkedMends};
ghost use Rattle.m2v_law_seam.specs.Strands.{reads, begins_sequence, has_end};
ghost use Rattle.m2v_law_seam.specs.Reading.{CanFollow, ReadsOn, ByUnits, FaultTold};
ghost use Rattle.m2v_law_seam.specs.Seam.{Seam};
ghost use Rattle.m2v_law_seam.specs.Mends.{MendDecodes, MendSame, MendTwice, LeftOut, AllTold, AllThere, PicturesKept, AnswerTells, FramesTold};
ghost use Rattle.m2v_law_seam.specs.Spans.{Dividing, Span, spans, steps};

/// What is made of damaged streams that are given byte by byte is what was written by hand.
pub fn law_worked_mends()
    ensures { WorkedMends }
{}

/// Two strands, one behind the other.
pub fn law_seam()
    ensures { (a b : List ℕ) → Seam a b }
{}

/// A mended text is a stream without a fault, and shows what its strands show, each decoded by itself.
pub fn law_mend_decodes()
    ensures { (divide : Dividing) (text : List ℕ) → MendDecodes divide text }
{}

/// A stream without a fault, mended by whole groups or by steps, is kept as it is from its first sequence header on, with its
/// end code, and nothing is told as left out.
pub fn law_mend_same()
    ensures { (text : List ℕ) → MendSame spans text × MendSame steps text }
{}

/// What was mended, by whole groups or by steps, and is within the limits, is mended already, and nothing of it is left out.
pub fn law_mend_twice()
    ensures { (text : List ℕ) → MendTwice spans text × MendTwice steps text }
{}

/// Each span that is left out neither reads behind the strand that was under way, if one was, nor by itself.
pub fn law_left_out()
    ensures { (divide : Dividing) (text : List ℕ) → LeftOut divide text }
{}

/// Each piece is kept or left out, and the gaps have the bytes and pictures of those that are left out.
pub fn law_all_told()
    ensures { (divide : Dividing) (text : List ℕ) → AllTold divide text }
{}

/// The frames that are told before each gap are those of strands at the front of the mended text.
pub fn law_frames_told()
    ensures { (divide : Dividing) (text : List ℕ) → FramesTold divide text }
{}

/// What is read of a strand with units behind it is what is read of the strand, and then of those from there on.
pub fn law_reads_on()
    ensures { (bytes : List ℕ) (u : List ℕ) (us : Units) → reads bytes ≡ true → CanFollow u us → ReadsOn bytes u us }
{}

/// What is read of bytes that begin with a sequence header and have no end code, and whether they are a strand, goes by what is
/// read of their units.
pub fn law_by_units()
    ensures { (bytes : List ℕ) → begins_sequence bytes ≡ true → has_end (cut 0 bytes).1 ≡ false → ByUnits bytes }
{}

/// The fault of a span behind a strand is the one that its pieces tell as they are read behind it, one after another.
pub fn law_fault_told()
    ensures { (s : Span) (bytes : List ℕ) (ps : List (List ℕ)) → FaultTold s bytes ps }
{}

/// The spans have each unit of the input, end codes apart, once and in order, and so do gaps stand: by whole groups and by steps.
pub fn law_all_there()
    ensures { (text : List ℕ) → AllThere spans text × AllThere steps text }
{}

/// What was mended, by whole groups or by steps, has the pictures of the pieces that are kept.
pub fn law_pictures_kept()
    ensures { (text : List ℕ) → PicturesKept spans text × PicturesKept steps text }
{}

/// The numbers of the answer, by whole groups and by steps, are those of the strands, of the spans that are kept, and of the
/// input.
pub fn law_answer()
    ensures { (text : List ℕ) → AnswerTells spans text × AnswerTells steps text }
{}
