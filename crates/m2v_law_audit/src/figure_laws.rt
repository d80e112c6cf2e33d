//! What a report counts of a stream, and what it says of the stream's buffer, where the verifier calls the stream lawful.
ghost use Rattle.std.specs.Prelude.{ℕ, ◌<◌, ◌^◌, List, length};
ghost use Rattle.m2v_model.specs.Streams.{Sofar};
ghost use Rattle.m2v_model.specs.Decoding.{Stream};
ghost use Rattle.m2v_audit.specs.m2v_check.declared.verdict.Figures.{Figures};
ghost use Rattle.m2v_audit.specs.m2v_check.Meaning.{IsLawful};
ghost use Rattle.m2v_law_audit.specs.Figures.{CountsAll, TellsFigures};

/// Of a stream without a fault the report counts the frames that it shows, its pictures and its bytes, whichever sequence of
/// the input it is and wherever it stands. Where the verifier calls the stream lawful, with some figures, the report has the
/// same ones: beside these counts the least that a picture leaves in the buffer, the most that is held, and how many delays
/// behind the first aren't exact. What is counted in a report stops at 2^64 - 1, so the stream has fewer bytes than 2^64; no
/// input has as many.
pub fn law_figures()
    ensures counts { (text : List ℕ) (tree : Sofar) → Stream text tree → length text < 2 ^ 64
        → CountsAll text tree }
    ensures lawful { (text : List ℕ) (tree : Sofar) → Stream text tree → length text < 2 ^ 64
        → (f : Figures) → IsLawful text f → TellsFigures text f }
{}
