//! What the report of a sequence has to do with the sequences before it, and how reports come one after another.
ghost use Rattle.std.specs.Prelude.{ℕ, List};
ghost use Rattle.m2v_model.specs.Pieces.{pieces};
ghost use Rattle.m2v_model.specs.Streams.{Sofar};
ghost use Rattle.m2v_model.specs.Decoding.{Stream};
ghost use Rattle.m2v_audit.specs.declared.records.TotalRecord.{TotalRecord};
ghost use Rattle.m2v_audit.specs.declared.asked.Asked.{Asked};
ghost use Rattle.m2v_law_audit.specs.Sequences.{first_byte, PassNone};
ghost use Rattle.m2v_law_audit.specs.Moved.{IsMoved, BeginsWith, GoesOnWith};

/// The report of a sequence depends on the sequences before it only by its number, by the byte where its text begins and by
/// the first header of all, which is asked with: it is the report of its text by itself, by what is asked, whatever that
/// text, with its sequence numbers and its places moved on. It counts the same.
pub fn law_moved()
    ensures { (asked : Asked) (number start : ℕ) (text : List ℕ) → IsMoved asked number start text }
{}

/// The report of an input whose first text is a stream without a fault, which passes no limit, is that of its first
/// sequence, and then those of the texts that follow it, which are asked with the first header of all; and so of each later
/// text that is one.
pub fn law_onward()
    ensures first { (text : List ℕ) (tree : Sofar) → Stream text tree → (asked : Asked)
        → PassNone (first_byte 0 text) (pieces text) → BeginsWith asked text }
    ensures later { (text : List ℕ) (tree : Sofar) → Stream text tree → (asked : Asked)
        (n : ℕ) (t : TotalRecord) (start : ℕ) → PassNone (first_byte start text) (pieces text)
        → GoesOnWith n asked t start text }
{}
