//! What stands in the report of a sequence, and that it stands so in the report of an input.
ghost use Rattle.std.specs.Prelude.{◌≡◌, ℕ, ◌+◌, Bool, List, ◌∷◌, length, Ok};
ghost use Rattle.std.specs.List.{flat_map};
ghost use Rattle.m2v_model.specs.m2v_macroblock.m2v_head.declared.sequence.SequenceInfo.{SequenceInfo};
ghost use Rattle.m2v_model.specs.m2v_macroblock.m2v_head.declared.sequence.SequenceExtension.{SequenceExtension};
ghost use Rattle.m2v_model.specs.Pieces.{pieces};
ghost use Rattle.m2v_model.specs.PieceNotes.{notes_of};
ghost use Rattle.m2v_model.specs.Pictures.{Events};
ghost use Rattle.m2v_model.specs.Streams.{Sofar};
ghost use Rattle.m2v_model.specs.Decoding.{Stream};
ghost use Rattle.m2v_model.specs.ByPieces.{Between, at_start, piece_read};
ghost use Rattle.m2v_audit.specs.declared.records.Finding.{Finding};
ghost use Rattle.m2v_audit.specs.declared.records.FailureRecord.{FailureRecord};
ghost use Rattle.m2v_audit.specs.Auditing.{nothing, sequence_of};
ghost use Rattle.m2v_audit.specs.HeaderRecords.{rate_with};
ghost use Rattle.m2v_audit.specs.Audited.{Telling};
ghost use Rattle.m2v_audit.specs.declared.asked.Asked.{Asked};
ghost use Rattle.m2v_law_audit.specs.Sequences.{sequence_report, first_byte, PassNone, StandsIn};
ghost use Rattle.m2v_law_audit.specs.Parts.{Tells, more_by};
ghost use Rattle.m2v_law_audit.specs.ByLines.{TellsByLines};
ghost use Rattle.m2v_law_audit.specs.Found.{all_found, all_removals, failures_of};

/// In the report of an input stands, for a text that is a stream without a fault and passes no limit, the report of its
/// sequence by itself, and then what follows it.
pub fn law_sequence()
    ensures { (text : List ℕ) (tree : Sofar) → Stream text tree → (asked : Asked) (x : Telling)
        (later : Bool) → PassNone (first_byte x.start text) (pieces text)
        → StandsIn asked x later text }
{}

/// The report of a sequence, whatever its text, tells the breaches of its pieces and of its end, and the failures of the
/// removals that are told, in turn and no others; and it counts both. How the buffer is filled is what the first sequence
/// header of its first piece says, and that piece's picture.
pub fn law_parts()
    ensures tells { (asked : Asked) (number start : ℕ) (text : List ℕ) →
        let r = sequence_report asked number start text in
        let a = nothing number asked start in
        let at = first_byte start text in
        Tells r.lines (all_found a at_start at (pieces text))
        (flat_map (failures_of number r.kept.rate) (all_removals a at_start at (pieces text))) }
    ensures breaches { (asked : Asked) (number start : ℕ) (text : List ℕ) →
        let r = sequence_report asked number start text in
        let a = nothing number asked start in
        let found = all_found a at_start (first_byte start text) (pieces text) in
        r.kept.report.tally.breaches ≡ more_by 0 (length found) }
    ensures failures { (asked : Asked) (number start : ℕ) (text : List ℕ) →
        let r = sequence_report asked number start text in
        let a = nothing number asked start in
        let removals = all_removals a at_start (first_byte start text) (pieces text) in
        let failures = flat_map (failures_of number r.kept.rate) removals in
        r.kept.report.tally.failures ≡ more_by 0 (length failures) }
    ensures rate { (asked : Asked) (number start : ℕ) (text p : List ℕ) (ps : List (List ℕ))
        (x : Events × Between) (s : SequenceInfo × SequenceExtension)
        (ss : List (SequenceInfo × SequenceExtension)) →
        let at = first_byte start text in
        let notes = notes_of at p x.0 in
        pieces text ≡ p ∷ ps → piece_read at_start (at + length p) p ≡ Ok x
        → notes.sequences ≡ s ∷ ss
        → (sequence_report asked number start text).kept.rate
        ≡ rate_with (sequence_of s) notes.picture }
{}

/// Whatever breaches and failures a text tells: cut behind each newline, its lines that begin with `breach` are those of
/// the breaches, in turn, and its lines that begin with `failure` those of the failures; so it hides no other.
pub fn law_told_by_lines()
    ensures { (text : List ℕ) (bs : List Finding) (fs : List FailureRecord) → Tells text bs fs
        → TellsByLines text bs fs }
{}
