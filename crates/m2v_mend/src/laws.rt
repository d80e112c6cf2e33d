//! What holds of pieces that are edited.
ghost use Rattle.std.specs.Prelude.{◌≡◌, ℕ, List, map};
ghost use Rattle.m2v_model.specs.Units.{Units, AreUnits};
ghost use Rattle.m2v_decode.specs.m2v_dec_piece.declared.answer.Piece.{Piece};
ghost use Rattle.m2v_decode.specs.m2v_dec_piece.Cutting.{IsPiece};
ghost use Rattle.m2v_law_group.specs.Groups.{from_sequence};
ghost use Rattle.m2v_law_seam.specs.Seams.{lowered, marked_unit};
ghost use Rattle.m2v_mend.specs.Editing.{EndsInZeros, zeros_in};

/// Units may be marked, lowered and begun at their first sequence header in any order; and of a piece that a cutter handed
/// out zero bytes enough are kept for that.
pub fn law_edits()
    ensures both { (low : ℕ) (us : Units) → AreUnits us
        → map marked_unit (lowered low us) ≡ lowered low (map marked_unit us) }
    ensures marked { (us : Units) → AreUnits us
        → from_sequence (map marked_unit us) ≡ map marked_unit (from_sequence us) }
    ensures lowered { (low : ℕ) (us : Units) → AreUnits us
        → from_sequence (lowered low us) ≡ lowered low (from_sequence us) }
    ensures room { (p : Piece) (place : ℕ) (whole : List ℕ) → IsPiece p place whole
        → EndsInZeros p.bytes.items (zeros_in p) }
{}
