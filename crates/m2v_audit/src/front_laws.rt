//! Where the headers of a piece stand, and those of a worked piece.
ghost use Rattle.std.specs.Prelude.{◌≡◌, ℕ, true, List, [], ◌∷◌};
ghost use Rattle.std.specs.List.{AllByRecursion};
ghost use Rattle.m2v_model.specs.Units.{begins_code};
ghost use Rattle.m2v_model.specs.Pieces.{pieces};
ghost use Rattle.m2v_audit.specs.declared.headers.PieceHeader.TheVariants.{Sequence, Group};
ghost use Rattle.m2v_audit.specs.Front.{IsPlaced, front_of};
ghost use Rattle.m2v_audit.specs.WorkedPiece.{television, unread_group, time_of_group};

/// Each header that is told of a piece stands at its bit: there a start code of its value begins. So it is where the piece
/// begins with a start code, and each piece of a text does.
pub fn law_front_placed()
    ensures placed { (place : ℕ) (piece : List ℕ) → begins_code piece ≡ true
        → AllByRecursion (IsPlaced place piece) (front_of place piece) }
    ensures begins { (text : List ℕ)
        → AllByRecursion (λ piece. begins_code piece ≡ true) (pieces text) }
{}

/// The headers of two worked pieces that begin at byte 100: a sequence header and, 22 bytes on, a group header; and the
/// same with a group header that doesn't read.
pub fn law_front_worked()
    ensures told { front_of 100 television ≡ Sequence 800 ∷ Group 976 time_of_group ∷ [] }
    ensures unread { front_of 100 unread_group ≡ Sequence 800 ∷ [] }
{}
