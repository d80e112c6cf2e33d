//! What holds of the texts of an input, one behind another.
ghost use Rattle.std.specs.Prelude.{ℕ, List};
ghost use Rattle.m2v_dec_piece.specs.Cutting.{Cutting};
ghost use Rattle.m2v_dec_piece.specs.Texts.{ComesToNext, IsAllOf};

/// Each byte of a text stands before its pieces, in one of them, or in the text that follows its sequence.
pub fn law_text_after()
    ensures { (text : List ℕ) → IsAllOf text }
{}

/// A cutter that stood before a text of an input, and has no piece of it left, has left the text that follows; it stands
/// before that where it goes on, and the text is the input from the cutter's place on.
pub fn law_next_text()
    ensures { (input : List ℕ) (old : Cutting) (bytes : List ℕ) (new : Cutting) (rest : List ℕ)
        → ComesToNext input old bytes new rest }
{}
