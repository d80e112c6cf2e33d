ghost use Rattle.std.specs.Prelude.{ℕ, List, Bool, All};
ghost use Rattle.m2v_macroblock.specs.m2v_macro.declared.values.SliceState.{SliceState};
ghost use Rattle.m2v_macroblock.specs.Macroblocks.{Macroblock};
ghost use Rattle.m2v_model.specs.declared.setup.SliceSetup.{SliceSetup};
ghost use Rattle.m2v_model.specs.Pictures.{Pictures};
ghost use Rattle.m2v_model.specs.Streams.{Sofar};
ghost use Rattle.m2v_model.specs.Decoding.{Stream, ExactlyOne, IsFront};
ghost use Rattle.m2v_model.specs.ByPieces.{ByPieces, TellsPictures};
ghost use Rattle.m2v_model.specs.Buffering.{StreamAccount, IsJudgedByAll, OneVerdict};
ghost use Rattle.m2v_model.specs.Written.{IsSpelled};
ghost use Rattle.m2v_model.specs.Worked.{WorkedRows};
ghost use Rattle.m2v_model.specs.Verdicts.{judged_streams, IsJudged};

/// Of each text exactly one holds: it decodes to frames, or it has a first fault; and each has one value.
pub fn law_unique()
    ensures { (text : List ℕ) → ExactlyOne text }
{}

/// The frames that pictures show before the end are the first of those that they show when others follow.
pub fn law_prefix()
    ensures { (low_delay : Bool) (ps qs : Pictures) → IsFront low_delay ps qs }
{}

/// A text that is read piece by piece, each piece as a text of its own from what the pieces before it left, stands as
/// what was read, or has the fault that was found, at its place.
pub fn law_by_pieces()
    ensures { (text : List ℕ) → ByPieces text }
{}

/// The pieces of a text, read one after another, each tell one picture, and the last one at most one: piece i has
/// picture i.
pub fn law_pictures_in_turn()
    ensures { (text : List ℕ) → TellsPictures text }
{}

/// Of a stream exactly one holds: no rule of the verifier is broken, or one is broken first; and exactly one: its account
/// is safe, or fails first; and each has one value.
pub fn law_one_verdict()
    ensures { (text : List ℕ) (tree : Sofar) → Stream text tree → OneVerdict text }
{}

/// An account is safe exactly where each picture is whole in the buffer when it is removed and the buffer takes what is
/// held then.
pub fn law_safe_account()
    ensures { (a : StreamAccount) → IsJudgedByAll a }
{}

/// What is written of a macroblock that can stand somewhere, is read there as that macroblock, whatever follows.
pub fn law_macroblock_spelled()
    ensures { (s : SliceSetup) (st : SliceState) (x : Macroblock) → IsSpelled s st x }
{}

/// Streams that are given byte by byte decode to as many frames, or have the first fault, as outside vectors say.
pub fn law_worked_rows()
    ensures { WorkedRows }
{}

/// Streams that are given byte by byte have the verdict that outside vectors say.
pub fn law_verdict_rows()
    ensures { All IsJudged judged_streams }
{}
