//! What holds of the choice of a macroblock.
ghost use Rattle.std.specs.Prelude.{ℕ, ◌≡◌, ◌≢◌, ◌*◌, ◌<◌, ◌≤◌, false};
ghost use Rattle.m2v_plane.specs.Sizes.{IsSize};
ghost use Rattle.m2v_pred.specs.Vectors.{IsPlace};
ghost use Rattle.m2v_macro.specs.declared.values.SliceState.{SliceState};
ghost use Rattle.m2v_macro.specs.declared.values.PictureContext.{PictureContext};
ghost use Rattle.m2v_macro.specs.States.{at_start};
ghost use Rattle.m2v_macro.specs.Conditions.{IsContext, IsReady, IsStep};
ghost use Rattle.m2v_macroblock.specs.Conditions.{AreDc};
ghost use Rattle.m2v_choose.specs.Decisions.{Decision, increment_of, place_of};
ghost use Rattle.m2v_choose.specs.Candidates.{hold};
ghost use Rattle.m2v_choose.specs.Choice.{bits_taken, choice_of, state_behind};
ghost use Rattle.m2v_choose.specs.Own.{IsOwn, AreNear, IsCode, IsOwnState, AreLimits};
ghost use Rattle.m2v_choose.specs.Laws.{IsFirstOfLeast, Fits, IsWritable, StaysInside};
ghost use Rattle.m2v_choose.specs.Rows.{WorkedRows};

/// The choice is the first of least score of hold and of the others that fit: none scores less, and those before it score
/// more.
pub fn law_first_of_least()
    ensures { (d : Decision) → IsFirstOfLeast d }
{}

/// Hold takes at most 31 bits for the macroblock and for each one that is skipped right before it.
pub fn law_hold_fits()
    ensures { (d : Decision) → IsOwn d.context → AreNear d.state.pmv.at → 0 < increment_of d
        → bits_taken d (hold d) ≤ 31 * increment_of d }
{}

/// The choice has at most 4,608 bits and at most the room, where hold does; and it does in the pictures that this encoder
/// writes, where the room is 31 bits for the macroblock and for each one that is skipped right before it.
pub fn law_choice_fits()
    ensures held { (d : Decision) → Fits d (hold d) → Fits d (choice_of d) }
    ensures own { (d : Decision) → IsOwn d.context → AreNear d.state.pmv.at → 0 < increment_of d
        → increment_of d ≤ d.context.columns → 31 * increment_of d ≤ d.limits.room
        → Fits d (choice_of d) }
{}

/// A choice leaves a state of this encoder: predictors from -31 to 31, and a quantiser code.
pub fn law_choice_leaves()
    ensures { (d : Decision) → IsOwnState d.state → AreLimits d.limits
        → IsOwnState (state_behind d (choice_of d)) }
{}

/// A slice begins with DC predictors of 8 bits, and a choice leaves such ones.
pub fn law_choice_dc()
    ensures start { (c : PictureContext) (row q next : ℕ) → IsOwn c
        → AreDc 0 (at_start c row q next).dc }
    ensures choice { (d : Decision) → IsOwn d.context → AreDc 0 d.state.dc
        → AreDc 0 (state_behind d (choice_of d)).dc }
{}

/// A choice that isn't skipped can be written: in a state that leaves the macroblock room for its increment, with the
/// predictors of this encoder.
pub fn law_choice_written()
    ensures { (d : Decision) → IsOwn d.context → IsOwnState d.state → AreLimits d.limits
        → AreDc 0 d.state.dc
        → IsStep d.context d.state (increment_of d) → (choice_of d).skip ≡ false
        → IsWritable d.context d.state (choice_of d).macroblock }
{}

/// The prediction of a choice reads nothing outside its references: by its own motion, and by that of a skipped macroblock
/// where it is one. A picture without references has none.
pub fn law_choice_inside()
    ensures { (d : Decision) → IsOwn d.context → AreLimits d.limits
        → (d.context.kind ≢ 1 → IsSize d.dims × IsPlace (place_of d) d.dims)
        → StaysInside d (choice_of d) }
{}

/// A slice begins with a state of this encoder, and in its pictures the headers and these states are as readers and writers of
/// macroblocks ask for them.
pub fn law_own_ready()
    ensures start { (c : PictureContext) (row q next : ℕ) → IsCode q
        → IsOwnState (at_start c row q next) }
    ensures context { (c : PictureContext) → IsOwn c → IsContext c }
    ensures ready { (c : PictureContext) (st : SliceState) → IsOwn c → IsOwnState st
        → IsReady c st }
{}

/// Worked values: the texts of held macroblocks, bit by bit, those that take all of 31 bits, and where a macroblock may be
/// skipped.
pub fn law_worked_rows()
    ensures { WorkedRows }
{}
