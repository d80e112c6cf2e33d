//! What holds of activities that were computed by hand.
ghost use Rattle.std.specs.Prelude.{◌≡◌};
ghost use Rattle.m2v_enc_activity.specs.Worked.{computed, wanted};

/// Macroblocks whose activities were computed by hand have those that were found.
pub fn law_worked_rows()
    ensures activities { computed ≡ wanted }
{}
