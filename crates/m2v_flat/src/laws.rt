//! What holds of the flat profile's stream by the rules that the verifier looks at.
ghost use Rattle.std.specs.Prelude.{ℕ, ◌≤◌, List, length};
ghost use Rattle.m2v_flat.specs.declared.settings.FlatSettings.{FlatSettings};
ghost use Rattle.m2v_flat.specs.Flat.{Flat};
ghost use Rattle.m2v_flat.specs.Recon.{FlatRecon};
ghost use Rattle.m2v_flat.specs.Answers.{HasPassed};
ghost use Rattle.m2v_model.specs.Decoding.{Decodes};
ghost use Rattle.m2v_model.specs.Lawful.{Lawful};

/// The stream of the flat profile decodes to the frames that it stands for, and no fault stands in it.
///
/// It holds for every number of frames from 1 on, whatever bytes they have.
pub fn law_flat_decodes()
    ensures { (s : FlatSettings) (frames : List (List ℕ)) → HasPassed s → 1 ≤ length frames
        → Decodes (Flat s frames) (FlatRecon s frames) }
{}

/// The stream of the flat profile has no fault, and breaks none of the rules on levels, headers and
/// pictures.
///
/// It holds for every number of frames from 1 on, whatever bytes they have.
pub fn law_flat_lawful()
    ensures { (s : FlatSettings) (frames : List (List ℕ)) → HasPassed s
        → 1 ≤ length frames → Lawful (Flat s frames) }
{}
