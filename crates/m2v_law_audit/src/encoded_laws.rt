//! What a report finds of the streams that the encoder and the flat profile write.
ghost use Rattle.std.specs.Prelude.{ℕ, ◌≤◌, List, length};
ghost use Rattle.m2v_set.specs.declared.settings.Settings.{Settings};
ghost use Rattle.m2v_set.specs.Rules.{Passes};
ghost use Rattle.m2v_flat.specs.declared.settings.FlatSettings.{FlatSettings};
ghost use Rattle.m2v_flat.specs.Answers.{HasPassed};
ghost use Rattle.m2v_model.specs.declared.state.Sequence.{Sequence};
ghost use Rattle.m2v_law_audit.specs.Encoded.{KeepsCodedLuma, IsWhole, FoundClean, FlatFoundClean};

/// Of the stream of raw frames, of settings that pass, a report under the rules that every stream has to keep tells no failure
/// of the buffer. It tells no breach either, but of rule 16: where the frames aren't whole macroblocks, these may be more in a
/// second than the level has luma samples for. It counts no breach and no failure exactly where the sequence header keeps to
/// that rule, as one of whole macroblocks does.
pub fn law_encoded()
    ensures found { (s : Settings) (frames : List (List ℕ)) → Passes s → 1 ≤ length frames
        → length frames ≤ 999999 → FoundClean s frames }
    ensures whole { (x : Sequence) → IsWhole x → KeepsCodedLuma x }
{}

/// So it is of the stream of the flat profile, of settings that passed and one frame or more: a report under these rules tells no
/// failure of the buffer, which is filled at variable rate, and no breach but of the rule on whole macroblocks; and none at all
/// exactly where the sequence header keeps to that rule.
///
/// It holds for every number of frames from 1 on, whatever bytes they have.
pub fn law_flat()
    ensures { (s : FlatSettings) (frames : List (List ℕ)) → HasPassed s → 1 ≤ length frames
        → FlatFoundClean s frames }
{}
