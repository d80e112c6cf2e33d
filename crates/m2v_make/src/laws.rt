//! What holds of the verdict on the encoder's streams.
ghost use Rattle.std.specs.Prelude.{ℕ, ◌≤◌, List, length};
ghost use Rattle.m2v_set.specs.declared.settings.Settings.{Settings};
ghost use Rattle.m2v_set.specs.Rules.{Passes};
ghost use Rattle.m2v_encode.specs.m2v_enc_stream.Streams.{Coded};
ghost use Rattle.m2v_check.specs.declared.verdict.Figures.{Figures};
ghost use Rattle.m2v_check.specs.Meaning.{IsLawful};
ghost use Rattle.m2v_check.specs.m2v_model.Pieces.{most_input};
ghost use Rattle.m2v_check.specs.m2v_decode.Complete.{IsUnderLimits};

/// The verdict on the stream of raw frames, of settings that pass, is that it is lawful, with its figures. So `check` says
/// so of each one that passes no limit, and nothing else but want of memory and a read fault where the count rose.
pub fn law_encoded_judged()
    ensures { (s : Settings) (frames : List (List ℕ)) → Passes s → 1 ≤ length frames
        → length frames ≤ 999999 → (f : Figures) × IsLawful (Coded s frames) f }
{}

/// Each picture of that stream, with its headers and the zero bytes behind it, fits the decoder's buffer, and so no piece of it
/// passes the limit of a picture's bytes. Where it has no more bytes than an input may have, it passes no limit: `decode` and
/// `check` read it to its end.
pub fn law_encoded_fits()
    ensures { (s : Settings) (frames : List (List ℕ)) → Passes s → 1 ≤ length frames
        → length frames ≤ 999999 → length (Coded s frames) ≤ most_input
        → IsUnderLimits (Coded s frames) }
{}
