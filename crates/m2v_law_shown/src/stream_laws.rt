//! What the pieces of the encoder's stream are, and what they take; that the account that is made of them is safe; and the
//! headline.
ghost use Rattle.std.specs.Prelude.{ℕ, ◌≡◌, ◌≤◌, ◌+◌, Bool, List, [], ◌∷◌, ◌++◌, map, length, sum, Some};
ghost use Rattle.std.specs.List.{flat_map};
ghost use Rattle.m2v_bits.specs.Bits.{packed, start_code};
ghost use Rattle.m2v_set.specs.declared.settings.Settings.{Settings};
ghost use Rattle.m2v_set.specs.Rules.{Passes};
ghost use Rattle.m2v_enc_stream.specs.Streams.{Coded, coded_all};
ghost use Rattle.m2v_model.specs.Pieces.{pieces};
ghost use Rattle.m2v_model.specs.Lawful.{Numbered};
ghost use Rattle.m2v_model.specs.Buffering.{sizes, bits_of_piece, code_bits, codes, first_code};
ghost use Rattle.m2v_model.specs.Buffering.{StreamAccount, unsafe_in, exact_delays, other_delays};
ghost use Rattle.m2v_enc_stream.specs.Sent.{SentPicture, Sent};
ghost use Rattle.m2v_law_shown.specs.Texts.{picture_texts, picture_bits, picture_codes};
ghost use Rattle.m2v_law_shown.specs.Texts.{code_places, Taken, ends_of};
ghost use Rattle.m2v_law_shown.specs.Accounts.{AreTold, account_told, delay_in};
ghost use Rattle.m2v_law_shown.specs.Headline.{Headline};

use m2v_enc_stream::{law_slice_calm, law_slice_reads};

/// The pieces of the stream of raw frames are its pictures in coding order, each with its headers,
/// its slices and the zero bytes behind them, and then the sequence end code.
///
/// The pictures' texts one behind another are all that is coded. A picture takes the bits of its
/// headers, its slices and the zero bits behind them, and the last one the end code too. Of these
/// 272 go up to the end of its start code where it begins a group, as the first one does, and else
/// 32; so many bits behind those of the pictures before it the start code ends in the stream.
pub fn law_pieces()
    ensures pictures { (s : Settings) (frames : List (List ℕ)) → Passes s → 1 ≤ length frames
        → length frames ≤ 999999
        → pieces (Coded s frames)
        ≡ map packed (picture_texts s frames) ++ packed (start_code 0xB7) ∷ [] }
    ensures whole { (s : Settings) (frames : List (List ℕ))
        → flat_map (λ (t : List Bool). t) (picture_texts s frames) ≡ (coded_all s frames).text }
    ensures lengths { (s : Settings) (frames : List (List ℕ)) → Passes s → 1 ≤ length frames
        → length frames ≤ 999999
        → map length (picture_texts s frames) ≡ picture_bits s frames }
    ensures bits { (s : Settings) (frames : List (List ℕ)) → Passes s → 1 ≤ length frames
        → length frames ≤ 999999
        → map bits_of_piece (pieces (Coded s frames)) ≡ picture_bits s frames ++ 32 ∷ [] }
    ensures count { (s : Settings) (frames : List (List ℕ))
        → length (picture_bits s frames) ≡ (coded_all s frames).pictures }
    ensures taken { (s : Settings) (frames : List (List ℕ)) → Passes s → 1 ≤ length frames
        → length frames ≤ 999999
        → sizes (coded_all s frames).pictures (map bits_of_piece (pieces (Coded s frames)))
        ≡ Taken s frames }
    ensures total { (s : Settings) (frames : List (List ℕ)) → Passes s → 1 ≤ length frames
        → length frames ≤ 999999
        → sum (map bits_of_piece (pieces (Coded s frames)))
        ≡ length (coded_all s frames).text + 32 }
    ensures starts { (s : Settings) (frames : List (List ℕ)) → Passes s → 1 ≤ length frames
        → length frames ≤ 999999
        → map code_bits (pieces (Coded s frames)) ≡ picture_codes s frames ++ 64 ∷ [] }
    ensures first { (s : Settings) (frames : List (List ℕ)) → Passes s → 1 ≤ length frames
        → length frames ≤ 999999
        → first_code (pieces (Coded s frames)) ≡ 272 }
    ensures places { (s : Settings) (frames : List (List ℕ)) → Passes s → 1 ≤ length frames
        → length frames ≤ 999999
        → codes 0 (pieces (Coded s frames))
        ≡ code_places s frames ++ (length (coded_all s frames).text + 64) ∷ [] }
    ensures sums { (s : Settings) (frames : List (List ℕ)) → Passes s → 1 ≤ length frames
        → length frames ≤ 999999
        → code_places s frames ≡ ends_of 0 (picture_bits s frames) (picture_codes s frames) }
{
    law_slice_calm();
    law_slice_reads();
}

/// The account that a verifier makes of these bytes is safe, with pictures that are as many as are coded, the first of which
/// has the delay of the settings, and behind which the times of their groups go by: each of them is whole in the buffer when
/// it is removed, and the buffer takes what is held then. Where the others have the delays too with which they are sent, no
/// delay differs from the exact one of that account.
pub fn law_account()
    ensures safe { (s : Settings) (frames : List (List ℕ)) (ns : List Numbered) → Passes s
        → 1 ≤ length frames → length frames ≤ 999999 → AreTold s frames ns
        → unsafe_in (account_told s frames ns) ≡ [] }
    ensures delays { (s : Settings) (frames : List (List ℕ)) (ns : List Numbered) → Passes s
        → 1 ≤ length frames → length frames ≤ 999999 → AreTold s frames ns
        → map delay_in ns ≡ map (λ (x : SentPicture). x.delay) (Sent s frames)
        → (a : StreamAccount) → account_told s frames ns ≡ Some a
        → other_delays ns (exact_delays (pieces (Coded s frames)) a) ≡ 0 }
{
    law_slice_calm();
    law_slice_reads();
}

/// The stream of raw frames, of settings that pass, decodes to their reconstructions in display order and to nothing else, and
/// no fault stands in it; it breaks no rule of its level; and each of its pictures is whole in the decoder's buffer when it is
/// removed, and the buffer takes what is held then.
pub fn law_headline()
    ensures { (s : Settings) (frames : List (List ℕ)) → Passes s → 1 ≤ length frames
        → length frames ≤ 999999 → Headline s frames }
{}
