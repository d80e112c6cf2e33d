//! What holds of the encoder's stream and the decoder's buffer.
ghost use Rattle.std.specs.Prelude.{◌≡◌, ℕ, ◌+◌, ◌*◌, ◌/◌, ◌≤◌, Bool, List, [], ◌∷◌, length, map};
ghost use Rattle.std.specs.List.{flat_map};
ghost use Rattle.m2v_bits.specs.Bits.{start_code, ◌⧺◌};
ghost use Rattle.m2v_plane.specs.Samples.{Samples};
ghost use Rattle.m2v_set.specs.declared.settings.Settings.{Settings};
ghost use Rattle.m2v_set.specs.Numbers.{delay_of};
ghost use Rattle.m2v_set.specs.Rules.{Passes};
ghost use Rattle.m2v_vbv.specs.Annex.{removed, Safe};
ghost use Rattle.m2v_vbv.specs.Account.{arriving, account_of};
ghost use Rattle.m2v_order.specs.Groups.{Group};
ghost use Rattle.m2v_order.specs.Times.{intervals_of};
ghost use Rattle.m2v_rate.specs.Plans.{fresh, start_of};
ghost use Rattle.m2v_rate.specs.Safety.{closed, AreCoded, removals, after_groups};
ghost use Rattle.m2v_slice.specs.Headers.{bits_to_code};
ghost use Rattle.m2v_enc_stream.specs.Streams.{at_start, book_of, coded_all};
ghost use Rattle.m2v_enc_stream.specs.Removals.{Seen, IsIn, groups_of, job_of, begins_at, delay_told};
ghost use Rattle.m2v_enc_stream.specs.Removals.{ledger_of, seen_of, groups_seen, begun_by};
ghost use Rattle.m2v_enc_stream.specs.Removals.{removed_before};
ghost use Rattle.m2v_enc_stream.specs.Sent.{SentPicture, Sent, StandsAt, Begins, removal_of, AreExact};

/// The encoder's stream never breaks the decoder's buffer, with settings that pass and at most
/// 999,999 frames.
///
/// Its pictures are coded by their plans, and the ledger behind each group is the closed one of
/// these; so each of them is whole in the buffer when it is removed, and the buffer takes what is
/// held then. The bits of the stream with its end code are those that are removed, and a
/// picture's headers begin behind the bits of the pictures that are removed before it. Each
/// picture's vbv_delay is the exact time from the arrival of its start code to its removal, which
/// has 16 bits and isn't 65535; the first one is that of the settings.
pub fn law_coded_safe()
    ensures coded { (s : Settings) (frames : List (List ℕ)) → Passes s → length frames ≤ 999999
        → AreCoded (fresh s) (Seen s frames) }
    ensures ledgers { (s : Settings) (frames : List (List ℕ)) (earlier : List (Group Samples))
        (g : Group Samples) (p : ℕ) → Passes s → length frames ≤ 999999
        → IsIn s frames earlier g p → let b = book_of s (begun_by s earlier) g in
        ledger_of b
        ≡ closed (after_groups (fresh s) (groups_seen s (at_start s) earlier)) (seen_of b) }
    ensures safe { (s : Settings) (frames : List (List ℕ)) → Passes s → length frames ≤ 999999
        → Safe (start_of s) (removals (fresh s) (Seen s frames)) }
    ensures sizes { (s : Settings) (frames : List (List ℕ)) → Passes s → 1 ≤ length frames
        → length frames ≤ 999999 → length ((coded_all s frames).text ⧺ start_code 0xB7)
        ≡ removed (removals (fresh s) (Seen s frames)) }
    ensures places { (s : Settings) (frames : List (List ℕ)) (earlier : List (Group Samples))
        (g : Group Samples) (ends : Bool) (p : ℕ) → Passes s → length frames ≤ 999999
        → IsIn s frames earlier g p
        → begins_at s earlier g ends p ≡ removed (removed_before s earlier g p) }
    ensures delay { (s : Settings) (frames : List (List ℕ)) (earlier : List (Group Samples))
        (g : Group Samples) (ends : Bool) (p : ℕ) → Passes s → length frames ≤ 999999
        → IsIn s frames earlier g p → let before = removed_before s earlier g p in
        delay_told s earlier g ends p ≡ arriving (account_of (start_of s) before)
        (removed before + bits_to_code (job_of s earlier g p)) / (8 * s.bits) }
    ensures small { (s : Settings) (frames : List (List ℕ)) (earlier : List (Group Samples))
        (g : Group Samples) (ends : Bool) (p : ℕ) → Passes s → length frames ≤ 999999
        → IsIn s frames earlier g p → delay_told s earlier g ends p ≤ 65534 }
    ensures first { (s : Settings) (frames : List (List ℕ)) (g : Group Samples) (ends : Bool)
        → Passes s → length frames ≤ 999999 → IsIn s frames [] g 0
        → delay_told s [] g ends 0 ≡ delay_of s }
{}

/// The same by the pictures as they are sent, one behind another: by what their texts tell.
///
/// They are what is removed, and their bits are those of the stream with its end code; those in
/// front of a picture are what is removed before it. The first picture start code ends behind 272
/// bits, with the delay of the settings in its header; each picture has the exact delay behind
/// those before it; and the times behind them are those of the groups.
pub fn law_coded_sent()
    ensures removals { (s : Settings) (frames : List (List ℕ)) → Passes s → length frames ≤ 999999
        → removals (fresh s) (Seen s frames) ≡ map removal_of (Sent s frames) }
    ensures safe { (s : Settings) (frames : List (List ℕ)) → Passes s → length frames ≤ 999999
        → Safe (start_of s) (map removal_of (Sent s frames)) }
    ensures sizes { (s : Settings) (frames : List (List ℕ)) → Passes s → 1 ≤ length frames
        → length frames ≤ 999999 → length ((coded_all s frames).text ⧺ start_code 0xB7)
        ≡ removed (map removal_of (Sent s frames)) }
    ensures at { (s : Settings) (frames : List (List ℕ)) (earlier : List (Group Samples))
        (g : Group Samples) (p : ℕ) → Passes s → length frames ≤ 999999
        → IsIn s frames earlier g p → StandsAt s frames earlier g p }
    ensures begins { (s : Settings) (frames : List (List ℕ)) → Passes s → 1 ≤ length frames
        → length frames ≤ 999999 → (x : SentPicture) × (later : List SentPicture)
        × (Sent s frames ≡ x ∷ later) × Begins s x }
    ensures exact { (s : Settings) (frames : List (List ℕ)) → Passes s → length frames ≤ 999999
        → AreExact (start_of s) [] (Sent s frames) }
    ensures units { (s : Settings) (frames : List (List ℕ)) → Passes s → length frames ≤ 999999
        → map (λ (x : SentPicture). x.units) (Sent s frames)
        ≡ flat_map (λ (g : Group Samples). intervals_of s g.before g.pictures)
        (groups_of s frames) }
{}
