// What holds of plans, and of streams that are coded by them.
ghost use Rattle.std.specs.Prelude.{◌≡◌, ℕ, ◌+◌, ◌-◌, ◌*◌, ◌%◌, ◌≤◌, ◌<◌, ◌++◌, List, length, sum_by};
ghost use Rattle.std.specs.List.{range_with_len};
ghost use Rattle.m2v_set.specs.declared.settings.Settings.{Settings};
ghost use Rattle.m2v_set.specs.Numbers.{least_of, rows_by};
ghost use Rattle.m2v_set.specs.Rules.{Passes};
ghost use Rattle.m2v_vbv.specs.Annex.{Start, Removal, removed, held_endless, Safe};
ghost use Rattle.m2v_vbv.specs.Account.{arriving, account_of};
ghost use Rattle.m2v_rate.specs.Plans.{Entries, account_at, first_open, Low, plan_of, slice_cap_of, fresh, start_of};
ghost use Rattle.m2v_rate.specs.Seen.{Told, told, SeesSame, seen};
ghost use Rattle.m2v_rate.specs.Steady.{IsPlan, IsBegun, IsSteady, IsHeld};
ghost use Rattle.m2v_rate.specs.Worked.{planned, wanted_plan, coarsened, wanted_codes};
ghost use Rattle.m2v_rate.specs.Safety.{Picture, closed, IsCoded, AreCoded, group_removals, removals, after_groups, sent, Keeps};

/// What a plan is and what it sees, by weights or by the source, and what it leaves its slices.
///
/// Each plan is one with which the buffer is safe. Two ledgers of one group that know the same sizes and works up to the
/// picture four before, and the same plans before, give a picture the same plan; so each plan is the one that is made of
/// these alone. No difference of what a plan takes to be held and of a cap is cut off at 0, since each cap is held. The caps
/// of all slices are the picture's cap less 416 bits, for headers and an end code.
pub fn law_plan()
    ensures is { (l : Entries) (p : ℕ) → IsBegun l → p < length l.kinds
        → IsPlan l.settings (Low l p) (plan_of l p) }
    ensures sees { (l : Entries) (x y : Told) (p : ℕ) → SeesSame p x y
        → plan_of (told l x) p ≡ plan_of (told l y) p }
    ensures early { (l : Entries) (p : ℕ) → plan_of l p ≡ plan_of (told l (seen p l)) p }
    ensures held { (l : Entries) (p j : ℕ) → IsSteady l → p ≤ length l.caps → p ≤ length l.sizes + 3
        → first_open p ≤ j → j < p → IsHeld l (first_open p) j }
    ensures slices { (s : Settings) (cap : ℕ) → Passes s → least_of s ≤ cap → cap % 8 ≡ 0
        → sum_by (λ r. slice_cap_of s cap r) (range_with_len 0 (rows_by s.scan s.height))
        ≡ cap - 416 }
{}

/// What holds of each stream that is coded by its plans, with settings that pass: of groups of pictures whose sizes, without
/// zero bytes, leave 32 bits of their caps, and behind each of which, but the last of all, the fewest zero bytes stand.
///
/// Each picture is whole in the buffer when it is removed, and the buffer takes what is held then. The ledger's account is
/// that of Annex C for the pictures that were sent, and each picture keeps what its plan knew. The time until a picture is
/// removed, from a place so many bits behind its begin, is that in which what is held beyond these bits arrives.
pub fn law_safe()
    ensures safe { (s : Settings) (gs : List (List Picture)) → Passes s → AreCoded (fresh s) gs
        → Safe (start_of s) (removals (fresh s) gs) }
    ensures accounts { (s : Settings) (gs : List (List Picture)) (g : List Picture) (p : ℕ)
        → Passes s → AreCoded (fresh s) gs → let l = after_groups (fresh s) gs in IsCoded l g
        → p ≤ length g → account_at (closed l g) p
        ≡ account_of (start_of s) (sent (fresh s) gs ++ group_removals (closed l g) p) }
    ensures keeps { (s : Settings) (gs : List (List Picture)) (g : List Picture) (p : ℕ) → Passes s
        → AreCoded (fresh s) gs → let l = after_groups (fresh s) gs in IsCoded l g → p < length g
        → Keeps (closed l g) p }
    ensures delay { (start : Start) (before : List Removal) (bits : ℕ)
        → start.s ≤ removed before + bits
        → arriving (account_of start before) (removed before + bits)
        ≡ held_endless start before - 1800 * bits }
{}

/// A plan by the source, and the quantisers of some macroblocks, that were computed by hand have the numbers that were
/// found.
pub fn law_worked_plan()
    ensures plan { planned ≡ wanted_plan }
    ensures slices { coarsened ≡ wanted_codes }
{}
