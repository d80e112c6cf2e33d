// What holds of an account after every list of removals.
ghost use Rattle.std.specs.Prelude.{◌≡◌, ℕ, ◌+◌, ◌*◌, List, min};
ghost use Rattle.m2v_vbv.specs.Annex.{Start, Removal, removed, arrived, held_endless, Held, NeverUnder};
ghost use Rattle.m2v_vbv.specs.Account.{opening, run, taken, account_of};

/// What an account tells after every list of removals, of which those that ask for more than is held are refused.
///
/// It is the account that Annex C's sums give for the removals that weren't refused, and of these each picture was whole
/// in the buffer; where that holds of all, none is refused. Nothing is lost in the sum's difference, and the lesser of
/// what is held and of what isn't removed yet is what is held in the whole stream.
pub fn law_held()
    ensures held { (start : Start) (rs : List Removal) → run (opening start) rs
        ≡ account_of start (taken (opening start) rs) }
    ensures whole { (start : Start) (rs : List Removal)
        → NeverUnder start (taken (opening start) rs) }
    ensures all { (start : Start) (rs : List Removal) → NeverUnder start rs
        → taken (opening start) rs ≡ rs }
    ensures exact { (start : Start) (rs : List Removal) → NeverUnder start rs
        → held_endless start rs + 1800 * removed rs ≡ arrived start rs }
    ensures cut { (start : Start) (rs : List Removal) (rest : ℕ)
        → min (held_endless start rs) (1800 * rest) ≡ Held start (removed rs + rest) rs }
{}
