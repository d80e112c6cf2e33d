// What the account that is told piece by piece says of a whole sequence.
ghost use Rattle.std.specs.Prelude.{◌≡◌, ℕ, ◌+◌, ◌*◌, ◌≤◌, ◌≢◌, true, false, List, [], ◌∷◌, ◌++◌, length, map, Some};
ghost use Rattle.std.specs.List.{AllByRecursion};
ghost use Rattle.m2v_vbv.specs.Buffer.{Picture, Buffer, reach, told, next, tells};
ghost use Rattle.m2v_audit.specs.declared.account.Due.{Due};
ghost use Rattle.m2v_audit.specs.Account.{IsPicture, pictures, all_told, Account, opened, with_more, settles, settled, after_settled, Event, reported, read};
ghost use Rattle.m2v_vbv.specs.BufferWorked.{constant_buffer};
ghost use Rattle.m2v_audit.specs.AccountWorked.{due, early, first_told, pieces, all_kept};

/// Worked values: a removal isn't told at 49 bits, and is told at 50; and all that is told of three pictures.
#[tactic(auto, unfolding(crate::specs::Account::settled_of, crate::specs::Account::behind_settled, crate::specs::Account::reported, m2v_vbv::specs::Buffer::tells, m2v_vbv::specs::Buffer::told, m2v_vbv::specs::Buffer::next,))]
pub fn law_account_worked()
    ensures early { settled early ≡ [] }
    ensures soon { settled (with_more early 1) ≡ first_told ∷ [] }
    ensures all { reported (opened (constant_buffer 1) (due 0 0 10)) pieces ≡ all_kept }
{}

/// In whatever pieces the bits of a sequence come: what is told as soon as it is settled, and then at the end, is what is
/// told of all its pictures once each of them is whole; and the same from any account on. That is each picture in turn,
/// and what the buffer tells of the removals.
pub fn law_told_in_all()
    ensures all { (b : Buffer) (first : Due) (es : List Event) → reported (opened b first) es
        ≡ all_told b (read (Some first) es) }
    ensures onward { (a : Account) (es : List Event) → reported a es
        ≡ all_told a.buffer (a.waiting ++ read a.last es) }
    ensures each { (b : Buffer) (ds : List Due) → map (λ t. t.0) (all_told b ds) ≡ ds }
    ensures removals { (b : Buffer) (ds : List Due) → map (λ t. t.1) (all_told b ds)
        ≡ tells b (pictures ds) 0 }
{}

/// A removal is settled exactly where no bits that follow change what is told of it: where it is, neither this nor the
/// buffer after it changes; where it isn't, one bit more changes it. What is settled is told, so the pictures that wait
/// then are at most as many as fit what could be held, at 32 bits each.
pub fn law_as_soon_as_settled()
    ensures told { (b : Buffer) (p : Picture) (known : ℕ) (more : ℕ) → settles b known ≡ true
        → told b p (known + more) ≡ told b p known }
    ensures next { (b : Buffer) (p : Picture) (known : ℕ) (more : ℕ) → settles b known ≡ true
        → next b p (known + more) ≡ next b p known }
    ensures not_sooner { (b : Buffer) (p : Picture) (known : ℕ) → settles b known ≡ false
        → told b p (known + 1) ≢ told b p known }
    ensures none { (a : Account) → settled (after_settled a) ≡ [] }
    ensures few { (a : Account) → AllByRecursion IsPicture a.waiting →
        let then = after_settled a in 1800 * (32 * length then.waiting) ≤ reach then.buffer }
{}
