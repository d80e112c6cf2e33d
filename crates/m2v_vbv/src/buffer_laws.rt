// What the account of a buffer means that goes on behind a failure.
ghost use Rattle.std.specs.Prelude.{◌≡◌, ℕ, ◌+◌, ◌-◌, ◌*◌, ◌/◌, ◌<◌, ◌≤◌, ◌↔◌, min, true, false, List, ◌++◌};
ghost use Rattle.m2v_vbv.specs.Annex.{Start, removed, Held, Safe};
ghost use Rattle.m2v_vbv.specs.Account.{arriving, account_of};
ghost use Rattle.m2v_vbv.specs.Buffer.{Picture, Buffer, constant_start, variable_start, size_of, reach, have_of, is_over, is_under, wait_of, full_of, told, next, removal_of, removals, left, run, tells, fails};
ghost use Rattle.m2v_vbv.specs.Deliveries.{NoneFails, as_buffer, SafeIn, FailsFirst, UnsafeFirst, FollowsProcess, Delivers, HasInTime, HoldsNoMore};
ghost use Rattle.m2v_vbv.specs.BufferWorked.{constant_buffer, variable_buffer, kept, kept_told, late, late_told, waited_told, filled, filled_told, roomy, roomy_told, large, large_told};

/// Worked values: a stream that never fails; one that is late at one picture and goes on without a debt, by steps of a
/// unit and of 20; one that is over; and at variable rate one that fills the buffer and one with a picture larger than it.
#[tactic(auto, unfolding(crate::specs::Buffer::tells, crate::specs::Buffer::told, crate::specs::Buffer::next))]
pub fn law_buffer_worked()
    ensures kept { tells (constant_buffer 1) kept 0 ≡ kept_told }
    ensures late { tells (constant_buffer 1) late 0 ≡ late_told }
    ensures waited { tells (constant_buffer 20) late 0 ≡ waited_told }
    ensures filled { tells (constant_buffer 1) filled 0 ≡ filled_told }
    ensures roomy { tells variable_buffer roomy 0 ≡ roomy_told }
    ensures large { tells variable_buffer large 0 ≡ large_told }
{}

/// A decoder waits only for a picture that isn't whole, as long as it must: at the end of the wait it is whole, if the
/// buffer wasn't over, and a step sooner it wouldn't have been.
pub fn law_waits()
    ensures none { (b : Buffer) (bits rest : ℕ) → is_under b bits rest ≡ false
        → wait_of b bits rest ≡ 0 }
    ensures whole { (b : Buffer) (bits rest : ℕ) → 1 ≤ b.inflow.k → 1 ≤ b.inflow.step
        → is_over b rest ≡ false → 1800 * bits ≤ full_of b bits rest }
    ensures fewest { (b : Buffer) (bits rest : ℕ) → 1 ≤ b.inflow.k → 1 ≤ b.inflow.step
        → is_under b bits rest ≡ true
        → have_of b rest + b.inflow.k * (wait_of b bits rest - b.inflow.step) < 1800 * bits }
{}

/// One removal after another: what is told of pictures, others behind them, is what is told of the first ones and then of
/// the others. A removal is settled once as many bits are known as could be held: what is told then, and the buffer behind
/// it, don't depend on how many follow.
pub fn law_one_by_one()
    ensures told { (b : Buffer) (ps : List Picture) (qs : List Picture) (behind : ℕ) →
        let rest = left qs behind in tells b (ps ++ qs) behind
        ≡ tells b ps rest ++ tells (run b ps rest) qs behind }
    ensures run { (b : Buffer) (ps : List Picture) (qs : List Picture) (behind : ℕ)
        → run b (ps ++ qs) behind ≡ run (run b ps (left qs behind)) qs behind }
    ensures settled { (b : Buffer) (p : Picture) (rest : ℕ) (known : ℕ) → reach b ≤ 1800 * rest
        → reach b ≤ 1800 * known → told b p rest ≡ told b p known }
    ensures next { (b : Buffer) (p : Picture) (rest : ℕ) (known : ℕ) → reach b ≤ 1800 * rest
        → reach b ≤ 1800 * known → next b p rest ≡ next b p known }
{}

/// At constant rate, up to the first failure, the buffer is the account by Annex C's sums: what is held, what fails, and the
/// delays. So no removal fails exactly where each is safe, and the first that fails is the first that isn't.
///
/// `rest` is the number of bits that stand behind the pictures `ps`, and so isn't taken when the next one is due.
pub fn law_constant_rate()
    ensures account { (start : Start) (step rest : ℕ) (ps : List Picture) →
        let b = constant_start start step in NoneFails (tells b ps rest)
        → run b ps rest ≡ as_buffer step (account_of start (removals ps)) }
    ensures held { (start : Start) (step rest : ℕ) (ps : List Picture) →
        let b = constant_start start step in NoneFails (tells b ps rest)
        → have_of (run b ps rest) rest ≡ Held start (removed (removals ps) + rest) (removals ps) }
    ensures under { (start : Start) (step rest : ℕ) (ps : List Picture) (p : Picture) →
        let b = constant_start start step in NoneFails (tells b ps rest)
        → ((told (run b ps rest) p rest).is_under ≡ true)
        ↔ (Held start (removed (removals ps) + rest) (removals ps) < 1800 * p.bits) }
    ensures over { (start : Start) (step rest : ℕ) (ps : List Picture) (p : Picture) →
        let b = constant_start start step in NoneFails (tells b ps rest)
        → ((told (run b ps rest) p rest).is_over ≡ true)
        ↔ (1800 * start.buffer_bits < Held start (removed (removals ps) + rest) (removals ps)) }
    ensures first { (start : Start) (step rest : ℕ) (ps : List Picture) (p : Picture)
        → FailsFirst (constant_start start step) ps p rest
        ↔ UnsafeFirst start (removed (removals ps) + rest) (removals ps) (removal_of p) }
    ensures safe { (start : Start) (step rest : ℕ) (ps : List Picture)
        → NoneFails (tells (constant_start start step) ps rest)
        ↔ SafeIn start (removed (removals ps) + rest) (removals ps) }
    ensures all { (start : Start) (step : ℕ) (ps : List Picture)
        → NoneFails (tells (constant_start start step) ps 0) ↔ Safe start (removals ps) }
    ensures delay { (start : Start) (step rest : ℕ) (ps : List Picture) (p : Picture) →
        let b = constant_start start step in NoneFails (tells b ps rest)
        → fails (told (run b ps rest) p rest) ≡ false
        → start.s ≤ removed (removals ps) + p.code_bits
        → (told (run b ps rest) p rest).delay ≡ arriving (account_of start (removals ps))
        (removed (removals ps) + p.code_bits) / (8 * start.k) }
{}

/// At variable rate a buffer never runs over, and what is held is what the process of C.3.2 holds, from a buffer that is
/// full, or has all of the stream, when the first picture is due.
///
/// It is the kindest delivery: none at that rate into that buffer holds more when a picture is removed, up to the first
/// one that is late. So no removal fails exactly where some delivery has each picture in time.
pub fn law_variable_rate()
    ensures within { (b : Buffer) (rest : ℕ) → b.inflow.varies ≡ true
        → (have_of b rest ≤ size_of b.inflow) × (have_of b rest ≤ 1800 * rest) }
    ensures room { (b : Buffer) (rest : ℕ) → b.inflow.varies ≡ true → is_over b rest ≡ false }
    ensures full { (k size step rest : ℕ) → have_of (variable_start k size step) rest
        ≡ min (1800 * size) (1800 * rest) }
    ensures process { (b : Buffer) (p : Picture) (more : ℕ) → b.inflow.varies ≡ true
        → FollowsProcess b p more }
    ensures kindest { (k size step behind : ℕ) (ps : List Picture) (os : List ℕ) →
        let b = variable_start k size step in Delivers b.inflow (size_of b.inflow) ps behind os
        → HoldsNoMore os (tells b ps behind) }
    ensures exactly { (k size step behind : ℕ) (ps : List Picture) →
        let b = variable_start k size step in NoneFails (tells b ps behind)
        ↔ ((os : List ℕ) × (Delivers b.inflow (size_of b.inflow) ps behind os × HasInTime ps os)) }
{}
