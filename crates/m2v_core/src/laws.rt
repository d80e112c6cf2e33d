// What holds of every list of events.
ghost use Rattle.std.specs.Prelude.{◌≡◌, ℕ, ◌<◌, ◌↔◌, List, Some, Ok, Err};
ghost use Rattle.m2v_core.specs.declared.event.Event.{Event};
ghost use Rattle.m2v_core.specs.declared.event.Event.TheVariants.{Fetch};
ghost use Rattle.m2v_core.specs.declared.event.Answer.TheVariants.{Done};
ghost use Rattle.m2v_core.specs.declared.event.StepFault.{StepFault};
ghost use Rattle.m2v_core.specs.Core.{State, Good, opening, published_at, answer, after, run};

use crate::book::JobBook;

/// What holds of a core over every book, any number of workers and every list of events.
///
/// It stays good. What is published never changes or goes away. A fetch of a worker that exists
/// is done exactly where the job is published, and then with the value of the job. An event that
/// is refused changes nothing.
pub fn law_good<B: JobBook>()
    ensures good { (book : B) (workers : ℕ) (events : List Event)
        → Good (B.value book) (run (B.value book) (B.needs book) (opening (B.jobs book) workers)
        events) }
    ensures stays { (book : B) (s : State B.Piece) (events : List Event) (j : ℕ) (p : B.Piece)
        → published_at s j ≡ Some p → published_at (run (B.value book) (B.needs book) s events) j
        ≡ Some p }
    ensures fetched { (book : B) (workers : ℕ) (events : List Event) (w j : ℕ) → w < workers
        → let s = run (B.value book) (B.needs book) (opening (B.jobs book) workers) events in
        (answer (B.needs book) s (Fetch w j) ≡ Ok Done)
        ↔ (published_at s j ≡ Some (B.value book j)) }
    ensures refused { (book : B) (s : State B.Piece) (event : Event) (fault : StepFault)
        → answer (B.needs book) s event ≡ Err fault → after (B.value book) (B.needs book) s event
        ≡ s }
{}
