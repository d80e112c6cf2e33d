//! What a whole report says of a stream, and where it finds nothing.
ghost use Rattle.std.specs.Prelude.{ℕ, List};
ghost use Rattle.m2v_model.specs.Streams.{Sofar};
ghost use Rattle.m2v_model.specs.Decoding.{Stream};
ghost use Rattle.m2v_law_audit.specs.Breaches.{TellsAll};
ghost use Rattle.m2v_law_audit.specs.Accounts.{TellsAllFailures};
ghost use Rattle.m2v_law_audit.specs.Verdicts.{FindsNothingWhereLawful, LawfulWhereClean};

/// The report of a stream without a fault, whichever sequence of the input it is and wherever it stands, tells the breaches
/// that the verifier's rules define, each as often as it comes, and no others of these rules; and the failures of the stream's
/// buffer, in turn, and no others; and counts all breaches that it tells, those of stricter rules among them, and the failures.
/// It tells none of these rules and no failure, and the rate isn't variable, exactly where the verifier calls the stream lawful;
/// and so it does where a report at constant rate counts no breach and no failure.
pub fn law_verdicts()
    ensures breaches { (text : List ℕ) (tree : Sofar) → Stream text tree → TellsAll text tree }
    ensures failures { (text : List ℕ) (tree : Sofar) → Stream text tree
        → TellsAllFailures text tree }
    ensures lawful { (text : List ℕ) (tree : Sofar) → Stream text tree
        → FindsNothingWhereLawful text tree }
    ensures clean { (text : List ℕ) (tree : Sofar) → Stream text tree
        → LawfulWhereClean text tree }
{}
