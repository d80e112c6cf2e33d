//! What the account of a stream's buffer tells, and what it has to do with the verifier's account and with deliveries.
ghost use Rattle.std.specs.Prelude.{◌≡◌, ℕ, List, Some};
ghost use Rattle.std.specs.List.{flat_map};
ghost use Rattle.m2v_model.specs.Streams.{Sofar};
ghost use Rattle.m2v_model.specs.Decoding.{Stream};
ghost use Rattle.m2v_model.specs.Pieces.{pieces};
ghost use Rattle.m2v_model.specs.ByPieces.{at_start};
ghost use Rattle.m2v_audit.specs.declared.report.Rate.{Rate};
ghost use Rattle.m2v_audit.specs.Auditing.{nothing};
ghost use Rattle.m2v_audit.specs.declared.asked.Asked.{Asked};
ghost use Rattle.m2v_law_audit.specs.Sequences.{first_byte};
ghost use Rattle.m2v_law_audit.specs.Found.{failures_of, all_removals};
ghost use Rattle.m2v_law_audit.specs.Accounts.{Beginning, beginning_in, dues_in, removals_by, failures_of_stream, FailsAsChecked, FailsWhereNoneDelivers};

/// The removals that are told of a stream, piece by piece as soon as each is settled and then at the end, are those of all
/// its pictures once each of them is whole, in turn. So their failures, at the rate with which the account begins, are those
/// of the stream.
pub fn law_removals()
    ensures removals { (text : List ℕ) (tree : Sofar) → Stream text tree →
        (asked : Asked) (number start : ℕ)
        → all_removals (nothing number asked start) at_start (first_byte start text) (pieces text)
        ≡ removals_by (beginning_in start text tree) (dues_in start text tree) }
    ensures failures { (text : List ℕ) (tree : Sofar) → Stream text tree →
        (asked : Asked) (number start : ℕ) (rate : Rate)
        → ((x : Beginning) → beginning_in start text tree ≡ Some x → rate ≡ x.rate) →
        let a = nothing number asked start in
        let told = all_removals a at_start (first_byte start text) (pieces text) in
        flat_map (failures_of number rate) told ≡ failures_of_stream number start text tree }
{}

/// At constant rate, where no frame is repeated in a progressive sequence, a stream's first failure that is told is the first
/// one of the verifier's account, by picture, kind and amounts; and none is told exactly where that account has none.
pub fn law_constant()
    ensures { (text : List ℕ) (tree : Sofar) → Stream text tree → FailsAsChecked text tree }
{}

/// At variable rate no failure of the buffer is told of a stream exactly where some delivery, at that rate into that
/// buffer, has each picture in time.
pub fn law_variable()
    ensures { (text : List ℕ) (tree : Sofar) → Stream text tree → FailsWhereNoneDelivers text tree }
{}
