//! What comes of an audit: what is counted of all sequences, and how it ends.
ghost use Rattle.std.specs.Prelude.{◌≡◌};
ghost use Rattle.m2v_audit.specs.Audited.{first_ending, none_counted, none_told, counted_with};

use crate::auditor::Auditor;
use crate::records::TotalRecord;
use crate::words::LimitKind;
use m2v_strict::check::decode::Fault;

/// How an audit ends.
#[derive(Clone, Copy, Debug, PartialEq, Eq)]
pub enum Ending {
    /// The whole input was read.
    Whole,
    /// A sequence has a fault, the first of the input, and no limit was passed before it.
    Fault(Fault),
    /// A sequence passes a limit, and none before it has a fault.
    Limit(LimitKind),
}

impl Ending {
    /// This ending, or the next one where it is that of a whole input.
    pub(crate) fn or(self, next: Ending) -> Ending
        ensures { result ≡ first_ending self next }
    {
        match self {
            Ending::Whole => next,
            Ending::Fault(f) => Ending::Fault(f),
            Ending::Limit(kind) => Ending::Limit(kind),
        }
    }
}

/// What comes of an audit.
#[derive(Clone, Copy, Debug, PartialEq, Eq)]
pub struct Outcome {
    pub totals: TotalRecord,
    pub ending: Ending,
}

impl Outcome {
    /// Nothing was told.
    pub(crate) fn none() -> Outcome
        ensures { result ≡ none_told }
    {
        Outcome {
            totals: TotalRecord::none(),
            ending: Ending::Whole,
        }
    }
}

impl TotalRecord {
    /// Nothing was counted.
    pub(crate) fn none() -> TotalRecord
        ensures { result ≡ none_counted }
    {
        TotalRecord {
            sequences: 0,
            pictures: 0,
            bytes: 0,
            breaches: 0,
            failures: 0,
            warnings: 0,
        }
    }

    /// What is counted with a sequence more.
    pub(crate) fn with(&self, auditor: &Auditor) -> TotalRecord
        ensures { result ≡ counted_with self.now auditor.now }
    {
        let tally = auditor.tally();
        TotalRecord {
            sequences: self.sequences.saturating_add(u64::from(auditor.is_begun())),
            pictures: self.pictures.saturating_add(auditor.pictures()),
            bytes: self.bytes.saturating_add(auditor.length()),
            breaches: self.breaches.saturating_add(tally.breaches),
            failures: self.failures.saturating_add(tally.failures),
            warnings: self.warnings.saturating_add(tally.warnings),
        }
    }
}
