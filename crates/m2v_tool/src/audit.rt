use m2v_audit::Outcome;
use m2v_cut::decode::DecodeError;

/// What came of `audit`.
#[derive(Clone, Copy, Debug, PartialEq, Eq)]
pub enum AuditOutcome {
    /// The report was written.
    Reported(Outcome),
    /// The audit stopped.
    Stopped(DecodeError),
}
