use m2v_make::check::{DecodeError, Verdict};

/// What came of `check`.
#[derive(Clone, Copy, Debug, PartialEq, Eq)]
pub enum CheckOutcome {
    /// A stream was judged.
    Judged(Verdict),
    /// Checking stopped.
    Stopped(DecodeError),
}
