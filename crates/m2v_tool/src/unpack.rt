use m2v_y4m::{PackSummary, UnpackError};

/// What came of `unpack`.
#[derive(Clone, Copy, Debug, PartialEq, Eq)]
pub enum UnpackOutcome {
    /// A text was unpacked.
    Unpacked(PackSummary),
    /// Unpacking stopped.
    Stopped(UnpackError),
}
