use crate::encode::EncodeOutcome;
use m2v_y4m::{Y4mError, Y4mFault};

/// What came of `encode-y4m`.
#[derive(Clone, Copy, Debug, PartialEq, Eq)]
pub enum Y4mOutcome {
    /// The header line wasn't read.
    Unread(Y4mError),
    /// It was read; this came of the frames behind it.
    Encoded(EncodeOutcome),
    /// It was read, and coding stopped at the first fault of the text.
    Broken(Y4mFault),
}
