use m2v_mend::{Answer, MendError};
use m2v_port::PortError;

/// What the words behind `mend` say.
#[derive(Debug, Drop)]
pub struct MendWords {
    /// The name of the file for the list of what was left out, where one is wanted.
    pub list: Option<String>,
}

/// What came of `mend`.
#[derive(Clone, Copy, Debug, PartialEq, Eq)]
pub enum MendOutcome {
    /// The input was read to its end.
    Mended(Answer),
    /// The place for the list wasn't opened.
    Unopened(PortError),
    /// Mending stopped.
    Stopped(MendError),
}
