use m2v_make::{Made, MakeError};

/// What came of `make`.
#[derive(Clone, Copy, Debug, PartialEq, Eq)]
pub enum MakeOutcome {
    /// The stream of a seed was made.
    Done { seed: u64, made: Made },
    /// It wasn't.
    Stopped(MakeError),
}
