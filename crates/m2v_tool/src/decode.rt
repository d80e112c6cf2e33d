use m2v_cut::decode::{DecodeError, Decoded};
use m2v_set::Unfit;

/// What came of `decode`.
#[derive(Clone, Copy, Debug, PartialEq, Eq)]
pub enum DecodeOutcome {
    /// A stream was decoded.
    Shown(Decoded),
    /// The number of workers doesn't pass: the first condition that fails.
    Unfit(Unfit),
    /// Decoding stopped.
    Stopped(DecodeError),
}
