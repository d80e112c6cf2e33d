use m2v_flat::{EncodeError, Summary};
use m2v_set::Unfit;

/// The numbers of the words `flat W H CODE Q`, whatever they are.
#[derive(Clone, Copy, Debug, PartialEq, Eq)]
pub struct FlatWords {
    /// Luma samples in a line.
    pub width: u32,
    /// Lines of a frame.
    pub height: u32,
    /// The frame rate code.
    pub rate_code: u32,
    /// The quantiser code.
    pub quantiser: u32,
}

/// What came of `flat`.
#[derive(Clone, Copy, Debug, PartialEq, Eq)]
pub enum FlatOutcome {
    /// Raw frames were coded.
    Coded(Summary),
    /// The settings don't pass the published test: the first condition that fails.
    Unfit(Unfit),
    /// Coding stopped.
    Stopped(EncodeError),
}
