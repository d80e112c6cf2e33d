use m2v_cut::{CutError, CutSummary};

/// The numbers of the words `cut FROM COUNT`, whatever they are.
#[derive(Clone, Copy, Debug, PartialEq, Eq)]
pub struct CutWords {
    /// The number of the first group that is copied.
    pub from: u32,
    /// How many groups are copied.
    pub count: u32,
}

/// What came of `cut`.
#[derive(Clone, Copy, Debug, PartialEq, Eq)]
pub enum CutOutcome {
    /// Groups were copied.
    Done(CutSummary),
    /// No group was asked for.
    NoneAsked,
    /// Cutting stopped.
    Stopped(CutError),
}
