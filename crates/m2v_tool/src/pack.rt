use m2v_set::Unfit;
use m2v_y4m::{EncodeFault, PackSummary};

/// What came of `pack`.
#[derive(Clone, Copy, Debug, PartialEq, Eq)]
pub enum PackOutcome {
    /// Raw frames were packed.
    Packed(PackSummary),
    /// The numbers don't pass: the first condition that fails.
    Unfit(Unfit),
    /// Packing stopped.
    Stopped(EncodeFault),
}
