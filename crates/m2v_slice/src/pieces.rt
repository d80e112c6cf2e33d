//! What jobs make, and what others learn of them.
use crate::SliceOut;
use m2v_plane::RowSamples;
use m2v_rate::{Ledger, Plan};

/// What a job makes.
#[derive(Drop)]
pub enum EncodePiece {
    /// The plan of a picture, and the ledger that knows it.
    Plan { plan: Plan, ledger: Ledger },
    /// A slice.
    Slice { out: SliceOut },
}

/// What other jobs learn of a job.
#[derive(Drop)]
pub enum EncodeShared {
    /// The plan of a picture, and the ledger that knows it.
    Plan {
        plan: Plan,
        ledger: Ledger,
    },
    /// The samples of a slice, how many bits it has, and its work.
    Slice {
        row: RowSamples,
        bits: u64,
        work: u64,
    },
}
