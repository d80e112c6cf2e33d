//! A piece of a stream in two halves: its headers, read ahead of its slices, and the macroblock rows of its picture, each
//! read by itself and in any order, painted into that row. Read so, a piece tells what it tells when it is read as a whole.
#![tactic(auto)]

mod headers;
mod laws;
mod opened;
mod opening;
mod row;
mod skim;
mod slice;

pub use headers::read_headers;
pub use laws::{law_by_rows, law_halves, law_one_picture, law_row_in_frame, law_rows_in_frame};
pub use m2v_dec_picture as dec_picture;
pub use m2v_dec_unit as dec_unit;
pub use m2v_pred as pred;
pub use opened::{Opened, SliceUnit};
pub use row::read_row;

/// Want of memory.
pub type Memory = std::alloc::AllocError;
