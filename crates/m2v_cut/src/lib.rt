//! Groups cut out of a stream: its pieces are copied as they stand, from the last sequence header before the first group
//! on up to the piece that holds the header of the group behind the last one, and an end code is put behind them. No
//! picture is decoded.
#![tactic(auto)]

mod answer;
mod behind;
mod copy;
mod find;
mod look;
mod put;
mod second;
mod start;
mod whole;

pub use answer::{CutError, CutSummary};
pub use m2v_decode as decode;
pub use whole::cut;
