//! Decoding by several workers: pieces are taken ahead, and the macroblock rows of their pictures decoded by all workers.
//! Then each picture is taken in and the frames written that are due, as decoding the pieces one after another does; by
//! that time the workers are at the next pictures. The laws say which frames a decoder has while it takes in the pictures of a
//! batch.
#![tactic(auto)]

mod chain;
mod laws;
mod pieces;
mod put;
mod rows;
mod stream;
mod taking;
mod whole;
mod workers;

pub use laws::{law_behind_none, law_next_behind, law_noted, law_rows_behind};
pub use whole::decode_with;
