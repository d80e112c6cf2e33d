//! A stream cut into pieces, each a picture with the header units before it, as they are read from a source.
#![tactic(auto)]

mod answer;
mod chunk;
mod cut_piece;
mod cutter;
mod hand;
mod laws;
mod putting;
mod runs;
mod taking;

pub use answer::{DecodeError, Fault, Piece};
pub use cut_piece::CutPiece;
pub use cutter::Cutter;
pub use laws::{law_next_text, law_text_after};
pub use putting::{named, put, put_zeros};

/// Want of memory.
pub type Memory = std::alloc::AllocError;
