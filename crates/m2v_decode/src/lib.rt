//! Decoding of streams (ISO/IEC 13818-2): a stream is read piece by piece, and the frames that it shows are written as raw
//! video as they become due. A [`Decoder`] is handed the pieces: it reads each as the definitions say, tells what is noted
//! of it, and hands out frames as they are due. A [`Reader`] tells the same of each piece, and has no frames.
#![tactic(auto)]

mod answer;
mod at_hand;
mod course;
mod decoder;
mod fault_words;
mod frames;
mod halt;
mod notes;
mod pass;
mod passing;
mod reader;
mod reading;
mod rebuilt;
mod slice;
mod whole;

pub use answer::Decoded;
pub use at_hand::AtHand;
pub use decoder::Decoder;
pub use fault_words::fault_word;
pub use frames::put_due;
pub use m2v_dec_piece::{CutPiece, Cutter, DecodeError, Fault, Piece};
pub use m2v_dec_rows as dec_rows;
pub use m2v_dec_rows::dec_picture::DueFrame;
pub use m2v_dec_rows::{Opened, SliceUnit, dec_picture, dec_unit, read_row};
pub use reader::Reader;
pub use rebuilt::PictureRows;
pub use whole::{decode, finish};

/// Want of memory.
pub type Memory = std::alloc::AllocError;
