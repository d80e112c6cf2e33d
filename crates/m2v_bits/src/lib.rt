//! Bits in bytes, the highest bit of each byte first: a writer, a reader, and start codes.
//! `specs/` holds the words on which every syntax of the stream is defined.
#![tactic(auto, using(crate::proofs::Cursor::lengths))]

mod elements;
mod low;
mod output;
mod pairs;
mod reader;
mod start;
mod writer;

pub use elements::{check, flag, number};
pub use output::{BitCount, BitOutput, flag_bit};
pub use pairs::before_pair;
pub use reader::BitReader;
pub use start::next_start_code;
pub use writer::BitWriter;
