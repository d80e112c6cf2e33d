//! Raw video as a YUV4MPEG2 text, in and out, for 8 bits and 4:2:0.
#![tactic(auto)]

mod answer;
mod chunk;
mod header;
mod laws;
mod lines;
mod opening;
mod packing;
mod reader;
mod text;
mod unpacking;
mod words;

pub use answer::{EncodeFault, PackSummary, UnpackError, Y4mError, Y4mFault, Y4mKind};
pub use header::Y4mHeader;
pub use laws::law_worked_rows;
pub use packing::pack;
pub use text::{Y4mSource, Y4mText};
pub use unpacking::unpack;
