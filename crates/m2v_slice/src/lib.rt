//! The encoder's jobs: the plans and slices of a group of pictures, each coded of those that it stands on; the headers before
//! the slices; and the code of one slice: the choices of a macroblock row from left to right within the bits that the slice
//! may have, its bytes, and its samples as a decoder rebuilds them (clauses 6.2.2 to 6.2.4 of ISO/IEC 13818-2).
//!
//! An [`EncodeBook`] is a book of jobs over a group: for each picture in coding order a job for its plan, and behind it one
//! for each of its slices. [`code_slice`] codes one slice.
#![tactic(auto)]

mod activity;
mod book;
mod cache;
mod jobs;
mod kept;
mod laws;
mod lengths;
mod macroblocks;
mod needs;
mod picture;
mod pieces;
mod row;
mod sequence;
mod slice;
mod source;
mod window;
mod work;
mod writing;

pub use activity::source_activities;
pub use book::EncodeBook;
pub use cache::EncodeCache;
pub use laws::{
    law_headers, law_slice_any_row, law_slice_chosen, law_slice_covers, law_slice_fits,
    law_slice_keeps,
};
pub use lengths::{bits_to_code, header_bits};
pub use m2v_enc_activity::GroupActivities;
pub use picture::picture_context;
pub use pieces::{EncodePiece, EncodeShared};
pub use slice::{SliceOut, code_slice};
pub use writing::write_headers;
