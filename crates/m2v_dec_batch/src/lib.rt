//! The decoder's jobs: the macroblock rows of a batch of pictures, each read of those that it stands on.
//!
//! A [`DecodeBook`] is a book of jobs over a batch: pictures in decoding order whose headers were read, and a job for each of
//! their macroblock rows. A [`Filling`] is a batch that is filled picture by picture: what holds of its pictures holds of
//! those of every stream; the program looks at each condition itself all the same, and a picture of which one fails isn't
//! taken: others decode it as a whole.
#![tactic(auto)]

mod at_hand;
mod behind;
mod book;
mod cache;
mod filling;
mod jobs;
mod laws;
mod learn;
mod picture;
mod pieces;
mod reads;
mod single;
mod work;

pub use at_hand::FramesThere;
pub use book::{BatchParts, DecodeBook};
pub use cache::{DecodeCache, HeldFrame};
pub use filling::Filling;
pub use laws::{law_rows_in_frame, law_worked_rows};
pub use m2v_dec_rows as dec_rows;
pub use m2v_dec_rows::{dec_picture, dec_unit};
pub use picture::{BatchPicture, FramePlace, Header, Reads, header_of};
pub use pieces::{DecodePiece, DecodeShared};
pub use reads::ends_anchor;
pub use single::has_one_picture;

/// Want of memory.
pub type Memory = std::alloc::AllocError;
