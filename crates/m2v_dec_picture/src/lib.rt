//! The slices of pictures, read and painted (clauses 6.2.4, 7.2 and 7.6 of ISO/IEC 13818-2): a slice header, and macroblocks
//! with their blocks until the rest of the unit is zero, each predicted from references, rebuilt and put into a frame or
//! into a macroblock row; and the frames at hand while pictures are decoded, into which slices are painted. What is told of
//! a slice depends on no sample, so slices may also be read and put nowhere.
#![tactic(auto)]

mod basis;
mod blocks;
mod gallery;
mod gap;
mod increments;
mod located;
mod macroblocks;
mod paint;
mod pass;
mod prediction;
mod rules;
mod scratch;
mod shared;
mod slice_kinds;
mod slices;
mod target;
mod views;
mod zeros;

pub use basis::PictureBasis;
pub use gallery::{FramesAtHand, Gallery, Reading};
pub use pass::SlicePass;
pub use scratch::Scratch;
pub use shared::DueFrame;
pub use slices::{SliceEnd, read_slice};
pub use target::Target;
pub use views::{backward_view, forward_view};

/// Want of memory.
pub type Memory = std::alloc::AllocError;
