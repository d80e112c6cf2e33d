//! Frames, macroblock rows and views of reference samples, and raw video.
#![tactic(auto)]

mod dims;
mod fields;
mod frame;
mod laws;
mod moves;
mod planes;
mod row;
mod view;

pub use dims::{Dims, bytes_of};
pub use fields::FieldView;
pub use frame::{Frame, FrameRoom};
pub use laws::{law_crop_pad, law_raw_cut};
pub use planes::{Lines, Plane, luma_lines};
pub use row::{RowRoom, RowSamples};
pub use view::{LineParts, RefView, Window};

/// Want of memory.
pub type Memory = std::alloc::AllocError;
