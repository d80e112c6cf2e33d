//! Groups of pictures in coding order, and frames in display order.
#![tactic(auto)]

mod coding;
mod display;
mod jobs;
mod laws;
mod reorder;
mod times;

pub use display::{AnchorQueue, DisplayQueue};
pub use jobs::{GroupJobs, PictureJob};
pub use laws::{law_display, law_groups};
pub use m2v_set::plane;
pub use reorder::Reorder;
pub use times::{intervals, repeat_first_field, top_field_first};

/// Want of memory.
pub type Memory = std::alloc::AllocError;
