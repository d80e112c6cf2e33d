//! How much there is to code in the source: the activities of the macroblocks of a group's pictures.
#![tactic(auto)]

mod compare;
mod group;
mod laws;
mod macroblock;
mod source;

pub use group::{GroupActivities, activities};
pub use laws::law_worked_rows;
pub use source::copy_plane;
