//! The encoder: raw frames to a stream of the Main profile (ISO/IEC 13818-2), group by group, by workers.
//!
//! [`encode`] reads frame after frame, and codes a group of pictures once the next I frame has been read whole, or the input
//! has ended; the frames up to the group after it are read meanwhile. Each group is a book of jobs, which as many workers do
//! as are wanted; what is written is the same for every number of them. Where there is a place for them, the frames that a
//! decoder makes of the stream are written too.
#![tactic(auto)]

mod answer;
mod coding;
mod crew;
mod done;
mod frames;
mod group;
mod intake;
mod kept;
mod measured;
mod pictures;
mod reading;
mod ready;
mod unshown;
mod whole;

pub use answer::{EncodeError, Summary};
pub use crew::Crew;
pub use whole::encode;
