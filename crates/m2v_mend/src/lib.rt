//! A stream without a fault out of any bytes.
#![tactic(auto)]

mod agreeing;
mod alone;
mod answer;
mod begin;
mod behind;
mod copies;
mod edits;
mod feed;
mod folding;
mod fresh;
mod gap;
mod groups;
mod head;
mod header;
mod info;
mod laws;
mod limits;
mod listing;
mod member;
mod mender;
mod opening;
mod parts;
mod refusal;
mod standing;
mod strand;
mod stretch;
mod sums;
mod tail;
mod walk;
mod whole;
mod writing;

pub use answer::{Answer, MendError};
pub use edits::{Edit, from_sequence_on, lower, lowered_behind, mark, with_head};
pub use feed::Feed;
pub use fresh::Fresh;
pub use head::Heads;
pub use info::{PieceInfo, begins_step, is_second, waits_behind};
pub use laws::law_edits;
pub use refusal::Refusal;
pub use strand::Strand;
pub use whole::{mend, mend_listed};

/// Want of memory.
pub type Memory = std::alloc::AllocError;
