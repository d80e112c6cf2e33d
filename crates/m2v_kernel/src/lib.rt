//! Sums of absolute differences and means of samples: what search and prediction compute most often.
#![tactic(auto)]

mod between;
mod difference;
mod lanes;
mod mean;
mod window;

pub use between::{sad_from_means, sad_from_quarters};
pub use difference::{sad16, sad16_until};
pub use mean::{average, average_into};
pub use window::sad_at_until;
