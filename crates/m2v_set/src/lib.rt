//! The settings of the encoder, the published test, and the numbers that settings which pass stand for.
#![tactic(auto)]

mod limits;
mod numbers;
mod passed;
mod rules;
mod settings;
mod unfit;

pub use m2v_plane as plane;
pub use numbers::time_of_field;
pub use passed::{Passed, test_flat};
pub use rules::{at_least, at_most};
pub use settings::{Level, Planning, Scan, Settings};
pub use unfit::Unfit;
