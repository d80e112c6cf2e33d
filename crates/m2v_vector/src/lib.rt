//! Motion vectors (clause 7.6.3 of ISO/IEC 13818-2): what differences to predictors mean, dual prime's opposite
//! vectors, and the predictors after a macroblock.
#![tactic(auto)]

mod laws;
mod predictors;
mod vectors;

pub use laws::{law_round_trip, law_two_spellings};
pub use predictors::{Motion, Pmv};
pub use vectors::{between, dual, half, join, split};
