//! The program: its command words, its one call `run`, and its report lines.
#![tactic(auto)]

mod audit;
mod beside;
mod check;
mod command;
mod cut;
mod decode;
mod encode;
mod encode_y4m;
mod figures;
mod flat;
mod make;
mod meant;
mod mend;
mod pack;
mod report;
mod stops;
mod told;
mod top;
mod unpack;
mod words;
mod work;

pub use command::Outcome;
pub use top::{Status, run};
