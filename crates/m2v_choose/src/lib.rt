//! The choice of a macroblock in the encoder: its candidates in order, the bits and the score of each, and the first of
//! least score among those that are short enough. Definitions, with the laws that hold of them.
#![tactic(auto)]

mod bits;
mod blocks;
mod choice;
mod coding;
mod intra;
mod laws;
mod motion;
mod predictions;
mod reached;
mod scratch;
mod squares;
mod task;
mod trial;
mod values;
mod vectors;

pub use choice::{choose, choose_in};
pub use laws::{
    law_choice_dc, law_choice_fits, law_choice_inside, law_choice_leaves, law_choice_written,
    law_first_of_least, law_hold_fits, law_own_ready, law_worked_rows,
};
pub use scratch::ChoiceScratch;
pub use values::{Choice, Limits};
