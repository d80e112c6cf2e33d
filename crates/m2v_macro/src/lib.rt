//! Macroblocks without their blocks, both ways (clause 6.2.5 of ISO/IEC 13818-2): address increments, types, motion
//! types, vectors and patterns, and the state that each leaves to the next.
#![tactic(auto)]

mod differences;
mod fault;
mod increments;
mod laws;
mod modes;
mod read;
mod state;
mod values;
mod vectors;
mod write;
mod write_modes;
mod write_vectors;

pub use fault::MacroFault;
pub use increments::{begins_before, increment, skips};
pub use laws::{law_one_reading, law_round_trip, law_two_texts};
pub use m2v_head as head;
pub use m2v_vector as vector;
pub use read::{read_macro, read_macro_into};
pub use state::{dc_reset, pmv_before};
pub use values::{MacroSyntax, PictureContext, SliceState};
pub use write::{macro_bits, put_macro, write_macro};
