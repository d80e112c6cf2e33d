//! The groups of a stream, numbered by their group headers, and the text of a cut: whole groups of it as they stand,
//! behind the last sequence header before them. Definitions, and what holds of them.
#![tactic(auto)]

mod laws;

pub use laws::{law_cut_decodes, law_lawful_cut, law_second_group, law_worked_rows};
pub use m2v_dec_unit as dec_unit;
