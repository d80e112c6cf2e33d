//! The code tables of Annex B of ISO/IEC 13818-2, both ways. The tables stand row by row in `specs/Tables.antt`
//! and `specs/Coefficients.antt`; each is read, written and measured exactly as it stands there.
#![tactic(auto)]

mod code;
mod increment_rows;
mod kind_rows;
mod laws;
mod long;
mod longest;
mod lookup;
mod motion_rows;
mod one_long;
mod one_rows;
mod one_short;
mod pair_rows;
mod pattern_rows;
mod read;
mod rows;
mod short;
mod size_rows;
mod values;
mod write;
mod zero_long;
mod zero_rows;
mod zero_short;

pub use code::{
    code_coefficient_one, code_coefficient_zero, code_dc_chroma, code_dc_luma, code_dmv,
    code_first_zero, code_increment, code_motion, code_pattern, code_type_b, code_type_i,
    code_type_p,
};
pub use laws::law_tables;
pub use long::{long_first, long_pair};
pub use read::{
    read_coefficient_one, read_coefficient_zero, read_dc_chroma, read_dc_luma, read_dmv,
    read_first_zero, read_increment, read_motion, read_pattern, read_type_b, read_type_i,
    read_type_p,
};
pub use rows::{Code, append_code};
pub use short::{short_first, short_pair};
pub use values::{CodeFault, Coefficient, Increment, MbType, ShortPair};
pub use write::{
    bits_coefficient_one, bits_coefficient_zero, bits_dc_chroma, bits_dc_luma, bits_dmv,
    bits_first_zero, bits_increment, bits_motion, bits_pattern, bits_type_b, bits_type_i,
    bits_type_p, write_coefficient_one, write_coefficient_zero, write_dc_chroma, write_dc_luma,
    write_dmv, write_first_zero, write_increment, write_motion, write_pattern, write_type_b,
    write_type_i, write_type_p,
};
