//! The transforms of Annex A of ISO/IEC 13818-2 on blocks of eight by eight: samples, or differences of
//! samples, from -256 to 255 on one side and coefficients from -2048 to 2047 on the other.
#![tactic(auto)]

mod block;
mod combine;
mod forward_columns;
mod forward_dct;
mod forward_lanes;
mod forward_rows;
mod inverse_dct;
mod lanes;
mod row_lanes;
mod terms;

pub use forward_dct::{forward, forward_dc, forward_in_place};
pub use inverse_dct::{inverse, inverse_by_rows, inverse_in_place, inverse_unclipped};
