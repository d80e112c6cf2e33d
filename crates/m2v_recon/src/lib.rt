//! The samples of one macroblock (clause 7.6.8 of ISO/IEC 13818-2): prediction plus the inverse transform of each coded
//! block's coefficients, clamped.
#![tactic(auto)]

mod differences;
mod lanes;
mod macroblock;

pub use differences::is_coded;
pub use m2v_pred as pred;
pub use macroblock::{rebuild, rebuild_block};
