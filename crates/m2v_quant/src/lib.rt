//! From coefficients to levels and back (clauses 7.3 and 7.4 of ISO/IEC 13818-2): scans, quantiser scales, default
//! matrices, the inverse quantisation with its mismatch control, and the encoder's quantiser.
#![tactic(auto)]

mod block_levels;
mod forward;
mod inverse;
mod kind;
mod marks;
mod matrices;
mod positions;
mod scans;
mod sparse;

pub use block_levels::BlockLevels;
pub use forward::{dc_level, quantise};
pub use inverse::dequantise;
pub use kind::{BlockKind, Levels};
pub use matrices::default_matrix;
pub use scans::{scale_of, scan};
pub use sparse::{LevelAt, SparseLevels};
