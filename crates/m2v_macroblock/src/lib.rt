//! Macroblocks with their blocks, once for decoder and encoder: what blocks are coded with, what a macroblock leaves to
//! the next one, its text, and how it is predicted (clauses 6.2.5, 6.2.6, 7.2.1 and 7.6 of ISO/IEC 13818-2).
#![tactic(auto)]

mod blocks;
mod count;
mod modes;
mod write;

pub use blocks::{dc_after, kind_for, kinds, predictor};
pub use count::macroblock_bits;
pub use m2v_block as block;
pub use m2v_block::vlc;
pub use m2v_macro as macro_library;
pub use m2v_macro::head;
pub use m2v_recon as recon;
pub use modes::{mode, skipped_mode};
pub use write::write_macroblock;
