//! Blocks of levels, both ways (clauses 6.2.6 and 7.2 of ISO/IEC 13818-2): the DC of intra blocks, runs and levels by
//! their codes or by escape, and the end of the block.
#![tactic(auto)]

mod count;
mod dc;
mod escape;
mod fault;
mod laws;
mod lengths;
mod quick;
mod read;
mod read_dc;
mod write;

pub use count::{block_bits, intra_bits, other_bits};
pub use dc::write_dc;
pub use fault::BlockFault;
pub use laws::{law_one_reading, law_round_trip};
pub use m2v_quant as quant;
pub use m2v_vlc as vlc;
pub use read::read_block;
pub use write::{put_block, write_block};
