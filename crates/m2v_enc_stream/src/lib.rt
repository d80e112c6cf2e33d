//! The coded stream of raw frames, and the frames that a decoder makes of it: definitions, and what holds of them. Its
//! pictures as the account of the decoder's buffer sees them: the stream never breaks it. And the stream as its tree, as a
//! decoder reads it: its slices, in which no start code stands and which are spelled as the grammar has it, and its parts one
//! after another, which stand in its bytes.
#![tactic(auto)]

mod laws;
mod safe;
mod tree;

pub use laws::law_workers;
pub use safe::{law_coded_safe, law_coded_sent};
pub use tree::{law_slice_calm, law_slice_reads, law_stream};
