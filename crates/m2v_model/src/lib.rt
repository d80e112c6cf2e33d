//! What a stream decodes to: units, headers, slices, pictures and their order, and the faults of a stream, as
//! definitions over its whole text (ISO/IEC 13818-2, clauses 6 and 7), with the laws that follow from them alone; and
//! the rules of the verifier and the account of its buffer (clause 8 and Annex C).
//!
//! `specs/Streams.antt` has the grammar, rule by rule in reading order; `specs/Decoding.antt` says what a text decodes
//! to and which fault it has, `specs/Lawful.antt` and `specs/Buffering.antt` which verdict.
#![tactic(auto)]

mod chain_laws;
mod fault;
mod laws;
mod notes;
mod phase;
mod setup;
mod size;
mod state;
mod stop;

pub use chain_laws::{
    law_chained, law_cut, law_fields_painted, law_macroblocks_painted, law_painted,
};
pub use fault::FaultKind;
pub use laws::{
    law_by_pieces, law_macroblock_spelled, law_one_verdict, law_pictures_in_turn, law_prefix,
    law_safe_account, law_unique, law_verdict_rows, law_worked_rows,
};
pub use m2v_bits as bits;
pub use m2v_macroblock::macro_library;
pub use notes::{Notes, PictureNote};
pub use phase::Phase;
pub use setup::SliceSetup;
pub use state::{FirstField, Open, Sequence, State};
pub use stop::{Stop, of_block, of_head, of_macro, stopped};
