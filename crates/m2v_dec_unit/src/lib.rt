//! The units of a piece of a stream, one after another, as they stand in its bytes and in the zero bytes behind them
//! (clause 5.2.3 of ISO/IEC 13818-2), and the header units, read (clauses 6.1.1 and 6.2.2 to 6.2.3): each header in its
//! unit with the rules that look ahead, and the units by the values of their start codes. What the headers in force say
//! of what follows, and what headers and slices do to them, are functions of the state alone.
#![tactic(auto)]

mod ahead;
mod changes;
mod codes;
mod header;
mod headers;
mod pictures;
mod reader;
mod search;
mod sequences;
mod slices;
mod state;
mod unit;
mod units;

pub use ahead::id_ahead;
pub use changes::{enter, enter_slice, enter_unread_slice, first_state};
pub use codes::code_bits;
pub use header::Header;
pub use headers::{is_slice, read_end, read_header, read_text_end};
pub use pictures::picture_extension;
pub use reader::UnitReader;
pub use sequences::sequence_extension;
pub use slices::slice_place;
pub use state::{
    anchors_after, crowded_by, has_anchor, is_complete, is_progressive, is_same_sequence,
    is_second_field_due, opened, picture_rows, slice_setup, takes_matrices, waiting_after,
    with_slice, with_unread_slice,
};
pub use unit::Unit;
pub use units::{group, matrices, picture, sequence};
