//! The stricter rules that `audit` looks at beside those of the verifier, header by header: what a sequence, a group of pictures
//! and a picture say that the standard's words on each element and on profiles (clause 8) forbid, what is a warning, and what
//! discs and broadcasts want besides.
#![tactic(auto)]

mod arrivals;
mod broadcast;
mod display;
mod dvd;
mod element;
mod groups;
mod leading;
mod order;
mod others;
mod parity;
mod pictures;
mod preceding;
mod remark;
mod rule_set;
mod runs;
mod sequences;
mod time_codes;
mod worked;

pub use arrivals::arrival_rule;
pub use broadcast::{atsc_delay_warning, atsc_rules, dvb_rules};
pub use display::Display;
pub use dvd::{dvd_picture_rules, dvd_rules, headed_warning, like_warning};
pub use element::Element;
pub use groups::{broken_link_warning, group_rules};
pub use leading::Leading;
pub use m2v_check as check;
pub use order::{end_rules, first_type_rule, group_order_rule, sequence_order_rule};
pub use others::{display_rule, extra_rule, matrix_rules};
pub use parity::{Parity, ShownFrame, has_parity, parity_warning};
pub use pictures::{
    delay_rules, f_code_rules, field_rules, frame_rules, full_pel_rules, picture_warnings,
};
pub use preceding::{Arrival, Preceding};
pub use remark::{Remark, is_warning};
pub use rule_set::RuleSet;
pub use runs::Runs;
pub use sequences::{extension_rules, header_rules, level_rules, sequence_warnings};
pub use time_codes::time_warnings;
pub use worked::{law_group_worked, law_picture_worked, law_sequence_worked};
