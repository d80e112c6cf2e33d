//! The verifier of streams: the rules of its level that it looks at, and the account of the decoder's buffer, picture by
//! picture; and the verdict on a whole stream (clause 8 and Annex C of ISO/IEC 13818-2).
#![tactic(auto)]

mod amounts;
mod broken;
mod buffer;
mod coded;
mod course;
mod header_rules;
mod judge;
mod laws;
mod level;
mod picture_rules;
mod places;
mod removing;
mod rules;
mod times;
mod verdict;
mod whole;

pub use broken::BrokenRule;
pub use buffer::BufferFigures;
pub use coded::CodedPicture;
pub use header_rules::{buffer_of, rate_of, sequence_rules};
pub use judge::{Judge, Judgement};
pub use laws::{law_account, law_rules};
pub use level::{Bounds, bounds_at, level_of, time_of_field};
pub use m2v_dec_piece::{DecodeError, Fault};
pub use m2v_decode as decode;
pub use m2v_vbv::AccountFault;
pub use picture_rules::{is_b, is_frame, rules_from_12, rules_to_10};
pub use rules::ends_frame;
pub use verdict::{Figures, Verdict};
pub use whole::check;
