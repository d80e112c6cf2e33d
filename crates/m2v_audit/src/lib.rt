//! What `audit` tells of a stream: the lines of its report, the headers before each picture (clauses 6.2.2.1 and 6.2.2.6 of
//! ISO/IEC 13818-2), and the account of the buffer as it is told, picture by picture (Annex C).
#![tactic(auto)]

mod account;
mod account_laws;
mod append;
mod asked;
mod auditing;
mod auditor;
mod auditor_laws;
mod besides;
mod feed;
mod findings;
mod front_laws;
mod headers;
mod line;
mod lines;
mod opening;
mod others;
mod outcome;
mod pictures;
mod pieces;
mod places;
mod records;
mod remarks;
mod report;
mod tally;
mod texts;
mod texts_laws;
mod times;
mod times_laws;
mod told;
mod whole;
mod words;
mod worked;
mod zeros;

pub use account::{Account, Due};
pub use account_laws::{law_account_worked, law_as_soon_as_settled, law_told_in_all};
pub use asked::Asked;
pub use auditing::Auditing;
pub use auditor::Auditor;
pub use auditor_laws::{law_auditing_worked, law_bytes_counted};
pub use front_laws::{law_front_placed, law_front_worked};
pub use headers::{PieceHeader, front};
pub use lines::Lines;
pub use m2v_strict::RuleSet;
pub use opening::{first_buffer, kind_of};
pub use others::{Other, read_others};
pub use outcome::{Ending, Outcome};
pub use places::{Misplaced, Places, Waiting, WaitingFrame};
pub use records::{
    CountRecord, EndRecord, FailureRecord, Finding, GroupRecord, HeldRecord, PictureRecord,
    SequenceRecord, TotalRecord,
};
pub use report::{Broken, Rate, Report, SequenceTotals};
pub use tally::{RuleCount, Tally};
pub use texts_laws::law_texts_worked;
pub use times::{Times, fields_of};
pub use times_laws::law_times_as_checked;
pub use whole::audit;
pub use words::{FailureKind, LimitKind, PictureType, RateKind, Structure};
pub use worked::{law_lines_worked, law_report_worked};
