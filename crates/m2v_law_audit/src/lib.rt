//! What the report of `audit` says of a stream, in the words of the standard and of the verifier.
#![tactic(auto)]

mod account_laws;
mod breach_laws;
mod encoded_laws;
mod figure_laws;
mod moved_laws;
mod report_laws;
mod verdict_laws;

pub use account_laws::{law_constant, law_removals, law_variable};
pub use breach_laws::law_breaches;
pub use encoded_laws::{law_encoded, law_flat};
pub use figure_laws::law_figures;
pub use moved_laws::{law_moved, law_onward};
pub use report_laws::{law_parts, law_sequence, law_told_by_lines};
pub use verdict_laws::law_verdicts;
