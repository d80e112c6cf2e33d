//! The flat profile: a progressive sequence of I pictures of which each block has its DC alone, and the laws that its
//! stream decodes to the frames that it stands for, and breaks none of the verifier's rules.
#![tactic(auto)]

mod answer;
mod laws;
mod profile;
mod settings;
mod writing;

pub use answer::{EncodeError, Summary};
pub use laws::{law_flat_decodes, law_flat_lawful};
pub use profile::flat;
pub use settings::FlatSettings;
