//! The account of the decoder's buffer (video buffering verifier, Annex C of ISO/IEC 13818-2).
#![tactic(auto)]

mod account;
mod buffer;
mod buffer_laws;
mod fault;
mod laws;
mod removed;

pub use account::Account;
pub use buffer::Buffer;
pub use buffer_laws::{
    law_buffer_worked, law_constant_rate, law_one_by_one, law_variable_rate, law_waits,
};
pub use fault::AccountFault;
pub use laws::law_held;
pub use removed::Removed;
