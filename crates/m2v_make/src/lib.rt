//! A large stream that is made of a number: 48 generated frames are coded, and the stream is decoded and checked. And the
//! law of what the verifier says of the encoder's streams: they are lawful.
#![tactic(auto)]

mod answer;
mod ends;
mod generated;
mod laws;
mod whole;

pub use answer::{Made, MakeError};
pub use laws::{law_encoded_fits, law_encoded_judged};
pub use m2v_check as check;
pub use m2v_encode as encode;
pub use whole::make;
