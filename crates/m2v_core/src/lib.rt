//! Jobs that stand on one another: the book that names them, and the core that hands them out.
//!
//! A [`JobBook`] says which jobs there are, what each stands on and what its piece is. A [`Core`]
//! is the plain machine over one book: it draws jobs for workers, computes and publishes their
//! pieces, and tells what is published. It has no thread and no handle; [`law_good`] says what
//! holds of it after every list of events.
#![tactic(auto)]

mod book;
mod event;
mod laws;
mod machine;
mod needs;
mod published;

pub use book::{JobBook, Memory};
pub use event::{Answer, Event, StepFault};
pub use laws::law_good;
pub use machine::Core;
pub use needs::NeedList;
