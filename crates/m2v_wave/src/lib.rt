//! Workers over the board: every job of a book, by as many threads as are wanted.
//!
//! [`Bench::for_book`] takes all memory first. [`run_jobs`] then takes none: each worker claims a
//! job, passes the gate, fetches the needs, works, shares, tells the gate and publishes, until no
//! job is left. Each piece of the [`Done`] that it gives is the value of its job, whoever made it.
//! The posts of a [`Done`] can serve another book: [`Bench::again`] takes them.
#![tactic(auto)]

mod bench;
mod done;
mod each;
mod run;
mod spare;
mod worker;

pub use bench::Bench;
pub use done::Done;
pub use run::{run_jobs, run_jobs_beside};
pub use spare::Spare;
pub use worker::Worker;
