//! The board of claims and posts, without a lock.
//!
//! A [`Board`] stands between the workers of one [`m2v_core::JobBook`]. Each worker has a [`Pass`]:
//! it claims jobs, takes their blank posts, fetches what other jobs share, and publishes posts that
//! are ready. No job is claimed twice, and no post is seen before it has its final value.
#![tactic(auto)]

mod board;
mod claims;
mod ends;
mod fetches;
mod gate;
mod laid;
mod laws;
mod opens;
mod pass;
mod plays;
mod post;
mod rule;
mod view;

pub use board::Board;
pub use gate::{Gate, OpenGate};
pub use laws::{law_shows, law_steps};
pub use m2v_core::Memory;
pub use pass::Pass;
pub use post::Post;
pub use rule::{About, Ruling};
pub use view::View;
