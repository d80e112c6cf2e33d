//! Trials: tests of the crates up to the choice of macroblocks, in one crate above them.
//!
//! Each module tries one crate through what it offers, on values from outside: worked examples,
//! tables of the standard, and numbers that another program worked out. `steps` tries the
//! scheduling core. `books` has the books of jobs on which the core and the workers are tried,
//! `levels` blocks of levels from which tests begin.
#![tactic(auto)]

#[cfg(test)]
mod books;
#[cfg(test)]
mod choose;
#[cfg(test)]
mod head;
#[cfg(test)]
mod idct;
#[cfg(test)]
mod kernel;
#[cfg(test)]
mod levels;
#[cfg(test)]
mod plane;
#[cfg(test)]
mod port;
#[cfg(test)]
mod pred;
#[cfg(test)]
mod quant;
#[cfg(test)]
mod steps;
#[cfg(test)]
mod vlc;
#[cfg(test)]
mod wave;
