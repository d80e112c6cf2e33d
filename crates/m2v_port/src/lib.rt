//! Where bytes come from and go to: sources, sinks and named sinks, in memory and real.
#![tactic(auto)]

mod calls;
mod error;
mod failing;
mod file;
mod nowhere;
mod port;
mod real;
mod sure;
mod whole;

pub use error::{Memory, PortError};
pub use failing::{MemoryFile, MemorySink, MemorySource};
pub use file::FileSink;
pub use nowhere::Nowhere;
pub use port::{NamedSink, Sink, Source};
pub use real::{StdSink, StdSource};
pub use sure::{SureFile, SureSink, SureSource};
pub use whole::fill;
