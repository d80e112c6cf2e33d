ghost use Rattle.std.specs.Prelude.{◌≡◌};
ghost use Rattle.m2v_make.specs.declared.answer.MakeError.TheVariants as errors;

use std::alloc::AllocError;

/// The numbers of a stream that was made.
#[derive(Clone, Copy, Debug, PartialEq, Eq)]
pub struct Made {
    /// Bytes of the stream.
    pub bytes: u64,
    /// Zero bytes among them, sent so that the decoder's buffer doesn't run over.
    pub stuffing: u64,
    /// The least that a picture leaves in the decoder's buffer, in bits, rounded down.
    pub low: u128,
    /// The most that the buffer holds when a picture is removed, in bits, rounded down.
    pub high: u128,
    /// Pictures behind the first one whose vbv_delay isn't the exact one.
    pub delays: u64,
}

/// Why no stream was made.
#[derive(Clone, Copy, Debug, PartialEq, Eq)]
pub enum MakeError {
    /// The output failed.
    Write,
    /// No memory was left: a call for memory failed, and nothing else is told so.
    Memory,
}

impl From<AllocError> for MakeError {
    ghost from_gives = { λ e f. f ≡ errors.Memory };

    fn from(_: AllocError) -> MakeError {
        MakeError::Memory
    }
}
