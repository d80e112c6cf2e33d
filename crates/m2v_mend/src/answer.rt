ghost use Rattle.std.specs.Prelude.{◌≡◌};
ghost use Rattle.m2v_dec_piece.specs.Putting.{named};
ghost use Rattle.m2v_mend.specs.declared.answer.MendError.TheVariants as errors;

use m2v_dec_piece::named;
use m2v_decode::{Fault, Memory};
use m2v_port::PortError;

/// What is answered to a text that is mended.
#[derive(Clone, Copy, Debug, PartialEq, Eq)]
pub enum Answer {
    /// No picture was left out.
    AllKept {
        /// How many groups the input has, how many pictures, and how many bytes the mended text.
        groups: u64,
        pictures: u64,
        bytes: u64,
    },
    /// Some were.
    SomeKept {
        /// How many groups were kept, and how many there are; the same of pictures; how many bytes the mended text has.
        groups: u64,
        of_groups: u64,
        pictures: u64,
        of_pictures: u64,
        bytes: u64,
    },
    /// There is no strand: the fault of the first span, or of the input where it has none.
    NoneKept(Fault),
}

/// Why no answer is given.
#[derive(Clone, Copy, Debug, PartialEq, Eq)]
pub enum MendError {
    /// The input failed.
    Read,
    /// The output failed.
    Write,
    /// A byte follows the first 2^36 bytes of the input.
    TooLong,
    /// A piece has more than 2,097,152 bytes up to its last byte that isn't zero.
    PictureTooLarge,
    /// Memory ran out.
    Memory,
}

impl From<PortError> for MendError {
    ghost from_gives = { λ e f. f ≡ named e errors.Write errors.Memory };

    fn from(e: PortError) -> MendError {
        named(e, MendError::Write, MendError::Memory)
    }
}

impl From<Memory> for MendError {
    ghost from_gives = { λ e f. f ≡ errors.Memory };

    fn from(_: Memory) -> MendError {
        MendError::Memory
    }
}
