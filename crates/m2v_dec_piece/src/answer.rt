use crate::Memory;
use m2v_model::FaultKind;

/// The first fault of a stream, and its place in bits from the input's first byte.
#[derive(Clone, Copy, Debug, PartialEq, Eq)]
pub struct Fault {
    pub kind: FaultKind,
    pub place: u64,
}

/// Why a decoder stopped.
#[derive(Clone, Copy, Debug, PartialEq, Eq)]
pub enum DecodeError {
    /// The input failed.
    Read,
    /// The output failed.
    Write,
    /// The stream has a fault.
    Stream(Fault),
    /// A byte follows the first 2^36 bytes of the input, and no sequence end code stands before it.
    TooLong,
    /// A piece has more than 2,097,152 bytes up to its last byte that isn't zero.
    PictureTooLarge,
    /// Memory ran out.
    Memory,
}

impl From<Memory> for DecodeError {
    ghost use Rattle.std.specs.Prelude.{◌≡◌};
    ghost use Rattle.m2v_dec_piece.specs.declared.answer.DecodeError.TheVariants as errors;

    ghost from_gives = { λ e f. f ≡ errors.Memory };

    fn from(_: Memory) -> DecodeError {
        DecodeError::Memory
    }
}

/// A piece of a stream: a picture with the header units before it, or what stands behind the last picture.
#[derive(Drop)]
pub struct Piece {
    /// Its bytes up to the last one that isn't zero, and of the zero bytes behind that the first 64.
    pub bytes: Vec<u8>,
    /// The place of its first byte in the input.
    pub place: u64,
    /// How many bytes it has, all zero bytes included.
    pub length: u64,
}
