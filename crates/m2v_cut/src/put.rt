//! Bytes of a piece on output.
ghost use Rattle.std.specs.Prelude.{◌≡◌, ◌+◌, ◌-◌, ◌≤◌, ◌<◌, ◌∷◌, ◌++◌, [], length, take, drop, slice_index, IsTrue, IfErr, OnOk, Ok};
ghost use Rattle.m2v_port.specs.Ends.{change, SinkStays};
ghost use Rattle.m2v_port.specs.Port.{Grows};
ghost use Rattle.m2v_dec_piece.specs.Putting.{PutStops, named};
ghost use Rattle.m2v_decode.specs.m2v_dec_piece.Sound.{IsSoundPiece};
ghost use Rattle.m2v_decode.specs.Decoding.{whole_of};
ghost use Rattle.m2v_law_group.specs.Groups.{with_broken_link};
ghost use Rattle.m2v_cut.specs.Progress.{part, head_of};
ghost use Rattle.m2v_cut.specs.declared.answer.CutError.TheVariants as errors;

use crate::answer::CutError;
use m2v_dec_piece::{named, put, put_zeros};
use m2v_decode::Piece;
use m2v_port::{PortError, Sink};

impl From<PortError> for CutError {
    ghost from_gives = { λ e f. f ≡ named e errors.Write errors.Memory };

    fn from(e: PortError) -> CutError {
        named(e, CutError::Write, CutError::Memory)
    }
}

/// Writes the bytes of a piece from one place in it up to another, the zero bytes that aren't kept among them.
pub fn put_part<K: Sink>(piece: &Piece, from: u64, to: u64, output: &mut K) -> Result<(), PortError>
    requires piece { IsSoundPiece piece.now }
    requires ordered { from ≤ to }
    requires within { to ≤ piece.now.length }
    requires output { IsTrue (K.ready output.old) }
    ensures grown { OnOk result (Grows (K.held output.old) (part from to (whole_of piece.now))
        (K.held output.new)) }
    ensures err { IfErr result (PutStops (part from to (whole_of piece.now))
        (change K.held K.faults output.old output.new)) }
    ensures output { SinkStays K.ready K.name K.faults output.old output.new }
{
    let kept = piece.bytes.len() as u64;
    put(
        &piece.bytes[from.min(kept) as usize..to.min(kept) as usize],
        output,
    )?;
    put_zeros(to.max(kept) - from.max(kept), output)
}

/// The byte at a place in a piece.
fn byte_at(piece: &Piece, at: u64) -> u8
    requires piece { IsSoundPiece piece.now }
    requires within { at < piece.now.length }
    ensures { result ≡ slice_index (whole_of piece.now) at }
{
    if at < piece.bytes.len() as u64 {
        return piece.bytes[at as usize];
    }
    0
}

/// The last byte of a time code with closed_gop 0 and broken_link 1 behind it.
fn broken(byte: u8) -> u8
    ensures { result ≡ with_broken_link byte }
{
    128 * (byte / 128) + 32 + byte % 32
}

/// Writes the bytes of a piece from its last sequence header on; where pictures stand before it, its group header with
/// closed_gop 0 and broken_link 1. Answers how many.
pub fn put_first<K: Sink>(
    piece: &Piece,
    sequence: u64,
    header: u64,
    behind: bool,
    output: &mut K,
) -> Result<u64, PortError>
    requires piece { IsSoundPiece piece.now }
    requires ordered { sequence ≤ header }
    requires within { header + 8 ≤ piece.now.length }
    requires output { IsTrue (K.ready output.old) }
    ensures grown { OnOk result (Grows (K.held output.old)
        (head_of (whole_of piece.now) sequence header behind) (K.held output.new)) }
    ensures bytes { OnOk result (result ≡ Ok (piece.now.length - sequence)) }
    ensures err { IfErr result (PutStops (head_of (whole_of piece.now) sequence header behind)
        (change K.held K.faults output.old output.new)) }
    ensures output { SinkStays K.ready K.name K.faults output.old output.new }
{
    if !behind {
        put_part(piece, sequence, piece.length, output)?;
        return Ok(piece.length - sequence);
    }
    put_part(piece, sequence, header + 7, output)?;
    let byte = [broken(byte_at(piece, header + 7))];
    put(&byte, output)?;
    put_part(piece, header + 8, piece.length, output)?;
    Ok(piece.length - sequence)
}
