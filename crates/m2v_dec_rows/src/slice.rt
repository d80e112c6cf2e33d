//! A slice of a piece, read into its row.
ghost use Rattle.std.specs.Prelude.{ℕ, ◌≡◌, ◌+◌, ◌-◌, ◌*◌, ◌^◌, ◌<◌, ◌≤◌, IfOk, length, take, drop, vec_len};
ghost use Rattle.m2v_model.specs.Units.{body};
ghost use Rattle.m2v_dec_piece.specs.Sound.{IsSoundPiece};
ghost use Rattle.m2v_dec_picture.specs.Conditions.{IsSetup, rows_in, HoldReferences};
ghost use Rattle.m2v_dec_picture.specs.Reads.{seen_by};
ghost use Rattle.m2v_dec_rows.specs.Opened.{StandsIn, unread};
ghost use Rattle.m2v_dec_rows.specs.Reads.{IsWide, TellsUnread};

use crate::SliceUnit;
use m2v_bits::BitReader;
use m2v_dec_picture::{PictureBasis, Scratch, read_slice};
use m2v_dec_piece::{Fault, Piece};
use m2v_dec_unit::Unit;
use m2v_plane::{RefView, RowSamples};

/// The bytes of a slice that the piece keeps: all but zero bytes that end the piece.
fn kept<'a>(piece: &'a Piece, u: &SliceUnit) -> &'a [u8]
    requires behind { piece.now.place ≤ u.now.place }
    requires within { u.now.place - piece.now.place + 4 ≤ vec_len piece.now.bytes }
    requires code { 4 ≤ u.now.length }
    ensures value { result.now ≡ take u.now.length
        (drop (u.now.place - piece.now.place) piece.now.bytes.items) }
    ensures code { 4 ≤ length result.now }
    ensures most { length result.now ≤ u.now.length }
{
    let from = (u.place - piece.place) as usize;
    let bytes = &piece.bytes[from..];
    if u.length < bytes.len() as u64 {
        &bytes[..u.length as usize]
    } else {
        bytes
    }
}

/// The bits of a slice behind its start code.
fn body_of<'a>(piece: &'a Piece, u: &SliceUnit) -> BitReader<'a>
    requires sound { IsSoundPiece piece.now }
    requires stands { StandsIn piece.now u.now }
    ensures rest { result.rest ≡ body (unread piece.now u.now).unit }
    ensures text { result.text ≡ body (unread piece.now u.now).unit }
    ensures long { length result.text + 32 ≡ 8 * u.now.length }
{
    let bytes = kept(piece, u);
    let zeros = u.length - bytes.len() as u64;
    Unit::new(bytes, zeros).body()
}

/// Reads a slice, where so many macroblocks of the picture are covered, and paints it into its row. Answers how many are
/// covered behind it.
///
/// # Errors
/// Its first fault.
pub fn paint<V: RefView>(
    piece: &Piece,
    u: &SliceUnit,
    basis: &PictureBasis<V>,
    covered: u32,
    scratch: &mut Scratch,
    out: &mut RowSamples,
) -> Result<u32, Fault>
    requires piece { IsSoundPiece piece.now }
    requires stands { StandsIn piece.now u.now }
    requires row { u.now.row < rows_in basis.now.setup.now }
    requires setup { IsSetup basis.now.setup.now }
    requires covered { covered ≤ 2 ^ 16 }
    requires references { HoldReferences V.size V.Holds basis.now }
    requires wide { IsWide basis.now.setup.now out.old }
    ensures exact { TellsUnread basis.now.setup.now
        (seen_by (V.at basis.now.forward.now) (V.at basis.now.backward.now)) covered
        (unread piece.now u.now) out.old result out.new }
    ensures covered { IfOk result (λ end. end
        ≤ (u.now.row + 1) * basis.now.setup.now.context.columns) }
    ensures wide { IfOk result (λ end. IsWide basis.now.setup.now out.new) }
{
    let mut bits = body_of(piece, u);
    match read_slice(&mut bits, basis, covered, u.row, scratch, out) {
        Ok(end) => Ok(end.covered),
        Err(e) => Err(Fault {
            kind: e.kind,
            place: 8 * (u.place + u.length) - e.left,
        }),
    }
}
