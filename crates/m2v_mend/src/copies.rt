//! Copies of the pieces of a span, as they are put behind a strand.
ghost use Rattle.std.specs.Prelude.{◌≡◌, All, IfOk, OnOk, map};
ghost use Rattle.m2v_decode.specs.m2v_dec_piece.Sound.{IsSoundPiece};
ghost use Rattle.m2v_decode.specs.Decoding.{whole_of};
ghost use Rattle.m2v_law_group.specs.Groups.{has_sequence};
ghost use Rattle.m2v_law_seam.specs.Spans.{units_of};
ghost use Rattle.m2v_mend.specs.Copying.{IsFront, IsCopy, AreCopies};
ghost use Rattle.m2v_mend.specs.Editing.{IsUnits};
ghost use Rattle.m2v_mend.specs.Kept.{pieces_of};
ghost use Rattle.m2v_mend.specs.Members.{IsMember};
ghost use Rattle.m2v_mend.specs.Strand.{bytes_in};

use crate::Memory;
use crate::edits::{from_sequence_on, lower};
use crate::member::{HasPiece, Member};
use crate::opening::copy;
use crate::sums::sum;
use m2v_decode::Piece;
use std::alloc::Global;

/// Where a strand has no byte, what stands before the first sequence header of a piece is left out.
fn from_header(piece: &mut Piece, begun: bool, sequence: bool) -> Result<(), Memory>
    requires sound { IsSoundPiece piece.old }
    requires units { IsUnits piece.old }
    requires header { sequence ≡ has_sequence (units_of (whole_of piece.old)) }
    ensures sound { OnOk result (IsSoundPiece piece.new) }
    ensures units { OnOk result (IsUnits piece.new) }
    ensures front { OnOk result (IsFront begun piece.old piece.new) }
{
    if begun || !sequence {
        return Ok(());
    }
    from_sequence_on(piece)
}

/// A copy of a piece, whose temporal references are lowered.
fn copied(alloc: Global, member: &Member, begun: bool, low: u32) -> Result<Piece, Memory>
    requires { IsMember member.now }
    ensures sound { IfOk result IsSoundPiece }
    ensures copy { IfOk result (IsCopy begun low member.now.piece) }
{
    let mut piece = copy(alloc, &member.piece)?;
    from_header(&mut piece, begun, member.info.sequence)?;
    lower(&mut piece, low);
    Ok(piece)
}

/// Copies of pieces, as they are put behind a strand, which has a byte or not.
pub(crate) fn copies(
    alloc: Global,
    members: &[Member],
    begun: bool,
    low: u32,
) -> Result<Vec<Piece>, Memory>
    requires { All IsMember members.now }
    ensures sound { IfOk result (λ v. All IsSoundPiece v.items) }
    ensures copies { IfOk result (λ v. AreCopies begun low (pieces_of members.now) v.items) }
{
    let mut copies = Vec::new(alloc);
    let mut behind = begun;
    for member in members {
        let piece = copied(alloc, member, behind, low)?;
        copies.push(piece)?;
        behind = true;
    }
    Ok(copies)
}

/// How many bytes pieces have.
pub(crate) fn bytes_of<P: HasPiece>(pieces: &[P]) -> Result<u64, Memory>
    ensures { IfOk result (λ n. n ≡ bytes_in (map P.own_piece pieces.now)) }
{
    let mut total = 0;
    for piece in pieces {
        total = sum(total, piece.as_piece().length)?;
    }
    Ok(total)
}
