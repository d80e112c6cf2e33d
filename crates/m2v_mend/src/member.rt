//! A piece with what it tells, and whatever has a piece.
ghost use Rattle.std.specs.Prelude.{◌≡◌};
ghost use Rattle.m2v_decode.specs.m2v_dec_piece.declared.answer.Piece.{Piece};
ghost use Rattle.m2v_decode.specs.m2v_dec_piece.Sound.{IsSoundPiece};
ghost use Rattle.m2v_mend.specs.Editing.{IsUnits};
ghost use Rattle.m2v_mend.specs.Members.{IsMember};

use crate::fresh::Fresh;
use crate::info::{PieceInfo, info_of};
use m2v_decode::Piece;

/// What has a piece: a piece itself, or one with what it tells.
pub trait HasPiece {
    // Its piece.
    ghost own_piece: { Self → Piece };

    /// Its piece.
    fn as_piece(&self) -> &Piece
        ensures { result.now ≡ own_piece self.now };
}

impl HasPiece for Piece {
    ghost own_piece = { λ p. p };

    fn as_piece(&self) -> &Piece {
        self
    }
}

/// A piece of a stretch, with what it tells.
#[derive(Drop)]
pub struct Member {
    pub piece: Piece,
    pub info: PieceInfo,
}

impl Member {
    /// A piece whose bytes are units.
    pub(crate) fn new(fresh: Fresh) -> Member
        requires sound { IsSoundPiece fresh }
        requires units { IsUnits fresh }
        ensures piece { result.piece ≡ fresh }
        ensures is { IsMember result }
    {
        let counted = fresh.counted();
        let piece = fresh.into_piece();
        let info = info_of(&piece, &counted);
        Member { piece, info }
    }

    /// The piece alone.
    pub(crate) fn into_piece(self) -> Piece
        ensures { result ≡ self.piece }
    {
        let Self { piece, info: _ } = self;
        piece
    }
}

impl HasPiece for Member {
    ghost own_piece = { λ m. m.piece };

    fn as_piece(&self) -> &Piece {
        &self.piece
    }
}
