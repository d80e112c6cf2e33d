//! A piece as a cutter hands it out.
ghost use Rattle.std.specs.Prelude.{◌≡◌};
ghost use Rattle.m2v_dec_piece.specs.Slices.{OnlySlices, whole_of};

use crate::Piece;
use std::marker::Model;

/// A piece as a cutter hands it out, with how many bytes stand before all that is slices: a start code behind them is a
/// slice's. Contracts see the piece.
#[derive(Drop)]
pub struct CutPiece {
    piece: Piece,
    slices: u64,
}

impl Model for CutPiece {
    ghost use Rattle.m2v_dec_piece.specs.declared.answer.Piece.{Piece};
    ghost use Rattle.m2v_dec_piece.specs.Slices.{OnlySlices, whole_of};

    ghost Value = { Piece };

    ghost view = { λ c. c.piece };

    ghost invariant = { λ c. OnlySlices c.slices (whole_of c.piece) };
}

impl CutPiece {
    /// A piece of which so many bytes stand before all that is slices.
    pub(crate) fn of(piece: Piece, slices: u64) -> CutPiece
        requires { OnlySlices slices (whole_of piece) }
        ensures { result ≡ piece }
    {
        CutPiece { piece, slices }
    }

    /// How many bytes stand before all that is slices.
    pub fn slices(&self) -> u64
        ensures { OnlySlices result (whole_of self.now) }
    {
        self.slices
    }

    /// The piece.
    pub fn piece(&self) -> &Piece
        ensures { result.now ≡ self.now }
    {
        &self.piece
    }

    /// The piece alone.
    pub fn into_piece(self) -> Piece
        ensures { result ≡ self }
    {
        let Self { piece, slices: _ } = self;
        piece
    }
}
