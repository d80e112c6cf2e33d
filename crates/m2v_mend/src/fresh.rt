//! A piece of a stretch as the feed hands it out.
ghost use Rattle.std.specs.Prelude.{◌≡◌};
ghost use Rattle.m2v_decode.specs.Decoding.{whole_of};
ghost use Rattle.m2v_law_seam.specs.Spans.{units_of};
ghost use Rattle.m2v_mend.specs.Telling.{IsCounted};

use crate::info::Counted;
use m2v_decode::Piece;
use std::marker::Model;

/// A piece of a stretch, with what was counted of its units. Contracts see the piece.
#[derive(Drop)]
pub struct Fresh {
    pub(crate) piece: Piece,
    pub(crate) counted: Counted,
}

impl Model for Fresh {
    ghost use Rattle.m2v_decode.specs.m2v_dec_piece.declared.answer.Piece.{Piece};
    ghost use Rattle.m2v_decode.specs.Decoding.{whole_of};
    ghost use Rattle.m2v_law_seam.specs.Spans.{units_of};
    ghost use Rattle.m2v_mend.specs.Telling.{IsCounted};

    ghost Value = { Piece };

    ghost view = { λ f. f.piece };

    ghost invariant = { λ f. IsCounted (units_of (whole_of f.piece)) f.counted };
}

impl Fresh {
    /// A piece with what was counted of it.
    pub(crate) fn of(piece: Piece, counted: Counted) -> Fresh
        requires { IsCounted (units_of (whole_of piece)) counted }
        ensures { result ≡ piece }
    {
        Fresh { piece, counted }
    }

    /// How many bytes it has.
    pub fn length(&self) -> u64
        ensures { result ≡ self.now.length }
    {
        self.piece.length
    }

    /// What was counted of its units.
    pub(crate) fn counted(&self) -> Counted
        ensures { IsCounted (units_of (whole_of self.now)) result }
    {
        self.counted
    }

    /// The piece alone.
    pub fn into_piece(self) -> Piece
        ensures { result ≡ self }
    {
        let Self { piece, counted: _ } = self;
        piece
    }
}
