//! The rows of a picture of a batch that was decoded.
ghost use Rattle.std.specs.Prelude.{◌≡◌, ◌+◌, ◌≤◌, IsTrue};
ghost use Rattle.m2v_dec_batch.specs.Jobs.{jobs_of};
ghost use Rattle.m2v_dec_batch.specs.Batches.{headers, IsBatch};
ghost use Rattle.m2v_pardec.specs.Rows.{AreThere};

use m2v_dec_batch::{DecodeBook, DecodePiece};
use m2v_decode::PictureRows;
use m2v_plane::RowSamples;
use m2v_wave::Done;
use std::marker::Model;

/// The rows of a picture of a batch, from its first job on.
#[derive(Drop)]
pub struct BatchRows<'a> {
    done: &'a Done<DecodeBook>,
    first: u32,
}

impl<'a> Model for BatchRows<'a> {
    ghost use Rattle.m2v_dec_batch.specs.Batches.{IsBatch};
    ghost use Rattle.m2v_pardec.specs.Rows.{RowsFrom};

    ghost Value = { RowsFrom };

    ghost view = { λ x. record { batch = x.done.now; first = x.first } };

    ghost invariant = { λ x. IsBatch x.done.now };
}

impl<'a> PictureRows for BatchRows<'a> {
    ghost use Rattle.m2v_pardec.specs.Rows.{IsThere, samples_at};

    ghost there = { IsThere };

    ghost samples = { samples_at };

    fn row(&self, r: u32) -> &RowSamples {
        match self.done.piece(self.first + r) {
            DecodePiece::Rebuilt(row) => row,
            // a row that is there is rebuilt
            _ => unreachable!(),
        }
    }
}

impl<'a> BatchRows<'a> {
    /// The rows from a job on.
    pub fn from_job(done: &'a Done<DecodeBook>, first: u32) -> BatchRows<'a>
        requires batch { IsBatch done.now }
        ensures { result ≡ record { batch = done.now; first = first } }
    {
        BatchRows { done, first }
    }

    /// Whether the first rows are all rebuilt.
    pub fn are_rebuilt(&self, count: u32) -> bool
        requires { self.now.first + count ≤ jobs_of (headers self.now.batch) }
        ensures { IsTrue result → AreThere self.now count }
    {
        for r in 0..count {
            match self.done.piece(self.first + r) {
                DecodePiece::Rebuilt(_) => {}
                _ => return false,
            }
        }
        true
    }
}
