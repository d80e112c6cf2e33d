//! What comes of a row, and what others learn of it.
ghost use Rattle.std.specs.Prelude.{◌≡◌, ◌≤◌, ◌*◌, ◌^◌, IfOk, IfSome, Some, None, Option, if◌then◌else◌, true, length, sum};
ghost use Rattle.m2v_plane.specs.Sizes.{IsSize, side};
ghost use Rattle.std.specs.Option.{option_map};
ghost use Rattle.m2v_dec_batch.specs.Pieces.{row_of, IsKeptFor, keeps, row_kept};
ghost use Rattle.m2v_dec_batch.specs.Values.{lines_sum, samples_sum, shared_by};

use m2v_core::Memory;
use m2v_dec_piece::Fault;
use m2v_plane::{Dims, Plane, RowRoom, RowSamples};
use std::alloc::Global;
use std::marker::Model;
use std::mem;

/// What a job makes.
#[derive(Drop)]
pub enum DecodePiece {
    /// The row wasn't read yet: room for its samples.
    Unread(RowRoom),
    /// The row isn't rebuilt: one that it needs isn't, or a fault of the picture's headers stands before.
    After,
    /// The row has a fault, its first one.
    Faulty(Fault),
    /// The samples of the row.
    Rebuilt(RowSamples),
}

/// The samples of a row that others learn of.
#[derive(Drop)]
pub enum Kept {
    /// None are kept: no picture is predicted from the row's.
    Nothing,
    /// Room for them, until the first row is taken.
    Room(RowRoom),
    /// The samples of the last row that was taken.
    Row(RowSamples),
}

impl Kept {
    /// Takes the samples of a row, if any are kept.
    fn take(self, row: &RowSamples) -> Kept
        requires size { IsKeptFor row.now.dims self }
        ensures size { IsKeptFor row.now.dims result }
        ensures keeps { keeps result ≡ keeps self }
        ensures value { row_kept result ≡ (if keeps self then Some row.now else None) }
    {
        match self {
            Kept::Nothing => Kept::Nothing,
            Kept::Room(room) => Kept::Row(room.copy_of(row)),
            Kept::Row(mut own) => {
                own.copy_from(row);
                Kept::Row(own)
            }
        }
    }
}

/// What other jobs learn of a job: the samples of its row, where it holds samples and the row is rebuilt, and what a gate is
/// told. Contracts see whether it holds samples, and these.
#[derive(Drop)]
pub struct DecodeShared {
    dims: Dims,
    rebuilt: bool,
    told: u64,
    kept: Kept,
}

impl Model for DecodeShared {
    ghost use Rattle.std.specs.Prelude.{if◌then◌else◌, None};
    ghost use Rattle.m2v_dec_batch.specs.Pieces.{SharedRow, IsKeptFor, keeps, row_kept};

    ghost Value = { SharedRow };

    ghost view = { λ s. record {
      dims = s.dims;
      holds = keeps s.kept;
      row = if s.rebuilt then row_kept s.kept else None;
      told = s.told;
    } };

    ghost invariant = { λ s. IsKeptFor s.dims s.kept };
}

impl DecodeShared {
    /// A shared part for frames of this size, which holds samples or doesn't, of a row that isn't rebuilt.
    pub(crate) fn blank(alloc: Global, dims: Dims, holds: bool) -> Result<DecodeShared, Memory>
        requires size { IsSize dims }
        ensures size { IfOk result (λ s. s.dims ≡ dims) }
        ensures holds { IfOk result (λ s. s.holds ≡ holds) }
    {
        let kept = if holds {
            Kept::Room(RowRoom::for_row(alloc, dims)?)
        } else {
            Kept::Nothing
        };
        Ok(DecodeShared {
            dims,
            rebuilt: false,
            told: 0,
            kept,
        })
    }

    /// Takes what others learn of a piece for frames of the same size.
    #[tactic(auto, unfolding(crate::specs::Values::told_row))]
    pub(crate) fn take(&mut self, piece: &DecodePiece)
        requires same { IfSome (row_of piece.now) (λ xs. xs.dims ≡ self.old.dims) }
        ensures value { self.new ≡ shared_by self.old.dims self.old.holds piece.now }
    {
        match piece {
            DecodePiece::Rebuilt(row) => {
                self.told = total_of(row);
                self.kept = mem::replace(&mut self.kept, Kept::Nothing).take(row);
                self.rebuilt = true;
            }
            DecodePiece::Unread(_) | DecodePiece::After | DecodePiece::Faulty(_) => {
                self.told = 0;
                self.rebuilt = false;
            }
        }
    }

    /// The samples of the row, where it holds them and is rebuilt.
    pub(crate) fn samples(&self) -> Option<&RowSamples>
        ensures value { option_map (λ r. r.now) result ≡ self.now.row }
        ensures size { IfSome result (λ r. r.now.dims ≡ self.now.dims) }
    {
        match &self.kept {
            Kept::Row(row) if self.rebuilt => Some(row),
            _ => None,
        }
    }

    /// What a gate is told of the row.
    pub(crate) fn told(&self) -> u64
        ensures value { result ≡ self.now.told }
    {
        self.told
    }
}

/// The sum of all samples of a row.
fn total_of(row: &RowSamples) -> u64
    ensures value { result ≡ samples_sum row.now }
{
    sum_of(row, Plane::Y, 16) + sum_of(row, Plane::Cb, 8) + sum_of(row, Plane::Cr, 8)
}

/// The sum of the samples of the first lines of a plane of a row.
fn sum_of(row: &RowSamples, plane: Plane, lines: u32) -> u64
    requires lines { lines ≤ side plane }
    ensures value { result ≡ lines_sum row.now plane lines }
    ensures most { result ≤ 2 ^ 20 * lines }
{
    let columns = plane.side() * row.dims().mb_width;
    let mut sum = 0;
    for line in 0..lines {
        sum += sum_all(row.line(plane, line, 0, columns));
    }
    sum
}

/// The sum of samples, 64 at a time: of so many the compiler makes four instructions that add 16 each.
fn sum_all(samples: &[u8]) -> u64
    requires few { length samples.now ≤ 4096 }
    ensures value { result ≡ sum samples.now }
    ensures most { result ≤ 2 ^ 20 }
{
    let blocks = samples.len() / 64;
    let mut all: u32 = 0;
    for block in 0..blocks {
        all += sum_few(&samples[64 * block..64 * block + 64]);
    }
    u64::from(all + sum_few(&samples[64 * blocks..]))
}

/// The sum of a few samples.
#[inline(always)]
fn sum_few(samples: &[u8]) -> u32
    requires few { length samples.now ≤ 4096 }
    ensures value { result ≡ sum samples.now }
    ensures most { result ≤ 255 * length samples.now }
{
    let mut all = 0;
    for i in 0..samples.len() {
        all += u32::from(samples[i]);
    }
    all
}
