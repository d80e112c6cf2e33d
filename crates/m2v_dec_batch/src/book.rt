//! The book of a batch.
ghost use Rattle.std.specs.Prelude.{◌≡◌, ◌+◌, ◌-◌, ◌*◌, ◌<◌, ◌≤◌, length, slice_get, Some};
ghost use Rattle.m2v_plane.specs.Sizes.{IsSize};
ghost use Rattle.m2v_plane.specs.Samples.{Samples};
ghost use Rattle.m2v_dec_batch.specs.Jobs.{header_at, first_job, picture_of_job, row_of_job, jobs_of};
ghost use Rattle.m2v_dec_batch.specs.Batches.{Batch, headers, header_of, IsBatch};
ghost use Rattle.m2v_dec_batch.specs.Below.{IsBefore};

use crate::picture::{BatchPicture, Header, header_of};
use crate::reads::{Before, before_each};
use m2v_dec_rows::dec_picture::FramesAtHand;
use m2v_plane::{Dims, Frame};
use std::marker::Model;

/// What a batch is made of.
#[derive(Drop)]
pub struct BatchParts {
    /// Its pictures in decoding order.
    pub pictures: Vec<BatchPicture>,
    /// The frames at hand before it.
    pub frames: FramesAtHand,
}

/// The jobs of a batch of pictures: the macroblock rows of each, picture by picture in decoding order, and of a picture from
/// the top.
///
/// Contracts see the size of the frames, the pictures, and the frames at hand before them.
#[derive(Drop)]
pub struct DecodeBook {
    dims: Dims,
    pictures: Vec<BatchPicture>,
    older: Option<Frame>,
    newer: Option<Frame>,
    waiting: Option<Frame>,
    // what stands before each picture, and behind the last one
    before: [Before; 17],
}

impl Model for DecodeBook {
    ghost use Rattle.std.specs.Prelude.{ℕ, ◌≤◌, map, length, slice_index_or};
    ghost use Rattle.m2v_dec_batch.specs.declared.reads.Before.{Before};
    ghost use Rattle.m2v_dec_batch.specs.Batches.{Batch, batch_by, header_of, IsBatch};
    ghost use Rattle.m2v_dec_batch.specs.Below.{IsBefore};

    ghost Value = { Batch };

    ghost view = { λ b. batch_by b.dims b.pictures.items b.older b.newer b.waiting };

    ghost invariant = { λ b. IsBatch (batch_by b.dims b.pictures.items b.older b.newer b.waiting)
        × ((p : ℕ) (d : Before) → p ≤ length b.pictures.items
        → IsBefore (map header_of b.pictures.items) p (slice_index_or b.before p d)) };
}

impl DecodeBook {
    /// The book of at most 16 pictures of one size in decoding order, none of them dropped, with the frames at hand before
    /// them; one waits where the batch begins with its second field.
    pub fn for_batch(dims: Dims, pictures: Vec<BatchPicture>, frames: FramesAtHand) -> DecodeBook
        requires batch { IsBatch (record {
          dims = dims;
          pictures = pictures.items;
          older = frames.older;
          newer = frames.newer;
          waiting = frames.waiting;
        }) }
        ensures value { result ≡ record {
          dims = dims;
          pictures = pictures.items;
          older = frames.older;
          newer = frames.newer;
          waiting = frames.waiting;
        } }
        ensures jobs { jobs_of (headers result)
            ≡ first_job (headers result) (length pictures.items) }
    {
        let FramesAtHand {
            older,
            newer,
            waiting,
        } = frames;
        let before = before_each(&pictures);
        DecodeBook {
            dims,
            pictures,
            older,
            newer,
            waiting,
            before,
        }
    }

    /// What the batch is made of, once its rows were read.
    pub fn into_parts(self) -> BatchParts
        ensures pictures { result.pictures.items ≡ self.pictures }
        ensures frames { result.frames ≡ record {
          older = self.older;
          newer = self.newer;
          waiting = self.waiting;
        } }
    {
        let DecodeBook {
            dims: _,
            pictures,
            older,
            newer,
            waiting,
            before: _,
        } = self;
        BatchParts {
            pictures,
            frames: FramesAtHand {
                older,
                newer,
                waiting,
            },
        }
    }

    /// How many pictures there are.
    pub fn pictures(&self) -> u32
        ensures value { result ≡ length (headers self.now) }
        ensures most { result ≤ 16 }
        ensures batch { IsBatch self.now }
    {
        self.pictures.len() as u32
    }

    /// The size of the frames.
    pub(crate) fn dims(&self) -> Dims
        ensures value { result ≡ self.now.dims }
        ensures size { IsSize result }
        ensures batch { IsBatch self.now }
    {
        self.dims
    }

    /// The last anchor but one before the batch.
    pub(crate) fn older(&self) -> &Option<Frame>
        ensures value { result.now ≡ self.now.older }
    {
        &self.older
    }

    /// The last anchor before the batch.
    pub(crate) fn newer(&self) -> &Option<Frame>
        ensures value { result.now ≡ self.now.newer }
    {
        &self.newer
    }

    /// The frame of the first field whose second field the batch begins with.
    pub(crate) fn waiting(&self) -> &Option<Frame>
        ensures value { result.now ≡ self.now.waiting }
    {
        &self.waiting
    }

    /// All pictures.
    pub fn batch(&self) -> &[BatchPicture]
        ensures value { result.now ≡ self.now.pictures }
    {
        self.pictures.as_slice()
    }

    /// A picture.
    pub fn picture(&self, p: u32) -> &BatchPicture
        requires picture { p < length (headers self.now) }
        ensures value { slice_get self.now.pictures p ≡ Some result.now }
    {
        &self.pictures[p as usize]
    }

    /// What a picture's headers say.
    pub(crate) fn header(&self, p: u32) -> Header
        requires picture { p < length (headers self.now) }
        ensures value { result ≡ header_at (headers self.now) p }
        ensures rows { result.rows ≤ 72 }
    {
        header_of(&self.pictures[p as usize].opened)
    }

    /// What stands before a picture, or behind the last one.
    pub(crate) fn before(&self, p: u32) -> Before
        requires picture { p ≤ length (headers self.now) }
        ensures value { IsBefore (headers self.now) p result }
    {
        self.before[p as usize]
    }

    /// The first job of a picture; the number of jobs behind the last one.
    pub fn first_job(&self, p: u32) -> u32
        requires picture { p ≤ length (headers self.now) }
        ensures value { result ≡ first_job (headers self.now) p }
        ensures most { result ≤ 72 * p }
    {
        // what is known of a batch
        let _batch = self.pictures();
        self.before(p).jobs
    }

    /// The picture that a job belongs to.
    pub(crate) fn picture_of_job(&self, j: u32) -> u32
        requires job { j < jobs_of (headers self.now) }
        ensures value { result ≡ picture_of_job (headers self.now) j }
        ensures picture { result < length (headers self.now) }
    {
        let mut p = self.pictures();
        while self.before(p).jobs > j {
            p -= 1;
        }
        p
    }

    /// Which macroblock row of its picture a job is.
    pub(crate) fn row_of_job(&self, j: u32) -> u32
        requires job { j < jobs_of (headers self.now) }
        ensures value { result ≡ row_of_job (headers self.now) j }
        ensures row { result
            < (header_at (headers self.now) (picture_of_job (headers self.now) j)).rows }
    {
        j - self.first_job(self.picture_of_job(j))
    }
}
