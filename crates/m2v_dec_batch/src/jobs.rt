//! The book's jobs.
ghost use Rattle.std.specs.Prelude.{◌*◌, ◌<◌};
ghost use Rattle.m2v_dec_batch.specs.Jobs.{jobs_of, needs_of};
ghost use Rattle.m2v_dec_batch.specs.Batches.{headers};
ghost use Rattle.m2v_dec_batch.specs.Below.{needs_below, needs_few};
ghost use Rattle.m2v_dec_batch.specs.Values.{value_of, shared_of, told_of, FitsPiece, FitsShared};
ghost use Rattle.m2v_dec_batch.specs.Learned.{learned_of, FitsCache};

use crate::book::DecodeBook;
use crate::cache::DecodeCache;
use crate::pieces::{DecodePiece, DecodeShared};
use m2v_core::{JobBook, Memory, NeedList};
use m2v_plane::RowRoom;
use std::alloc::Global;
use std::mem;

impl JobBook for DecodeBook {
    type Piece = DecodePiece;

    type Shared = DecodeShared;

    type Cache = DecodeCache;

    ghost jobs = { λ b. jobs_of (headers b) };

    ghost needs = { λ b j. needs_of (headers b) j };

    ghost value = { value_of };

    ghost shared = { shared_of };

    ghost told = { told_of };

    ghost learned = { learned_of };

    ghost fits_piece = { FitsPiece };

    ghost fits_shared = { FitsShared };

    ghost fits_cache = { FitsCache };

    ghost needs_are_below = { λ b j lt. needs_below (headers b) j };

    ghost needs_are_few = { λ b j lt. needs_few (headers b) j lt };

    fn jobs(&self) -> u32 {
        self.first_job(self.pictures())
    }

    fn needs(&self, j: u32, out: &mut NeedList) {
        self.needs_of_job(j, out);
    }

    fn blank_piece(&self, alloc: Global, _j: u32) -> Result<DecodePiece, Memory> {
        let room = RowRoom::for_row(alloc, self.dims())?;
        Ok(DecodePiece::Unread(room))
    }

    fn blank_shared(&self, alloc: Global, j: u32) -> Result<DecodeShared, Memory> {
        let holds = self.is_reference(self.picture_of_job(j));
        DecodeShared::blank(alloc, self.dims(), holds)
    }

    fn blank_cache(&self, alloc: Global) -> Result<DecodeCache, Memory> {
        self.fresh_cache(alloc)
    }

    fn work(&self, j: u32, cache: &DecodeCache, out: &mut DecodePiece) {
        // what is known of a batch
        let _batch = self.pictures();
        let piece = mem::replace(out, DecodePiece::After);
        *out = self.made(j, cache, piece);
    }

    fn share(&self, _j: u32, piece: &DecodePiece, into: &mut DecodeShared) {
        // what is known of a batch
        let _batch = self.pictures();
        into.take(piece);
    }

    fn learn(&self, j: u32, at: u32, part: &DecodeShared, cache: &mut DecodeCache) {
        // what is known of a batch
        let _batch = self.pictures();
        let reads = self.reads(self.picture_of_job(j));
        let first = self.jobs_at(reads.forward).count;
        if at < first {
            self.learn_at(reads.forward, reads.other, at, part, cache);
        } else {
            self.learn_at(reads.other, reads.forward, at - first, part, cache);
        }
    }

    fn tell(&self, _j: u32, part: &DecodeShared) -> u64 {
        part.told()
    }
}
