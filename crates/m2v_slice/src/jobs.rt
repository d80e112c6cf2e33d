//! The book's jobs.
ghost use Rattle.std.specs.Prelude.{◌≡◌, ◌<◌, ◌^◌, length, slice_index_or};
ghost use Rattle.m2v_plane.specs.Fields.{no_samples};
ghost use Rattle.m2v_slice.specs.declared.pieces.EncodePiece.TheVariants as piece;
ghost use Rattle.m2v_slice.specs.Books.{needs_of};
ghost use Rattle.m2v_slice.specs.Jobs.{jobs_of, value_of, shared_part, shared_of, with_plan, with_bits, with_row, IsSlicePart, HasDims, told_of, learned_of, FitsPiece, FitsShared, FitsCache};
ghost use Rattle.m2v_slice.specs.Needs.{needs_below, needs_few};

use crate::SliceOut;
use crate::book::EncodeBook;
use crate::cache::EncodeCache;
use crate::pieces::{EncodePiece, EncodeShared};
use m2v_core::{JobBook, Memory, NeedList};
use m2v_plane::RowSamples;
use m2v_rate::Plan;
use std::alloc::Global;

/// A plan that nothing has made yet.
const NO_PLAN: Plan = Plan {
    q: 0,
    cap: 0,
    target: 0,
};

/// Copies the samples of a slice, and tells how many bits it has and its work.
#[tactic(auto, using(m2v_bits::proofs::Cursor::lengths), unfolding(crate::specs::Jobs::shared_part))]
fn share_slice(out: &SliceOut, into: &mut EncodeShared)
    requires slice { IsSlicePart into.old }
    requires same { HasDims out.now.row.dims into.old }
    requires few { length out.now.text < 2 ^ 32 }
    ensures value { into.new ≡ shared_part (piece.Slice out.now) }
{
    if let EncodeShared::Slice { row, bits, work } = into {
        row.copy_from(out.row());
        *bits = 8 * out.bytes().len() as u64;
        *work = out.work();
    }
}

/// Learns a plan.
#[tactic(auto, unfolding(crate::specs::Jobs::with_plan))]
fn learn_plan(part: &EncodeShared, cache: &mut EncodeCache)
    ensures value { cache.new ≡ with_plan part.now cache.old }
{
    if let EncodeShared::Plan { plan, ledger } = part {
        cache.take_plan(plan, ledger);
    }
}

/// Learns how many bits a slice has, and its work.
#[tactic(auto, unfolding(crate::specs::Jobs::with_bits))]
fn learn_bits(part: &EncodeShared, cache: &mut EncodeCache)
    ensures value { cache.new ≡ with_bits part.now cache.old }
{
    if let EncodeShared::Slice { row: _, bits, work } = part {
        cache.add_slice(*bits, *work);
    }
}

/// Learns the samples of a slice, in place k.
#[tactic(auto, unfolding(crate::specs::Jobs::with_row))]
fn learn_row(k: u32, part: &EncodeShared, cache: &mut EncodeCache)
    requires place { k < length cache.old.rows }
    requires same { HasDims (slice_index_or cache.old.rows k no_samples).dims part.now }
    ensures value { cache.new ≡ with_row k part.now cache.old }
{
    if let EncodeShared::Slice {
        row,
        bits: _,
        work: _,
    } = part
    {
        cache.set_row(k, row);
    }
}

impl JobBook for EncodeBook {
    type Piece = EncodePiece;

    type Shared = EncodeShared;

    type Cache = EncodeCache;

    ghost jobs = { jobs_of };

    ghost needs = { needs_of };

    ghost value = { value_of };

    ghost shared = { shared_of };

    ghost told = { told_of };

    ghost learned = { learned_of };

    ghost fits_piece = { FitsPiece };

    ghost fits_shared = { FitsShared };

    ghost fits_cache = { FitsCache };

    ghost needs_are_below = { needs_below };

    ghost needs_are_few = { needs_few };

    fn jobs(&self) -> u32 {
        self.pictures() * (self.rows() + 1)
    }

    #[tactic(auto, unfolding(crate::specs::Books::needs_of))]
    fn needs(&self, j: u32, out: &mut NeedList) {
        let p = self.picture_of_job(j);
        let part = self.part_of_job(j);
        if part == 0 {
            self.needs_of_plan(p, out);
        } else {
            self.needs_of_slice(p, part - 1, out);
        }
    }

    #[tactic(auto, unfolding(crate::specs::Jobs::FitsPiece))]
    fn blank_piece(&self, alloc: Global, j: u32) -> Result<EncodePiece, Memory> {
        if self.part_of_job(j) == 0 {
            return Ok(EncodePiece::Plan {
                plan: NO_PLAN,
                ledger: *self.ledger(),
            });
        }
        let out = SliceOut::blank(alloc, self.settings())?;
        Ok(EncodePiece::Slice { out })
    }

    #[tactic(auto, unfolding(crate::specs::Jobs::FitsShared))]
    fn blank_shared(&self, alloc: Global, j: u32) -> Result<EncodeShared, Memory> {
        if self.part_of_job(j) == 0 {
            return Ok(EncodeShared::Plan {
                plan: NO_PLAN,
                ledger: *self.ledger(),
            });
        }
        let row = RowSamples::blank(alloc, self.settings().dims())?;
        Ok(EncodeShared::Slice {
            row,
            bits: 0,
            work: 0,
        })
    }

    fn blank_cache(&self, alloc: Global) -> Result<EncodeCache, Memory> {
        EncodeCache::blank(alloc, self.settings(), self.ledger())
    }

    fn work(&self, j: u32, cache: &EncodeCache, out: &mut EncodePiece) {
        // what is known of a book
        let _book = self.pictures();
        let p = self.picture_of_job(j);
        let part = self.part_of_job(j);
        match out {
            EncodePiece::Plan { plan, ledger } => self.plan_picture(p, cache, plan, ledger),
            EncodePiece::Slice { out } => self.code_picture_slice(p, part - 1, cache, out),
        }
    }

    #[tactic(auto, unfolding(crate::specs::Jobs::FitsPiece, crate::specs::Jobs::FitsShared, crate::specs::Jobs::shared_part))]
    fn share(&self, j: u32, piece: &EncodePiece, into: &mut EncodeShared) {
        // what is known of a book
        let _book = self.pictures();
        match piece {
            EncodePiece::Plan { plan, ledger } => {
                *into = EncodeShared::Plan {
                    plan: *plan,
                    ledger: *ledger,
                };
            }
            EncodePiece::Slice { out } => share_slice(out, into),
        }
    }

    fn learn(&self, j: u32, at: u32, part: &EncodeShared, cache: &mut EncodeCache) {
        // what is known of a book
        let _book = self.pictures();
        if at == 0 {
            learn_plan(part, cache);
        } else if self.part_of_job(j) == 0 {
            learn_bits(part, cache);
        } else {
            learn_row(at - 1, part, cache);
        }
    }

    #[tactic(auto, unfolding(crate::specs::Jobs::told_part))]
    fn tell(&self, j: u32, part: &EncodeShared) -> u64 {
        match part {
            EncodeShared::Plan { plan: _, ledger: _ } => 0,
            EncodeShared::Slice {
                row: _,
                bits,
                work: _,
            } => *bits,
        }
    }
}
