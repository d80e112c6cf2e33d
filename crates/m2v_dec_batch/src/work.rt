//! What a job makes, of a cache that has learned its needs.
ghost use Rattle.std.specs.Prelude.{◌≡◌, ◌<◌, ◌&&◌, true, IfSome, length, slice_get};
ghost use Rattle.m2v_plane.specs.Samples.{blank};
ghost use Rattle.m2v_plane.specs.Fields.{sample_at, HoldsLine};
ghost use Rattle.m2v_dec_rows.specs.m2v_dec_picture.Conditions.{HoldsForward, HoldsBackward};
ghost use Rattle.m2v_dec_rows.specs.m2v_dec_picture.Reads.{seen_by};
ghost use Rattle.m2v_dec_rows.specs.m2v_dec_picture.Frames.{references_at};
ghost use Rattle.m2v_dec_rows.specs.Opened.{IsOpened, setup_of};
ghost use Rattle.m2v_dec_batch.specs.Jobs.{header_at, jobs_of};
ghost use Rattle.m2v_dec_batch.specs.Batches.{headers, reading_of};
ghost use Rattle.m2v_dec_batch.specs.declared.picture.FramePlace.TheVariants.{Behind};
ghost use Rattle.m2v_dec_batch.specs.Below.{ComesBefore, MayBe};
ghost use Rattle.m2v_dec_batch.specs.Values.{outcome_in, outcome_of, value_of, FitsPiece};
ghost use Rattle.m2v_dec_batch.specs.Works.{HasLearned, needs_rebuilt, whole_at, frame_found, AreDecoded};

use crate::at_hand::reading_of;
use crate::book::DecodeBook;
use crate::cache::DecodeCache;
use crate::picture::{BatchPicture, FramePlace, behind};
use crate::pieces::DecodePiece;
use crate::reads::first_field;
use m2v_dec_rows::dec_picture::{backward_view, forward_view};
use m2v_dec_rows::read_row;
use m2v_plane::{FieldView, Frame, RowRoom, RowSamples};

/// Whether both hold.
fn both(a: bool, b: bool) -> bool
    ensures value { result ≡ (a && b) }
{
    a && b
}

/// Reads a row of a picture, where its references are there.
fn read_piece(
    x: &BatchPicture,
    r: u32,
    forward: &FieldView,
    backward: &FieldView,
    row: RowSamples,
) -> DecodePiece
    requires opened { IsOpened x.now.piece x.now.opened }
    requires row { r < x.now.opened.rows }
    requires blank { row ≡ blank x.now.opened.dims 1 }
    requires forward { HoldsForward (setup_of x.now.opened) forward.now.dims
        (HoldsLine forward.now) }
    requires backward { HoldsBackward (setup_of x.now.opened) backward.now.dims
        (HoldsLine backward.now) }
    ensures value { result
        ≡ outcome_in x.now (seen_by (sample_at forward.now) (sample_at backward.now)) r }
{
    let mut row = row;
    match read_row(&x.opened, &x.piece, r, forward, backward, &mut row) {
        Some(fault) => DecodePiece::Faulty(fault),
        None => {
            if x.opened.fault.is_some() {
                return DecodePiece::After;
            }
            DecodePiece::Rebuilt(row)
        }
    }
}

impl DecodeBook {
    /// Whether all rows of the frame at a place that were learned are rebuilt.
    fn is_whole(&self, place: Option<FramePlace>, cache: &DecodeCache) -> bool
        requires place { MayBe (ComesBefore (length (headers self.now))) place }
        ensures value { result ≡ whole_at self.now cache.now place }
    {
        match behind(place) {
            Some(q) => self.jobs_behind(q).count == 0 || cache.held_of(q).whole,
            None => true,
        }
    }

    /// The frame behind a picture, as a cache has it.
    #[tactic(auto, unfolding(crate::specs::Works::frame_found))]
    fn frame_behind<'a>(&'a self, q: u32, cache: &'a DecodeCache) -> &'a Option<Frame>
        requires picture { q < length (headers self.now) }
        ensures value { result.now ≡ frame_found self.now cache.now (Behind q) }
    {
        if self.jobs_behind(q).count > 0 {
            return &cache.held_of(q).frame;
        }
        if q == 0 && self.is_second(0) {
            return self.waiting();
        }
        &cache.blank
    }

    /// A frame at hand, as a cache has it.
    #[tactic(auto, unfolding(crate::specs::Works::frame_found, crate::specs::Below::ComesBefore))]
    fn frame<'a>(&'a self, place: FramePlace, cache: &'a DecodeCache) -> &'a Option<Frame>
        requires place { ComesBefore (length (headers self.now)) place }
        ensures value { result.now ≡ frame_found self.now cache.now place }
    {
        match place {
            FramePlace::Older => self.older(),
            FramePlace::Newer => self.newer(),
            FramePlace::Waiting => self.waiting(),
            FramePlace::Behind(q) => self.frame_behind(q, cache),
        }
    }

    /// Whether all rows that a job needs are rebuilt.
    fn is_ready(&self, j: u32, cache: &DecodeCache) -> bool
        requires job { j < jobs_of (headers self.now) }
        requires learned { HasLearned self.now j cache.now }
        ensures value { result ≡ needs_rebuilt self.now j }
    {
        let reads = self.reads(self.picture_of_job(j));
        both(
            self.is_whole(reads.forward, cache),
            self.is_whole(reads.other, cache),
        )
    }

    /// Reads a row of a picture by the frames at hand.
    fn read_by(
        &self,
        p: u32,
        r: u32,
        older: &Option<Frame>,
        newer: &Option<Frame>,
        first: &Option<Frame>,
        row: RowSamples,
    ) -> DecodePiece
        requires picture { p < length (headers self.now) }
        requires row { r < (header_at (headers self.now) p).rows }
        requires older { IfSome older.now (λ f. f.dims ≡ self.now.dims) }
        requires newer { IfSome newer.now (λ f. f.dims ≡ self.now.dims) }
        requires first { IfSome first.now (λ f. f.dims ≡ self.now.dims) }
        requires decoded { AreDecoded self.now p older.now newer.now first.now }
        requires blank { row ≡ blank self.now.dims 1 }
        ensures value { result ≡ outcome_of (slice_get self.now.pictures p)
            (references_at (reading_of (header_at (headers self.now) p)) older.now newer.now
            first.now) r }
    {
        let reading = reading_of(self.header(p));
        let older = older.as_ref();
        let newer = newer.as_ref();
        let first = first.as_ref();
        let forward = forward_view(self.dims(), &reading, older, newer, first);
        let backward = backward_view(self.dims(), &reading, newer);
        read_piece(self.picture(p), r, &forward, &backward, row)
    }

    /// Reads the row of a job whose needs are rebuilt.
    fn read_job(&self, j: u32, cache: &DecodeCache, row: RowSamples) -> DecodePiece
        requires job { j < jobs_of (headers self.now) }
        requires learned { HasLearned self.now j cache.now }
        requires ready { needs_rebuilt self.now j ≡ true }
        requires blank { row ≡ blank self.now.dims 1 }
        ensures value { result ≡ value_of self.now j }
    {
        // what is known of a batch
        let _batch = self.pictures();
        let p = self.picture_of_job(j);
        let anchors = self.before(p);
        let older = self.frame(anchors.older, cache);
        let newer = self.frame(anchors.newer, cache);
        let first = self.frame(first_field(p), cache);
        self.read_by(p, self.row_of_job(j), older, newer, first, row)
    }

    /// Makes the piece of a job of a blank one.
    fn make(&self, j: u32, cache: &DecodeCache, room: RowRoom) -> DecodePiece
        requires job { j < jobs_of (headers self.now) }
        requires learned { HasLearned self.now j cache.now }
        requires size { room ≡ self.now.dims }
        ensures value { result ≡ value_of self.now j }
    {
        if self.is_ready(j, cache) {
            return self.read_job(j, cache, room.blank());
        }
        DecodePiece::After
    }

    /// Makes the piece of a job, of a blank one or of itself.
    pub(crate) fn made(&self, j: u32, cache: &DecodeCache, piece: DecodePiece) -> DecodePiece
        requires job { j < jobs_of (headers self.now) }
        requires learned { HasLearned self.now j cache.now }
        requires fits { FitsPiece self.now j piece }
        ensures value { result ≡ value_of self.now j }
    {
        // what is known of a batch
        let _batch = self.pictures();
        match piece {
            DecodePiece::Unread(room) => self.make(j, cache, room),
            DecodePiece::After => DecodePiece::After,
            DecodePiece::Faulty(fault) => DecodePiece::Faulty(fault),
            DecodePiece::Rebuilt(row) => DecodePiece::Rebuilt(row),
        }
    }
}
