//! What a worker learns of the rows of a batch.
ghost use Rattle.std.specs.Prelude.{◌≡◌, ◌+◌, ◌<◌, true, IsTrue, ◌||◌, IfOk, IfSome, Some, length};
ghost use Rattle.m2v_plane.specs.Samples.{blank};
ghost use Rattle.m2v_dec_batch.specs.Jobs.{header_at, frame_count, jobs_at, is_reference};
ghost use Rattle.m2v_dec_batch.specs.Batches.{headers, no_rows, frame_behind};
ghost use Rattle.m2v_dec_batch.specs.Below.{ComesBefore, MayBe};
ghost use Rattle.m2v_dec_batch.specs.Learned.{begun_over, begun_held, held_for, row_learned, learned_at, FitsHeld, FitsCache};

use crate::book::DecodeBook;
use crate::cache::{DecodeCache, HeldFrame};
use crate::picture::{FramePlace, behind};
use crate::pieces::DecodeShared;
use m2v_core::Memory;
use m2v_plane::{Frame, FrameRoom};
use std::alloc::Global;

/// Whether one of two holds.
fn either(a: bool, b: bool) -> bool
    ensures value { result ≡ (a || b) }
{
    a || b
}

impl DecodeBook {
    /// Whether a picture is the second field of its frame; false behind the last one.
    pub(crate) fn is_second(&self, p: u32) -> bool
        ensures value { result ≡ (header_at (headers self.now) p).second }
        ensures exists { IsTrue result → p < length (headers self.now) }
    {
        p < self.pictures() && self.header(p).second
    }

    /// Whether other pictures may be predicted from a picture.
    pub(crate) fn is_reference(&self, p: u32) -> bool
        requires picture { p < length (headers self.now) }
        ensures value { result ≡ is_reference (headers self.now) p }
    {
        // there are at most 16 pictures
        let _pictures = self.pictures();
        either(self.header(p).kind != 3, self.is_second(p + 1))
    }

    /// The frame of the first field that waits, once more.
    fn waiting_frame(&self, alloc: Global) -> Result<Frame, Memory>
        requires second { (header_at (headers self.now) 0).second ≡ true }
        ensures value { IfOk result (λ f. f ≡ frame_behind self.now no_rows 0) }
    {
        // a second field has its first field
        let _batch = self.pictures();
        match self.waiting() {
            Some(frame) => frame.clone_in(alloc),
            None => unreachable!(),
        }
    }

    /// The frame behind a picture, before any of its rows is at hand.
    pub(crate) fn blank_frame(&self, alloc: Global, p: u32) -> Result<Frame, Memory>
        requires picture { p < length (headers self.now) }
        ensures value { IfOk result (λ f. f ≡ frame_behind self.now no_rows p) }
    {
        if p == 0 {
            if self.is_second(0) {
                return self.waiting_frame(alloc);
            }
            return Frame::blank(alloc, self.dims());
        }
        Frame::blank(alloc, self.dims())
    }

    /// Takes the samples of the frame of the first field that waits.
    fn copy_waiting(&self, frame: &mut Frame)
        requires second { (header_at (headers self.now) 0).second ≡ true }
        requires size { frame.old.dims ≡ self.now.dims }
        ensures value { frame.new ≡ frame_behind self.now no_rows 0 }
    {
        // a second field has its first field
        let _batch = self.pictures();
        match self.waiting() {
            Some(first) => frame.copy_from(first),
            None => unreachable!(),
        }
    }

    /// Makes a frame the one behind a picture, before any of its rows is learned: of samples 0, or of those of a first field
    /// before the batch. All rows of a frame picture are set before another picture is predicted from it, so its samples are
    /// left.
    fn begin_frame(&self, q: u32, frame: &mut Frame)
        requires picture { q < length (headers self.now) }
        requires size { frame.old.dims ≡ self.now.dims }
        ensures value { frame.new ≡ begun_over self.now q frame.old }
    {
        // what is known of a batch
        let _batch = self.pictures();
        if self.header(q).structure == 3 {
            return;
        }
        if q == 0 && self.is_second(0) {
            self.copy_waiting(frame);
            return;
        }
        frame.clear();
    }

    /// Gives a frame up for the one behind a picture, none of whose rows was learned.
    #[tactic(auto, unfolding(crate::specs::Learned::begun_held))]
    fn begin(&self, q: u32, held: &mut HeldFrame)
        requires picture { q < length (headers self.now) }
        requires fits { FitsHeld self.now held.old }
        ensures value { held.new ≡ begun_held self.now q held.old }
    {
        held.fill_room();
        if let Some(frame) = &mut held.frame {
            self.begin_frame(q, frame);
        }
        held.picture = Some(q);
        held.count = 0;
        held.whole = true;
    }

    /// Learns row k of the frame behind a picture, where it is the next one.
    #[tactic(auto, unfolding(crate::specs::Learned::row_learned))]
    fn learn_next(&self, q: u32, k: u32, part: &DecodeShared, held: &mut HeldFrame)
        requires picture { q < length (headers self.now) }
        requires row { k < frame_count (headers self.now) q }
        requires size { part.now.dims ≡ self.now.dims }
        requires frame { IfSome held.old.frame (λ f. f.dims ≡ self.now.dims) }
        ensures value { held.new ≡ row_learned (headers self.now) q k part.now.row held.old }
    {
        // what is known of a batch
        let _batch = self.pictures();
        if held.count != k {
            return;
        }
        let i = self.jobs_behind(q).from + k;
        let p = self.picture_of_job(i);
        held.add(self.header(p), self.row_of_job(i), part.samples());
    }

    /// Learns row k of the frame behind a picture, which is held or begun.
    fn learn_row(&self, q: u32, k: u32, part: &DecodeShared, held: &mut HeldFrame)
        requires picture { q < length (headers self.now) }
        requires row { k < frame_count (headers self.now) q }
        requires size { part.now.dims ≡ self.now.dims }
        requires fits { FitsHeld self.now held.old }
        ensures value { held.new
            ≡ row_learned (headers self.now) q k part.now.row (held_for self.now q held.old) }
    {
        // what is known of a batch
        let _batch = self.pictures();
        if !held.is_of(q) {
            self.begin(q, held);
        }
        self.learn_next(q, k, part, held);
    }

    /// Learns row k of the frame at a place, and keeps the frame at another one.
    #[tactic(auto, unfolding(crate::specs::Learned::learned_behind))]
    pub(crate) fn learn_at(
        &self,
        place: Option<FramePlace>,
        keep: Option<FramePlace>,
        k: u32,
        part: &DecodeShared,
        cache: &mut DecodeCache,
    )
        requires place { MayBe (ComesBefore (length (headers self.now))) place }
        requires row { k < length (jobs_at (headers self.now) place) }
        requires size { part.now.dims ≡ self.now.dims }
        requires fits { FitsCache self.now cache.old }
        ensures value { cache.new ≡ learned_at self.now place keep k part.now.row cache.old }
    {
        if let Some(q) = behind(place) {
            if cache.in_second(q, keep) {
                self.learn_row(q, k, part, &mut cache.two);
            } else {
                self.learn_row(q, k, part, &mut cache.one);
            }
        }
    }

    /// A frame of samples 0, where frames have one macroblock row: a field has none then.
    fn blank_of_one(&self, alloc: Global) -> Result<Option<Frame>, Memory>
        ensures value { IfOk result (λ f. self.now.dims.mb_rows ≡ 1
            → f ≡ Some (blank self.now.dims self.now.dims.mb_rows)) }
    {
        let dims = self.dims();
        if dims.mb_rows > 1 {
            return Ok(None);
        }
        let frame = Frame::blank(alloc, dims)?;
        Ok(Some(frame))
    }

    /// A cache that has learned nothing yet.
    pub(crate) fn fresh_cache(&self, alloc: Global) -> Result<DecodeCache, Memory>
        ensures fits { IfOk result (λ c. FitsCache self.now c) }
    {
        let one = FrameRoom::for_frame(alloc, self.dims())?;
        let two = FrameRoom::for_frame(alloc, self.dims())?;
        let blank = self.blank_of_one(alloc)?;
        Ok(DecodeCache {
            one: HeldFrame::in_room(one),
            two: HeldFrame::in_room(two),
            blank,
        })
    }
}
