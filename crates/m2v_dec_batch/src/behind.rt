//! The frames at hand behind a batch, by its rows.
ghost use Rattle.std.specs.Prelude.{◌≡◌, ◌+◌, ◌*◌, ◌<◌, ◌≤◌, false, IfOk, IfSome, Some, None, length};
ghost use Rattle.m2v_plane.specs.Sizes.{part_of};
ghost use Rattle.m2v_pred.specs.Motion.{own_lines as lines_of};
ghost use Rattle.m2v_dec_batch.specs.Jobs.{header_at};
ghost use Rattle.m2v_dec_batch.specs.Batches.{headers, with_own, all_set, frame_behind, frame_at};
ghost use Rattle.m2v_dec_batch.specs.Below.{ComesBefore};
ghost use Rattle.m2v_dec_batch.specs.Painted.{all_rows, older_behind, newer_behind};
ghost use Rattle.m2v_dec_batch.specs.Pieces.{row_of};

use crate::book::DecodeBook;
use crate::picture::{FramePlace, Header};
use crate::pieces::DecodePiece;
use m2v_core::Memory;
use m2v_dec_rows::dec_picture::FramesAtHand;
use m2v_plane::Frame;
use m2v_pred::own_lines;
use m2v_wave::Done;
use std::alloc::Global;

/// A frame once more, if there is one.
fn copy_of(alloc: Global, frame: &Option<Frame>) -> Result<Option<Frame>, Memory>
    ensures value { IfOk result (λ f. f ≡ frame.now) }
{
    match frame {
        None => Ok(None),
        Some(frame) => {
            let copy = frame.clone_in(alloc)?;
            Ok(Some(copy))
        }
    }
}

/// Sets a row of a picture into a frame, where it is rebuilt.
fn set_piece(h: Header, r: u32, piece: &DecodePiece, frame: &mut Frame)
    requires row { 16 * r + 16 ≤ part_of (lines_of h.structure) (16 * frame.old.dims.mb_rows) }
    requires same { IfSome (row_of piece.now) (λ xs. xs.dims ≡ frame.old.dims) }
    ensures value { frame.new ≡ with_own h r (row_of piece.now) frame.old }
{
    match piece {
        DecodePiece::Rebuilt(row) => frame.set_row(own_lines(h.structure), r, row),
        DecodePiece::Unread(_) | DecodePiece::After | DecodePiece::Faulty(_) => {}
    }
}

impl DecodeBook {
    /// Sets all rows of a picture that are rebuilt into a frame.
    fn set_picture(&self, p: u32, done: &Done<DecodeBook>, frame: &mut Frame)
        requires done { done.now ≡ self.now }
        requires picture { p < length (headers self.now) }
        requires size { frame.old.dims ≡ self.now.dims }
        ensures value { frame.new ≡ all_set self.now (all_rows self.now) p frame.old }
    {
        // there are at most 16 pictures
        let _pictures = self.pictures();
        let header = self.header(p);
        let first = self.first_job(p);
        for r in 0..header.rows {
            set_piece(header, r, done.piece(first + r), frame);
        }
    }

    /// The frame behind a picture that is the first one of its frame in the batch.
    fn begun_frame(&self, alloc: Global, p: u32, done: &Done<DecodeBook>) -> Result<Frame, Memory>
        requires done { done.now ≡ self.now }
        requires picture { p < length (headers self.now) }
        requires begins { 0 < p → (header_at (headers self.now) p).second ≡ false }
        ensures value { IfOk result (λ f. f ≡ frame_behind self.now (all_rows self.now) p) }
    {
        // what is known of a batch
        let _batch = self.pictures();
        let mut frame = self.blank_frame(alloc, p)?;
        self.set_picture(p, done, &mut frame);
        Ok(frame)
    }

    /// The frame behind a picture.
    fn whole_frame(&self, alloc: Global, p: u32, done: &Done<DecodeBook>) -> Result<Frame, Memory>
        requires done { done.now ≡ self.now }
        requires picture { p < length (headers self.now) }
        ensures value { IfOk result (λ f. f ≡ frame_behind self.now (all_rows self.now) p) }
    {
        // a second field has its first field
        let _batch = self.pictures();
        if p > 0 && self.is_second(p) {
            let mut frame = self.begun_frame(alloc, p - 1, done)?;
            self.set_picture(p, done, &mut frame);
            return Ok(frame);
        }
        self.begun_frame(alloc, p, done)
    }

    /// The frame that stands at a place, if there is one.
    #[tactic(auto, unfolding(crate::specs::Batches::frame_at, crate::specs::Below::ComesBefore))]
    fn frame_by(
        &self,
        alloc: Global,
        place: FramePlace,
        done: &Done<DecodeBook>,
    ) -> Result<Option<Frame>, Memory>
        requires done { done.now ≡ self.now }
        requires place { ComesBefore (length (headers self.now)) place }
        ensures value { IfOk result (λ f. f ≡ frame_at self.now (all_rows self.now) place) }
    {
        match place {
            FramePlace::Older => copy_of(alloc, self.older()),
            FramePlace::Newer => copy_of(alloc, self.newer()),
            FramePlace::Waiting => copy_of(alloc, self.waiting()),
            FramePlace::Behind(p) => {
                let frame = self.whole_frame(alloc, p, done)?;
                Ok(Some(frame))
            }
        }
    }

    /// The frames at hand behind the batch, by its rows: the last anchor but one and the last anchor. No first field waits
    /// among them. A row that isn't rebuilt is left out.
    ///
    /// # Errors
    /// Want of memory.
    #[tactic(auto, using(crate::proofs::BehindFrames::older_place, crate::proofs::BehindFrames::newer_place))]
    pub fn frames_behind(
        &self,
        alloc: Global,
        done: &Done<DecodeBook>,
    ) -> Result<FramesAtHand, Memory>
        requires { done.now ≡ self.now }
        ensures older { IfOk result (λ f. f.older ≡ older_behind self.now) }
        ensures newer { IfOk result (λ f. f.newer ≡ newer_behind self.now) }
        ensures none { IfOk result (λ f. f.waiting ≡ None) }
    {
        let anchors = self.before(self.pictures());
        let older = self.frame_by(alloc, anchors.older, done)?;
        let newer = self.frame_by(alloc, anchors.newer, done)?;
        Ok(FramesAtHand {
            older,
            newer,
            waiting: None,
        })
    }
}
