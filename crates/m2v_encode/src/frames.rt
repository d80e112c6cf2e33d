//! The frames of a group as a decoder rebuilds them.
ghost use Rattle.std.specs.Prelude.{◌≡◌, ◌*◌, ◌<◌, ◌≤◌, IsTrue, IfOk, Some, None, true, false, length, nat_eq, if◌then◌else◌};
ghost use Rattle.m2v_port.specs.Ends.{change, SinkStays};
ghost use Rattle.m2v_plane.specs.Raw.{frame_bytes, raw, crop};
ghost use Rattle.m2v_set.specs.Numbers.{dims_of};
ghost use Rattle.m2v_slice.specs.Books.{job_at};
ghost use Rattle.m2v_law_shown.specs.m2v_enc_stream.Streams.{frame_of, anchor_frame};
ghost use Rattle.m2v_encode.specs.Groups.{all_coded, group_shown, anchor_behind};
ghost use Rattle.m2v_encode.specs.Rebuilt.{with_rows};
ghost use Rattle.m2v_encode.specs.Steps.{Puts};

use crate::answer::EncodeError;
use crate::done::DoneGroup;
use crate::pictures::put_bytes;
use m2v_order::PictureJob;
use m2v_plane::{Frame, Memory};
use m2v_port::Sink;
use m2v_pred::own_lines;
use std::alloc::Global;

/// The place of the last anchor's frame behind one picture more.
fn anchor_after(last: Option<u32>, job: &PictureJob) -> Option<u32>
    ensures value { result ≡ (if nat_eq job.now.kind 3 then last else Some job.now.frame) }
{
    if job.kind == 3 { last } else { Some(job.frame) }
}

/// The last anchor's frame, if it was met so far or is this one, frame k.
fn anchor_with(last: Option<u32>, k: u32, frame: Frame, anchor: Option<Frame>) -> Option<Frame>
    ensures here { last ≡ Some k → result ≡ Some frame }
    ensures before { (last ≡ Some k → ⊥) → result ≡ anchor }
{
    match last {
        Some(place) => { if place == k { Some(frame) } else { anchor } }
        None => anchor,
    }
}

impl DoneGroup {
    /// Takes the rows of a picture into its frame.
    fn take_rows(&self, p: u32, frame: &mut Frame)
        requires picture { p < length self.now.pictures }
        requires size { frame.old.dims ≡ dims_of self.now.settings }
        ensures value { frame.new ≡ with_rows self.now p frame.old }
    {
        // the rows of a book are for its frames
        let _book = self.pictures();
        let lines = own_lines(self.job(p).structure);
        for r in 0..self.rows() {
            frame.set_row(lines, r, self.slice(p, r).row());
        }
    }

    /// Takes the rows of a picture into frame k, where it is a picture of that frame.
    fn take_picture(&self, p: u32, k: u32, frame: &mut Frame)
        requires picture { p < length self.now.pictures }
        requires size { frame.old.dims ≡ dims_of self.now.settings }
        ensures here { nat_eq (job_at self.now p).frame k ≡ true
            → frame.new ≡ with_rows self.now p frame.old }
        ensures other { nat_eq (job_at self.now p).frame k ≡ false → frame.new ≡ frame.old }
    {
        if self.job(p).frame == k {
            self.take_rows(p, frame);
        }
    }

    /// A frame of the group as a decoder rebuilds it.
    fn rebuilt(&self, alloc: Global, k: u32) -> Result<Frame, Memory>
        requires frame { k < length self.now.frames }
        ensures value { IfOk result (λ f. f ≡ frame_of self.now (all_coded self.now) k) }
    {
        // each frame of a book has its pictures
        let _book = self.pictures();
        let mut frame = Frame::blank(alloc, self.settings().dims())?;
        for p in 0..self.pictures() {
            self.take_picture(p, k, &mut frame);
        }
        Ok(frame)
    }

    /// The place of the frame of the last anchor in coding order.
    fn last_anchor(&self) -> Option<u32>
        ensures value { result ≡ anchor_frame None self.now.pictures }
    {
        let mut last = None;
        for p in 0..self.pictures() {
            last = anchor_after(last, self.job(p));
        }
        last
    }

    /// Writes all frames of the group in display order, as raw frames by way of one buffer, and gives that of the last anchor.
    fn put_frames<K: Sink>(
        &self,
        alloc: Global,
        buffer: &mut [u8],
        recon: &mut K,
    ) -> Result<Option<Frame>, EncodeError>
        requires buffer { length buffer.old ≡ frame_bytes (dims_of self.now.settings) }
        requires recon { IsTrue (K.ready recon.old) }
        ensures put { Puts (raw (group_shown self.now))
            (change K.held K.faults recon.old recon.new) result }
        ensures anchor { IfOk result (λ f. f ≡ anchor_behind self.now) }
        ensures recon { SinkStays K.ready K.name K.faults recon.old recon.new }
    {
        // the first picture of a book is an anchor
        let _book = self.pictures();
        let last = self.last_anchor();
        let mut anchor = None;
        for k in 0..self.frames() {
            let Ok(frame) = self.rebuilt(alloc, k) else {
                return Err(EncodeError::Memory);
            };
            frame.crop_into(buffer);
            put_bytes(buffer, recon)?;
            anchor = anchor_with(last, k, frame, anchor);
        }
        Ok(anchor)
    }

    /// The frame of the last anchor.
    fn anchor(&self, alloc: Global) -> Result<Option<Frame>, Memory>
        ensures value { IfOk result (λ f. f ≡ anchor_behind self.now) }
    {
        // the first picture of a book is an anchor
        let _book = self.pictures();
        match self.last_anchor() {
            Some(k) => Ok(Some(self.rebuilt(alloc, k)?)),
            None => Ok(None),
        }
    }

    /// As [`put_frames`](DoneGroup::put_frames) where frames are shown. Where none is, that of the last anchor alone is made.
    pub(crate) fn put_shown<K: Sink>(
        &self,
        alloc: Global,
        shown: bool,
        buffer: &mut [u8],
        recon: &mut K,
    ) -> Result<Option<Frame>, EncodeError>
        requires buffer { shown ≡ true
            → length buffer.old ≡ frame_bytes (dims_of self.now.settings) }
        requires recon { IsTrue (K.ready recon.old) }
        requires unshown { shown ≡ false → K.held recon.old ≡ None }
        ensures put { Puts (raw (group_shown self.now))
            (change K.held K.faults recon.old recon.new) result }
        ensures anchor { IfOk result (λ f. f ≡ anchor_behind self.now) }
        ensures recon { SinkStays K.ready K.name K.faults recon.old recon.new }
    {
        if shown {
            return self.put_frames(alloc, buffer, recon);
        }
        match self.anchor(alloc) {
            Ok(frame) => Ok(frame),
            Err(_) => Err(EncodeError::Memory),
        }
    }
}
