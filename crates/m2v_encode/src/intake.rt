//! Raw frames, read one by one and handed out group by group.
ghost use Rattle.std.specs.Prelude.{◌≡◌, ◌+◌, ◌<◌, ◌≤◌, [], true, false, None, Ok, IfOk, IfErr, IfNone, IfSome, OnOk, All, take, vec_len};
ghost use Rattle.m2v_port.specs.Ends.{change};
ghost use Rattle.m2v_port.specs.Port.{Moves, IsAtEnd};
ghost use Rattle.m2v_plane.specs.Raw.{frame_bytes, pad};
ghost use Rattle.m2v_set.specs.Numbers.{dims_of};
ghost use Rattle.m2v_order.specs.Groups.{opening, is_due, after_push, IsSoundQueue};
ghost use Rattle.m2v_encode.specs.Steps.{ReadStops, FrameRead, NoneRead, FrameStops, CanRead, GroupOut, ReadsNext, WentPast};

use crate::answer::EncodeError;
use crate::measured::{MeasuredGroup, measured};
use crate::reading::{goes_on, read_bytes};
use m2v_order::Reorder;
use m2v_plane::{Frame, Memory, bytes_of};
use m2v_port::Source;
use m2v_set::Passed;
use std::alloc::Global;

/// The most frames of a raw input.
const MOST: u64 = 999_999;

/// What reading raw frames needs: room for a frame's bytes, how many frames were read, and those that wait for their group.
#[derive(Drop)]
pub(crate) struct Intake {
    pub(crate) settings: Passed,
    pub(crate) raw: Vec<u8>,
    pub(crate) count: u64,
    pub(crate) queue: Reorder,
}

impl Intake {
    /// Room for a frame's bytes, with nothing read.
    pub(crate) fn new(alloc: Global, settings: &Passed) -> Result<Intake, Memory>
        ensures ready { IfOk result CanRead }
        ensures settings { IfOk result (λ t. t.settings ≡ settings.now) }
        ensures queue { IfOk result (λ t. t.queue ≡ opening settings.now) }
    {
        Ok(Intake {
            settings: *settings,
            raw: vec![in alloc; 0; bytes_of(settings.dims())]?,
            count: 0,
            queue: Reorder::new(alloc, settings)?,
        })
    }

    /// Reads bytes of the next frame until they are all there or the input ends, and says how many there are.
    fn read<S: Source>(&mut self, input: &mut S) -> Result<usize, EncodeError>
        requires raw { vec_len self.old.raw ≡ frame_bytes (dims_of self.old.settings) }
        ensures within { IfOk result (λ n. n ≤ frame_bytes (dims_of self.old.settings)) }
        ensures moved { IfOk result (λ n. Moves (S.left input.old) (take n self.new.raw.items)
            (S.left input.new)) }
        ensures bytes { IfOk result (λ n. All (λ b. b < 256) self.new.raw.items) }
        ensures end { IfOk result (λ n. n < frame_bytes (dims_of self.old.settings)
            → IsAtEnd (S.left input.new)) }
        ensures err { IfErr result (ReadStops (frame_bytes (dims_of self.old.settings))
            (change S.left S.faults input.old input.new)) }
        ensures raw { vec_len self.new.raw ≡ frame_bytes (dims_of self.new.settings) }
        ensures rest { self.new ≡ record self.old { raw = self.new.raw } }
        ensures input { S.faults input.old ≤ S.faults input.new }
        ensures behind { S.behind input.old ≤ S.behind input.new }
        ensures lenders { S.lenders input.new ≡ S.lenders input.old }
    {
        read_bytes(input, &mut self.raw)
    }

    /// Puts the frame that was read behind those that wait.
    fn admit(&mut self, alloc: Global) -> Result<(), Memory>
        requires ready { CanRead self.old }
        requires few { self.old.count < 999999 }
        ensures pushed { OnOk result (self.new.queue ≡ after_push self.old.queue
            (pad (dims_of self.old.settings) self.old.raw.items)) }
        ensures counted { OnOk result (self.new.count ≡ self.old.count + 1) }
        ensures settings { self.new.settings ≡ self.old.settings }
        ensures raw { self.new.raw ≡ self.old.raw }
    {
        let mut frame = Frame::blank(alloc, self.settings.dims())?;
        frame.pad_from_raw(&self.raw);
        if let Err((_, refused)) = self.queue.push(alloc, frame) {
            return Err(refused);
        }
        self.count += 1;
        Ok(())
    }

    /// Reads the next frame and puts it behind those that wait; false where the input has ended.
    fn next_frame<S: Source>(&mut self, alloc: Global, input: &mut S) -> Result<bool, EncodeError>
        requires ready { CanRead self.old }
        requires few { self.old.count < 999999 }
        ensures read { result ≡ Ok true → FrameRead self.old.settings self.old.queue self.new.queue
            (change S.left S.faults input.old input.new) }
        ensures counted { result ≡ Ok true → self.new.count ≡ self.old.count + 1 }
        ensures none { result ≡ Ok false → NoneRead self.old.queue self.new.queue
            (change S.left S.faults input.old input.new) }
        ensures same { result ≡ Ok false → self.new.count ≡ self.old.count }
        ensures settings { self.new.settings ≡ self.old.settings }
        ensures raw { vec_len self.new.raw ≡ frame_bytes (dims_of self.new.settings) }
        ensures err { IfErr result (FrameStops self.old.settings
            (change S.left S.faults input.old input.new)) }
        ensures input { S.faults input.old ≤ S.faults input.new }
        ensures behind { S.behind input.old ≤ S.behind input.new }
        ensures lenders { S.lenders input.new ≡ S.lenders input.old }
    {
        // a frame has bytes
        let _size = self.settings.dims();
        let read = self.read(input)?;
        if read == 0 {
            return Ok(false);
        }
        if read < self.raw.len() {
            return Err(EncodeError::ShortFrame { extra: read as u64 });
        }
        let Ok(()) = self.admit(alloc) else {
            return Err(EncodeError::Memory);
        };
        Ok(true)
    }

    /// Hands out the group that is due, if one is, with its activities.
    fn due(&mut self, alloc: Global) -> Result<Option<MeasuredGroup>, Memory>
        requires settings { self.old.queue.settings ≡ self.old.settings }
        requires sound { IsSoundQueue self.old.queue }
        requires few { self.old.queue.pushed < 1000000 }
        ensures some { IfOk result (λ o. IfSome o
            (GroupOut self.old.settings self.old.queue self.new.queue)) }
        ensures none { IfOk result (λ o. IfNone o
            ((is_due self.old.queue ≡ false) × (self.new ≡ self.old))) }
        ensures settings { self.new.settings ≡ self.old.settings }
        ensures raw { self.new.raw ≡ self.old.raw }
        ensures count { self.new.count ≡ self.old.count }
    {
        match self.queue.next_group(alloc)? {
            Some(group) => Ok(Some(measured(alloc, &self.settings, group)?)),
            None => Ok(None),
        }
    }

    /// Reads frame after frame until a group is due, and hands that out; none where the input has ended or has had the most
    /// frames before.
    pub(crate) fn next_group<S: Source>(
        &mut self,
        alloc: Global,
        input: &mut S,
    ) -> Result<Option<MeasuredGroup>, EncodeError>
        requires ready { CanRead self.old }
        ensures reads { ReadsNext S.left S.faults self.old self.new input.old input.new result }
        ensures behind { S.behind input.old ≤ S.behind input.new }
        ensures lenders { S.lenders input.new ≡ S.lenders input.old }
    {
        // settings that pass
        let _known = self.settings.settings();
        while self.count < MOST {
            if !self.next_frame(alloc, input)? {
                return Ok(None);
            }
            let Ok(next) = self.due(alloc) else {
                return Err(EncodeError::Memory);
            };
            if next.is_some() {
                return Ok(next);
            }
        }
        Ok(None)
    }

    /// Whether the input goes on behind the most frames; of an input with fewer frames, which must have ended, nothing is read.
    pub(crate) fn goes_past<S: Source>(&self, input: &mut S) -> Result<bool, EncodeError>
        requires end { self.now.count < 999999 → IsAtEnd (S.left input.old) }
        ensures past { result ≡ Ok true → WentPast self.now.count (S.left input.old)
            (S.left input.new) }
        ensures none { result ≡ Ok false → Moves (S.left input.old) [] (S.left input.new)
            × IsAtEnd (S.left input.new) }
        ensures err { IfErr result (ReadStops 1 (change S.left S.faults input.old input.new)) }
        ensures input { S.faults input.old ≤ S.faults input.new }
        ensures behind { S.behind input.old ≤ S.behind input.new }
        ensures lenders { S.lenders input.new ≡ S.lenders input.old }
    {
        if self.count < MOST {
            return Ok(false);
        }
        goes_on(input)
    }
}
