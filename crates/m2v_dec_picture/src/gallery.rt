ghost use Rattle.std.specs.Prelude.{◌≡◌, ◌+◌, ◌*◌, ◌≤◌, ◌<◌, ◌^◌, IfOk, IfErr, IfSome, OnOk, IsSome, option_copied, length, true, false, Some, None, if◌then◌else◌};
ghost use Rattle.m2v_plane.specs.Sizes.{IsSize, part_of};
ghost use Rattle.m2v_plane.specs.declared.dims.Dims.{Dims as DimsOf};
ghost use Rattle.m2v_plane.specs.Samples.{blank, with_row};
ghost use Rattle.m2v_model.specs.States.{dims_of, is_frame_end};
ghost use Rattle.m2v_model.specs.Pictures.{on_frame, picture_begun, picture_ended};
ghost use Rattle.m2v_dec_picture.specs.Conditions.{IsSetup, rows_in};
ghost use Rattle.m2v_dec_picture.specs.Frames.{none_at_hand, store_of, reading_of, HasReferences, HaveSize, PaintsSlice};

use crate::Memory;
use crate::basis::PictureBasis;
use crate::scratch::Scratch;
use crate::shared::{DueFrame, SharedFrame};
use crate::slices::{SliceEnd, read_slice};
use crate::views::{backward_view, forward_view, lent};
use m2v_bits::BitReader;
use m2v_model::{FaultKind, Open, Sequence, SliceSetup, Stop};
use m2v_plane::{Dims, Frame, Lines, RowSamples};
use std::alloc::Global;
use std::marker::Model;

/// What tells the references of the picture whose slices are read.
#[derive(Clone, Copy, Debug, PartialEq, Eq)]
pub struct Reading {
    /// Its picture_coding_type.
    pub kind: u8,
    /// It is the second field of its frame.
    pub second_field: bool,
    /// Its picture_structure.
    pub structure: u8,
}

/// Copies of the frames at hand between two pictures: the last anchor but one, the last anchor, and the frame of a first
/// field that waits for its second.
#[derive(Drop)]
pub struct FramesAtHand {
    pub older: Option<Frame>,
    pub newer: Option<Frame>,
    pub waiting: Option<Frame>,
}

/// The frames at hand while pictures are decoded: the last two anchors, the frame of the picture that is open or of the
/// first field that waits, and the first field's frame while its second field is read. Contracts see their samples.
///
/// A frame that isn't needed any more is kept, and a later picture is painted into it, so that memory is asked for a few
/// times in a stream alone. A second field is painted into a copy of its frame, and its first field is read as it was.
///
/// An anchor is shown while it is a reference, and its last holder puts it back among the spare ones. A frame is made only
/// where none is spare, so there are never more than were in use at once: the two anchors, the picture that is open, its
/// first field, and room for a copy of each anchor that waits for the display or is due. Where frames come back as they are
/// due, that is one room, which stands where the anchor before the last one stood: four frames, and five with field pictures.
#[derive(Drop)]
pub struct Gallery {
    older: Option<SharedFrame>,
    newer: Option<SharedFrame>,
    current: Option<Frame>,
    first_field: Option<Frame>,
    reading: Option<Reading>,
    spare: Vec<Frame>,
    scratch: Scratch,
}

impl Model for Gallery {
    ghost use Rattle.m2v_dec_picture.specs.Frames.{Frames, frames_by};

    ghost Value = { Frames };

    ghost view = { λ g. frames_by g.older g.newer g.current g.first_field g.reading };
}

/// A frame of a size: a spare one, or a new one. Its samples are any.
fn some_frame(alloc: Global, spare: &mut Vec<Frame>, dims: Dims) -> Result<Frame, Memory>
    requires { IsSize dims }
    ensures { IfOk result (λ f. f.dims ≡ dims) }
{
    if let Some(frame) = spare.pop() {
        if frame.dims() == dims {
            return Ok(frame);
        }
    }
    Frame::blank(alloc, dims)
}

/// A frame of samples 0.
fn blank_frame(alloc: Global, spare: &mut Vec<Frame>, dims: Dims) -> Result<Frame, Memory>
    requires { IsSize dims }
    ensures { IfOk result (λ f. f ≡ blank dims dims.mb_rows) }
{
    let mut frame = some_frame(alloc, spare, dims)?;
    frame.clear();
    Ok(frame)
}

/// A copy of a frame.
fn copy_of(alloc: Global, spare: &mut Vec<Frame>, frame: &Frame) -> Result<Frame, Memory>
    ensures { IfOk result (λ f. f ≡ frame.now) }
{
    let mut copy = some_frame(alloc, spare, frame.dims())?;
    copy.copy_from(frame);
    Ok(copy)
}

/// A copy of a frame that is there.
fn copy_of_some(
    alloc: Global,
    spare: &mut Vec<Frame>,
    frame: Option<&Frame>,
) -> Result<Option<Frame>, Memory>
    ensures { IfOk result (λ f. f ≡ option_copied frame.entry) }
{
    match frame {
        Some(frame) => Ok(Some(copy_of(alloc, spare, frame)?)),
        None => Ok(None),
    }
}

/// Keeps a frame that isn't needed any more. Without memory it is dropped.
fn keep(spare: &mut Vec<Frame>, frame: Option<Frame>) {
    if let Some(frame) = frame {
        let _kept = spare.push(frame);
    }
}

/// Keeps a frame that isn't a reference any more, where it isn't on its way to the display either.
fn keep_last(spare: &mut Vec<Frame>, frame: Option<SharedFrame>) {
    if let Some(frame) = frame {
        keep(spare, frame.give_up());
    }
}

/// The frame of an anchor that ends, as a reference and for the display. The room for a copy is a spare frame.
fn both_ways(
    alloc: Global,
    spare: &mut Vec<Frame>,
    frame: Option<Frame>,
) -> Result<(Option<SharedFrame>, Option<DueFrame>), Memory>
    ensures kept { IfOk result (λ p. p.0 ≡ frame) }
    ensures shown { IfOk result (λ p. p.1 ≡ frame) }
{
    let Some(frame) = frame else {
        return Ok((None, None));
    };
    let room = some_frame(alloc, spare, frame.dims())?;
    let kept = SharedFrame::new(alloc, frame)?;
    let shown = DueFrame::shared(kept.share()?, room);
    Ok((Some(kept), Some(shown)))
}

/// A frame that no picture is predicted from, for the display.
fn for_display(frame: Option<Frame>) -> Option<DueFrame>
    ensures { result ≡ frame }
{
    match frame {
        Some(frame) => Some(DueFrame::alone(frame)),
        None => None,
    }
}

impl Gallery {
    /// No frames.
    pub fn new(alloc: Global) -> Gallery
        ensures { result ≡ none_at_hand }
    {
        Gallery {
            older: None,
            newer: None,
            current: None,
            first_field: None,
            reading: None,
            spare: Vec::new(alloc),
            scratch: Scratch::new(),
        }
    }

    /// Takes a frame that isn't needed any more, for a later picture to be painted into.
    pub fn recycle(&mut self, frame: Frame)
        ensures same { self.new ≡ self.old }
    {
        keep(&mut self.spare, Some(frame));
    }

    /// Takes back a frame that was shown. It is kept where it isn't a reference any more, and so is the room for its copy.
    pub fn take_back(&mut self, due: DueFrame)
        ensures same { self.new ≡ self.old }
    {
        let (frame, room) = due.give_up();
        keep(&mut self.spare, frame);
        keep(&mut self.spare, room);
    }

    /// Copies of the frames at hand.
    pub fn at_hand(&mut self, alloc: Global) -> Result<FramesAtHand, Memory>
        ensures same { self.new ≡ self.old }
        ensures value { IfOk result (λ frames. frames
            ≡ record {
              older = self.old.older;
              newer = self.old.newer;
              waiting = self.old.current;
            }) }
    {
        Ok(FramesAtHand {
            older: copy_of_some(alloc, &mut self.spare, lent(&self.older))?,
            newer: copy_of_some(alloc, &mut self.spare, lent(&self.newer))?,
            waiting: copy_of_some(alloc, &mut self.spare, self.current.as_ref())?,
        })
    }

    /// A second field begins: it is painted into a copy of its frame.
    fn begin_second(&mut self, alloc: Global, reading: Reading) -> Result<(), Memory>
        ensures { OnOk result (self.new ≡ record self.old {
          first_field = self.old.current;
          reading = Some reading;
        }) }
    {
        let first = self.current.take();
        self.current = match &first {
            Some(frame) => Some(copy_of(alloc, &mut self.spare, frame)?),
            None => None,
        };
        self.first_field = first;
        self.reading = Some(reading);
        Ok(())
    }

    /// A frame picture or a first field begins: its frame has samples 0.
    fn begin_frame(&mut self, alloc: Global, dims: Dims, reading: Reading) -> Result<(), Memory>
        requires { IsSize dims }
        ensures { OnOk result
            (self.new ≡ record self.old {
              current = Some (blank dims dims.mb_rows);
              reading = Some reading;
            }) }
    {
        keep(&mut self.spare, self.current.take());
        self.current = Some(blank_frame(alloc, &mut self.spare, dims)?);
        self.reading = Some(reading);
        Ok(())
    }

    /// A picture begins, behind its headers: its frame has samples 0, that of a second field those of its first field. A
    /// picture whose slices stay unread has none.
    pub fn begin(&mut self, alloc: Global, s: &Sequence, p: &Open) -> Result<(), Memory>
        requires size { IsSize (dims_of s.now) }
        requires frames { HaveSize (dims_of s.now) self.old }
        requires closed { self.old.reading ≡ None }
        requires first { p.now.second_field ≡ true → p.now.slices_unread ≡ false
            → IsSome self.old.current }
        ensures value { OnOk result (store_of self.new
            ≡ picture_begun (Some s.now) p.now (store_of self.old)) }
        ensures reading { OnOk result (self.new.reading ≡ reading_of p.now) }
        ensures first { OnOk result (p.now.second_field ≡ true → p.now.slices_unread ≡ false
            → self.new.first_field ≡ self.old.current) }
        ensures frames { OnOk result (HaveSize (dims_of s.now) self.new) }
    {
        if p.slices_unread {
            keep(&mut self.spare, self.current.take());
            return Ok(());
        }
        let reading = Reading {
            kind: p.info.kind,
            second_field: p.second_field,
            structure: p.extension.structure,
        };
        if p.second_field {
            return self.begin_second(alloc, reading);
        }
        self.begin_frame(alloc, s.dims(), reading)
    }

    /// Reads a slice of the picture that is open, without its start code, and paints it. `covered` is the address of the
    /// picture's next uncovered macroblock, the row counts from 0.
    ///
    /// # Errors
    /// The first fault in reading order, with the bits that are left at its place, as `read_slice` tells it.
    pub fn slice(
        &mut self,
        input: &mut BitReader,
        s: &SliceSetup,
        covered: u32,
        row: u32,
    ) -> Result<SliceEnd, Stop>
        requires setup { IsSetup s.now }
        requires covered { covered ≤ 2 ^ 16 }
        requires row { row < rows_in s.now }
        requires frames { HaveSize s.now.dims self.old }
        requires current { IsSome self.old.current }
        requires decoded { HasReferences s.now.references self.old }
        ensures exact { PaintsSlice s.now covered row input.old.rest self.old result input.new.rest
            self.new }
        ensures left { IfErr result (λ e. e.left ≤ length input.old.text + 32) }
        ensures covered { IfOk result (λ end. end.covered ≤ (row + 1) * s.now.context.columns) }
        ensures large { IfOk result (λ end. covered + end.large ≤ end.covered) }
        ensures frames { OnOk result (HaveSize s.now.dims self.new) }
    {
        // a picture whose slices are read has its frame, so this doesn't come
        let Some(frame) = &mut self.current else {
            return Err(Stop {
                kind: FaultKind::SliceOrder,
                left: 0,
            });
        };
        let older = lent(&self.older);
        let newer = lent(&self.newer);
        let first = self.first_field.as_ref();
        let forward = forward_view(s.dims, &self.reading, older, newer, first);
        let backward = backward_view(s.dims, &self.reading, newer);
        let basis = PictureBasis {
            setup: s,
            forward: &forward,
            backward: &backward,
        };
        read_slice(input, &basis, covered, row, &mut self.scratch, frame)
    }

    /// Sets a macroblock row into the frame of the picture that is open, of a field picture a row of its field: one that was
    /// painted by itself.
    pub fn set_row(&mut self, lines: Lines, row: u32, samples: &RowSamples)
        requires row { IfSome self.old.current
            (λ f. 16 * row + 16 ≤ part_of lines (16 * f.dims.mb_rows)) }
        requires same { IfSome self.old.current (λ f. samples.now.dims ≡ f.dims) }
        ensures { self.new ≡ record self.old {
          current = on_frame (λ f. with_row f lines row samples.now) self.old.current;
        } }
    {
        if let Some(frame) = &mut self.current {
            frame.set_row(lines, row, samples);
        }
    }

    /// The picture that is open ends. Answers the frame that it ends, for the display: an anchor stays a reference too.
    pub fn end(&mut self, alloc: Global, p: &Open) -> Result<Option<DueFrame>, Memory>
        ensures value { OnOk result (store_of self.new
            ≡ picture_ended (Some p.now) (store_of self.old)) }
        ensures frame { IfOk result
            (λ f. f ≡ (if is_frame_end p.now then self.old.current else None)) }
        ensures closed { OnOk result (self.new.reading ≡ None) }
        ensures frames { OnOk result ((d : DimsOf) → HaveSize d self.old → HaveSize d self.new) }
    {
        self.reading = None;
        keep(&mut self.spare, self.first_field.take());
        if p.extension.structure != 3 && !p.second_field {
            return Ok(None);
        }
        if p.info.kind == 3 {
            return Ok(for_display(self.current.take()));
        }
        // the anchor before the last one isn't needed any more: its memory is the room for a copy
        keep_last(&mut self.spare, self.older.take());
        let (kept, shown) = both_ways(alloc, &mut self.spare, self.current.take())?;
        self.older = self.newer.take();
        self.newer = kept;
        Ok(shown)
    }
}
