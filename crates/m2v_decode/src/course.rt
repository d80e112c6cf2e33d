ghost use Rattle.std.specs.Prelude.{◌≡◌, ◌+◌, ◌^◌, ◌<◌, ◌≤◌, List, ℕ, OnOk, IsSome, is_some, true, false, None, Some, if◌then◌else◌};
ghost use Rattle.m2v_model.specs.Streams.{sequence, group, picture, matrices, ending};
ghost use Rattle.m2v_model.specs.Pictures.{Store, picture_of};
ghost use Rattle.m2v_model.specs.PieceNotes.{note_of};
ghost use Rattle.m2v_dec_rows.specs.m2v_dec_unit.declared.header.Header.TheVariants as headers;
ghost use Rattle.m2v_dec_rows.specs.m2v_dec_unit.Among.{HeaderFits, HeaderFollows, part_of};
ghost use Rattle.m2v_model.specs.States.{first_or};
ghost use Rattle.m2v_model.specs.Decoding.{low_delay_of};
ghost use Rattle.m2v_decode.specs.Decoding.{queue_of};
ghost use Rattle.m2v_decode.specs.Course.{note_or as first_of, IsFresh, IsSoundCourse, Steps, Showed, Counted, Ended, Closed, Begun};

use crate::Memory;
use m2v_dec_rows::dec_picture::{DueFrame, Gallery};
use m2v_dec_rows::dec_unit::{Header, crowded_by, enter, opened};
use m2v_head::{GroupInfo, MatrixInfo, PictureExtension, PictureInfo};
use m2v_model::{Notes, Open, PictureNote, Sequence, State};
use m2v_order::AnchorQueue;
use std::alloc::Global;

/// A decoder at work: the headers in force, the frames at hand, the frames on their way to the display, and what is noted
/// of the piece that is read.
#[derive(Drop)]
pub struct Course {
    pub state: State,
    pub gallery: Gallery,
    pub queue: AnchorQueue<DueFrame>,
    pub ready: Vec<DueFrame>,
    pub pictures: u64,
    pub dropped: u64,
    pub shown: u64,
    pub notes: Notes,
    /// The place behind the piece's picture start code, in bits from the first byte of the input.
    pub code_end: u64,
}

/// What is noted of a piece whose picture ends, and its picture start code ends at a bit: the first picture.
#[tactic(auto, unfolding(m2v_model::specs::Pictures::picture_of))]
pub fn note_or(noted: Option<PictureNote>, p: &Open, code_end: u64) -> Option<PictureNote>
    ensures { (store : Store)
        → result ≡ first_of noted (Some (note_of code_end (picture_of p.now store))) }
{
    match noted {
        Some(note) => Some(note),
        None => Some(PictureNote {
            info: p.info,
            extension: p.extension,
            code_end,
            dropped: p.dropped,
            first: !p.second_field,
            crowded: crowded_by(p),
        }),
    }
}

/// 1 where it holds, else 0.
pub fn one_if(holds: bool) -> u64
    ensures { result ≡ (if holds then 1 else 0) }
{
    if holds { 1 } else { 0 }
}

impl Course {
    /// A frame that a picture ended, if there is one: it is shown at once, or held, and another one is shown in its place.
    #[tactic(auto, unfolding(m2v_order::specs::Display::handed, m2v_order::specs::Display::held_after))]
    fn show(&mut self, frame: Option<DueFrame>, kind: u8) -> Result<(), Memory>
        ensures { OnOk result (Showed self.old frame kind self.new) }
    {
        let Some(frame) = frame else {
            return Ok(());
        };
        if let Some(due) = self.queue.decoded(frame, kind) {
            self.ready.push(due)?;
        }
        Ok(())
    }

    /// Counts a picture that ends, and notes it where it is the first of its piece.
    fn count(&mut self, p: &Open)
        requires counted { self.old.pictures < 2 ^ 62 }
        requires dropped { self.old.dropped ≤ self.old.pictures }
        ensures { Counted self.old p.now self.new }
    {
        self.pictures += 1;
        self.dropped += one_if(p.dropped);
        self.notes.picture = note_or(self.notes.picture, p, self.code_end);
    }

    /// A picture ends, whose frame is whole.
    pub fn finish(&mut self, alloc: Global, p: &Open) -> Result<(), Memory>
        requires counted { self.old.pictures < 2 ^ 62 }
        requires dropped { self.old.dropped ≤ self.old.pictures }
        ensures { OnOk result (Ended self.old p.now self.new) }
    {
        let frame = self.gallery.end(alloc, p)?;
        self.count(p);
        self.show(frame, p.info.kind)
    }

    /// The picture that is open ends.
    fn end(&mut self, alloc: Global, p: &Open) -> Result<(), Memory>
        requires sound { IsSoundCourse self.old }
        requires counted { self.old.pictures < 2 ^ 62 }
        requires open { self.old.state.picture ≡ Some p.now }
        ensures { OnOk result (Closed self.old self.new) }
    {
        self.finish(alloc, p)?;
        self.state.picture = None;
        Ok(())
    }

    /// The picture that is open is whole, if there is one.
    pub fn close(&mut self, alloc: Global) -> Result<(), Memory>
        requires sound { IsSoundCourse self.old }
        requires counted { self.old.pictures < 2 ^ 62 }
        ensures { OnOk result (Closed self.old self.new) }
    {
        match self.state.picture {
            Some(p) => self.end(alloc, &p),
            None => Ok(()),
        }
    }

    /// The frames on their way behind a sequence header: low_delay is that of the first one's extension.
    pub fn open_queue(&mut self, s: &Sequence)
        requires fresh { IsFresh self.old.state.first self.old.queue.anchor }
        requires low { self.old.queue.low_delay ≡ low_delay_of self.old.state.first }
        ensures low { self.new.queue.low_delay
            ≡ low_delay_of (Some (first_or self.old.state.first s.now)) }
        ensures same { self.new
            ≡ record self.old { queue = queue_of self.new.queue.low_delay self.old.queue.anchor } }
    {
        if self.state.first.is_none() {
            self.queue = AnchorQueue::new(s.extension.low_delay);
        }
    }

    /// A sequence header with its extension.
    fn enter_sequence(&mut self, alloc: Global, s: &Sequence) -> Result<(), Memory>
        requires fits { HeaderFits (headers.Sequence s.now) }
        requires follows { HeaderFollows self.old.state (headers.Sequence s.now) }
        requires sound { IsSoundCourse self.old }
        requires counted { self.old.pictures < 2 ^ 62 }
        ensures { OnOk result (Steps self.old (sequence s.now) self.new) }
    {
        self.close(alloc)?;
        self.notes.sequences.push((s.info, s.extension))?;
        self.open_queue(s);
        enter(&mut self.state, &Header::Sequence(*s));
        Ok(())
    }

    /// A group header.
    fn enter_group(&mut self, alloc: Global, g: &GroupInfo) -> Result<(), Memory>
        requires fits { HeaderFits (headers.Group g.now) }
        requires follows { HeaderFollows self.old.state (headers.Group g.now) }
        requires sound { IsSoundCourse self.old }
        requires counted { self.old.pictures < 2 ^ 62 }
        ensures { OnOk result (Steps self.old (group g.now) self.new) }
    {
        self.close(alloc)?;
        self.notes.group = true;
        enter(&mut self.state, &Header::Group(*g));
        Ok(())
    }

    /// The frame of a picture that begins, behind its headers.
    fn begin(&mut self, alloc: Global, p: &Open) -> Result<(), Memory>
        requires known { is_some self.old.state.sequence ≡ true }
        requires closed { self.old.state.picture ≡ None }
        requires sound { IsSoundCourse self.old }
        requires first { p.now.second_field ≡ true → p.now.slices_unread ≡ false
            → IsSome self.old.gallery.current }
        ensures { OnOk result (Begun self.old p.now self.new) }
    {
        // a picture is read behind a sequence header alone, so this doesn't come
        let Some(s) = &self.state.sequence else {
            return Ok(());
        };
        self.gallery.begin(alloc, s, p)
    }

    /// A picture header with its extension.
    fn enter_picture(
        &mut self,
        alloc: Global,
        info: &PictureInfo,
        extension: &PictureExtension,
    ) -> Result<(), Memory>
        requires fits { HeaderFits (headers.Picture info.now extension.now) }
        requires follows { HeaderFollows self.old.state (headers.Picture info.now extension.now) }
        requires sound { IsSoundCourse self.old }
        requires counted { self.old.pictures < 2 ^ 62 }
        ensures { OnOk result (Steps self.old (picture info.now extension.now) self.new) }
    {
        self.close(alloc)?;
        let p = opened(&self.state, info, extension);
        self.begin(alloc, &p)?;
        enter(&mut self.state, &Header::Picture(*info, *extension));
        Ok(())
    }

    /// The sequence end code.
    fn enter_ending(&mut self, alloc: Global) -> Result<(), Memory>
        requires sound { IsSoundCourse self.old }
        requires counted { self.old.pictures < 2 ^ 62 }
        ensures { OnOk result (Steps self.old ending self.new) }
    {
        self.close(alloc)
    }

    /// A quant matrix extension.
    fn enter_matrices(&mut self, m: &MatrixInfo)
        requires fits { HeaderFits (headers.Matrices m.now) }
        requires sound { IsSoundCourse self.old }
        ensures { Steps self.old (matrices m.now) self.new }
    {
        enter(&mut self.state, &Header::Matrices(*m));
    }

    /// What stands in a unit that isn't a slice.
    pub fn enter(&mut self, alloc: Global, header: &Header) -> Result<(), Memory>
        requires fits { HeaderFits header.now }
        requires follows { HeaderFollows self.old.state header.now }
        requires sound { IsSoundCourse self.old }
        requires counted { self.old.pictures < 2 ^ 62 }
        ensures { OnOk result ((u : List ℕ) → Steps self.old (part_of u header.now) self.new) }
    {
        match header {
            Header::Sequence(s) => self.enter_sequence(alloc, s),
            Header::Group(g) => self.enter_group(alloc, g),
            Header::Picture(info, extension) => self.enter_picture(alloc, info, extension),
            Header::Matrices(m) => {
                self.enter_matrices(m);
                Ok(())
            }
            Header::Skipped => Ok(()),
            Header::Ending => self.enter_ending(alloc),
        }
    }
}
