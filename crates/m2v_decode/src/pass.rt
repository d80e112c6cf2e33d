//! Reading without painting: what is told of a stream, and the headers in force.
ghost use Rattle.std.specs.Prelude.{◌≡◌, ◌+◌, ◌^◌, ◌<◌, List, ℕ, OnOk, Some, None};
ghost use Rattle.m2v_model.specs.States.{is_frame_end};
ghost use Rattle.m2v_model.specs.Pictures.{Store, closed};
ghost use Rattle.m2v_dec_rows.specs.m2v_dec_unit.Among.{HeaderFits, HeaderFollows, part_of};
ghost use Rattle.m2v_decode.specs.Course.{IsOpen};
ghost use Rattle.m2v_decode.specs.Passing.{IsSoundPass, makes_frame as frame_made, Tells, Passes, Ends, EndsBefore, Noted};

use crate::Memory;
use crate::course::{note_or, one_if};
use m2v_dec_rows::dec_picture::SlicePass;
use m2v_dec_rows::dec_unit::{Header, enter};
use m2v_model::{Notes, Open, State};

/// A reader at work: the headers in force, how many pictures were read, how many of them dropped and how many frames the
/// others make, and what is noted of the piece that is read.
#[derive(Drop)]
pub struct Pass {
    pub state: State,
    pub slices: SlicePass,
    pub pictures: u64,
    pub dropped: u64,
    pub frames: u64,
    pub notes: Notes,
    /// The place behind the piece's picture start code, in bits from the first byte of the input.
    pub code_end: u64,
}

/// Whether a picture ends its frame: a frame, or a second field.
fn ends_frame(p: &Open) -> bool
    ensures { result ≡ is_frame_end p.now }
{
    p.extension.structure == 3 || p.second_field
}

/// Whether a picture makes a frame: it ends one, and isn't dropped.
fn makes_frame(p: &Open) -> bool
    ensures { result ≡ frame_made p.now }
{
    ends_frame(p) && !p.dropped
}

impl Pass {
    /// Counts a picture that ends, and notes it where it is the first of its piece.
    fn count(&mut self, p: &Open)
        requires sound { IsSoundPass self.old }
        requires counted { self.old.pictures < 2 ^ 62 }
        requires open { IsOpen p.now }
        ensures tells { (store : Store) → Tells self.old (closed (Some p.now) store) self.new }
        ensures state { self.new.state ≡ self.old.state }
    {
        self.pictures += 1;
        self.dropped += one_if(p.dropped);
        self.frames += one_if(makes_frame(p));
        self.notes.picture = note_or(self.notes.picture, p, self.code_end);
    }

    /// The picture that is open ends.
    fn end(&mut self, p: &Open)
        requires sound { IsSoundPass self.old }
        requires counted { self.old.pictures < 2 ^ 62 }
        requires open { self.old.state.picture ≡ Some p.now }
        ensures { Ends self.old self.new }
    {
        self.count(p);
        self.state.picture = None;
    }

    /// The picture that is open is whole, if there is one.
    pub fn close(&mut self)
        requires sound { IsSoundPass self.old }
        requires counted { self.old.pictures < 2 ^ 62 }
        ensures { Ends self.old self.new }
    {
        match self.state.picture {
            Some(p) => self.end(&p),
            None => {}
        }
    }

    /// The picture that is open is whole, where it doesn't go on behind a header.
    fn close_before(&mut self, header: &Header)
        requires sound { IsSoundPass self.old }
        requires counted { self.old.pictures < 2 ^ 62 }
        ensures { EndsBefore header.now self.old self.new }
    {
        match header {
            Header::Sequence(_) => self.close(),
            Header::Group(_) => self.close(),
            Header::Picture(_, _) => self.close(),
            Header::Matrices(_) => {}
            Header::Skipped => {}
            Header::Ending => self.close(),
        }
    }

    /// Notes a header.
    fn note(&mut self, header: &Header) -> Result<(), Memory>
        ensures { OnOk result (Noted self.old header.now self.new) }
    {
        match header {
            Header::Sequence(s) => self.notes.sequences.push((s.info, s.extension))?,
            Header::Group(_) => self.notes.group = true,
            Header::Picture(_, _) => {}
            Header::Matrices(_) => {}
            Header::Skipped => {}
            Header::Ending => {}
        }
        Ok(())
    }

    /// What stands in a unit that isn't a slice.
    pub fn enter(&mut self, header: &Header) -> Result<(), Memory>
        requires fits { HeaderFits header.now }
        requires follows { HeaderFollows self.old.state header.now }
        requires sound { IsSoundPass self.old }
        requires counted { self.old.pictures < 2 ^ 62 }
        ensures { OnOk result ((u : List ℕ) → Passes self.old (part_of u header.now) self.new) }
    {
        self.close_before(header);
        self.note(header)?;
        enter(&mut self.state, header);
        Ok(())
    }
}
