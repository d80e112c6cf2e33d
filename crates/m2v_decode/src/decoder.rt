ghost use Rattle.std.specs.Prelude.{◌≡◌, ℕ, ◌+◌, ◌*◌, ◌<◌, ◌≤◌, ◌^◌, [], Some, None, IfOk, IfErr, IfSome, OnOk, MatchOption, Ok, Err, true, false};
ghost use Rattle.m2v_model.specs.Units.{cut};
ghost use Rattle.m2v_model.specs.ByPieces.{end_read};
ghost use Rattle.m2v_dec_rows.specs.m2v_dec_picture.Frames.{store_of};
ghost use Rattle.m2v_dec_piece.specs.Sound.{IsSoundPiece};
ghost use Rattle.m2v_dec_rows.specs.Opened.{IsOpened};
ghost use Rattle.m2v_dec_rows.specs.Headers.{TellsHeaders};
ghost use Rattle.m2v_dec_rows.specs.OnePicture.{HasOnePicture};
ghost use Rattle.m2v_decode.specs.Decoding.{at_start, between, due_of, whole_of, CanSkim, Advanced, Onward, Refuses, HandsOut, Finished};
ghost use Rattle.m2v_decode.specs.Rebuilt.{IsRebuilt, refs_for, rows_set, frame_begun, frames_behind};

use crate::Memory;
use crate::course::Course;
use crate::halt::Halt;
use crate::notes::nothing_noted;
use crate::reading::text_ends;
use crate::rebuilt::PictureRows;
use m2v_dec_piece::{DecodeError, Fault, Piece};
use m2v_dec_rows::dec_picture::{DueFrame, Gallery};
use m2v_dec_rows::dec_unit::{UnitReader, code_bits, first_state};
use m2v_dec_rows::{Opened, read_headers};
use m2v_model::{Notes, State};
use m2v_order::AnchorQueue;
use m2v_plane::Frame;
use std::alloc::Global;
use std::marker::Model;
use std::mem;

/// A decoder of one stream, which is handed to it piece by piece.
///
/// Contracts see it as what stands between two pieces (the headers in force and the frames at hand), the anchor that waits
/// to be shown, the frames that are due and weren't handed out, whether the end has come, whether no piece may be decoded any
/// more, since one was refused or headers alone were read, and how many pictures were read, how many of them dropped, and
/// how many frames handed out.
#[derive(Drop)]
pub struct Decoder {
    pub(crate) course: Course,
    ended: bool,
    failed: bool,
    skims: bool,
}

impl Model for Decoder {
    ghost use Rattle.m2v_decode.specs.Decoding.{Decoding};
    ghost use Rattle.m2v_decode.specs.Course.{IsSoundDecoder, seen_as};

    ghost Value = { Decoding };

    ghost view = { λ d. seen_as d.course d.ended d.failed d.skims };

    ghost invariant = { λ d. IsSoundDecoder d.course d.failed d.skims };
}

impl Decoder {
    /// A decoder that has read nothing.
    pub fn new(alloc: Global) -> Result<Decoder, Memory>
        ensures { IfOk result (λ d. d ≡ at_start) }
    {
        let course = Course {
            state: first_state(),
            gallery: Gallery::new(alloc),
            queue: AnchorQueue::new(false),
            ready: Vec::new(alloc),
            pictures: 0,
            dropped: 0,
            shown: 0,
            notes: nothing_noted(alloc),
            code_end: 0,
        };
        Ok(Decoder {
            course,
            ended: false,
            failed: false,
            skims: false,
        })
    }

    /// How many pictures were read, those that were dropped among them.
    pub fn pictures(&self) -> u64
        ensures { result ≡ self.now.pictures }
    {
        self.course.pictures
    }

    /// How many pictures were dropped: B pictures without their references (see `docs/BITSTREAM.md`).
    pub fn dropped(&self) -> u64
        ensures { result ≡ self.now.dropped }
    {
        self.course.dropped
    }

    /// How many frames were handed out.
    pub fn shown(&self) -> u64
        ensures { result ≡ self.now.shown }
    {
        self.course.shown
    }

    /// Takes back a frame that was handed out and isn't needed any more. A later picture is painted into it, so that memory
    /// is asked for a few times in a stream alone.
    pub fn recycle(&mut self, frame: Frame)
        ensures same { self.new ≡ self.old }
    {
        self.course.gallery.recycle(frame);
    }

    /// Takes back a frame that was handed out to be read where it stands. A later picture is painted into it where it isn't a
    /// reference any more.
    pub fn take_back(&mut self, due: DueFrame)
        ensures same { self.new ≡ self.old }
    {
        self.course.gallery.take_back(due);
    }

    /// Reads a piece, of those of one text in order, each as a cutter hands it out. Answers what is noted of it.
    ///
    /// # Errors
    /// The first fault of the stream, where it is looked at within this piece, its end included; want of memory. No call
    /// may follow then.
    pub fn piece(&mut self, alloc: Global, piece: &Piece) -> Result<Notes, DecodeError>
        requires piece { IsSoundPiece piece.now }
        requires going { self.old.failed ≡ false }
        requires before { self.old.ended ≡ false }
        requires counted { self.old.pictures + piece.now.length ≤ 2 ^ 60 }
        ensures ok { IfOk result (λ notes. Advanced self.old piece.now.place (whole_of piece.now)
            notes self.new) }
        ensures err { IfErr result (Refuses self.old piece.now.place (whole_of piece.now)) }
    {
        self.failed = true;
        let zeros = piece.length - piece.bytes.len() as u64;
        self.course.notes = nothing_noted(alloc);
        self.course.code_end = 8 * piece.place
            + code_bits(&mut UnitReader::new(&piece.bytes, zeros));
        let mut units = UnitReader::new(&piece.bytes, zeros);
        match self.course.units(alloc, &mut units) {
            Ok(()) => {
                self.failed = false;
                Ok(mem::replace(&mut self.course.notes, nothing_noted(alloc)))
            }
            Err(Halt::Memory) => Err(DecodeError::Memory),
            Err(Halt::Fault(stop)) => {
                let end = 8 * (piece.place + piece.length);
                Err(DecodeError::Stream(Fault {
                    kind: stop.kind,
                    place: end.saturating_sub(stop.left),
                }))
            }
        }
    }

    /// Takes in a piece whose picture was read elsewhere: its headers, which left a state, and its rows, each by itself. It
    /// does what `piece` does, reads nothing of the piece and notes nothing of it.
    ///
    /// # Errors
    /// Want of memory. No call may follow then.
    pub fn rebuilt<R: PictureRows>(
        &mut self,
        alloc: Global,
        piece: &Piece,
        opened: &Opened,
        after: &State,
        rows: &R,
    ) -> Result<(), Memory>
        requires piece { IsSoundPiece piece.now }
        requires one { HasOnePicture (cut 0 (whole_of piece.now)).1 }
        requires going { self.old.failed ≡ false }
        requires before { self.old.ended ≡ false }
        requires counted { self.old.pictures + piece.now.length ≤ 2 ^ 60 }
        requires told { TellsHeaders self.old.state piece.now (Ok (Some opened.now)) after.now }
        requires opened { IsOpened piece.now opened.now }
        requires read { opened.now.note.dropped ≡ false }
        requires whole { opened.now.fault ≡ None }
        requires rows { (r : ℕ) → r < opened.now.rows
            → IsRebuilt (refs_for opened.now (store_of self.old.frames)) piece.now opened.now r
            (R.samples rows.now r) }
        requires there { (r : ℕ) → r < opened.now.rows → R.there rows.now r }
        ensures ok { OnOk result (Onward self.old piece.now.place (whole_of piece.now) self.new) }
        ensures frames { OnOk result (store_of self.new.frames ≡ frames_behind opened.now
            (rows_set opened.now.context.extension.structure (R.samples rows.now) opened.now.rows
            (frame_begun opened.now self.old.frames.current)) (store_of self.old.frames)) }
        ensures state { OnOk result (self.new.state
            ≡ record after.now { headers_only = false }) }
    {
        self.failed = true;
        self.course.take_in(alloc, opened, after, rows)?;
        self.failed = false;
        Ok(())
    }

    /// Moves past a piece by its headers alone, and decodes none of its samples. Answers the picture in it, whose rows
    /// `read_row` reads; None where it has none. Behind this call headers alone may be read: `piece`, `due`, `next_due` and
    /// `end` may not be called any more, since the frames of the picture aren't at hand.
    ///
    /// # Errors
    /// The first fault of the piece, where no picture stands before it: a fault behind a picture's headers is told with the
    /// picture. Want of memory. No call may follow then.
    pub fn headers(&mut self, alloc: Global, piece: &Piece) -> Result<Option<Opened>, DecodeError>
        requires piece { IsSoundPiece piece.now }
        requires going { CanSkim self.old }
        requires before { self.old.ended ≡ false }
        ensures exact { TellsHeaders self.old.state piece.now result self.new.state }
        ensures same { OnOk result (self.new
            ≡ record self.old { state = self.new.state; failed = true; skims = true }) }
        ensures opened { IfOk result (λ picture. IfSome picture (IsOpened piece.now)) }
    {
        self.failed = true;
        self.skims = false;
        let picture = read_headers(alloc, &mut self.course.state, piece)?;
        self.skims = true;
        Ok(picture)
    }

    /// Ends the stream, which has so many bytes.
    ///
    /// # Errors
    /// `NoSequence`, where there was no sequence header, and `FieldPair`, where a first field waits for its second. No call
    /// may follow then.
    pub fn end(&mut self, length: u64) -> Result<(), Fault>
        requires going { self.old.failed ≡ false }
        requires before { self.old.ended ≡ false }
        requires length { length ≤ 2 ^ 36 }
        ensures ok { OnOk result (Finished self.old length self.new) }
        ensures err { IfErr result (λ f. end_read (between self.old) length
            ≡ Err (f.kind, f.place)) }
    {
        match text_ends(&self.course.state) {
            Ok(()) => {
                self.ended = true;
                Ok(())
            }
            Err(stop) => Err(Fault {
                kind: stop.kind,
                place: 8 * length,
            }),
        }
    }

    /// The next frame that is due and wasn't handed out, to be kept; behind the end the last anchor too. A frame that is a
    /// reference still is copied.
    pub fn due(&mut self) -> Option<Frame>
        requires going { self.old.failed ≡ false }
        ensures { MatchOption result ((due_of self.old ≡ []) × (self.new ≡ self.old))
            (λ frame. HandsOut self.old frame self.new) }
    {
        match self.next_due() {
            Some(due) => Some(due.into_frame()),
            None => None,
        }
    }

    /// The same frame, to be read where it stands.
    pub fn next_due(&mut self) -> Option<DueFrame>
        requires going { self.old.failed ≡ false }
        ensures { MatchOption result ((due_of self.old ≡ []) × (self.new ≡ self.old))
            (λ frame. HandsOut self.old frame self.new) }
    {
        // no more frames are handed out than pictures were decoded
        let _pictures = self.course.pictures;
        if !self.course.ready.is_empty() {
            self.course.shown += 1;
            return Some(self.course.ready.remove(0));
        }
        if !self.ended {
            return None;
        }
        match self.course.queue.finish() {
            Some(last) => {
                self.course.shown += 1;
                Some(last)
            }
            None => None,
        }
    }
}
