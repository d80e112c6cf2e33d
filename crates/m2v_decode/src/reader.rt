ghost use Rattle.std.specs.Prelude.{◌≡◌, ◌+◌, ◌≤◌, ◌^◌, true, false, IfOk, IfErr, OnOk, Err, is_some};
ghost use Rattle.m2v_model.specs.ByPieces.{end_read};
ghost use Rattle.m2v_dec_piece.specs.Sound.{IsSoundPiece};
ghost use Rattle.m2v_decode.specs.Decoding.{Decoding, between, whole_of, Refuses, Finished};
ghost use Rattle.m2v_decode.specs.Reading.{nothing_read, Follows, LeadsOn};

use crate::halt::Halt;
use crate::notes::nothing_noted;
use crate::pass::Pass;
use crate::reading::text_ends;
use m2v_dec_piece::{DecodeError, Fault, Piece};
use m2v_dec_rows::dec_picture::SlicePass;
use m2v_dec_rows::dec_unit::{UnitReader, code_bits, first_state};
use m2v_model::{Notes, Sequence};
use std::alloc::Global;
use std::marker::Model;
use std::mem;

/// A reader of one stream, which is handed to it piece by piece: it tells of each piece what a [`crate::Decoder`] tells,
/// the first fault or the notes, and paints no sample. It has no frames.
///
/// Contracts see it as the headers in force between two pieces, how many pictures were read, how many of them dropped and
/// how many frames the others make, whether the end has come, and whether no piece may be read any more, since one was
/// refused. What a piece does to it is said by what it does to each decoder that has come as far, whatever frames that
/// has at hand.
#[derive(Drop)]
pub struct Reader {
    pass: Pass,
    ended: bool,
    failed: bool,
}

impl Model for Reader {
    ghost use Rattle.m2v_decode.specs.Reading.{Reading, read_by};
    ghost use Rattle.m2v_decode.specs.Passing.{IsSoundReader};

    ghost Value = { Reading };

    ghost view = { λ r. read_by r.pass r.ended r.failed };

    ghost invariant = { λ r. IsSoundReader r.pass r.failed };
}

impl Reader {
    /// A reader that has read nothing.
    pub fn new(alloc: Global) -> Reader
        ensures { result ≡ nothing_read }
    {
        let pass = Pass {
            state: first_state(),
            slices: SlicePass::new(),
            pictures: 0,
            dropped: 0,
            frames: 0,
            notes: nothing_noted(alloc),
            code_end: 0,
        };
        Reader {
            pass,
            ended: false,
            failed: false,
        }
    }

    /// How many pictures were read, those that were dropped among them.
    pub fn pictures(&self) -> u64
        ensures { result ≡ self.now.pictures }
    {
        self.pass.pictures
    }

    /// How many pictures were dropped: B pictures without their references (see `docs/BITSTREAM.md`).
    pub fn dropped(&self) -> u64
        ensures { result ≡ self.now.dropped }
    {
        self.pass.dropped
    }

    /// How many frames the pictures make: those that a decoder has shown once the end has come.
    pub fn frames(&self) -> u64
        ensures { result ≡ self.now.frames }
    {
        self.pass.frames
    }

    /// The first sequence header, once there is one.
    pub fn first(&self) -> Option<Sequence>
        ensures { result ≡ self.now.state.first }
    {
        self.pass.state.first
    }

    /// A first field waits for its second: the stream may not end here.
    pub fn waits(&self) -> bool
        ensures { result ≡ is_some self.now.state.waiting }
    {
        self.pass.state.waiting.is_some()
    }

    /// Reads a piece, of those of one text in order, each as a cutter hands it out. Answers what is noted of it.
    ///
    /// # Errors
    /// The first fault of the stream, where it is looked at within this piece, its end included; want of memory. No call
    /// may follow then.
    pub fn piece(&mut self, alloc: Global, piece: &Piece) -> Result<Notes, DecodeError>
        requires piece { IsSoundPiece piece.now }
        requires going { self.old.failed ≡ false }
        requires before { self.old.ended ≡ false }
        requires counted { self.old.pictures + piece.now.length ≤ 2 ^ 60 }
        ensures ok { IfOk result (λ notes. (d : Decoding) → Follows self.old d
            → LeadsOn d piece.now.place (whole_of piece.now) notes self.new) }
        ensures err { IfErr result (λ e. (d : Decoding) → Follows self.old d
            → Refuses d piece.now.place (whole_of piece.now) e) }
    {
        self.failed = true;
        let zeros = piece.length - piece.bytes.len() as u64;
        self.pass.notes = nothing_noted(alloc);
        self.pass.code_end = 8 * piece.place + code_bits(&mut UnitReader::new(&piece.bytes, zeros));
        let mut units = UnitReader::new(&piece.bytes, zeros);
        match self.pass.units(&mut units) {
            Ok(()) => {
                self.failed = false;
                Ok(mem::replace(&mut self.pass.notes, nothing_noted(alloc)))
            }
            Err(Halt::Memory) => Err(DecodeError::Memory),
            Err(Halt::Fault(stop)) => {
                let end = 8 * (piece.place + piece.length);
                Err(DecodeError::Stream(Fault {
                    kind: stop.kind,
                    place: end.saturating_sub(stop.left),
                }))
            }
        }
    }

    /// Ends the stream, which has so many bytes.
    ///
    /// # Errors
    /// `NoSequence`, where there was no sequence header, and `FieldPair`, where a first field waits for its second. No call
    /// may follow then.
    pub fn end(&mut self, length: u64) -> Result<(), Fault>
        requires going { self.old.failed ≡ false }
        requires before { self.old.ended ≡ false }
        requires length { length ≤ 2 ^ 36 }
        ensures ok { OnOk result ((d : Decoding) → Follows self.old d
            → Finished d length (record d { ended = true })) }
        ensures same { OnOk result (self.new ≡ record self.old { ended = true }) }
        ensures err { IfErr result (λ f. (d : Decoding) → Follows self.old d
            → end_read (between d) length ≡ Err (f.kind, f.place)) }
    {
        match text_ends(&self.pass.state) {
            Ok(()) => {
                self.ended = true;
                Ok(())
            }
            Err(stop) => Err(Fault {
                kind: stop.kind,
                place: 8 * length,
            }),
        }
    }
}
