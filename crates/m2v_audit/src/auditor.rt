//! A sequence that is audited, piece by piece.
ghost use Rattle.std.specs.Prelude.{◌≡◌, ◌+◌, ◌≤◌, ◌<◌, ◌^◌, IfOk, OnOk, IfSome};
ghost use Rattle.m2v_model.specs.Pieces.{zeros_last};
ghost use Rattle.m2v_model.specs.PieceNotes.{noted};
ghost use Rattle.m2v_dec_piece.specs.Sound.{IsSoundPiece};
ghost use Rattle.m2v_strict.specs.m2v_check.m2v_decode.Decoding.{whole_of};
ghost use Rattle.m2v_strict.specs.m2v_check.Judging.{IsPlaced};
ghost use Rattle.m2v_audit.specs.Others.{others_of};
ghost use Rattle.m2v_audit.specs.Auditing.{nothing, fronted, pictured, with_others, leading, with_ending, told, after_piece, with_end_remarks, totals_of, finished, ended, stopped_by, stopped, is_begun, cleared, IsSound, HasRoom, Keeps, Lessens};

use crate::asked::Asked;
use crate::auditing::{Auditing, PieceEnd};
use crate::findings::{tell_ended, tell_misplaced, tell_remarks};
use crate::headers::front;
use crate::others::{Other, read_others};
use crate::remarks::tell_shown;
use crate::report::SequenceTotals;
use crate::tally::Tally;
use crate::zeros::{ends_code, zeros_at_end, zeros_of};
use m2v_dec_piece::Piece;
use m2v_dec_unit::UnitReader;
use m2v_model::{Notes, Sequence};
use m2v_strict::end_rules;
use std::alloc::{AllocError, Global};
use std::marker::Model;

/// The account, the rules and the report of a sequence, which is handed to it piece by piece. What it tells is appended to
/// its report, whose text the caller takes away when it likes; where memory runs out, nothing is said of it.
///
/// Contracts see it as what is kept of the sequence, its report so far among it.
#[derive(Drop)]
pub struct Auditor {
    kept: Auditing,
}

impl Model for Auditor {
    ghost use Rattle.m2v_audit.specs.Auditing.{Auditing as State, IsSound};

    ghost Value = { State };

    ghost view = { λ a. a.kept };

    ghost invariant = { λ a. IsSound a.kept };
}

/// What else the units of a piece say before its first slice.
fn others_in(alloc: Global, piece: &Piece) -> Result<Vec<Other>, AllocError>
    requires piece { IsSoundPiece piece.now }
    ensures { IfOk result
        (λ os. os.items ≡ others_of piece.now.place (whole_of piece.now)) }
{
    let mut units = UnitReader::new(&piece.bytes, zeros_of(piece));
    read_others(alloc, &mut units, 8 * piece.place)
}

impl Auditing {
    /// The sequence and the headers of a piece, of which this else was read.
    fn front(
        &mut self,
        alloc: Global,
        piece: &Piece,
        notes: &Notes,
        others: &[Other],
    ) -> Result<(), AllocError>
        requires piece { IsSoundPiece piece.now }
        requires others { others.now ≡ others_of piece.now.place (whole_of piece.now) }
        requires few { self.old.places.shown < 2 ^ 61 }
        ensures value { OnOk result (self.new
            ≡ fronted self.old piece.now.place (whole_of piece.now) (noted notes.now)) }
        ensures keeps { Keeps self.old self.new }
    {
        self.begin_once(piece.place, notes)?;
        let mut units = UnitReader::new(&piece.bytes, zeros_of(piece));
        let headers = front(alloc, &mut units, 8 * piece.place)?;
        self.headers(&headers, &notes.sequences)?;
        self.display(piece.place, others)
    }

    /// The picture of a piece, or more bits of the one before it, and what else stands before the first slice.
    fn shown(
        &mut self,
        alloc: Global,
        piece: &Piece,
        notes: &Notes,
        zeros: u64,
        others: &[Other],
    ) -> Result<(), AllocError>
        requires piece { IsSoundPiece piece.now }
        requires zeros { zeros ≤ piece.now.length }
        requires picture { IfSome notes.now.picture
            (λ n. IsPlaced n piece.now.place piece.now.length) }
        requires room { HasRoom self.old piece.now.length }
        ensures value { OnOk result (self.new ≡ with_others self.old.pictures others.now
            (pictured self.old piece.now.place piece.now.length zeros notes.now.picture)) }
        ensures sound { IsSound self.new }
    {
        let picture = self.pictures;
        self.note(alloc, &notes.picture, piece.place, piece.length, zeros)?;
        self.others(picture, others)
    }

    /// A piece that is counted among the bytes.
    fn counted_piece(
        &mut self,
        alloc: Global,
        piece: &Piece,
        notes: &Notes,
    ) -> Result<(), AllocError>
        requires piece { IsSoundPiece piece.now }
        requires picture { IfSome notes.now.picture
            (λ n. IsPlaced n piece.now.place piece.now.length) }
        requires room { HasRoom self.old piece.now.length }
        ensures value { OnOk result (self.new
            ≡ told self.old piece.now.place (whole_of piece.now) (noted notes.now)) }
        ensures sound { IsSound self.new }
    {
        let others = others_in(alloc, piece)?;
        self.front(alloc, piece, notes, &others)?;
        let zeros = zeros_at_end(piece);
        self.shown(alloc, piece, notes, zeros, &others)?;
        self.end_piece(piece, zeros);
        self.settle()
    }

    /// A piece ends, in so many zero bytes.
    fn end_piece(&mut self, piece: &Piece, zeros: u64)
        requires piece { IsSoundPiece piece.now }
        requires zeros { zeros ≡ zeros_last (whole_of piece.now) }
        ensures value { self.new ≡ with_ending piece.now.place (whole_of piece.now) self.old }
        ensures keeps { Keeps self.old self.new }
    {
        self.last = Some(PieceEnd {
            bit: 8 * (piece.place + piece.length),
            closed: ends_code(piece, zeros),
        });
    }

    /// What the stricter rules remark of the end.
    fn end_remarks(&mut self) -> Result<(), AllocError>
        ensures value { OnOk result (self.new ≡ record self.old {
          report = with_end_remarks self.old.report (leading self.old) self.old.pictures
              self.old.last;
        }) }
        ensures keeps { Keeps self.old self.new }
    {
        let before = self.leading();
        match self.last {
            Some(end) => {
                let place = self.place_at(end.bit);
                tell_remarks(&mut self.report, place, &end_rules(&before, end.closed))
            }
            None => Ok(()),
        }
    }

    /// Tells what is left at the end of a sequence.
    fn finish(&mut self) -> Result<(), AllocError>
        requires few { self.old.places.shown < 2 ^ 61 }
        ensures value { OnOk result (self.new ≡ finished self.old) }
        ensures keeps { Lessens self.old self.new }
    {
        let told = self.places.close();
        tell_misplaced(&mut self.report, &told)?;
        tell_shown(&mut self.report, self.parity.last, &self.parity.anchor)?;
        if let Some(mut account) = self.account.take() {
            tell_ended(&mut self.report, &self.rate, &mut account)?;
        }
        self.end_remarks()?;
        let totals = self.totals();
        self.report.finish(&totals)
    }

    /// What there was.
    fn totals(&self) -> SequenceTotals
        ensures { result ≡ totals_of self.now }
    {
        SequenceTotals {
            pictures: self.pictures,
            frames: self.frames,
            groups: self.groups,
            bytes: self.bytes,
        }
    }

    /// Tells what there was, where a sequence began.
    fn stop(&mut self) -> Result<(), AllocError>
        ensures value { OnOk result (self.new ≡ stopped_by self.old.first self.old) }
        ensures keeps { Keeps self.old self.new }
    {
        let totals = self.totals();
        match self.first {
            Some(_) => self.report.finish(&totals),
            None => Ok(()),
        }
    }
}

impl Auditor {
    /// Nothing was read of the sequence of this number, whose text begins at the byte `start` of the input.
    pub fn new(alloc: Global, number: u64, asked: Asked, start: u64) -> Auditor
        ensures { result ≡ nothing number asked start }
    {
        Auditor {
            kept: Auditing::new(alloc, number, asked, start),
        }
    }

    /// Takes the next piece, with what is noted of it.
    #[tactic(auto, unfolding(crate::specs::Auditing::after_piece))]
    pub fn piece(&mut self, alloc: Global, piece: &Piece, notes: &Notes) -> Result<(), AllocError>
        requires piece { IsSoundPiece piece.now }
        requires bytes { self.old.bytes + piece.now.length ≤ 2 ^ 36 }
        requires picture { IfSome notes.now.picture
            (λ n. IsPlaced n piece.now.place piece.now.length) }
        ensures { OnOk result (self.new
            ≡ after_piece self.old piece.now.place (whole_of piece.now) (noted notes.now)) }
    {
        self.kept.bytes += piece.length;
        self.kept.counted_piece(alloc, piece, notes)
    }

    /// The sequence ends: what waits is told, and what there was in all.
    #[tactic(auto, unfolding(crate::specs::Auditing::ended))]
    pub fn finish(&mut self) -> Result<(), AllocError>
        ensures { OnOk result (self.new ≡ ended self.old) }
    {
        match self.kept.first {
            Some(_) => self.kept.finish(),
            None => Ok(()),
        }
    }

    /// The sequence stops early, by a fault or a limit: what there was is told where it began, and what waits isn't.
    #[tactic(auto, unfolding(crate::specs::Auditing::stopped))]
    pub fn stop(&mut self) -> Result<(), AllocError>
        ensures { OnOk result (self.new ≡ stopped self.old) }
    {
        self.kept.stop()
    }

    /// The bytes of its report's lines.
    pub fn bytes(&self) -> &[u8]
        ensures { result.now ≡ self.now.report.text }
    {
        self.kept.report.bytes()
    }

    /// Takes the lines away.
    pub fn clear(&mut self)
        ensures { self.new ≡ cleared self.old }
    {
        self.kept.report.clear();
    }

    /// The sequence was told.
    pub fn is_begun(&self) -> bool
        ensures { result ≡ is_begun self.now }
    {
        self.kept.first.is_some()
    }

    /// The first sequence header, once the sequence was told.
    pub fn first(&self) -> Option<Sequence>
        ensures { result ≡ self.now.first }
    {
        self.kept.first
    }

    /// How many pictures it has.
    pub fn pictures(&self) -> u64
        ensures { result ≡ self.now.pictures }
    {
        self.kept.pictures
    }

    /// How many bytes it has.
    pub fn length(&self) -> u64
        ensures { result ≡ self.now.bytes }
    {
        self.kept.bytes
    }

    /// What is counted of its breaches and failures.
    pub fn tally(&self) -> Tally
        ensures { result ≡ self.now.report.tally }
    {
        self.kept.report.tally()
    }
}
