//! The units of a piece one after another, its slices by their rows alone.
ghost use Rattle.std.specs.Prelude.{◌≡◌, ◌*◌, ◌^◌, ◌<◌, ◌≤◌, List, ℕ, IfOk, OnOk, [], ◌∷◌, length, false, true};
ghost use Rattle.m2v_model.specs.Units.{unit_bits};
ghost use Rattle.m2v_model.specs.Streams.{value_of, known_unit, text_end};
ghost use Rattle.m2v_model.specs.ByPieces.{unit_read};
ghost use Rattle.m2v_dec_piece.specs.Sound.{IsSoundPiece};
ghost use Rattle.m2v_dec_piece.specs.declared.answer.Piece.{Piece};
ghost use Rattle.m2v_dec_unit.specs.Among.{HeaderFits, HeaderFollows, is_slice as slice_stands};
ghost use Rattle.m2v_dec_rows.specs.Opened.{whole_of};
ghost use Rattle.m2v_dec_rows.specs.Skims.{IsSoundState, IsSoundSkim, EndsWith, Entered, PassedOver, unit_of, Rounds, ReadsFront, kept_behind};

use crate::{Memory, SliceUnit};
use m2v_dec_piece::Piece;
use m2v_dec_unit::{
    Header, Unit, UnitReader, enter, enter_unread_slice, is_slice, read_end, read_header,
    slice_place,
};
use m2v_model::{State, Stop};

/// What came of a unit.
#[derive(Clone, Copy, Debug, PartialEq, Eq)]
pub enum Round {
    /// Others may follow.
    More,
    /// None follows.
    Last,
    /// Its first fault, with the bits of the piece that are left at its place.
    Broken(Stop),
}

/// The headers of a piece as they are read, and the slices that are passed over.
#[derive(Drop)]
pub struct Skim {
    /// The headers in force, and the picture that is open.
    pub state: State,
    /// The slices of the piece's last picture so far.
    pub slices: Vec<SliceUnit>,
}

/// A slice of a row that stands in a unit, at whose start code so many bits of the piece are left.
fn slice_unit(piece: &Piece, row: u32, start: u64, u: &Unit) -> SliceUnit
    requires piece { IsSoundPiece piece.now }
    requires start { start ≤ 8 * piece.now.length }
    ensures { result ≡ unit_of piece.now row start u.now }
{
    SliceUnit {
        row,
        place: piece.place + piece.length - start / 8,
        length: u.bits() / 8,
    }
}

impl Skim {
    /// Gives up the slices of the picture before, where a picture begins.
    fn give_up(&mut self, header: &Header)
        ensures state { self.new.state ≡ self.old.state }
        ensures slices { self.new.slices.items ≡ kept_behind header.now self.old.slices.items }
    {
        match header {
            Header::Picture(_, _) => self.slices.clear(),
            _ => {}
        }
    }

    /// Puts a header in force.
    fn enter(&mut self, header: &Header)
        requires fits { HeaderFits header.now }
        requires follows { HeaderFollows self.old.state header.now }
        requires sound { IsSoundState self.old.state }
        ensures { (u : List ℕ) → Entered self.old header.now u self.new }
    {
        self.give_up(header);
        enter(&mut self.state, header);
    }

    /// Reads a unit that isn't a slice, and with a header the extension behind it. The sequence end code leaves the
    /// picture open.
    fn header(&mut self, piece: &Piece, start: u64, u: &Unit, units: &mut UnitReader) -> Round
        requires sound { IsSoundSkim piece.now self.old }
        requires start { start < 2 ^ 41 }
        requires header { slice_stands self.old.state (value_of u.now) ≡ false }
        ensures { Rounds piece.now self.old result self.new units.new
            ((known_unit self.old.state start (value_of u.now) u.now).read units.old) }
    {
        match read_header(&self.state, start, u, units) {
            Ok(header) => {
                if !header.goes_on() {
                    return Round::Last;
                }
                self.enter(&header);
                Round::More
            }
            Err(stop) => Round::Broken(stop),
        }
    }

    /// Passes over a slice whose row stands: keeps its place, and counts it.
    fn pass_over(&mut self, piece: &Piece, row: u32, start: u64, u: &Unit) -> Result<(), Memory>
        requires piece { IsSoundPiece piece.now }
        requires start { start ≤ 8 * piece.now.length }
        ensures { OnOk result (PassedOver piece.now self.old row start u.now self.new) }
    {
        self.slices.push(slice_unit(piece, row, start, u))?;
        enter_unread_slice(&mut self.state, row);
        Ok(())
    }

    /// Reads a unit that is there; of a slice its row alone is looked at.
    fn known(
        &mut self,
        piece: &Piece,
        start: u64,
        u: &Unit,
        units: &mut UnitReader,
    ) -> Result<Round, Memory>
        requires piece { IsSoundPiece piece.now }
        requires sound { IsSoundSkim piece.now self.old }
        requires ends { EndsWith (whole_of piece.now) (u.now ∷ units.old) }
        requires start { start ≡ unit_bits (u.now ∷ units.old) }
        requires most { start < 2 ^ 41 }
        requires long { 4 ≤ length u.now }
        ensures { IfOk result (λ round. Rounds piece.now self.old round self.new units.new
            ((known_unit self.old.state start (value_of u.now) u.now).read units.old)) }
    {
        if !is_slice(&self.state, u) {
            return Ok(self.header(piece, start, u, units));
        }
        let row = u32::from(u.value()) - 1;
        match slice_place(&self.state, row, start) {
            Ok(_) => {
                self.pass_over(piece, row, start, u)?;
                Ok(Round::More)
            }
            Err(stop) => Ok(Round::Broken(stop)),
        }
    }

    /// The end of the piece, which leaves the picture open.
    fn over(&self) -> Round
        ensures { (p : Piece) → Rounds p self.now result self.now []
            ((text_end self.now.state 0).read []) }
    {
        match read_end(&self.state) {
            Ok(()) => Round::Last,
            Err(stop) => Round::Broken(stop),
        }
    }

    /// Reads the next unit, or the end of the piece.
    fn unit(&mut self, piece: &Piece, units: &mut UnitReader) -> Result<Round, Memory>
        requires piece { IsSoundPiece piece.now }
        requires sound { IsSoundSkim piece.now self.old }
        requires ends { EndsWith (whole_of piece.now) units.old }
        ensures { IfOk result (λ round. Rounds piece.now self.old round self.new units.new
            (unit_read self.old.state units.old)) }
    {
        let start = units.left();
        match units.next() {
            Some(u) => self.known(piece, start, &u, units),
            None => Ok(self.over()),
        }
    }

    /// Reads the units of a piece as far as they can be read. Answers the fault at which reading stops.
    pub fn units(&mut self, piece: &Piece, units: &mut UnitReader) -> Result<Option<Stop>, Memory>
        requires piece { IsSoundPiece piece.now }
        requires sound { IsSoundSkim piece.now self.old }
        requires ends { EndsWith (whole_of piece.now) units.old }
        ensures { IfOk result (λ fault. ReadsFront piece.now self.old units.old fault self.new) }
    {
        loop {
            match self.unit(piece, units)? {
                Round::More => {}
                Round::Last => return Ok(None),
                Round::Broken(stop) => return Ok(Some(stop)),
            }
        }
    }
}
