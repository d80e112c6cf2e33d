//! The units of a piece one after another, of which nothing is painted.
ghost use Rattle.std.specs.Prelude.{◌≡◌, ◌+◌, ◌-◌, ◌^◌, ◌<◌, ◌≤◌, List, ℕ, IfErr, OnOk, Ok, Err, Some, [], length, true, false};
ghost use Rattle.m2v_model.specs.States.{picture_rows as rows_in};
ghost use Rattle.m2v_model.specs.Streams.{Part, value_of, slice_unit, unread_slice, known_unit, text_end};
ghost use Rattle.m2v_model.specs.ByPieces.{unit_read};
ghost use Rattle.m2v_dec_rows.specs.m2v_dec_unit.Among.{is_slice as slice_stands};
ghost use Rattle.m2v_decode.specs.Passing.{IsSoundPass, Passes, ReadsSlice, Rounds, ReadsAll, PassStops};

use crate::halt::Halt;
use crate::pass::Pass;
use m2v_dec_rows::dec_picture::SliceEnd;
use m2v_dec_rows::dec_unit::{
    Unit, UnitReader, enter_slice, enter_unread_slice, is_slice, read_end, read_header,
    slice_place, slice_setup,
};
use m2v_model::{Open, Sequence, Stop};

impl Pass {
    /// Reads a slice of a row of the picture that is open.
    fn read_slice(
        &mut self,
        s: &Sequence,
        p: &Open,
        row: u32,
        u: &Unit,
        units: &UnitReader,
    ) -> Result<SliceEnd, Stop>
        requires sound { IsSoundPass self.old }
        requires sequence { self.old.state.sequence ≡ Some s.now }
        requires picture { self.old.state.picture ≡ Some p.now }
        requires row { row < rows_in s.now p.now }
        ensures { ReadsSlice self.old s.now p.now row u.now units.now result self.new }
    {
        let setup = slice_setup(&self.state, s, p);
        match self.slices.slice(&mut u.body(), &setup, p.covered, row) {
            Ok(end) => Ok(end),
            Err(e) => Err(Stop {
                kind: e.kind,
                left: e.left + units.left(),
            }),
        }
    }

    /// A slice of a row of a picture whose slices stay unread.
    fn pass_over(&mut self, row: u32)
        requires sound { IsSoundPass self.old }
        ensures { (u : List ℕ) → Passes self.old (unread_slice row u) self.new }
    {
        enter_unread_slice(&mut self.state, row);
    }

    /// Reads a unit that is a slice; where the picture's slices stay unread, its row alone is looked at.
    ///
    /// # Errors
    /// The first fault in reading order, with the bits of the piece that are left at its place.
    pub fn slice(&mut self, start: u64, u: &Unit, units: &UnitReader) -> Result<(), Stop>
        requires sound { IsSoundPass self.old }
        requires value { 1 ≤ value_of u.now }
        requires start { start < 2 ^ 41 }
        ensures ok { OnOk result ((x : Part)
            × ((slice_unit self.old.state self.old.state.sequence self.old.state.picture
            (value_of u.now - 1) start u.now).read units.now ≡ Ok (x, units.now))
            × Passes self.old x self.new) }
        ensures err { IfErr result
            (λ e. (slice_unit self.old.state self.old.state.sequence self.old.state.picture
            (value_of u.now - 1) start u.now).read units.now ≡ Err (e.kind, e.left)) }
    {
        let row = u32::from(u.value()) - 1;
        let (s, p) = slice_place(&self.state, row, start)?;
        if p.slices_unread {
            self.pass_over(row);
            return Ok(());
        }
        let end = self.read_slice(&s, &p, row, u, units)?;
        enter_slice(&mut self.state, row, end.covered, end.large);
        Ok(())
    }

    /// Reads a unit that isn't a slice, and with a header the extension behind it. Answers whether units may follow.
    fn header(&mut self, start: u64, u: &Unit, units: &mut UnitReader) -> Result<bool, Halt>
        requires sound { IsSoundPass self.old }
        requires counted { self.old.pictures < 2 ^ 62 }
        requires start { start < 2 ^ 41 }
        requires header { slice_stands self.old.state (value_of u.now) ≡ false }
        ensures { Rounds self.old result self.new units.new
            ((known_unit self.old.state start (value_of u.now) u.now).read units.old) }
    {
        let header = read_header(&self.state, start, u, units)?;
        self.enter(&header)?;
        Ok(header.goes_on())
    }

    /// Reads a unit that is there. Answers whether units may follow.
    fn known(&mut self, start: u64, u: &Unit, units: &mut UnitReader) -> Result<bool, Halt>
        requires sound { IsSoundPass self.old }
        requires counted { self.old.pictures < 2 ^ 62 }
        requires start { start < 2 ^ 41 }
        ensures { Rounds self.old result self.new units.new
            ((known_unit self.old.state start (value_of u.now) u.now).read units.old) }
    {
        if !is_slice(&self.state, u) {
            return self.header(start, u, units);
        }
        self.slice(start, u, units)?;
        Ok(true)
    }

    /// The end of the piece.
    fn over(&mut self) -> Result<bool, Halt>
        requires sound { IsSoundPass self.old }
        requires counted { self.old.pictures < 2 ^ 62 }
        ensures { Rounds self.old result self.new [] ((text_end self.old.state 0).read []) }
    {
        read_end(&self.state)?;
        self.close();
        Ok(false)
    }

    /// Reads the next unit, or the end of the piece. Answers whether units may follow.
    fn unit(&mut self, units: &mut UnitReader) -> Result<bool, Halt>
        requires sound { IsSoundPass self.old }
        requires counted { self.old.pictures < 2 ^ 62 }
        ensures { Rounds self.old result self.new units.new (unit_read self.old.state units.old) }
    {
        let start = units.left();
        match units.next() {
            Some(u) => self.known(start, &u, units),
            None => self.over(),
        }
    }

    /// Reads all units of a piece.
    pub fn units(&mut self, units: &mut UnitReader) -> Result<(), Halt>
        requires sound { IsSoundPass self.old }
        requires counted { self.old.pictures + length units.old < 2 ^ 61 }
        ensures ok { OnOk result (ReadsAll self.old units.old self.new) }
        ensures err { IfErr result (PassStops self.old units.old) }
    {
        while self.unit(units)? {}
        Ok(())
    }
}
