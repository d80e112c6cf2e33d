ghost use Rattle.std.specs.Prelude.{◌≡◌, ◌+◌, ◌^◌, ◌<◌, ◌*◌, ℕ, IfErr, OnOk, Ok, Err, [], length, true, false, None};
ghost use Rattle.m2v_dec_rows.specs.m2v_dec_unit.Among.{is_slice as slice_stands};
ghost use Rattle.m2v_model.specs.Streams.{value_of, known_unit, text_end};
ghost use Rattle.m2v_model.specs.Pictures.{Store};
ghost use Rattle.m2v_model.specs.ByPieces.{unit_read, end_read};
ghost use Rattle.m2v_decode.specs.Course.{IsSoundCourse, Rounds, ReadAll, CourseStops};

use crate::course::Course;
use crate::halt::Halt;
use m2v_dec_rows::dec_unit::{Unit, UnitReader, is_slice, read_end, read_header, read_text_end};
use m2v_model::{State, Stop};
use std::alloc::Global;

/// The rules at the end of the text: those at a piece's end, and that no first field waits for its second.
pub fn text_ends(st: &State) -> Result<(), Stop>
    requires closed { st.now.picture ≡ None }
    ensures ok { OnOk result ((store : Store) (end : ℕ)
        → end_read (record { state = st.now; store = store }) end
        ≡ Ok ([], record { state = st.now; store = store })) }
    ensures err { IfErr result (λ e. (store : Store) (end : ℕ)
        → end_read (record { state = st.now; store = store }) end ≡ Err (e.kind, 8 * end)) }
{
    read_end(st)?;
    read_text_end(st)
}

impl Course {
    /// Reads a unit that isn't a slice, and with a header the extension behind it. Answers whether units may follow.
    fn header(
        &mut self,
        alloc: Global,
        start: u64,
        u: &Unit,
        units: &mut UnitReader,
    ) -> Result<bool, Halt>
        requires sound { IsSoundCourse self.old }
        requires counted { self.old.pictures < 2 ^ 62 }
        requires start { start < 2 ^ 41 }
        requires header { slice_stands self.old.state (value_of u.now) ≡ false }
        ensures { Rounds self.old result self.new units.new
            ((known_unit self.old.state start (value_of u.now) u.now).read units.old) }
    {
        let header = read_header(&self.state, start, u, units)?;
        self.enter(alloc, &header)?;
        Ok(header.goes_on())
    }

    /// Reads a unit that is there. Answers whether units may follow.
    fn known(
        &mut self,
        alloc: Global,
        start: u64,
        u: &Unit,
        units: &mut UnitReader,
    ) -> Result<bool, Halt>
        requires sound { IsSoundCourse self.old }
        requires counted { self.old.pictures < 2 ^ 62 }
        requires start { start < 2 ^ 41 }
        ensures { Rounds self.old result self.new units.new
            ((known_unit self.old.state start (value_of u.now) u.now).read units.old) }
    {
        if !is_slice(&self.state, u) {
            return self.header(alloc, start, u, units);
        }
        self.slice(start, u, units)?;
        Ok(true)
    }

    /// The end of the piece.
    fn over(&mut self, alloc: Global) -> Result<bool, Halt>
        requires sound { IsSoundCourse self.old }
        requires counted { self.old.pictures < 2 ^ 62 }
        ensures { Rounds self.old result self.new [] ((text_end self.old.state 0).read []) }
    {
        read_end(&self.state)?;
        self.close(alloc)?;
        Ok(false)
    }

    /// Reads the next unit, or the end of the piece. Answers whether units may follow.
    fn unit(&mut self, alloc: Global, units: &mut UnitReader) -> Result<bool, Halt>
        requires sound { IsSoundCourse self.old }
        requires counted { self.old.pictures < 2 ^ 62 }
        ensures { Rounds self.old result self.new units.new (unit_read self.old.state units.old) }
    {
        let start = units.left();
        match units.next() {
            Some(u) => self.known(alloc, start, &u, units),
            None => self.over(alloc),
        }
    }

    /// Reads all units of a piece.
    pub fn units(&mut self, alloc: Global, units: &mut UnitReader) -> Result<(), Halt>
        requires sound { IsSoundCourse self.old }
        requires counted { self.old.pictures + length units.old < 2 ^ 61 }
        ensures ok { OnOk result (ReadAll self.old units.old self.new) }
        ensures err { IfErr result (CourseStops self.old units.old) }
    {
        while self.unit(alloc, units)? {}
        Ok(())
    }
}
