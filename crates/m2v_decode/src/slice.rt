ghost use Rattle.std.specs.Prelude.{◌≡◌, ◌+◌, ◌-◌, ◌*◌, ◌^◌, ◌<◌, ◌≤◌, List, ℕ, IfErr, OnOk, Ok, Err, Some, true, false};
ghost use Rattle.m2v_model.specs.States.{picture_rows as rows_in};
ghost use Rattle.m2v_model.specs.Streams.{Part, value_of, slice_unit, unread_slice};
ghost use Rattle.m2v_decode.specs.Course.{IsSoundCourse, Steps, Paints};

use crate::course::Course;
use m2v_dec_rows::dec_picture::SliceEnd;
use m2v_dec_rows::dec_unit::{
    Unit, UnitReader, enter_slice, enter_unread_slice, slice_place, slice_setup,
};
use m2v_model::{Open, Sequence, Stop};

impl Course {
    /// Reads a slice of a row of the picture that is open, and paints it into its frame.
    fn paint(
        &mut self,
        s: &Sequence,
        p: &Open,
        row: u32,
        u: &Unit,
        units: &UnitReader,
    ) -> Result<SliceEnd, Stop>
        requires sound { IsSoundCourse self.old }
        requires sequence { self.old.state.sequence ≡ Some s.now }
        requires picture { self.old.state.picture ≡ Some p.now }
        requires read { p.now.slices_unread ≡ false }
        requires row { row < rows_in s.now p.now }
        ensures { Paints self.old s.now p.now row u.now units.now result self.new }
    {
        let setup = slice_setup(&self.state, s, p);
        match self.gallery.slice(&mut u.body(), &setup, p.covered, row) {
            Ok(end) => Ok(end),
            Err(e) => Err(Stop {
                kind: e.kind,
                left: e.left + units.left(),
            }),
        }
    }

    /// A slice of a row of a picture whose slices stay unread.
    fn pass_over(&mut self, row: u32)
        requires sound { IsSoundCourse self.old }
        ensures { (u : List ℕ) → Steps self.old (unread_slice row u) self.new }
    {
        enter_unread_slice(&mut self.state, row);
    }

    /// Reads a unit that is a slice, and paints it into the frame of the picture that is open; where the picture's slices
    /// stay unread, its row alone is looked at.
    ///
    /// # Errors
    /// The first fault in reading order, with the bits of the piece that are left at its place.
    pub fn slice(&mut self, start: u64, u: &Unit, units: &UnitReader) -> Result<(), Stop>
        requires sound { IsSoundCourse self.old }
        requires value { 1 ≤ value_of u.now }
        requires start { start < 2 ^ 41 }
        ensures ok { OnOk result ((x : Part)
            × ((slice_unit self.old.state self.old.state.sequence self.old.state.picture
            (value_of u.now - 1) start u.now).read units.now ≡ Ok (x, units.now))
            × Steps self.old x self.new) }
        ensures err { IfErr result
            (λ e. (slice_unit self.old.state self.old.state.sequence self.old.state.picture
            (value_of u.now - 1) start u.now).read units.now ≡ Err (e.kind, e.left)) }
    {
        let row = u32::from(u.value()) - 1;
        let (s, p) = slice_place(&self.state, row, start)?;
        if p.slices_unread {
            self.pass_over(row);
            return Ok(());
        }
        let end = self.paint(&s, &p, row, u, units)?;
        enter_slice(&mut self.state, row, end.covered, end.large);
        Ok(())
    }
}
