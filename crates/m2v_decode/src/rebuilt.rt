//! A picture whose rows were read elsewhere, taken into a decoder.
ghost use Rattle.std.specs.Prelude.{◌≡◌, ◌+◌, ◌*◌, ◌^◌, ◌<◌, ◌≤◌, ℕ, IfSome, OnOk};
ghost use Rattle.m2v_model.specs.Pictures.{on_frame};
ghost use Rattle.m2v_dec_rows.specs.m2v_dec_picture.Conditions.{rows_in};
ghost use Rattle.m2v_dec_rows.specs.Opened.{setup_of};
ghost use Rattle.m2v_decode.specs.Rebuilt.{open_of as picture_of, rows_set, frame_begun};
ghost use Rattle.m2v_decode.specs.Taking.{CanTake, TookIn};

use crate::Memory;
use crate::course::Course;
use m2v_dec_rows::Opened;
use m2v_dec_rows::dec_picture::Gallery;
use m2v_dec_rows::pred::own_lines;
use m2v_model::{Open, State};
use m2v_plane::RowSamples;
use std::alloc::Global;

/// The rows of a picture that were read elsewhere.
pub trait PictureRows {
    ghost use Rattle.std.specs.Prelude.{◌≡◌, ℕ};
    ghost use Rattle.m2v_plane.specs.Samples.{Samples};

    // The row is there.
    ghost there: { Self → ℕ → Type 0 };
    // Its samples.
    ghost samples: { Self → ℕ → Samples };

    /// A row that is there, from 0.
    fn row(&self, r: u32) -> &RowSamples
        requires { there self.now r }
        ensures { result.now ≡ samples self.now r };
}

/// The picture, as one of which no slice came.
fn open_of(opened: &Opened) -> Open
    ensures { result ≡ picture_of opened.now }
{
    Open {
        info: opened.note.info,
        extension: opened.note.extension,
        second_field: opened.context.second,
        dropped: opened.note.dropped,
        slices_unread: false,
        references: opened.references,
        has_slice: false,
        row: 0,
        covered: 0,
        large_macroblocks: 0,
        crowded_row: 0,
    }
}

/// Sets the rows of a picture into the frame that is open, of a field picture as rows of its field.
fn set_rows<R: PictureRows>(gallery: &mut Gallery, opened: &Opened, rows: &R)
    requires count { opened.now.rows ≡ rows_in (setup_of opened.now) }
    requires size { IfSome gallery.old.current (λ f. f.dims ≡ opened.now.dims) }
    requires same { (r : ℕ) → r < opened.now.rows → (R.samples rows.now r).dims ≡ opened.now.dims }
    requires there { (r : ℕ) → r < opened.now.rows → R.there rows.now r }
    ensures { gallery.new ≡ record gallery.old {
      current = on_frame (rows_set opened.now.context.extension.structure (R.samples rows.now)
          opened.now.rows) gallery.old.current;
    } }
{
    let lines = own_lines(opened.context.extension.structure);
    for row in 0..opened.rows {
        gallery.set_row(lines, row, rows.row(row));
    }
}

impl Course {
    /// Takes in a picture whose rows were read elsewhere, behind the headers that lead to it. Where memory runs out the
    /// decoder is good for nothing.
    pub fn take_in<R: PictureRows>(
        &mut self,
        alloc: Global,
        opened: &Opened,
        after: &State,
        rows: &R,
    ) -> Result<(), Memory>
        requires can { CanTake self.old opened.now after.now }
        requires counted { self.old.pictures < 2 ^ 62 }
        requires dropped { self.old.dropped ≤ self.old.pictures }
        requires count { opened.now.rows ≡ rows_in (setup_of opened.now) }
        requires same { (r : ℕ) → r < opened.now.rows
            → (R.samples rows.now r).dims ≡ opened.now.dims }
        requires there { (r : ℕ) → r < opened.now.rows → R.there rows.now r }
        ensures { OnOk result (TookIn self.old opened.now after.now
            (rows_set opened.now.context.extension.structure (R.samples rows.now) opened.now.rows
            (frame_begun opened.now self.old.gallery.current)) self.new) }
    {
        // a picture is read behind a sequence header alone, so this doesn't come
        let (Some(first), Some(sequence)) = (after.first, after.sequence) else {
            return Ok(());
        };
        let picture = open_of(opened);
        self.open_queue(&first);
        self.gallery.begin(alloc, &sequence, &picture)?;
        set_rows(&mut self.gallery, opened, rows);
        self.state = *after;
        self.state.headers_only = false;
        self.finish(alloc, &picture)
    }
}
