ghost use Rattle.std.specs.Prelude.{◌≡◌};
ghost use Rattle.m2v_mend.specs.Strand.{note_stands, note_ends, note_anchors, broken_with, standing_with};

use m2v_model::PictureNote;

/// How the pictures of a strand stand.
#[derive(Clone, Copy, Debug, PartialEq, Eq)]
pub struct Standing {
    /// How many anchors there are, counted up to 2.
    pub anchors: u8,
    /// Where the picture start code of the first picture begins that may not stand where it does, in bits of the input.
    pub broken: Option<u64>,
}

/// Whether a picture may stand in a strand behind so many anchors: behind none an I picture, behind one no B picture.
fn stands(anchors: u8, note: &PictureNote) -> bool
    ensures { result ≡ note_stands anchors note.now }
{
    if note.info.kind == 3 {
        2 <= anchors
    } else {
        anchors > 0 || note.info.kind == 1
    }
}

/// Whether a picture ends its frame: a frame, or a second field.
fn ends_frame(note: &PictureNote) -> bool
    ensures { result ≡ note_ends note.now }
{
    note.extension.structure == 3 || !note.first
}

/// The anchors behind a picture.
fn anchors_behind(anchors: u8, note: &PictureNote) -> u8
    ensures { result ≡ note_anchors anchors note.now }
{
    if note.info.kind == 3 || !ends_frame(note) {
        anchors
    } else if anchors < 2 {
        anchors + 1
    } else {
        2
    }
}

/// The first picture that may not stand where it does, with one more.
fn broken_with(broken: Option<u64>, stands: bool, place: u64) -> Option<u64>
    ensures { result ≡ broken_with broken stands place }
{
    if broken.is_none() && !stands {
        Some(place)
    } else {
        broken
    }
}

impl Standing {
    /// With the picture of one more piece, if it has one.
    pub fn with(&self, note: &Option<PictureNote>) -> Standing
        ensures { result ≡ standing_with self.now note.now }
    {
        match note {
            None => *self,
            Some(note) => Standing {
                anchors: anchors_behind(self.anchors, note),
                broken: broken_with(
                    self.broken,
                    stands(self.anchors, note),
                    note.code_end.saturating_sub(32),
                ),
            },
        }
    }
}
