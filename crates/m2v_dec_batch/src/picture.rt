//! A picture of a batch, and the frames that it is predicted from.
ghost use Rattle.std.specs.Prelude.{◌≡◌};
ghost use Rattle.m2v_dec_batch.specs.Learned.{behind_of};

use m2v_dec_piece::Piece;
use m2v_dec_rows::Opened;

/// A picture of a batch: its piece, and what was read of the piece's headers.
#[derive(Drop)]
pub struct BatchPicture {
    /// The piece, in which the picture's slices stand.
    pub piece: Piece,
    /// What its headers say.
    pub opened: Opened,
}

/// What the headers of a picture say of its place among others.
#[derive(Clone, Copy, Debug, PartialEq, Eq)]
pub struct Header {
    /// Its picture_coding_type: 1 I, 2 P, 3 B.
    pub kind: u8,
    /// It is the second field of its frame.
    pub second: bool,
    /// Its picture_structure: 1 top field, 2 bottom field, 3 frame.
    pub structure: u8,
    /// How many macroblock rows it has.
    pub rows: u32,
}

/// What the headers of a picture say of its place among others.
pub fn header_of(opened: &Opened) -> Header
    ensures value { result ≡ record {
      kind = opened.now.context.kind;
      second = opened.now.context.second;
      structure = opened.now.context.extension.structure;
      rows = opened.now.rows;
    } }
{
    Header {
        kind: opened.context.kind,
        second: opened.context.second,
        structure: opened.context.extension.structure,
        rows: opened.rows,
    }
}

/// Where a frame at hand stands.
#[derive(Clone, Copy, Debug, PartialEq, Eq)]
pub enum FramePlace {
    /// Before the batch: the last anchor but one.
    Older,
    /// Before the batch: the last anchor.
    Newer,
    /// Before the batch: the frame of the first field that waits for its second field.
    Waiting,
    /// In the batch: the frame as it is behind a picture, of a first field with the lines of that field alone.
    Behind(u32),
}

/// The picture of the batch that a frame stands behind, if it does.
pub(crate) fn behind(place: Option<FramePlace>) -> Option<u32>
    ensures value { result ≡ behind_of place }
{
    match place {
        Some(FramePlace::Behind(q)) => Some(q),
        _ => None,
    }
}

/// The frames that a picture is predicted from: at most two.
#[derive(Clone, Copy, Debug, PartialEq, Eq)]
pub struct Reads {
    /// A P picture's last anchor, or a B picture's last anchor but one.
    pub forward: Option<FramePlace>,
    /// A B picture's last anchor, or the frame of a second P field's first field.
    pub other: Option<FramePlace>,
}
