use m2v_macroblock::head::{PictureExtension, PictureInfo, SequenceExtension, SequenceInfo};

/// A sequence header and the sequence extension behind it.
#[derive(Clone, Copy, Debug, PartialEq, Eq)]
pub struct Sequence {
    pub info: SequenceInfo,
    pub extension: SequenceExtension,
}

/// The picture whose slices are being read.
#[derive(Clone, Copy, Debug, PartialEq, Eq)]
pub struct Open {
    pub info: PictureInfo,
    pub extension: PictureExtension,
    /// It is the second field of its frame.
    pub second_field: bool,
    /// It is dropped.
    pub dropped: bool,
    /// Its slices stay unread: of each the row alone is looked at.
    pub slices_unread: bool,
    /// Which fields of its references were decoded: forward top, forward bottom, backward top, backward bottom.
    pub references: [bool; 4],
    /// A slice of it came.
    pub has_slice: bool,
    /// The macroblock row of its last slice; 0 where there is none yet.
    pub row: u32,
    /// The address of its next uncovered macroblock: addresses count macroblocks in raster order, from 0.
    pub covered: u32,
    /// How many macroblocks of that row so far have more than 4,608 bits.
    pub large_macroblocks: u32,
    /// How many of them the first row above it has that has more than two; 0 where none has.
    pub crowded_row: u32,
}

/// A first field, whose second field wasn't read yet.
#[derive(Clone, Copy, Debug, PartialEq, Eq)]
pub struct FirstField {
    /// Its picture_coding_type.
    pub kind: u8,
    /// Its picture_structure.
    pub structure: u8,
}

/// What the units so far say of those that follow: the headers in force, and what was decoded.
#[derive(Clone, Copy, Debug, PartialEq, Eq)]
pub struct State {
    /// The first sequence header, with which later ones are compared.
    pub first: Option<Sequence>,
    /// The sequence header in force.
    pub sequence: Option<Sequence>,
    /// The matrix of intra blocks, in raster order.
    pub intra: [u8; 64],
    /// The matrix of other blocks, in raster order.
    pub non_intra: [u8; 64],
    /// The last group header says that its group is closed.
    pub closed_gop: bool,
    /// How many anchors there are, those whose last picture is open among them, counted up to 2.
    pub anchors: u8,
    /// The first field that waits for the second field of its frame.
    pub waiting: Option<FirstField>,
    /// Headers alone are read: the slices of all pictures stay unread.
    pub headers_only: bool,
    /// The picture that is open.
    pub picture: Option<Open>,
}
