use m2v_macroblock::head::{PictureExtension, PictureInfo, SequenceExtension, SequenceInfo};

/// What a decoder tells of a piece: a picture with the header units before it.
#[derive(Debug, Drop, PartialEq, Eq)]
pub struct Notes {
    /// Its sequence headers, each with the sequence extension behind it, in order.
    pub sequences: Vec<(SequenceInfo, SequenceExtension)>,
    /// A group header stands in it.
    pub group: bool,
    /// Its picture; the last piece may have none.
    pub picture: Option<PictureNote>,
}

/// What is told of a picture beside its samples.
#[derive(Clone, Copy, Debug, PartialEq, Eq)]
pub struct PictureNote {
    /// Its picture header.
    pub info: PictureInfo,
    /// Its picture coding extension.
    pub extension: PictureExtension,
    /// The place behind its picture start code, in bits from the first byte of the input.
    pub code_end: u64,
    /// It is dropped: its slices stay unread, and its frame isn't shown.
    pub dropped: bool,
    /// It begins its frame: a frame picture, or a first field.
    pub first: bool,
    /// How many macroblocks of more than 4,608 bits its first row has that has more than two of them; 0 where none has.
    pub crowded: u32,
}
