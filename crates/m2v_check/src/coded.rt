use m2v_model::{PictureNote, Sequence};

/// A coded picture among the others of its stream.
#[derive(Clone, Copy, Debug, PartialEq, Eq)]
pub struct CodedPicture {
    /// Its number in decoding order, from 0.
    pub number: u64,
    /// The sequence header before it.
    pub sequence: Sequence,
    /// It is the first one behind a group header.
    pub first_in_group: bool,
    /// What the decoder notes of it.
    pub note: PictureNote,
}
