ghost use Rattle.std.specs.Prelude.{◌≡◌};
ghost use Rattle.m2v_dec_rows.specs.Opened.{setup_of};

use m2v_dec_piece::Fault;
use m2v_macro::PictureContext;
use m2v_model::{PictureNote, SliceSetup};
use m2v_plane::Dims;

/// A slice of a picture, which is read later.
#[derive(Clone, Copy, Debug, PartialEq, Eq)]
pub struct SliceUnit {
    /// Its macroblock row, from 0.
    pub row: u32,
    /// The place of its first byte in the input.
    pub place: u64,
    /// How many bytes it has, up to the next start code.
    pub length: u64,
}

/// What the headers of a piece say of its picture, whose slices weren't read.
#[derive(Debug, Drop, PartialEq, Eq)]
pub struct Opened {
    /// What is told of the picture; none of its rows counts as crowded.
    pub note: PictureNote,
    /// What its macroblocks are read by.
    pub context: PictureContext,
    /// The size of the whole frame.
    pub dims: Dims,
    /// low_delay of the first sequence extension.
    pub low_delay: bool,
    /// How many macroblock rows the picture has.
    pub rows: u32,
    /// Which fields of its references were decoded: forward top, forward bottom, backward top, backward bottom.
    pub references: [bool; 4],
    /// Its slices in order, those before the fault.
    pub slices: Vec<SliceUnit>,
    /// The first fault of the piece behind the picture's headers that isn't a row's.
    pub fault: Option<Fault>,
}

impl Opened {
    /// What the slices are read by.
    pub fn setup(&self) -> SliceSetup
        ensures { result ≡ setup_of self.now }
    {
        SliceSetup {
            context: self.context,
            dims: self.dims,
            references: self.references,
        }
    }
}
