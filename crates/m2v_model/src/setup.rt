use m2v_macroblock::macro_library::PictureContext;
use m2v_order::plane::Dims;

/// What the headers in force say of the slices of a picture.
#[derive(Clone, Copy, Debug, PartialEq, Eq)]
pub struct SliceSetup {
    /// What its macroblocks are read by.
    pub context: PictureContext,
    /// The size of the whole frame.
    pub dims: Dims,
    /// Which fields of its references were decoded: forward top, forward bottom, backward top, backward bottom.
    pub references: [bool; 4],
}
