ghost use Rattle.std.specs.Prelude.{◌≡◌};

use m2v_head::PictureExtension;
use m2v_vector::Pmv;
use m2v_vlc::MbType;

/// A macroblock without its blocks (clause 6.2.5).
///
/// `increment` has its escapes added. `form` is frame_motion_type or field_motion_type; without the element it is 2 in
/// a frame picture and 0 in a field picture. `vectors` are whole vectors in half samples, by number, direction
/// (0 forward, 1 backward) and component (0 horizontal, 1 vertical); concealment vectors are forward ones. `bottom`
/// tells, by number and direction, that the reference field is the bottom one. `pattern` has a bit for each coded block,
/// the highest of six for the first, and is 63 in an intra macroblock. What the macroblock doesn't have is 0 or false.
#[derive(Clone, Copy, Debug, PartialEq, Eq)]
pub struct MacroSyntax {
    pub increment: u32,
    pub kind: MbType,
    pub form: u8,
    pub dct_field: bool,
    pub quantiser: u8,
    pub vectors: [[[i32; 2]; 2]; 2],
    pub bottom: [[bool; 2]; 2],
    pub dmvector: [i32; 2],
    pub pattern: u8,
}

static BLANK: MacroSyntax = MacroSyntax {
    increment: 0,
    kind: MbType {
        quant: false,
        forward: false,
        backward: false,
        pattern: false,
        intra: false,
    },
    form: 0,
    dct_field: false,
    quantiser: 0,
    vectors: [[[0, 0], [0, 0]], [[0, 0], [0, 0]]],
    bottom: [[false, false], [false, false]],
    dmvector: [0, 0],
    pattern: 0,
};

/// The same macroblock.
#[inline(always)]
pub fn copied(m: &MacroSyntax) -> MacroSyntax
    ensures { result ≡ m.now }
{
    *m
}

impl MacroSyntax {
    ghost use Rattle.m2v_macro.specs.Macros.{blank as blank_of};

    /// A macroblock that has nothing: all is 0 or false. Callers begin with it, since a struct whose field is an array
    /// three deep isn't written as one literal.
    pub fn blank() -> MacroSyntax
        ensures { result ≡ blank_of }
    {
        copied(&BLANK)
    }
}

/// What the macroblocks of a slice so far leave to the next one.
///
/// `quantiser` is the quantiser code in force, `dc` the DC predictors of Y, Cb and Cr. `forward`, `backward` and
/// `intra` tell the last macroblock's type, `first` that none of the slice was read yet. `address` is the address
/// before: that of the last macroblock, and at a slice's start that of the last one of the row above. `next` is the
/// next uncovered macroblock of the picture when the slice began.
#[derive(Clone, Copy, Debug, PartialEq, Eq)]
pub struct SliceState {
    pub quantiser: u8,
    pub dc: [i32; 3],
    pub pmv: Pmv,
    pub forward: bool,
    pub backward: bool,
    pub intra: bool,
    pub first: bool,
    pub address: i64,
    pub next: u32,
}

/// What the headers say of a picture. `kind` is picture_coding_type: 1 I, 2 P, 3 B; `second` tells the second field of
/// a frame; `columns` is the number of macroblocks in a row; the matrices are in raster order.
#[derive(Clone, Copy, Debug, PartialEq, Eq)]
pub struct PictureContext {
    pub kind: u8,
    pub second: bool,
    pub columns: u32,
    pub extension: PictureExtension,
    pub intra: [u8; 64],
    pub non_intra: [u8; 64],
}

/// How the vectors of a direction are spelled.
#[derive(Clone, Copy, Debug, PartialEq, Eq)]
pub struct Shape {
    /// A reference field bit stands before each vector.
    pub bit: bool,
    /// The vectors are those of fields in a frame picture.
    pub halved: bool,
    /// A dmvector stands behind each component.
    pub dual: bool,
    /// There are two vectors.
    pub two: bool,
}

/// A vector with its reference field bit and its dmvector.
#[derive(Clone, Copy, Debug, PartialEq, Eq)]
pub struct Selected {
    pub bottom: bool,
    pub vector: [i32; 2],
    pub dmvector: [i32; 2],
}

/// The vectors of a direction.
#[derive(Clone, Copy, Debug, PartialEq, Eq)]
pub struct Direction {
    pub first: Selected,
    pub second: Selected,
}
