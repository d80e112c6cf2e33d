use m2v_macro::MacroSyntax;
use m2v_pred::Block16;
use m2v_quant::Levels;

/// What the choice of a macroblock keeps to, and where the macroblock stands.
#[derive(Clone, Copy, Debug, PartialEq, Eq)]
pub struct Limits {
    /// The quantiser code that the picture's plan gives, 1 to 31.
    pub q: u8,
    /// How far vectors are searched to each side, in whole samples, at most 15.
    pub search: u32,
    /// How many bits the macroblock may take so that the rest of the slice can still be held.
    pub room: u64,
    /// The macroblock is the first one of its slice.
    pub first: bool,
    /// The macroblock is the last one of its slice.
    pub last: bool,
    /// The macroblock's column in its row, from 0.
    pub column: u32,
    /// The macroblock row of the picture, from 0.
    pub row: u32,
}

/// What was chosen for a macroblock.
#[derive(Clone, Copy)]
pub struct Choice {
    /// It is skipped, and nothing is written: then its elements are blank, its levels and its bits 0.
    pub skip: bool,
    /// Its elements up to the pattern.
    pub syntax: MacroSyntax,
    /// The levels of its six blocks in scan order, those of blocks that aren't coded too.
    pub levels: [Levels; 6],
    /// How many bits all of it takes.
    pub bits: u32,
    /// Its samples as a decoder rebuilds them.
    pub samples: Block16,
}
