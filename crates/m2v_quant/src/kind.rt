/// What a block is coded with.
#[derive(Clone, Copy, Debug, PartialEq, Eq)]
pub struct BlockKind {
    /// It belongs to an intra macroblock.
    pub intra: bool,
    /// It is one of the four luma blocks.
    pub luma: bool,
    /// The value of intra_dc_precision, from 0 to 3 (clause 6.3.10).
    pub precision: u8,
    /// The quantiser scale, from 1 to 112 (table 7-6).
    pub scale: u32,
    /// The matrix in raster order, with no 0 in it (clause 6.3.11).
    pub matrix: [u8; 64],
    /// It goes by the alternate scan (figure 7-3).
    pub alternate: bool,
}

/// The levels of a block in scan order.
#[derive(Clone, Copy, Debug, PartialEq, Eq)]
pub struct Levels {
    /// The level of each position, within -2047 to 2047.
    pub at: [i32; 64],
}
