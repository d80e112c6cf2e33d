/// Why no code could be read.
#[derive(Clone, Copy, Debug, PartialEq, Eq)]
pub enum CodeFault {
    /// The bits end inside a code.
    Truncated,
    /// The bits are no code's, nor the front of one.
    NoCode,
}

/// What a code of an address increment stands for (clause 6.3.17, table B.1).
#[derive(Clone, Copy, Debug, PartialEq, Eq)]
pub enum Increment {
    /// From 1 to 33 macroblocks on.
    Step(u8),
    /// 33 macroblocks more than the increment that follows.
    Escape,
}

/// The type of a macroblock (clause 6.3.17.1, tables B.2 to B.4).
#[derive(Clone, Copy, Debug, PartialEq, Eq)]
pub struct MbType {
    /// A quantiser code follows.
    pub quant: bool,
    /// It has forward vectors.
    pub forward: bool,
    /// It has backward vectors.
    pub backward: bool,
    /// A coded block pattern follows.
    pub pattern: bool,
    /// It is intra coded.
    pub intra: bool,
}

/// What a code of a DCT coefficient stands for (clause 7.2.2, tables B.14 and B.15).
#[derive(Clone, Copy, Debug, PartialEq, Eq)]
pub enum Coefficient {
    /// The block ends.
    End,
    /// A run and a level follow by their numbers.
    Escape,
    /// So many coefficients that are 0, and the level behind them, which is not 0.
    Pair { run: u8, level: i16 },
}

/// A pair and its code, in four bytes: the level, within 40 and not 0; how many coefficients are 0 before it, up to 31; and how
/// many bits the code has, seventeen at most. In place of the run, 128 stands for the end of the block, and 64 for no pair that
/// the look-up knows.
pub type ShortPair = (i16, u8, u8);
