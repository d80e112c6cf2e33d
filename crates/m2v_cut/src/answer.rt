/// What was cut out.
#[derive(Clone, Copy, Debug, PartialEq, Eq)]
pub struct CutSummary {
    /// How many groups were chosen, by their headers.
    pub groups: u64,
    /// How many bytes were written.
    pub bytes: u64,
}

/// Why nothing more was cut out.
#[derive(Clone, Copy, Debug, PartialEq, Eq)]
pub enum CutError {
    /// The input failed.
    Read,
    /// The output failed.
    Write,
    /// The stream has too few groups: how many there are, and how many there would have to be.
    NoGroup { have: u64, need: u64 },
    /// The first group needs pictures or headers before it: the place of its header in bits.
    NotCuttable { place: u64 },
    /// A byte follows the first 2^36 bytes of the input, and no sequence end code stands before it.
    TooLong,
    /// A piece has more than 2,097,152 bytes up to its last byte that isn't zero.
    PictureTooLarge,
    /// Memory ran out.
    Memory,
}
