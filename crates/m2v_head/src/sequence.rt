/// A sequence header without its start code (clause 6.2.2.1).
///
/// Sizes are in samples and rates in units of 400 bit/s, each the low bits of the whole number, whose high bits
/// stand in the sequence extension. The buffer's size is in units of 16,384 bits. A matrix is in raster order, and
/// `Some` where its flag is set.
#[derive(Clone, Copy, Debug, PartialEq, Eq)]
pub struct SequenceInfo {
    pub horizontal_size: u32,
    pub vertical_size: u32,
    pub aspect: u8,
    pub frame_rate_code: u8,
    pub bit_rate: u32,
    pub vbv_buffer_size: u32,
    pub constrained: bool,
    pub load_intra: Option<[u8; 64]>,
    pub load_non_intra: Option<[u8; 64]>,
}

/// A sequence extension without its start code (clause 6.2.2.3). The extensions of sizes, rate and buffer are the
/// high bits of the numbers in the sequence header.
#[derive(Clone, Copy, Debug, PartialEq, Eq)]
pub struct SequenceExtension {
    pub profile_and_level: u8,
    pub progressive_sequence: bool,
    pub chroma_format: u8,
    pub horizontal_ext: u8,
    pub vertical_ext: u8,
    pub bit_rate_ext: u32,
    pub vbv_ext: u8,
    pub low_delay: bool,
    pub rate_n: u8,
    pub rate_d: u8,
}
