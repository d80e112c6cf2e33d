//! What comes before a picture in its sequence.

/// A picture, as far as the arrival of its bits asks for it.
#[derive(Clone, Copy, Debug, PartialEq, Eq)]
pub struct Arrival {
    /// Where its start code ends in the input, in bits.
    pub code_end: u64,
    /// The time from its removal to that of the next picture, in units of 1/720,000 s; below 2^20.
    pub units: u64,
    /// Its vbv_delay.
    pub delay: u64,
}

/// What comes before a picture in its sequence.
#[derive(Clone, Copy, Debug, PartialEq, Eq)]
pub struct Preceding {
    /// A sequence header, behind the picture before.
    pub headed: bool,
    /// The bit rate of the first sequence header, in units of 400 bit/s.
    pub rate: u64,
    /// The picture before.
    pub picture: Option<Arrival>,
}
