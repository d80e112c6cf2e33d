/// Why the encoder stopped.
#[derive(Clone, Copy, Debug, PartialEq, Eq)]
pub enum EncodeError {
    /// The input failed.
    Read,
    /// The output failed.
    Write,
    /// The raw input ends inside a frame, of which it has so many bytes.
    ShortFrame { extra: u64 },
    /// The raw input is empty.
    NoFrames,
    /// A byte follows the last frame that a raw input may have.
    TooManyFrames,
    /// Memory ran out.
    Memory,
}

/// What was coded: how many frames were read, pictures coded, bytes written, and zero bytes stuffed among these.
#[derive(Clone, Copy, Debug, PartialEq, Eq)]
pub struct Summary {
    pub frames: u64,
    pub pictures: u64,
    pub bytes: u64,
    pub stuffing: u64,
}
