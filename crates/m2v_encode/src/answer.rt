/// The numbers of a stream that was coded.
#[derive(Clone, Copy, Debug, PartialEq, Eq)]
pub struct Summary {
    /// Frames that were read.
    pub frames: u64,
    /// Pictures that were coded, a field picture as one.
    pub pictures: u64,
    /// Bytes of the stream.
    pub bytes: u64,
    /// Zero bytes among them, sent so that the decoder's buffer doesn't run over.
    pub stuffing: u64,
}

/// Why coding stopped.
#[derive(Clone, Copy, Debug, PartialEq, Eq)]
pub enum EncodeError {
    /// The input failed.
    Read,
    /// The output or the recon failed.
    Write,
    /// The input ended inside a frame, of which these many bytes are there.
    ShortFrame {
        /// The bytes that are there.
        extra: u64,
    },
    /// The input was empty.
    NoFrames,
    /// A byte followed frame 999,999.
    TooManyFrames,
    /// No memory was left.
    Memory,
}
