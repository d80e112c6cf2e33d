/// Where a YUV4MPEG2 text breaks its format, and how.
#[derive(Clone, Copy, Debug, PartialEq, Eq)]
pub struct Y4mFault {
    pub kind: Y4mKind,
    /// The place in bytes from the first byte of the text, counted up to 2^64 - 1.
    pub place: u64,
}

/// How a YUV4MPEG2 text breaks its format.
#[derive(Clone, Copy, Debug, PartialEq, Eq)]
pub enum Y4mKind {
    /// The text doesn't begin with `YUV4MPEG2` and a space or a newline. The place is 0.
    Magic,
    /// The first 1,024 bytes of a line hold no newline, or the text ends in it. The place is the line's first byte.
    Line,
    /// A word of the header is empty, a W, H, F, I or C comes again, or its digits aren't as said; the place is the
    /// word's first letter. Or W, H or F is missing; the place is the newline.
    Field,
    /// W isn't 1 to 1920, or H isn't 1 to 1152. The place is the word's first letter, as of the kinds below.
    Size,
    /// F isn't the rate of a code 1 to 8, or its second number is 0.
    Rate,
    /// I isn't p, t or ?.
    Interlace,
    /// C isn't 420, 420jpeg, 420mpeg2 or 420paldv.
    Chroma,
    /// A line behind the header line or behind a frame isn't `FRAME` with a space or a newline behind it, or the text
    /// ends behind its newline with no byte of the frame. The place is the line's first byte.
    Frame,
}

/// Why a YUV4MPEG2 source didn't open.
#[derive(Clone, Copy, Debug, PartialEq, Eq)]
pub enum Y4mError {
    /// The input failed.
    Read,
    /// The header line is broken.
    Y4m(Y4mFault),
    /// Memory ran out.
    Memory,
}

/// Why `pack` stopped.
#[derive(Clone, Copy, Debug, PartialEq, Eq)]
pub enum EncodeFault {
    /// The input failed.
    Read,
    /// The output failed.
    Write,
    /// The raw input ends inside a frame, of which it has so many bytes.
    ShortFrame { extra: u64 },
    /// A byte follows the last frame that a raw input may have.
    TooManyFrames,
    /// Memory ran out.
    Memory,
}

/// Why `unpack` stopped.
#[derive(Clone, Copy, Debug, PartialEq, Eq)]
pub enum UnpackError {
    /// The input failed.
    Read,
    /// The output failed.
    Write,
    /// The text ends inside a frame, of which it has so many bytes.
    ShortFrame { extra: u64 },
    /// A byte of a frame follows the last frame that a raw output may have.
    TooManyFrames,
    /// The first fault of the text.
    Y4m(Y4mFault),
    /// Memory ran out.
    Memory,
}

/// What was written: how many frames, and how many bytes.
#[derive(Clone, Copy, Debug, PartialEq, Eq)]
pub struct PackSummary {
    pub frames: u64,
    pub bytes: u64,
}
