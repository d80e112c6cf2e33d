/// How the frames are scanned and coded.
#[derive(Clone, Copy, Debug, PartialEq, Eq)]
pub enum Scan {
    /// Progressive frames.
    Progressive,
    /// Interlaced frames, each coded as one frame picture.
    Frames,
    /// Interlaced frames, each coded as two field pictures.
    Fields,
}

/// How bits are shared among the pictures of a group.
#[derive(Clone, Copy, Debug, PartialEq, Eq)]
pub enum Planning {
    /// By the types of the pictures: a fixed weight for each.
    Weights,
    /// By how much there is to code in the source, for even quality.
    Even,
}

/// A level of the Main profile (clause 8.4); it bounds size, rates and buffer.
#[derive(Clone, Copy, Debug, PartialEq, Eq)]
pub enum Level {
    /// Main level: up to 720 by 576.
    Main,
    /// High 1440 level: up to 1440 by 1152.
    High1440,
    /// High level: up to 1920 by 1152.
    High,
}

/// The settings of the encoder, as they are given. [`Settings::test`](crate::Settings::test) says whether they pass.
#[derive(Clone, Copy, Debug, PartialEq, Eq)]
pub struct Settings {
    /// Luma samples in a line.
    pub width: u32,
    /// Lines of a frame.
    pub height: u32,
    /// frame_rate_code (table 6-4).
    pub rate_code: u32,
    /// The rate of the stream, in units of 400 bit/s.
    pub bits: u32,
    /// The size of the decoder's buffer, in units of 16384 bits.
    pub buffer: u32,
    /// The delay of the first picture in ticks of 1/90,000 s; without one the buffer is filled to three quarters.
    pub delay: Option<u32>,
    /// Frames in a group of pictures.
    pub group: u32,
    /// Frames from one I or P frame to the next.
    pub step: u32,
    /// Whether each group can be decoded without the one before.
    pub closed: bool,
    /// How the frames are scanned.
    pub scan: Scan,
    /// How many samples the search for vectors goes in each direction.
    pub search: u32,
    /// aspect_ratio_information (table 6-3).
    pub aspect: u32,
    /// Workers that code slices.
    pub workers: u32,
    /// Whether film frames are shown for three and two fields in turn.
    pub pulldown: bool,
    /// The level that bounds the settings.
    pub level: Level,
    /// How bits are shared among pictures. Settings pass with either.
    pub planning: Planning,
}
