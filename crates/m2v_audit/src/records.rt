//! What the records of the report tell. Sequences are numbered from 0, pictures from 0 in each sequence, in coding order.
//! Places are counted from the beginning of the input.
use crate::words::{FailureKind, PictureType, RateKind, Structure};
use m2v_strict::Element;

/// A sequence, by its first header.
#[derive(Clone, Copy)]
pub struct SequenceRecord {
    pub sequence: u64,
    pub bit: u64,
    pub width: u64,
    pub height: u64,
    pub frame_rate_code: u64,
    /// The code of its aspect ratio (aspect_ratio_information).
    pub aspect: u64,
    pub profile_and_level: u64,
    pub progressive: bool,
    pub low_delay: bool,
    /// In units of 400 bit/s.
    pub bit_rate: u64,
    /// In units of 16,384 bits.
    pub vbv_buffer_size: u64,
    pub rate: RateKind,
}

/// A group of pictures header.
#[derive(Clone, Copy)]
pub struct GroupRecord {
    pub sequence: u64,
    /// Its number in the sequence, from 0.
    pub group: u64,
    pub bit: u64,
    /// The number of the next picture.
    pub picture: u64,
    /// Its time code passes over numbers of pictures, as at 29.97 Hz (drop_frame_flag).
    pub drop_frame: bool,
    pub hours: u64,
    pub minutes: u64,
    pub seconds: u64,
    pub pictures: u64,
    /// No B picture before its second anchor wants the group before (closed_gop).
    pub closed: bool,
    /// The B pictures before its second anchor lack the group before (broken_link).
    pub broken: bool,
}

/// A picture.
#[derive(Clone, Copy)]
pub struct PictureRecord {
    pub sequence: u64,
    pub picture: u64,
    pub bit: u64,
    pub kind: PictureType,
    pub structure: Structure,
    pub temporal_reference: u64,
    /// The bits of its piece: its headers, its slices and the zero bytes after them.
    pub bits: u64,
    /// The bits of the zero bytes that end it.
    pub zeros: u64,
    pub vbv_delay: u64,
    /// For how many fields it is shown.
    pub fields: u64,
    /// It isn't decoded, as it wants a reference that isn't there.
    pub dropped: bool,
}

/// What the decoder's buffer holds when a picture is removed from it.
#[derive(Clone, Copy)]
pub struct HeldRecord {
    pub sequence: u64,
    pub picture: u64,
    /// When it is due, from when the first picture was due, in units of 1/720,000 s.
    pub time: u128,
    /// The bits that are held, rounded down.
    pub before: u64,
    /// The bits that it takes.
    pub taken: u64,
    /// The bits that are held after it, rounded down.
    pub after: u64,
    /// The delay (vbv_delay) that its removal implies; 65535 at variable rate.
    pub delay: u128,
    /// How long the decoder waits for it, in units of 1/720,000 s.
    pub wait: u64,
}

/// A breach of a rule, or a warning.
#[derive(Clone, Copy)]
pub struct Finding {
    pub sequence: u64,
    pub picture: u64,
    pub bit: u64,
    pub rule: u8,
    /// The element that breaks it, where its rule isn't named by itself.
    pub element: Option<Element>,
    /// What stands there.
    pub have: u128,
    /// What the rule wants.
    pub need: u128,
}

/// A failure of the decoder's buffer.
#[derive(Clone, Copy)]
pub struct FailureRecord {
    pub sequence: u64,
    pub picture: u64,
    pub bit: u64,
    pub kind: FailureKind,
    /// When the picture is due, from when the first picture was due, in units of 1/720,000 s.
    pub time: u128,
    /// What is held, in units of 1/1800 bit.
    pub have: u128,
    /// What the picture takes or, where more is held than there is room for, what the buffer takes.
    pub need: u128,
    /// How long the decoder waits for the picture, in units of 1/720,000 s.
    pub wait: u64,
}

/// How often a rule was told in a sequence.
#[derive(Clone, Copy)]
pub struct CountRecord {
    pub sequence: u64,
    pub rule: u8,
    pub how_often: u64,
    /// The picture where it was told first.
    pub picture: u64,
}

/// What there was in a sequence, at its end.
#[derive(Clone, Copy)]
pub struct EndRecord {
    pub sequence: u64,
    pub pictures: u64,
    /// The frames that are shown.
    pub frames: u64,
    pub groups: u64,
    pub bytes: u64,
    pub breaches: u64,
    pub failures: u64,
    pub warnings: u64,
    /// The least number of bits that the buffer held after a picture.
    pub low: u64,
    /// The greatest number of bits that the buffer held before a picture.
    pub high: u64,
    /// The pictures whose vbv_delay isn't the one that their removal implies.
    pub delays: u64,
    /// The time of its pictures, in units of 1/720,000 s.
    pub time: u128,
}

/// What there was in the whole input.
#[derive(Clone, Copy, Debug, PartialEq, Eq)]
pub struct TotalRecord {
    pub sequences: u64,
    pub pictures: u64,
    pub bytes: u64,
    pub breaches: u64,
    pub failures: u64,
    pub warnings: u64,
}
