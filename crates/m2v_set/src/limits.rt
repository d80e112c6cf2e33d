ghost use Rattle.std.specs.Prelude.{◌≡◌, ◌≤◌};
ghost use Rattle.m2v_set.specs.Numbers.{limits_of};

use crate::settings::Level;

/// The bounds that a level sets (tables 8-10 to 8-14).
#[derive(Clone, Copy)]
pub struct Limits {
    /// Luma samples in a line.
    pub width: u32,
    /// Lines of a frame; 1152 at the two higher levels is this project's own.
    pub height: u32,
    /// The highest frame_rate_code.
    pub codes: u32,
    /// Luma samples in a second.
    pub luma: u32,
    /// The rate of the stream, in units of 400 bit/s.
    pub bits: u32,
    /// The buffer, in units of 16384 bits.
    pub buffer: u32,
}

/// The bounds of a level.
#[tactic(auto, unfolding(crate::specs::Numbers::limits_of))]
pub fn limits_at(level: Level) -> Limits
    ensures value { result ≡ limits_of level }
    ensures width { result.width ≤ 1920 }
    ensures height { result.height ≤ 1152 }
    ensures codes { result.codes ≤ 8 }
{
    match level {
        Level::Main => Limits {
            width: 720,
            height: 576,
            codes: 5,
            luma: 10_368_000,
            bits: 37_500,
            buffer: 112,
        },
        Level::High1440 => Limits {
            width: 1440,
            height: 1152,
            codes: 8,
            luma: 47_001_600,
            bits: 150_000,
            buffer: 448,
        },
        Level::High => Limits {
            width: 1920,
            height: 1152,
            codes: 8,
            luma: 62_668_800,
            bits: 200_000,
            buffer: 597,
        },
    }
}
