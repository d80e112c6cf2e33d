ghost use Rattle.std.specs.Prelude.{◌≡◌, ◌≤◌, ◌<◌, ◌^◌};
ghost use Rattle.m2v_set.specs.Numbers.{limits_of, field_time};
ghost use Rattle.m2v_model.specs.Lawful.{is_level, level_of, most_horizontal};

use m2v_set::Level;

/// The bounds that a level sets (tables 8-10 to 8-14).
#[derive(Clone, Copy)]
pub struct Bounds {
    /// Luma samples in a line.
    pub width: u64,
    /// Lines of a frame.
    pub height: u64,
    /// The highest frame_rate_code.
    pub codes: u8,
    /// Luma samples in a second.
    pub luma: u64,
    /// The rate of the stream, in units of 400 bit/s.
    pub bits: u64,
    /// The buffer, in units of 16384 bits.
    pub buffer: u64,
}

/// profile_and_level is that of the main profile at a level that is judged (tables 8-2 and 8-3).
pub fn is_level(code: u8) -> bool
    ensures value { result ≡ is_level code }
{
    code == 72 || code == 70 || code == 68
}

/// The level of a profile_and_level; other codes count as Main level.
#[tactic(auto, unfolding(m2v_model::specs::Lawful::level_of))]
pub fn level_of(code: u8) -> Level
    ensures value { result ≡ level_of code }
{
    if code == 68 {
        return Level::High;
    }
    if code == 70 {
        return Level::High1440;
    }
    Level::Main
}

/// The greatest horizontal f_code of a level.
#[tactic(auto, unfolding(m2v_model::specs::Lawful::most_horizontal))]
pub fn most_horizontal(level: Level) -> u8
    ensures value { result ≡ most_horizontal level }
{
    match level {
        Level::Main => 8,
        Level::High1440 => 9,
        Level::High => 9,
    }
}

/// The bounds of a level.
#[tactic(auto, unfolding(m2v_set::specs::Numbers::limits_of))]
pub fn bounds_at(level: Level) -> Bounds
    ensures width { result.width ≡ (limits_of level).width }
    ensures height { result.height ≡ (limits_of level).height }
    ensures codes { result.codes ≡ (limits_of level).codes }
    ensures luma { result.luma ≡ (limits_of level).luma }
    ensures bits { result.bits ≡ (limits_of level).bits }
    ensures buffer { result.buffer ≡ (limits_of level).buffer }
    ensures most_luma { result.luma < 2 ^ 26 }
{
    match level {
        Level::Main => Bounds {
            width: 720,
            height: 576,
            codes: 5,
            luma: 10_368_000,
            bits: 37_500,
            buffer: 112,
        },
        Level::High1440 => Bounds {
            width: 1440,
            height: 1152,
            codes: 8,
            luma: 47_001_600,
            bits: 150_000,
            buffer: 448,
        },
        Level::High => Bounds {
            width: 1920,
            height: 1152,
            codes: 8,
            luma: 62_668_800,
            bits: 200_000,
            buffer: 597,
        },
    }
}

/// The time of a field in units of 1/720,000 s, by frame_rate_code (table 6-4); 0 for codes that are forbidden or reserved.
pub fn time_of_field(code: u8) -> u64
    ensures value { result ≡ field_time code }
    ensures most { result ≤ 15015 }
{
    m2v_set::time_of_field(u32::from(code))
}
