//! The numbers that settings stand for. None of them wraps, whatever the settings are.
ghost use Rattle.std.specs.Prelude.{◌≡◌, ◌≤◌, ◌<◌, ◌+◌, ◌*◌, ◌/◌, ◌^◌};
ghost use Rattle.m2v_set.specs.Numbers.{field_time, interval_of, longest_interval_of, arrival_of, longest_of, buffer_bits, mb_width_of, rows_by, frame_rows_by, slice_least, least_of, delay_of, dims_of};

use crate::settings::{Scan, Settings};
use m2v_plane::Dims;

/// The time of a field, in units of 1/720,000 s, by frame_rate_code (table 6-4); 0 for a code that has none.
#[tactic(auto, unfolding(crate::specs::Numbers::field_time, crate::specs::Numbers::field_units))]
pub fn time_of_field(code: u32) -> u64
    ensures value { result ≡ field_time code }
    ensures most { result ≤ 15015 }
{
    match code {
        1 => 15015,
        2 => 15000,
        3 => 14400,
        4 => 12012,
        5 => 12000,
        6 => 7200,
        7 => 6006,
        8 => 6000,
        _ => 0,
    }
}

/// The time from one picture to the next, in the same units.
#[tactic(auto, unfolding(crate::specs::Numbers::picture_time))]
pub fn interval(settings: &Settings) -> u64
    ensures value { result ≡ interval_of settings.now }
    ensures most { result ≤ 30030 }
{
    match settings.scan {
        Scan::Progressive | Scan::Frames => 2 * time_of_field(settings.rate_code),
        Scan::Fields => time_of_field(settings.rate_code),
    }
}

/// The longest time from one picture to the next: with pulldown a frame may be shown for three fields.
#[tactic(auto, unfolding(crate::specs::Numbers::longest_interval_of))]
pub fn longest_interval(settings: &Settings) -> u64
    ensures value { result ≡ longest_interval_of settings.now }
    ensures most { result ≤ 45045 }
{
    if settings.pulldown {
        3 * time_of_field(settings.rate_code)
    } else {
        interval(settings)
    }
}

/// What arrives in an interval, in units of 1/1800 bit.
#[tactic(auto, unfolding(crate::specs::Numbers::arrival_of))]
pub fn arrival(settings: &Settings) -> u64
    ensures value { result ≡ arrival_of settings.now }
    ensures most { result ≤ settings.now.bits * 30030 }
    ensures below { result < 2 ^ 47 }
{
    u64::from(settings.bits) * interval(settings)
}

/// What arrives at most from one picture to the next, in units of 1/1800 bit.
#[tactic(auto, unfolding(crate::specs::Numbers::longest_of))]
pub fn longest(settings: &Settings) -> u64
    ensures value { result ≡ longest_of settings.now }
    ensures most { result ≤ settings.now.bits * 45045 }
    ensures below { result < 2 ^ 48 }
{
    u64::from(settings.bits) * longest_interval(settings)
}

/// The decoder's buffer, in bits.
pub fn buffer(settings: &Settings) -> u64
    ensures value { result ≡ buffer_bits settings.now }
    ensures most { result < 2 ^ 46 }
{
    16384 * u64::from(settings.buffer)
}

/// Macroblocks in a row.
pub fn mb_width(settings: &Settings) -> u64
    ensures value { result ≡ mb_width_of settings.now }
    ensures most { result ≤ 2 ^ 28 }
{
    (u64::from(settings.width) + 15) / 16
}

/// Macroblock rows of a picture.
#[tactic(auto, unfolding(crate::specs::Numbers::rows_by))]
pub fn rows(settings: &Settings) -> u64
    ensures value { result ≡ rows_by settings.now.scan settings.now.height }
    ensures most { result ≤ 2 ^ 28 }
{
    let height = u64::from(settings.height);
    match settings.scan {
        Scan::Progressive => (height + 15) / 16,
        Scan::Frames => 2 * ((height + 31) / 32),
        Scan::Fields => (height + 31) / 32,
    }
}

/// Macroblock rows of a whole frame.
#[tactic(auto, unfolding(crate::specs::Numbers::frame_rows_by))]
pub fn frame_rows(settings: &Settings) -> u64
    ensures value { result ≡ frame_rows_by settings.now.scan settings.now.height }
    ensures covers { (settings.now.height + 15) / 16 ≤ result }
    ensures most { result ≤ (settings.now.height + 31) / 32 * 2 }
{
    let height = u64::from(settings.height);
    match settings.scan {
        Scan::Progressive => (height + 15) / 16,
        Scan::Frames | Scan::Fields => 2 * ((height + 31) / 32),
    }
}

/// The most bits of an emergency slice over so many macroblocks.
#[tactic(auto, unfolding(crate::specs::Numbers::slice_least))]
fn emergency_slice(width: u64) -> u64
    requires { width ≤ 2 ^ 28 }
    ensures value { result ≡ slice_least width }
    ensures most { result < 2 ^ 34 }
{
    8 * ((38 + 31 * width + 7) / 8)
}

/// The most bits of an emergency picture, with all its headers and an end code.
#[tactic(auto, unfolding(crate::specs::Numbers::least_of))]
pub fn least(settings: &Settings) -> u64
    ensures value { result ≡ least_of settings.now }
    ensures most { result < 2 ^ 63 }
{
    416 + rows(settings) * emergency_slice(mb_width(settings))
}

/// The delay of the first picture, in ticks of 1/90,000 s; without one three quarters of the buffer.
#[tactic(auto, unfolding(crate::specs::Numbers::delay_of))]
pub fn delay(settings: &Settings) -> u64
    requires rate { 1 ≤ settings.now.bits }
    ensures value { result ≡ delay_of settings.now }
    ensures most { result < 2 ^ 60 }
{
    let bits = settings.bits;
    match settings.delay {
        Some(ticks) => u64::from(ticks),
        None => 3 * 1800 * buffer(settings).saturating_sub(272) / (32 * u64::from(bits)),
    }
}
