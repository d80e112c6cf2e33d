//! The headers before a group: their values.
ghost use Rattle.std.specs.Prelude.{◌≡◌, ◌<◌, ◌≤◌};
ghost use Rattle.m2v_set.specs.Rules.{is_progressive as is_progressive_of};
ghost use Rattle.m2v_head.specs.Fits.{SequenceFits, SequenceExtensionFits, GroupFits};
ghost use Rattle.m2v_slice.specs.Headers.{profile_of, sequence_of, sequence_extension_of, frames_in_second, shown_number, group_from};

use m2v_head::{GroupInfo, SequenceExtension, SequenceInfo};
use m2v_set::{Level, Passed, Scan, Settings};

/// profile_and_level_indication of a level (tables 8-2 and 8-3).
#[tactic(auto, unfolding(crate::specs::Headers::profile_of))]
fn profile(level: Level) -> u8
    ensures value { result ≡ profile_of level }
{
    match level {
        Level::Main => 72,
        Level::High1440 => 70,
        Level::High => 68,
    }
}

/// The sequence header.
#[tactic(auto, unfolding(crate::specs::Headers::sequence_of))]
pub fn sequence(settings: &Passed) -> SequenceInfo
    ensures value { result ≡ sequence_of settings.now }
    ensures fits { SequenceFits result }
{
    let known = settings.settings();
    SequenceInfo {
        horizontal_size: known.width % 4096,
        vertical_size: known.height % 4096,
        aspect: known.aspect as u8,
        frame_rate_code: known.rate_code as u8,
        bit_rate: known.bits % 262_144,
        vbv_buffer_size: known.buffer % 1024,
        constrained: false,
        load_intra: None,
        load_non_intra: None,
    }
}

/// Whether the frames are progressive.
#[tactic(auto, unfolding(m2v_set::specs::Rules::is_progressive))]
pub fn is_progressive(scan: Scan) -> bool
    ensures value { result ≡ is_progressive_of scan }
{
    match scan {
        Scan::Progressive => true,
        Scan::Frames | Scan::Fields => false,
    }
}

/// The sequence extension.
#[tactic(auto, unfolding(crate::specs::Headers::sequence_extension_of))]
pub fn sequence_extension(settings: &Passed) -> SequenceExtension
    ensures value { result ≡ sequence_extension_of settings.now }
    ensures fits { SequenceExtensionFits result }
{
    let known = settings.settings();
    SequenceExtension {
        profile_and_level: profile(known.level),
        progressive_sequence: is_progressive(known.scan),
        chroma_format: 1,
        horizontal_ext: (known.width / 4096) as u8,
        vertical_ext: (known.height / 4096) as u8,
        bit_rate_ext: known.bits / 262_144,
        vbv_ext: (known.buffer / 1024) as u8,
        low_delay: false,
        rate_n: 0,
        rate_d: 0,
    }
}

/// The frames in a second of the time code.
#[tactic(auto, unfolding(crate::specs::Headers::frames_in_second))]
fn frames_a_second(code: u32) -> u64
    ensures value { result ≡ frames_in_second code }
    ensures some { 0 < result }
    ensures most { result ≤ 60 }
{
    match code {
        1 | 2 => 24,
        3 => 25,
        4 | 5 => 30,
        6 => 50,
        _ => 60,
    }
}

/// The number of a frame in the time code.
#[tactic(auto, unfolding(crate::specs::Headers::shown_number))]
fn number_shown(settings: &Settings, display: u64) -> u64
    requires display { display < 1000000 }
    ensures value { result ≡ shown_number settings.now display }
{
    if settings.pulldown {
        (2 * display + (display + 1) / 2) / 2
    } else {
        display
    }
}

/// The group header, by the group's first frame in display order.
#[tactic(auto, unfolding(crate::specs::Headers::group_from))]
pub fn group(settings: &Settings, display: u64) -> GroupInfo
    requires display { display < 1000000 }
    ensures value { result ≡ group_from settings.now display }
    ensures fits { GroupFits result }
{
    let number = number_shown(settings, display);
    let rate = frames_a_second(settings.rate_code);
    let second = number / rate;
    GroupInfo {
        drop: false,
        hours: (second / 3600 % 24) as u8,
        minutes: (second / 60 % 60) as u8,
        seconds: (second % 60) as u8,
        pictures: (number % rate) as u8,
        closed_gop: display == 0 || settings.closed || settings.step == 1,
        broken_link: false,
    }
}
