//! The rules of broadcasts, at 25 Hz and American.
ghost use Rattle.std.specs.Prelude.{◌≡◌};
ghost use Rattle.m2v_strict.specs.declared.element.Element.TheVariants as elements;
ghost use Rattle.m2v_strict.specs.Remarks.{remark, told_at, told_by};
ghost use Rattle.m2v_strict.specs.DvdRules.{size_of};
ghost use Rattle.m2v_strict.specs.BroadcastRules.{dvb_rate_rule, is_dvb_size, is_doubtful_size, dvb_size_rule, dvb_size_warning, dvb_aspect_rule, dvb_level_warning, dvb_rate_warning, dvb_remarks, atsc_width, is_small, is_atsc_size, atsc_height, atsc_size_rule, square_or_wide, aspect_at, atsc_aspect_rule, most_progressive, nearest_rate, progressive_rate_rule, atsc_rate_rule, atsc_form_rule, atsc_buffer_rule, atsc_remarks, atsc_delay_warning};

use crate::dvd::size_of;
use crate::element::Element;
use crate::remark::{Remark, at_most, equal, judge, within};
use crate::sequences::is_higher;
use m2v_check::{buffer_of, rate_of};
use m2v_model::Sequence;

/// 25 Hz, at Main level.
#[tactic(auto, unfolding(crate::specs::BroadcastRules::dvb_rate_rule))]
fn dvb_rate_rule(s: &Sequence) -> Option<Remark>
    ensures { told_at result ≡ dvb_rate_rule s.now }
{
    if is_higher(s) {
        return None;
    }
    let code = u128::from(s.info.frame_rate_code);
    equal(80, Element::FrameRateCode, code, 3)
}

/// A size of Main level.
fn is_dvb_size(width: u64, height: u64) -> bool
    ensures { result ≡ is_dvb_size width height }
{
    let columns = width == 720 || width == 544 || width == 480 || width == 352;
    columns && height == 576 || width == 352 && height == 288
}

/// A size that not every receiver has.
fn is_doubtful_size(width: u64, height: u64) -> bool
    ensures { result ≡ is_doubtful_size width height }
{
    width == 704 && height == 576
}

/// What is told of a size of Main level.
fn wrong_size(rule: u8, s: &Sequence) -> Remark
    ensures { result ≡ remark rule elements.Size (size_of s.now) 7200576 }
{
    Remark::of(rule, Element::Size, size_of(s), 7_200_576)
}

/// The sizes of Main level.
#[tactic(auto, unfolding(crate::specs::BroadcastRules::dvb_size_rule))]
fn dvb_size_rule(s: &Sequence) -> Option<Remark>
    ensures { told_at result ≡ dvb_size_rule s.now }
{
    if is_higher(s) {
        return None;
    }
    let is_one = is_dvb_size(s.width(), s.height()) || is_doubtful_size(s.width(), s.height());
    judge(is_one, wrong_size(81, s))
}

/// The size that not every receiver has.
#[tactic(auto, unfolding(crate::specs::BroadcastRules::dvb_size_warning))]
fn dvb_size_warning(s: &Sequence) -> Option<Remark>
    ensures { told_at result ≡ dvb_size_warning s.now }
{
    if is_higher(s) {
        return None;
    }
    judge(!is_doubtful_size(s.width(), s.height()), wrong_size(85, s))
}

/// Main level or High level.
#[tactic(auto, unfolding(crate::specs::BroadcastRules::dvb_level_warning))]
fn dvb_level_warning(s: &Sequence) -> Option<Remark>
    ensures { told_at result ≡ dvb_level_warning s.now }
{
    let code = s.extension.profile_and_level;
    judge(
        code == 72 || code == 68,
        Remark::of(83, Element::ProfileAndLevelIndication, u128::from(code), 72),
    )
}

/// 25 or 50 Hz, above Main level.
#[tactic(auto, unfolding(crate::specs::BroadcastRules::dvb_rate_warning))]
fn dvb_rate_warning(s: &Sequence) -> Option<Remark>
    ensures { told_at result ≡ dvb_rate_warning s.now }
{
    if !is_higher(s) {
        return None;
    }
    let code = s.info.frame_rate_code;
    judge(
        code == 3 || code == 6,
        Remark::of(84, Element::FrameRateCode, u128::from(code), 3),
    )
}

/// The rules of broadcasts at 25 Hz on a sequence header (80 to 82) and the warnings (83 to 85), by number.
#[tactic(auto, unfolding(crate::specs::BroadcastRules::dvb_aspect_rule))]
pub fn dvb_rules(s: &Sequence) -> [Option<Remark>; 6]
    ensures { told_by result ≡ dvb_remarks s.now }
{
    let aspect = u128::from(s.info.aspect);
    [
        dvb_rate_rule(s),
        dvb_size_rule(s),
        within(82, Element::AspectRatioInformation, aspect, 2, 4),
        dvb_level_warning(s),
        dvb_rate_warning(s),
        dvb_size_warning(s),
    ]
}

/// The width that so many lines have.
#[tactic(auto, unfolding(crate::specs::BroadcastRules::atsc_width))]
fn atsc_width(height: u64) -> u64
    ensures { result ≡ atsc_width height }
{
    match height {
        1080 => 1920,
        720 => 1280,
        _ => 704,
    }
}

/// The lines of the size that is wanted.
#[tactic(auto, unfolding(crate::specs::BroadcastRules::atsc_height))]
fn atsc_height(height: u64) -> u64
    ensures { result ≡ atsc_height height }
{
    if height == 1080 || height == 720 {
        height
    } else {
        480
    }
}

/// The size with square samples in 480 lines.
fn is_small(width: u64, height: u64) -> bool
    ensures { result ≡ is_small width height }
{
    width == 640 && height == 480
}

/// A size of American broadcasts.
#[tactic(auto, unfolding(crate::specs::BroadcastRules::is_atsc_size))]
fn is_atsc_size(width: u64, height: u64) -> bool
    ensures { result ≡ is_atsc_size width height }
{
    let lines = height == 1080 || height == 720 || height == 480;
    lines && width == atsc_width(height) || is_small(width, height)
}

/// The size of a frame.
#[tactic(auto, unfolding(crate::specs::BroadcastRules::atsc_size_rule))]
fn atsc_size_rule(s: &Sequence) -> Option<Remark>
    ensures { told_at result ≡ atsc_size_rule s.now }
{
    let height = s.height();
    let need = 10_000 * u128::from(atsc_width(height)) + u128::from(atsc_height(height));
    judge(
        is_atsc_size(s.width(), height),
        Remark::of(90, Element::Size, size_of(s), need),
    )
}

/// Square samples or 16:9.
#[tactic(auto, unfolding(crate::specs::BroadcastRules::square_or_wide))]
fn square_or_wide(aspect: u8) -> Option<Remark>
    ensures { told_at result ≡ square_or_wide aspect }
{
    judge(
        aspect == 1 || aspect == 3,
        Remark::of(
            91,
            Element::AspectRatioInformation,
            u128::from(aspect),
            if aspect < 3 { 1 } else { 3 },
        ),
    )
}

/// The aspect ratio of a size.
#[tactic(auto, unfolding(crate::specs::BroadcastRules::aspect_at))]
fn aspect_at(width: u64, height: u64, aspect: u8) -> Option<Remark>
    ensures { told_at result ≡ aspect_at width height aspect }
{
    if height != 480 {
        return square_or_wide(aspect);
    }
    let code = u128::from(aspect);
    if is_small(width, height) {
        return within(91, Element::AspectRatioInformation, code, 1, 2);
    }
    within(91, Element::AspectRatioInformation, code, 2, 3)
}

/// The aspect ratio, of a size that is one.
#[tactic(auto, unfolding(crate::specs::BroadcastRules::atsc_aspect_rule))]
fn atsc_aspect_rule(s: &Sequence) -> Option<Remark>
    ensures { told_at result ≡ atsc_aspect_rule s.now }
{
    if !is_atsc_size(s.width(), s.height()) {
        return None;
    }
    aspect_at(s.width(), s.height(), s.info.aspect)
}

/// The highest frame rate code of a progressive sequence of so many lines.
#[tactic(auto, unfolding(crate::specs::BroadcastRules::most_progressive))]
fn most_progressive(height: u64) -> u8
    ensures { result ≡ most_progressive height }
{
    if height < 1080 { 8 } else { 5 }
}

/// The frame rate code that is there which is nearest.
#[tactic(auto, unfolding(crate::specs::BroadcastRules::nearest_rate))]
fn nearest_rate(most: u8, code: u8) -> u8
    ensures { result ≡ nearest_rate most code }
{
    if code == 0 {
        return 1;
    }
    if code > most {
        return most;
    }
    match code {
        3 => 2,
        6 => 5,
        _ => code,
    }
}

/// The frame rate of a progressive sequence.
#[tactic(auto, unfolding(crate::specs::BroadcastRules::progressive_rate_rule))]
fn progressive_rate_rule(s: &Sequence) -> Option<Remark>
    ensures { told_at result ≡ progressive_rate_rule s.now }
{
    let code = s.info.frame_rate_code;
    let need = u128::from(nearest_rate(most_progressive(s.height()), code));
    equal(92, Element::FrameRateCode, u128::from(code), need)
}

/// The frame rate.
#[tactic(auto, unfolding(crate::specs::BroadcastRules::atsc_rate_rule))]
fn atsc_rate_rule(s: &Sequence) -> Option<Remark>
    ensures { told_at result ≡ atsc_rate_rule s.now }
{
    if s.extension.progressive_sequence {
        return progressive_rate_rule(s);
    }
    let code = u128::from(s.info.frame_rate_code);
    within(92, Element::FrameRateCode, code, 4, 5)
}

/// In 720 lines none is interlaced.
#[tactic(auto, unfolding(crate::specs::BroadcastRules::atsc_form_rule))]
fn atsc_form_rule(s: &Sequence) -> Option<Remark>
    ensures { told_at result ≡ atsc_form_rule s.now }
{
    judge(
        s.height() != 720 || s.extension.progressive_sequence,
        Remark::of(92, Element::ProgressiveSequence, 0, 1),
    )
}

/// The rate and the buffer.
#[tactic(auto, unfolding(crate::specs::BroadcastRules::atsc_buffer_rule))]
fn atsc_buffer_rule(s: &Sequence) -> [Option<Remark>; 2]
    ensures { told_by result ≡ atsc_buffer_rule s.now }
{
    let rate = u128::from(rate_of(s));
    let buffer = u128::from(buffer_of(s));
    [
        at_most(93, Element::BitRate, rate, 48_500),
        at_most(94, Element::VbvBufferSize, buffer, 488),
    ]
}

/// The rules of American broadcasts on a sequence header (90 to 94), by number.
pub fn atsc_rules(s: &Sequence) -> [Option<Remark>; 6]
    ensures { told_by result ≡ atsc_remarks s.now }
{
    let buffer = atsc_buffer_rule(s);
    [
        atsc_size_rule(s),
        atsc_aspect_rule(s),
        atsc_rate_rule(s),
        atsc_form_rule(s),
        buffer[0],
        buffer[1],
    ]
}

/// The warning of American broadcasts on a picture (95).
#[tactic(auto, unfolding(crate::specs::BroadcastRules::atsc_delay_warning))]
pub fn atsc_delay_warning(delay: u32) -> Option<Remark>
    ensures { told_at result ≡ atsc_delay_warning delay }
{
    judge(
        delay <= 45_000 || delay == 65_535,
        Remark::of(95, Element::VbvDelay, u128::from(delay), 45_000),
    )
}
