//! The warnings on time codes.
ghost use Rattle.std.specs.Prelude.{◌≡◌, ◌≤◌, ◌*◌, ℕ};
ghost use Rattle.m2v_strict.specs.Remarks.{told_at, told_by, lies};
ghost use Rattle.m2v_strict.specs.TimeRules.{counted_rate, minutes_of, passed_over, pictures_of, day_of, time_between, pictures_warning, goes_on, continuity_warning, time_warnings};

use crate::element::Element;
use crate::remark::{Remark, at_most, judge};
use m2v_model::macro_library::head::GroupInfo;

/// How many pictures a time code counts in a second, by frame_rate_code.
#[tactic(auto, unfolding(crate::specs::TimeRules::counted_rate))]
fn counted_rate(code: u8) -> u64
    ensures value { result ≡ counted_rate code }
    ensures least { 24 ≤ result }
    ensures most { result ≤ 60 }
{
    match code {
        0..=2 => 24,
        3 => 25,
        4 | 5 => 30,
        6 => 50,
        _ => 60,
    }
}

/// The minutes since midnight.
fn minutes_of(g: &GroupInfo) -> u64
    ensures value { result ≡ minutes_of g.now }
    ensures most { result ≤ 15_555 }
{
    60 * u64::from(g.hours) + u64::from(g.minutes)
}

/// How many numbers were passed over in so many minutes.
#[tactic(auto, unfolding(crate::specs::TimeRules::passed_over))]
fn passed_over(dropping: bool, minutes: u64) -> u64
    requires few { minutes ≤ 15_555 }
    ensures value { result ≡ passed_over dropping minutes }
    ensures most { result ≤ 2 * minutes }
{
    if dropping {
        2 * (minutes - minutes / 10)
    } else {
        0
    }
}

/// The pictures since midnight, where a second has so many.
fn pictures_of(rate: u64, g: &GroupInfo) -> u64
    requires rate { rate ≤ 60 }
    ensures value { result ≡ pictures_of rate g.now }
    ensures most { result ≤ 60_000_000 }
{
    let minutes = minutes_of(g);
    let counted = rate * (60 * minutes + u64::from(g.seconds)) + u64::from(g.pictures);
    counted.saturating_sub(passed_over(g.drop, minutes))
}

/// The pictures of a day.
fn day_of(rate: u64, dropping: bool) -> u64
    requires least { 24 ≤ rate }
    requires most { rate ≤ 60 }
    ensures value { result ≡ day_of rate dropping }
    ensures least { 1 ≤ result }
    ensures most { result ≤ 5_184_000 }
{
    86_400 * rate - passed_over(dropping, 1440)
}

/// The pictures from one time code to another, modulo a day.
fn time_between(rate: u64, last: &GroupInfo, g: &GroupInfo) -> u64
    requires least { 24 ≤ rate }
    requires most { rate ≤ 60 }
    ensures value { result ≡ time_between rate last.now g.now }
    ensures most { result ≤ 5_184_000 }
{
    let day = day_of(rate, g.drop);
    (pictures_of(rate, g) + (day - pictures_of(rate, last) % day)) % day
}

/// The pictures of a time code are below the rate.
#[tactic(auto, unfolding(crate::specs::TimeRules::pictures_warning))]
fn pictures_warning(rate: u64, g: &GroupInfo) -> Option<Remark>
    requires { 24 ≤ rate }
    ensures { told_at result ≡ pictures_warning rate g.now }
{
    let most = u128::from(rate - 1);
    at_most(55, Element::TimeCodePictures, u128::from(g.pictures), most)
}

/// So many pictures are as long as so many fields, but for a picture.
fn goes_on(pictures: u64, fields: u64) -> bool
    requires { pictures ≤ 5_184_000 }
    ensures { result ≡ goes_on pictures fields }
{
    2 * pictures <= fields.saturating_add(2) && fields <= 2 * pictures + 2
}

/// A group begins where the one before it ends, which is shown for so many fields.
#[tactic(auto, unfolding(crate::specs::TimeRules::continuity_warning))]
fn continuity_warning(
    rate: u64,
    last: &Option<GroupInfo>,
    fields: u64,
    g: &GroupInfo,
) -> Option<Remark>
    requires least { 24 ≤ rate }
    requires most { rate ≤ 60 }
    ensures { told_at result ≡ continuity_warning rate last.now fields g.now }
{
    let Some(last) = last else {
        return None;
    };
    let pictures = time_between(rate, last, g);
    judge(
        goes_on(pictures, fields),
        Remark::of(
            55,
            Element::TimeCode,
            u128::from(pictures),
            u128::from(fields / 2),
        ),
    )
}

/// The warnings on a group header's time code (55), in a sequence of this frame_rate_code, behind the last group header and the
/// fields for which its group is shown.
#[tactic(auto, unfolding(crate::specs::TimeRules::time_warnings))]
pub fn time_warnings(
    code: u8,
    last: &Option<GroupInfo>,
    fields: u64,
    g: &GroupInfo,
) -> [Option<Remark>; 2]
    ensures { told_by result ≡ time_warnings code last.now fields g.now }
{
    if code == 0 || code > 8 {
        return [None, None];
    }
    let rate = counted_rate(code);
    [
        pictures_warning(rate, g),
        continuity_warning(rate, last, fields, g),
    ]
}
