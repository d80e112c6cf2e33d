//! The stricter rules on a group of pictures header.
ghost use Rattle.std.specs.Prelude.{◌≡◌};
ghost use Rattle.m2v_strict.specs.Remarks.{told_at, told_by};
ghost use Rattle.m2v_strict.specs.GroupRules.{time_code_rule, drop_rule, passes_over, passing_rule, broken_link_warning, group_remarks};

use crate::element::Element;
use crate::remark::{Remark, at_most, judge, unset};
use m2v_model::macro_library::head::GroupInfo;

/// The numbers of a time code.
#[tactic(auto, unfolding(crate::specs::GroupRules::time_code_rule))]
fn time_code_rule(g: &GroupInfo) -> [Option<Remark>; 4]
    ensures { told_by result ≡ time_code_rule g.now }
{
    [
        at_most(24, Element::TimeCodeHours, u128::from(g.hours), 23),
        at_most(24, Element::TimeCodeMinutes, u128::from(g.minutes), 59),
        at_most(24, Element::TimeCodeSeconds, u128::from(g.seconds), 59),
        at_most(24, Element::TimeCodePictures, u128::from(g.pictures), 59),
    ]
}

/// Numbers are passed over at 29.97 Hz alone.
#[tactic(auto, unfolding(crate::specs::GroupRules::drop_rule))]
fn drop_rule(code: u8, g: &GroupInfo) -> Option<Remark>
    ensures { told_at result ≡ drop_rule code g.now }
{
    if code == 4 {
        return None;
    }
    unset(25, Element::DropFrameFlag, g.drop)
}

/// Pictures 0 and 1 of the time code's second are passed over.
fn passes_over(g: &GroupInfo) -> bool
    ensures { result ≡ passes_over g.now }
{
    g.drop && g.seconds == 0 && g.minutes % 10 != 0
}

/// A number that is passed over isn't told.
#[tactic(auto, unfolding(crate::specs::GroupRules::passing_rule))]
fn passing_rule(g: &GroupInfo) -> Option<Remark>
    ensures { told_at result ≡ passing_rule g.now }
{
    judge(
        !passes_over(g) || g.pictures >= 2,
        Remark::of(26, Element::TimeCodePictures, u128::from(g.pictures), 2),
    )
}

/// The warning that the group before is missing (56).
#[tactic(auto, unfolding(crate::specs::GroupRules::broken_link_warning))]
pub fn broken_link_warning(g: &GroupInfo) -> Option<Remark>
    ensures { told_at result ≡ broken_link_warning g.now }
{
    unset(56, Element::BrokenLink, g.broken_link)
}

/// The rules on a group header (24 to 26), by number, in a sequence of this frame_rate_code.
pub fn group_rules(code: u8, g: &GroupInfo) -> [Option<Remark>; 6]
    ensures { told_by result ≡ group_remarks code g.now }
{
    let numbers = time_code_rule(g);
    [
        numbers[0],
        numbers[1],
        numbers[2],
        numbers[3],
        drop_rule(code, g),
        passing_rule(g),
    ]
}
