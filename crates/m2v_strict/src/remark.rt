//! What a rule remarks of a header.
ghost use Rattle.std.specs.Prelude.{◌≡◌, nat_eq};
ghost use Rattle.m2v_strict.specs.Remarks.{remark, is_warning, number_of, told_at, judge, equal, at_most, within, unset};

use crate::element::Element;

/// A rule that a header breaks, or a warning: the element, what it has, and what the rule wants of it. A flag counts as 0 or 1.
#[derive(Clone, Copy, Debug, PartialEq, Eq)]
pub struct Remark {
    /// The number of the rule, or of the warning (`is_warning`).
    pub rule: u8,
    pub element: Element,
    pub have: u128,
    pub need: u128,
}

impl Remark {
    /// What a rule remarks of an element.
    pub(crate) fn of(rule: u8, element: Element, have: u128, need: u128) -> Remark
        ensures { result ≡ remark rule element have need }
    {
        Remark {
            rule,
            element,
            have,
            need,
        }
    }
}

/// The number of a warning; others are those of rules.
pub fn is_warning(rule: u8) -> bool
    ensures { result ≡ is_warning rule }
{
    matches!(rule, 50..=59 | 66..=71 | 83..=85 | 95)
}

/// A flag as a number.
pub(crate) fn number_of(flag: bool) -> u128
    ensures { result ≡ number_of flag }
{
    u128::from(flag)
}

/// The remark of a rule that may hold.
pub(crate) fn judge(holds: bool, remark: Remark) -> Option<Remark>
    ensures { told_at result ≡ judge holds remark }
{
    if holds { None } else { Some(remark) }
}

/// A rule that an element is what is needed.
pub(crate) fn equal(rule: u8, element: Element, have: u128, need: u128) -> Option<Remark>
    ensures { told_at result ≡ equal rule element have need }
{
    judge(have == need, Remark::of(rule, element, have, need))
}

/// A rule that an element is at most what is needed.
pub(crate) fn at_most(rule: u8, element: Element, have: u128, need: u128) -> Option<Remark>
    ensures { told_at result ≡ at_most rule element have need }
{
    judge(have <= need, Remark::of(rule, element, have, need))
}

/// A rule that an element lies from one bound to another; the nearer one is needed.
pub(crate) fn within(
    rule: u8,
    element: Element,
    have: u128,
    low: u128,
    high: u128,
) -> Option<Remark>
    ensures { told_at result ≡ within rule element have low high }
{
    if have < low {
        return Some(Remark::of(rule, element, have, low));
    }
    at_most(rule, element, have, high)
}

/// A rule that a flag is 0.
pub(crate) fn unset(rule: u8, element: Element, flag: bool) -> Option<Remark>
    ensures { told_at result ≡ unset rule element flag }
{
    equal(rule, element, number_of(flag), 0)
}
