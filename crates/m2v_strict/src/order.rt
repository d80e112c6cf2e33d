//! The rules on the order of headers, and the warning on the end of a sequence.
ghost use Rattle.std.specs.Prelude.{◌≡◌};
ghost use Rattle.m2v_strict.specs.Remarks.{told_at, told_by};
ghost use Rattle.m2v_strict.specs.OrderRules.{out_of_order, leads, sequence_order_rule, group_order_rule, late_header_rule, first_type_rule, end_code_warning, end_remarks};

use crate::element::Element;
use crate::leading::Leading;
use crate::remark::{Remark, judge};
use m2v_check::{CodedPicture, is_b};

/// A header of this start code's value that is too much, or too late.
fn out_of_order(value: u128) -> Remark
    ensures { result ≡ out_of_order value }
{
    Remark::of(22, Element::HeaderOrder, value, 0)
}

impl Leading {
    /// Some header stands before.
    fn leads(&self) -> bool
        ensures { result ≡ leads self.now }
    {
        self.sequence || self.group
    }
}

/// The rule on a sequence header behind others (22).
#[tactic(auto, unfolding(crate::specs::OrderRules::sequence_order_rule))]
pub fn sequence_order_rule(before: &Leading) -> Option<Remark>
    ensures { told_at result ≡ sequence_order_rule before.now }
{
    judge(!before.leads(), out_of_order(0xB3))
}

/// The rule on a group header behind others (22).
#[tactic(auto, unfolding(crate::specs::OrderRules::group_order_rule))]
pub fn group_order_rule(before: &Leading) -> Option<Remark>
    ensures { told_at result ≡ group_order_rule before.now }
{
    judge(!before.group, out_of_order(0xB8))
}

/// The rule on headers with no picture behind them (22).
#[tactic(auto, unfolding(crate::specs::OrderRules::late_header_rule))]
fn late_header_rule(before: &Leading) -> Option<Remark>
    ensures { told_at result ≡ late_header_rule before.now }
{
    let value = if before.group { 0xB8 } else { 0xB3 };
    judge(!before.leads(), out_of_order(value))
}

/// The rule on the first picture behind a sequence header (23); `headed` says whether it is one.
#[tactic(auto, unfolding(crate::specs::OrderRules::first_type_rule))]
pub fn first_type_rule(headed: bool, p: &CodedPicture) -> Option<Remark>
    ensures { told_at result ≡ first_type_rule headed p.now }
{
    judge(
        !(headed && is_b(&p.note.info)),
        Remark::of(23, Element::PictureCodingType, 3, 1),
    )
}

/// A sequence end code ends the sequence.
#[tactic(auto, unfolding(crate::specs::OrderRules::end_code_warning))]
fn end_code_warning(closed: bool) -> Option<Remark>
    ensures { told_at result ≡ end_code_warning closed }
{
    judge(closed, Remark::of(53, Element::SequenceEndCode, 0, 1))
}

/// The rule at the end of a sequence (22), behind these headers since its last picture, and the warning (53); `closed` says
/// whether a sequence end code ends it.
pub fn end_rules(before: &Leading, closed: bool) -> [Option<Remark>; 2]
    ensures { told_by result ≡ end_remarks before.now closed }
{
    [late_header_rule(before), end_code_warning(closed)]
}
