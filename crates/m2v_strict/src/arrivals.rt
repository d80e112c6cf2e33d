//! The rule on the rate at which a picture's bits arrive.
ghost use Rattle.std.specs.Prelude.{◌≡◌, ◌<◌, ◌^◌, IfSome};
ghost use Rattle.m2v_strict.specs.Remarks.{told_at};
ghost use Rattle.m2v_strict.specs.ArrivalRules.{bits_between, time_between, arrival_rule};

use crate::element::Element;
use crate::preceding::Arrival;
use crate::remark::{Remark, judge};
use m2v_check::CodedPicture;

/// The vbv_delay that says nothing.
const VARIABLE: u64 = 65_535;

/// The bits between the ends of two picture start codes.
fn bits_between(d: &Arrival, p: &CodedPicture) -> u128
    ensures value { result ≡ bits_between d.now p.now }
    ensures most { result < 2 ^ 64 }
{
    let bits = p.note.code_end.saturating_sub(d.code_end);
    u128::from(bits)
}

/// The time in which they arrive.
fn time_between(d: &Arrival, p: &CodedPicture) -> u128
    ensures value { result ≡ time_between d.now p.now }
    ensures most { result < 2 ^ 69 }
{
    // numbers behind a reference, read once so that their bounds are known
    let (units, delay, next) = (d.units, d.delay, p.note.info.vbv_delay);
    let from = u128::from(units) + 8 * u128::from(delay) + 16;
    from.saturating_sub(8 * u128::from(next))
}

/// The rule on the bits up to a picture (29), at this bit rate of its sequence, behind the picture before.
#[tactic(auto, unfolding(crate::specs::ArrivalRules::arrival_rule))]
pub fn arrival_rule(rate: u64, before: &Option<Arrival>, p: &CodedPicture) -> Option<Remark>
    requires rate { rate < 2 ^ 51 }
    ensures { told_at result ≡ arrival_rule rate before.now p.now }
{
    let Some(d) = before else {
        return None;
    };
    if d.delay == VARIABLE || u64::from(p.note.info.vbv_delay) == VARIABLE {
        return None;
    }
    let have = 1800 * bits_between(d, p);
    let need = u128::from(rate) * time_between(d, p);
    judge(
        have < need,
        Remark::of(29, Element::ArrivalRate, have, need),
    )
}
