//! Several findings that the report tells one after another.
ghost use Rattle.std.specs.Prelude.{◌≡◌, OnOk};
ghost use Rattle.m2v_strict.specs.m2v_check.Breaking.{told_by};
ghost use Rattle.m2v_strict.specs.Remarks.{told_by as remarks_by};
ghost use Rattle.m2v_audit.specs.Account.{settled, after_settled, ended};
ghost use Rattle.m2v_audit.specs.Findings.{with_breaches, with_remarks, with_misplaced, with_removals};

use crate::account::Account;
use crate::places::Misplaced;
use crate::report::{Broken, Rate, Report};
use m2v_strict::Remark;
use m2v_strict::check::BrokenRule;
use std::alloc::AllocError;

/// Tells the breaches of some rules at a bit of the input, of a picture.
#[tactic(auto, unfolding(crate::specs::Findings::with_breaches))]
pub(crate) fn tell_breaches(
    report: &mut Report,
    picture: u64,
    bit: u64,
    places: &[Option<BrokenRule>],
) -> Result<(), AllocError>
    ensures value { OnOk result (report.new
        ≡ with_breaches report.old picture bit (told_by places.now)) }
{
    for place in places {
        if let Some(broken) = place {
            report.breach(&Broken {
                picture,
                bit,
                rule: broken.rule,
                element: None,
                have: broken.have,
                need: broken.need,
            })?;
        }
    }
    Ok(())
}

/// Where a header stands: the picture of which it is told, and its bit in the input.
#[derive(Clone, Copy)]
pub(crate) struct Place {
    pub picture: u64,
    pub bit: u64,
}

/// Tells what some stricter rules remark of a header.
#[tactic(auto, unfolding(crate::specs::Findings::with_remarks))]
pub(crate) fn tell_remarks(
    report: &mut Report,
    place: Place,
    remarks: &[Option<Remark>],
) -> Result<(), AllocError>
    ensures { OnOk result (report.new
        ≡ with_remarks report.old place.picture place.bit (remarks_by remarks.now)) }
{
    for each in remarks {
        if let Some(remark) = each {
            report.finding(&Broken {
                picture: place.picture,
                bit: place.bit,
                rule: remark.rule,
                element: Some(remark.element),
                have: remark.have,
                need: remark.need,
            })?;
        }
    }
    Ok(())
}

/// Tells which pictures stand at another place than they say.
#[tactic(auto, unfolding(crate::specs::Findings::with_misplaced))]
pub(crate) fn tell_misplaced(
    report: &mut Report,
    places: &[Option<Misplaced>],
) -> Result<(), AllocError>
    ensures value { OnOk result (report.new ≡ with_misplaced report.old places.now) }
{
    for place in places {
        if let Some(misplaced) = place {
            report.breach(&Broken {
                picture: misplaced.number,
                bit: misplaced.bit,
                rule: 11,
                element: None,
                have: misplaced.have,
                need: misplaced.need,
            })?;
        }
    }
    Ok(())
}

/// Tells all removals that are settled.
#[tactic(auto, unfolding(crate::specs::Findings::with_removals))]
pub(crate) fn tell_settled(
    report: &mut Report,
    rate: &Rate,
    account: &mut Account,
) -> Result<(), AllocError>
    ensures value { OnOk result (report.new
        ≡ with_removals report.old rate.now (settled account.old)) }
    ensures after { OnOk result (account.new ≡ after_settled account.old) }
    ensures total { account.new.total ≡ account.old.total }
{
    while let Some((due, removed)) = account.settle() {
        report.removal(rate, &due, &removed)?;
    }
    Ok(())
}

/// Tells all removals that are left at the sequence's end.
#[tactic(auto, unfolding(crate::specs::Findings::with_removals))]
pub(crate) fn tell_ended(
    report: &mut Report,
    rate: &Rate,
    account: &mut Account,
) -> Result<(), AllocError>
    ensures value { OnOk result (report.new
        ≡ with_removals report.old rate.now (ended account.old)) }
{
    while let Some((due, removed)) = account.finish() {
        report.removal(rate, &due, &removed)?;
    }
    Ok(())
}
