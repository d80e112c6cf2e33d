//! What the stricter rules remark of what else stands before a piece's first slice.
ghost use Rattle.std.specs.Prelude.{◌≡◌, ◌*◌, ◌≤◌, ◌^◌, OnOk};
ghost use Rattle.m2v_audit.specs.Findings.{with_remarks};
ghost use Rattle.m2v_audit.specs.Auditing.{with_display, with_others, Keeps};
ghost use Rattle.m2v_audit.specs.Others.{own_bit, own_remarks, with_own_remarks, display_remarks, first_display, headed_remarks, display_behind};
ghost use Rattle.m2v_strict.specs.Remarks.{told_at};

use crate::auditing::Auditing;
use crate::findings::{Place, tell_remarks};
use crate::others::{Other, display_of};
use crate::report::Report;
use m2v_strict::{Display, Remark, display_rule, extra_rule, matrix_rules};
use std::alloc::AllocError;

/// Of a picture's header, or of a quant matrix extension.
#[tactic(auto, unfolding(crate::specs::Others::own_bit, crate::specs::Others::own_remarks, crate::specs::Findings::with_remarks))]
fn tell_own(report: &mut Report, picture: u64, other: &Other) -> Result<(), AllocError>
    ensures { OnOk result (report.new
        ≡ with_remarks report.old picture (own_bit other.now) (own_remarks other.now)) }
{
    match other {
        Other::Display { .. } => Ok(()),
        Other::Picture { bit, extra } => {
            let place = Place { picture, bit: *bit };
            tell_remarks(report, place, &[extra_rule(*extra)])
        }
        Other::Matrices { bit, info } => {
            let place = Place { picture, bit: *bit };
            tell_remarks(report, place, &matrix_rules(info))
        }
    }
}

/// Of each by itself, in turn.
#[tactic(auto, unfolding(crate::specs::Others::with_own_remarks))]
fn tell_others(report: &mut Report, picture: u64, others: &[Other]) -> Result<(), AllocError>
    ensures { OnOk result (report.new ≡ with_own_remarks report.old picture others.now) }
{
    for other in others {
        tell_own(report, picture, other)?;
    }
    Ok(())
}

/// Of the sequence display extension behind a sequence header, beside that of the first one; of the first one nothing.
#[tactic(auto, unfolding(crate::specs::Others::display_remarks))]
fn beside_first(first: &Option<Option<Display>>, d: &Option<Display>) -> Option<Remark>
    ensures { told_at result ≡ display_remarks first.now d.now }
{
    match first {
        Some(first) => display_rule(first, d),
        None => None,
    }
}

/// In a piece with a sequence header or without.
fn headed_rule(headed: bool, first: &Option<Option<Display>>, d: &Option<Display>) -> Option<Remark>
    ensures { told_at result ≡ headed_remarks headed first.now d.now }
{
    if headed {
        return beside_first(first, d);
    }
    None
}

/// That of the first sequence header.
#[tactic(auto, unfolding(crate::specs::Others::first_display))]
fn first_display(first: Option<Option<Display>>, d: Option<Display>) -> Option<Display>
    ensures { result ≡ first_display first d }
{
    match first {
        Some(first) => first,
        None => d,
    }
}

/// That of the first sequence header, behind a piece with one or without.
fn display_behind(
    headed: bool,
    first: Option<Option<Display>>,
    d: Option<Display>,
) -> Option<Option<Display>>
    ensures { result ≡ display_behind headed first d }
{
    if headed {
        return Some(first_display(first, d));
    }
    first
}

impl Auditing {
    /// The sequence display extension of a piece that begins at a byte of the input, behind its headers.
    pub(crate) fn display(&mut self, place: u64, others: &[Other]) -> Result<(), AllocError>
        requires place { place ≤ 2 ^ 36 }
        ensures value { OnOk result (self.new ≡ with_display place others.now self.old) }
        ensures keeps { Keeps self.old self.new }
    {
        let d = display_of(others);
        let remark = headed_rule(self.headed, &self.display, &d);
        let stands = self.place_at(8 * place);
        self.display = display_behind(self.headed, self.display, d);
        tell_remarks(&mut self.report, stands, &[remark])
    }

    /// What else stands before a picture's first slice.
    pub(crate) fn others(&mut self, picture: u64, others: &[Other]) -> Result<(), AllocError>
        ensures value { OnOk result (self.new ≡ with_others picture others.now self.old) }
        ensures keeps { Keeps self.old self.new }
    {
        tell_others(&mut self.report, picture, others)
    }
}
