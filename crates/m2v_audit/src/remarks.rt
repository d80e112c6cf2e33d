//! What the stricter rules remark of each header, as the report tells it.
ghost use Rattle.std.specs.Prelude.{◌≡◌, ◌<◌, ◌^◌, ◌++◌, OnOk};
ghost use Rattle.m2v_strict.specs.DvdRules.{dvd_remarks, like_warning as like_remarks};
ghost use Rattle.m2v_audit.specs.Findings.{with_remarks};
ghost use Rattle.m2v_audit.specs.Auditing.{with_set_remarks, with_sequence_remarks, with_group_remarks, with_set_picture_remarks, with_picture_remarks, with_all_remarks, with_shown};

use crate::findings::{Place, tell_remarks};
use crate::report::Report;
use crate::times::fields_of;
use crate::told::bit_of;
use m2v_model::Sequence;
use m2v_model::macro_library::head::GroupInfo;
use m2v_strict::check::CodedPicture;
use m2v_strict::{
    Leading, Preceding, RuleSet, Runs, ShownFrame, arrival_rule, atsc_delay_warning, atsc_rules,
    broken_link_warning, delay_rules, dvb_rules, dvd_picture_rules, dvd_rules, extension_rules,
    f_code_rules, field_rules, first_type_rule, frame_rules, full_pel_rules, group_order_rule,
    group_rules, headed_warning, header_rules, level_rules, like_warning, parity_warning,
    picture_warnings, sequence_order_rule, sequence_warnings, time_warnings,
};
use std::alloc::AllocError;

/// Of a sequence header by the rules of a disc, beside the first one of all.
#[tactic(auto, unfolding(crate::specs::Findings::with_remarks))]
fn tell_disc(
    report: &mut Report,
    like: &Option<Sequence>,
    place: Place,
    s: &Sequence,
) -> Result<(), AllocError>
    ensures { OnOk result (report.new ≡ with_remarks report.old place.picture place.bit
        (dvd_remarks s.now ++ like_remarks like.now s.now)) }
{
    tell_remarks(report, place, &dvd_rules(s))?;
    tell_remarks(report, place, &like_warning(like, s))
}

/// Of a sequence header by the rules of a set.
#[tactic(auto, unfolding(m2v_strict::specs::SetRules::set_remarks, crate::specs::Findings::with_remarks))]
fn tell_set(
    report: &mut Report,
    rules: RuleSet,
    like: &Option<Sequence>,
    place: Place,
    s: &Sequence,
) -> Result<(), AllocError>
    ensures { OnOk result (report.new
        ≡ with_set_remarks report.old rules like.now place.picture place.bit s.now) }
{
    match rules {
        RuleSet::Main => Ok(()),
        RuleSet::Dvd => tell_disc(report, like, place, s),
        RuleSet::Dvb => tell_remarks(report, place, &dvb_rules(s)),
        RuleSet::Atsc => tell_remarks(report, place, &atsc_rules(s)),
    }
}

/// Of a sequence header behind these headers, beside the first one of its sequence, and by its set beside the first one of all.
pub(crate) fn tell_sequence(
    report: &mut Report,
    rules: RuleSet,
    like: &Option<Sequence>,
    before: &Leading,
    place: Place,
    first: &Sequence,
    s: &Sequence,
) -> Result<(), AllocError>
    ensures { OnOk result (report.new
        ≡ with_sequence_remarks report.old rules like.now before.now place.picture place.bit
        first.now s.now) }
{
    tell_remarks(report, place, &level_rules(s))?;
    tell_remarks(report, place, &header_rules(first, s))?;
    tell_remarks(report, place, &extension_rules(first, s))?;
    tell_remarks(report, place, &[sequence_order_rule(before)])?;
    tell_remarks(report, place, &sequence_warnings(rules, s))?;
    tell_set(report, rules, like, place, s)
}

/// What stands before a group header.
#[derive(Clone, Copy)]
pub struct Behind {
    /// The headers since the last picture.
    pub headers: Leading,
    /// The last group header.
    pub group: Option<GroupInfo>,
    /// For how many fields the pictures of its group are shown.
    pub fields: u64,
}

/// Of a group header behind these, in a sequence with this header.
#[tactic(auto, unfolding(m2v_strict::specs::SetRules::set_group_remarks, crate::specs::Findings::with_remarks))]
pub(crate) fn tell_group(
    report: &mut Report,
    rules: RuleSet,
    before: &Behind,
    place: Place,
    s: &Sequence,
    g: &GroupInfo,
) -> Result<(), AllocError>
    ensures { OnOk result (report.new
        ≡ with_group_remarks report.old rules before.now place.picture place.bit s.now g.now) }
{
    let code = s.info.frame_rate_code;
    tell_remarks(report, place, &[group_order_rule(&before.headers)])?;
    tell_remarks(report, place, &group_rules(code, g))?;
    let times = time_warnings(code, &before.group, before.fields, g);
    tell_remarks(report, place, &times)?;
    tell_remarks(report, place, &[broken_link_warning(g)])?;
    match rules {
        RuleSet::Dvd => tell_remarks(report, place, &[headed_warning(before.headers.sequence)]),
        _ => Ok(()),
    }
}

/// Of the frame that is shown, where one is, behind a field of which this says whether it is a top field.
pub(crate) fn tell_shown(
    report: &mut Report,
    last: Option<bool>,
    shown: &Option<ShownFrame>,
) -> Result<(), AllocError>
    ensures { OnOk result (report.new ≡ with_shown report.old last shown.now) }
{
    match shown {
        Some(f) => {
            let place = Place {
                picture: f.picture,
                bit: f.bit,
            };
            tell_remarks(report, place, &[parity_warning(last, f)])
        }
        None => Ok(()),
    }
}

/// Of a picture by the rules of a set, behind what the pictures before it come to.
#[tactic(auto, unfolding(m2v_strict::specs::SetRules::set_picture_remarks, crate::specs::Findings::with_remarks))]
fn tell_picture_set(
    report: &mut Report,
    rules: RuleSet,
    before: &Runs,
    p: &CodedPicture,
) -> Result<(), AllocError>
    ensures { OnOk result (report.new
        ≡ with_set_picture_remarks report.old rules before.now p.now) }
{
    let place = Place {
        picture: p.number,
        bit: bit_of(&p.note),
    };
    let fields = fields_of(&p.sequence, &p.note);
    match rules {
        RuleSet::Dvd => tell_remarks(report, place, &dvd_picture_rules(before, p, fields)),
        RuleSet::Atsc => tell_remarks(report, place, &[atsc_delay_warning(p.note.info.vbv_delay)]),
        _ => Ok(()),
    }
}

/// Of a picture behind these, in a sequence at constant rate or not, by the rules that each set has.
fn tell_each(
    report: &mut Report,
    before: &Preceding,
    constant: bool,
    p: &CodedPicture,
) -> Result<(), AllocError>
    requires rate { before.now.rate < 2 ^ 51 }
    ensures { OnOk result
        (report.new ≡ with_picture_remarks report.old before.now constant p.now) }
{
    let place = Place {
        picture: p.number,
        bit: bit_of(&p.note),
    };
    tell_remarks(report, place, &[first_type_rule(before.headed, p)])?;
    tell_remarks(report, place, &delay_rules(constant, p))?;
    let arrival = arrival_rule(before.rate, &before.picture, p);
    tell_remarks(report, place, &[arrival])?;
    tell_remarks(report, place, &f_code_rules(p))?;
    tell_remarks(report, place, &full_pel_rules(&p.note.info))?;
    tell_remarks(report, place, &field_rules(constant, p))?;
    tell_remarks(report, place, &frame_rules(constant, p))?;
    tell_remarks(report, place, &picture_warnings(p))
}

/// Of a picture behind these, in a sequence at constant rate or not, and behind what the pictures before it come to.
pub(crate) fn tell_picture(
    report: &mut Report,
    rules: RuleSet,
    before: &Preceding,
    constant: bool,
    runs: &Runs,
    p: &CodedPicture,
) -> Result<(), AllocError>
    requires rate { before.now.rate < 2 ^ 51 }
    ensures { OnOk result (report.new
        ≡ with_all_remarks report.old rules before.now constant runs.now p.now) }
{
    tell_each(report, before, constant, p)?;
    tell_picture_set(report, rules, runs, p)
}
