//! The stricter rules on a sequence header and its extension.
ghost use Rattle.std.specs.Prelude.{◌≡◌, ◌*◌, ◌++◌};
ghost use Rattle.std.specs.Prelude.{slice_index};
ghost use Rattle.m2v_model.specs.Lawful.{level_in};
ghost use Rattle.m2v_strict.specs.Remarks.{told_at, told_by, same};
ghost use Rattle.m2v_strict.specs.SequenceRules.{luma_bound, keeps_luma_rate, coded_luma_rule, aspect_rule, constrained_rule, first_number_rule, header_rule, extension_rule, is_broadcast, aspect_warning, size_warning, is_higher, height_warning, level_remarks, sequence_warnings};

use crate::element::Element;
use crate::remark::{Remark, at_most, equal, judge, number_of, unset, within};
use crate::rule_set::RuleSet;
use m2v_check::{bounds_at, buffer_of, level_of, rate_of, time_of_field};
use m2v_model::Sequence;
use m2v_set::Level;

/// The most luma samples in a second, in units of 1/720,000.
fn luma_bound(s: &Sequence) -> u128
    ensures { result ≡ luma_bound s.now }
{
    let most = bounds_at(level_of(s.extension.profile_and_level)).luma;
    u128::from(most * (2 * time_of_field(s.info.frame_rate_code)))
}

/// The luma samples of the picture in a second are within the level.
fn keeps_luma_rate(s: &Sequence) -> bool
    ensures { result ≡ keeps_luma_rate s.now }
{
    720_000 * u128::from(s.width()) * u128::from(s.height()) <= luma_bound(s)
}

/// The luma samples of whole macroblocks.
#[tactic(auto, unfolding(crate::specs::SequenceRules::coded_luma_rule))]
fn coded_luma_rule(s: &Sequence) -> Option<Remark>
    ensures { told_at result ≡ coded_luma_rule s.now }
{
    if !keeps_luma_rate(s) {
        return None;
    }
    let lines = 16 * u128::from(s.rows());
    let samples = 720_000 * (16 * u128::from(s.columns())) * lines;
    at_most(16, Element::CodedLumaRate, samples, luma_bound(s))
}

/// The aspect ratio is one of the table.
#[tactic(auto, unfolding(crate::specs::SequenceRules::aspect_rule))]
fn aspect_rule(s: &Sequence) -> Option<Remark>
    ensures { told_at result ≡ aspect_rule s.now }
{
    let code = u128::from(s.info.aspect);
    within(17, Element::AspectRatioInformation, code, 1, 4)
}

/// No sequence is one of constrained parameters.
#[tactic(auto, unfolding(crate::specs::SequenceRules::constrained_rule))]
fn constrained_rule(s: &Sequence) -> Option<Remark>
    ensures { told_at result ≡ constrained_rule s.now }
{
    unset(18, Element::ConstrainedParametersFlag, s.info.constrained)
}

/// The first number of a matrix of intra blocks is 8.
#[tactic(auto, unfolding(crate::specs::SequenceRules::first_number_rule))]
pub(crate) fn first_number_rule(matrix: &Option<[u8; 64]>) -> Option<Remark>
    ensures { told_at result ≡ first_number_rule matrix.now }
{
    match matrix {
        Some(numbers) => equal(19, Element::IntraQuantiserMatrix, u128::from(numbers[0]), 8),
        None => None,
    }
}

/// The rules on what a sequence header says of its level and of itself (16 to 19), by number.
pub fn level_rules(s: &Sequence) -> [Option<Remark>; 4]
    ensures { told_by result ≡ level_remarks s.now }
{
    [
        coded_luma_rule(s),
        aspect_rule(s),
        constrained_rule(s),
        first_number_rule(&s.info.load_intra),
    ]
}

/// A rule that a flag is that of the first header.
fn same(rule: u8, element: Element, have: bool, need: bool) -> Option<Remark>
    ensures { told_at result ≡ same rule element have need }
{
    equal(rule, element, number_of(have), number_of(need))
}

/// The rules on a sequence header behind the first one (21), element by element.
#[tactic(auto, unfolding(crate::specs::SequenceRules::header_rule))]
pub fn header_rules(first: &Sequence, s: &Sequence) -> [Option<Remark>; 5]
    ensures { told_by result ≡ header_rule first.now s.now }
{
    let aspects = (u128::from(s.info.aspect), u128::from(first.info.aspect));
    let codes = (
        u128::from(s.info.frame_rate_code),
        u128::from(first.info.frame_rate_code),
    );
    let rates = (u128::from(rate_of(s)), u128::from(rate_of(first)));
    let buffers = (u128::from(buffer_of(s)), u128::from(buffer_of(first)));
    [
        equal(21, Element::AspectRatioInformation, aspects.0, aspects.1),
        equal(21, Element::FrameRateCode, codes.0, codes.1),
        equal(21, Element::BitRate, rates.0, rates.1),
        equal(21, Element::VbvBufferSize, buffers.0, buffers.1),
        same(
            21,
            Element::ConstrainedParametersFlag,
            s.info.constrained,
            first.info.constrained,
        ),
    ]
}

/// The rules on a sequence extension behind the first one (21), element by element.
#[tactic(auto, unfolding(crate::specs::SequenceRules::extension_rule))]
pub fn extension_rules(first: &Sequence, s: &Sequence) -> [Option<Remark>; 4]
    ensures { told_by result ≡ extension_rule first.now s.now }
{
    let a = &s.extension;
    let b = &first.extension;
    let levels = (
        u128::from(a.profile_and_level),
        u128::from(b.profile_and_level),
    );
    let upper = (u128::from(a.rate_n), u128::from(b.rate_n));
    let lower = (u128::from(a.rate_d), u128::from(b.rate_d));
    [
        equal(21, Element::ProfileAndLevelIndication, levels.0, levels.1),
        same(21, Element::LowDelay, a.low_delay, b.low_delay),
        equal(21, Element::FrameRateExtensionN, upper.0, upper.1),
        equal(21, Element::FrameRateExtensionD, lower.0, lower.1),
    ]
}

/// Broadcasts at 25 Hz.
#[tactic(auto, unfolding(crate::specs::SequenceRules::is_broadcast))]
fn is_broadcast(rules: RuleSet) -> bool
    ensures { result ≡ is_broadcast rules }
{
    matches!(rules, RuleSet::Dvb)
}

/// The highest code of the aspect ratio.
#[tactic(auto, unfolding(crate::specs::SequenceRules::aspect_warning))]
fn aspect_warning(rules: RuleSet, s: &Sequence) -> Option<Remark>
    ensures { told_at result ≡ aspect_warning rules s.now }
{
    judge(
        is_broadcast(rules) || s.info.aspect != 4,
        Remark::of(50, Element::AspectRatioInformation, 4, 3),
    )
}

/// Sizes that no player cuts evenly.
#[tactic(auto, unfolding(crate::specs::SequenceRules::size_warning))]
fn size_warning(s: &Sequence) -> [Option<Remark>; 2]
    ensures { told_by result ≡ size_warning s.now }
{
    let step = if s.extension.progressive_sequence {
        2
    } else {
        4
    };
    let width = u128::from(s.width() % 2);
    let height = u128::from(s.height() % step);
    [
        equal(51, Element::Width, width, 0),
        equal(51, Element::Height, height, 0),
    ]
}

/// A level above Main.
#[tactic(auto, unfolding(crate::specs::SequenceRules::is_higher))]
pub(crate) fn is_higher(s: &Sequence) -> bool
    ensures { result ≡ is_higher (level_in s.now) }
{
    match level_of(s.extension.profile_and_level) {
        Level::Main => false,
        Level::High1440 => true,
        Level::High => true,
    }
}

/// The lines of the levels above Main.
#[tactic(auto, unfolding(crate::specs::SequenceRules::height_warning))]
fn height_warning(s: &Sequence) -> Option<Remark>
    ensures { told_at result ≡ height_warning s.now }
{
    if !is_higher(s) {
        return None;
    }
    at_most(52, Element::Height, u128::from(s.height()), 1088)
}

/// The warnings on a sequence header (50 to 52), by number, where this set of rules is asked for.
pub fn sequence_warnings(rules: RuleSet, s: &Sequence) -> [Option<Remark>; 4]
    ensures { told_by result ≡ sequence_warnings rules s.now }
{
    let sizes = size_warning(s);
    [
        aspect_warning(rules, s),
        sizes[0],
        sizes[1],
        height_warning(s),
    ]
}
