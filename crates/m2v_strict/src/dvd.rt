//! The rules of a video DVD.
ghost use Rattle.std.specs.Prelude.{◌≡◌};
ghost use Rattle.m2v_strict.specs.Remarks.{told_at, told_by};
ghost use Rattle.m2v_strict.specs.DvdRules.{size_of, is_full_width, full_height, half_height, is_disc_size, size_rule, format_rule, form_warning, wide_warning, dvd_remarks, like_warning, headed_warning, no_runs, runs_at_group, b_frames_with, runs_with, most_fields, fields_rule, b_frames_warning, first_group_warning, dvd_picture_remarks};

use crate::element::Element;
use crate::remark::{Remark, at_most, equal, judge, unset, within};
use crate::runs::Runs;
use m2v_check::{CodedPicture, ends_frame, is_b, rate_of};
use m2v_model::Sequence;

/// A size, as it is told: 10,000 times its width, and its height added.
pub(crate) fn size_of(s: &Sequence) -> u128
    ensures { result ≡ size_of s.now }
{
    10_000 * u128::from(s.width()) + u128::from(s.height())
}

/// Columns of whole lines, or of half of them.
fn is_full_width(width: u64) -> bool
    ensures { result ≡ is_full_width width }
{
    width == 720 || width == 704 || width == 352
}

/// The lines of a frame, by frame_rate_code.
fn full_height(code: u8) -> u64
    ensures { result ≡ full_height code }
{
    if code == 3 { 576 } else { 480 }
}

/// The lines of half a frame.
fn half_height(code: u8) -> u64
    ensures { result ≡ half_height code }
{
    if code == 3 { 288 } else { 240 }
}

/// A size that a disc has.
fn is_disc_size(s: &Sequence) -> bool
    ensures { result ≡ is_disc_size s.now }
{
    let code = s.info.frame_rate_code;
    let full = is_full_width(s.width()) && s.height() == full_height(code);
    full || s.width() == 352 && s.height() == half_height(code)
}

/// The size of a frame.
#[tactic(auto, unfolding(crate::specs::DvdRules::size_rule))]
fn size_rule(s: &Sequence) -> Option<Remark>
    ensures { told_at result ≡ size_rule s.now }
{
    judge(
        is_disc_size(s),
        Remark::of(
            60,
            Element::Size,
            size_of(s),
            7_200_000 + u128::from(full_height(s.info.frame_rate_code)),
        ),
    )
}

/// The rate of frames, the aspect ratio, the rate of bits, the profile and the level.
#[tactic(auto, unfolding(crate::specs::DvdRules::format_rule))]
fn format_rule(s: &Sequence) -> [Option<Remark>; 4]
    ensures { told_by result ≡ format_rule s.now }
{
    let code = u128::from(s.info.frame_rate_code);
    let aspect = u128::from(s.info.aspect);
    let level = u128::from(s.extension.profile_and_level);
    [
        within(61, Element::FrameRateCode, code, 3, 4),
        within(62, Element::AspectRatioInformation, aspect, 2, 3),
        at_most(63, Element::BitRate, u128::from(rate_of(s)), 24_500),
        equal(64, Element::ProfileAndLevelIndication, level, 72),
    ]
}

/// Low delay, and progressive sequences.
#[tactic(auto, unfolding(crate::specs::DvdRules::form_warning))]
fn form_warning(s: &Sequence) -> [Option<Remark>; 2]
    ensures { told_by result ≡ form_warning s.now }
{
    let e = &s.extension;
    [
        unset(68, Element::LowDelay, e.low_delay),
        unset(68, Element::ProgressiveSequence, e.progressive_sequence),
    ]
}

/// 16:9 in lines of another width.
#[tactic(auto, unfolding(crate::specs::DvdRules::wide_warning))]
fn wide_warning(s: &Sequence) -> Option<Remark>
    ensures { told_at result ≡ wide_warning s.now }
{
    judge(
        s.width() == 720 || s.width() == 704 || s.info.aspect != 3,
        Remark::of(71, Element::AspectRatioInformation, 3, 2),
    )
}

/// The rules on a sequence header (60 to 64) and the warnings (68 and 71), by number.
pub fn dvd_rules(s: &Sequence) -> [Option<Remark>; 8]
    ensures { told_by result ≡ dvd_remarks s.now }
{
    let format = format_rule(s);
    let form = form_warning(s);
    [
        size_rule(s),
        format[0],
        format[1],
        format[2],
        format[3],
        form[0],
        form[1],
        wide_warning(s),
    ]
}

/// The warning on a sequence header beside that of the first sequence of all (70), where it is of another one.
#[tactic(auto, unfolding(crate::specs::DvdRules::like_warning))]
pub fn like_warning(first: &Option<Sequence>, s: &Sequence) -> [Option<Remark>; 3]
    ensures { told_by result ≡ like_warning first.now s.now }
{
    let Some(first) = first else {
        return [None, None, None];
    };
    let code = u128::from(s.info.frame_rate_code);
    let first_code = u128::from(first.info.frame_rate_code);
    let aspect = u128::from(s.info.aspect);
    let first_aspect = u128::from(first.info.aspect);
    [
        equal(70, Element::Size, size_of(s), size_of(first)),
        equal(70, Element::FrameRateCode, code, first_code),
        equal(70, Element::AspectRatioInformation, aspect, first_aspect),
    ]
}

/// The warning on a group header (67): whether a sequence header stands before it, behind the picture before.
#[tactic(auto, unfolding(crate::specs::DvdRules::headed_warning))]
pub fn headed_warning(headed: bool) -> Option<Remark>
    ensures { told_at result ≡ headed_warning headed }
{
    judge(headed, Remark::of(67, Element::SequenceHeader, 0, 1))
}

impl Runs {
    /// Nothing came.
    pub fn new() -> Runs
        ensures { result ≡ no_runs }
    {
        Runs {
            b_frames: 0,
            fields: 0,
        }
    }

    /// A group begins.
    pub fn group(&mut self)
        ensures { self.new ≡ runs_at_group self.old }
    {
        self.fields = 0;
    }

    /// A picture comes, which is shown for so many fields.
    pub fn picture(&mut self, p: &CodedPicture, fields: u64)
        ensures { self.new ≡ runs_with self.old p.now fields }
    {
        self.b_frames = b_frames_with(self.b_frames, p);
        self.fields = self.fields.saturating_add(fields);
    }
}

/// How many B frames ended in a row, with a picture.
#[tactic(auto, unfolding(crate::specs::DvdRules::b_frames_with))]
fn b_frames_with(n: u64, p: &CodedPicture) -> u64
    ensures { result ≡ b_frames_with n p.now }
{
    if !ends_frame(&p.note) {
        return n;
    }
    if is_b(&p.note.info) {
        n.saturating_add(1)
    } else {
        0
    }
}

/// The most fields of a group, by frame_rate_code.
fn most_fields(code: u8) -> u64
    ensures { result ≡ most_fields code }
{
    if code == 4 { 36 } else { 30 }
}

/// A group is shown for no more fields.
#[tactic(auto, unfolding(crate::specs::DvdRules::fields_rule))]
fn fields_rule(before: &Runs, p: &CodedPicture, fields: u64) -> Option<Remark>
    ensures { told_at result ≡ fields_rule before.now p.now fields }
{
    let most = most_fields(p.sequence.info.frame_rate_code);
    if before.fields > most {
        return None;
    }
    let with = u128::from(before.fields.saturating_add(fields));
    at_most(65, Element::GroupFields, with, u128::from(most))
}

/// At most two B frames in a row.
#[tactic(auto, unfolding(crate::specs::DvdRules::b_frames_warning))]
fn b_frames_warning(before: &Runs, p: &CodedPicture) -> Option<Remark>
    ensures { told_at result ≡ b_frames_warning before.now p.now }
{
    if !(ends_frame(&p.note) && is_b(&p.note.info)) {
        return None;
    }
    let with = u128::from(b_frames_with(before.b_frames, p));
    at_most(66, Element::BFrames, with, 2)
}

/// A sequence begins with a group header, and none of its pictures is dropped.
#[tactic(auto, unfolding(crate::specs::DvdRules::first_group_warning))]
fn first_group_warning(p: &CodedPicture) -> [Option<Remark>; 2]
    ensures { told_by result ≡ first_group_warning p.now }
{
    [
        judge(
            p.number != 0 || p.first_in_group,
            Remark::of(69, Element::FirstGroup, 0, 1),
        ),
        unset(69, Element::Dropped, p.note.dropped),
    ]
}

/// The rule on a picture that is shown for so many fields (65) and the warnings (66 and 69), by number, behind what the pictures
/// before it come to.
pub fn dvd_picture_rules(before: &Runs, p: &CodedPicture, fields: u64) -> [Option<Remark>; 4]
    ensures { told_by result ≡ dvd_picture_remarks before.now p.now fields }
{
    let first = first_group_warning(p);
    [
        fields_rule(before, p, fields),
        b_frames_warning(before, p),
        first[0],
        first[1],
    ]
}
