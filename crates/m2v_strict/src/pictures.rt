//! The stricter rules on a picture header and its coding extension.
ghost use Rattle.std.specs.Prelude.{◌≡◌, ◌<◌, ◌++◌, slice_index, slice_index_or, nat_eq, []};
ghost use Rattle.m2v_model.specs.Headers.{uses_backward};
ghost use Rattle.m2v_model.specs.Lawful.{has_forward_vectors};
ghost use Rattle.m2v_check.specs.Breaking.{noted_picture};
ghost use Rattle.m2v_strict.specs.Remarks.{told_at, told_by, looked_at, equal, unset};
ghost use Rattle.m2v_strict.specs.PictureRules.{low_delay_rule, delay_rule, unused_rule, f_code_rule, full_pel_rule, is_judged, field_rule, prediction_rule, top_first_rule, interlaced_rule, never_repeats, repeat_by_rate_rule, chroma_rule, dropped_warning, b_repeat_warning, delay_remarks, frame_remarks, picture_warnings};

use crate::element::Element;
use crate::remark::{Remark, equal, judge, number_of, unset};
use crate::sequences::is_higher;
use m2v_check::{CodedPicture, is_b, is_frame};
use m2v_model::macro_library::head::{PictureExtension, PictureInfo};

/// The vbv_delay of a sequence at variable rate.
const VARIABLE: u32 = 65_535;

/// A flag that is 0, where the rule is looked at.
fn unset_where(looked: bool, rule: u8, element: Element, flag: bool) -> Option<Remark>
    ensures { told_at result ≡ looked_at looked (unset rule element flag) }
{
    if !looked {
        return None;
    }
    unset(rule, element, flag)
}

/// A number that is what is needed, where the rule is looked at.
fn equal_where(looked: bool, rule: u8, element: Element, have: u8, need: u128) -> Option<Remark>
    ensures { told_at result ≡ looked_at looked (equal rule element have need) }
{
    if !looked {
        return None;
    }
    equal(rule, element, u128::from(have), need)
}

/// At low delay there is no B picture.
#[tactic(auto, unfolding(crate::specs::PictureRules::low_delay_rule))]
fn low_delay_rule(p: &CodedPicture) -> Option<Remark>
    ensures { told_at result ≡ low_delay_rule p.now }
{
    if !p.sequence.extension.low_delay {
        return None;
    }
    judge(!is_b(&p.note.info), Remark::of(27, Element::LowDelay, 3, 2))
}

/// The rate is constant in all pictures, or in none.
#[tactic(auto, unfolding(crate::specs::PictureRules::delay_rule))]
fn delay_rule(constant: bool, delay: u32) -> Option<Remark>
    ensures { told_at result ≡ delay_rule constant delay }
{
    if !constant {
        return equal(28, Element::VbvDelay, u128::from(delay), 65_535);
    }
    judge(
        delay != VARIABLE,
        Remark::of(28, Element::VbvDelay, 65_535, 65_534),
    )
}

/// Forward vectors are used.
fn has_forward_vectors(p: &CodedPicture) -> bool
    ensures { result ≡ has_forward_vectors (noted_picture p.now.note) }
{
    p.note.info.kind != 1 || p.note.extension.concealment
}

/// An f_code of a direction and a component.
fn f_code(e: &PictureExtension, direction: usize, component: usize) -> u8
    requires direction { direction < 2 }
    requires component { component < 2 }
    ensures { result ≡ slice_index (slice_index_or e.now.f_code direction []) component }
{
    let pair = &e.f_code[direction];
    pair[component]
}

/// The f_codes of a direction, where it isn't used.
fn unused_rule(looked: bool, p: &CodedPicture, direction: usize) -> [Option<Remark>; 2]
    requires direction { direction < 2 }
    ensures { told_by result ≡ looked_at looked (unused_rule p.now direction) }
{
    let e = &p.note.extension;
    let horizontal = f_code(e, direction, 0);
    let vertical = f_code(e, direction, 1);
    [
        equal_where(looked, 30, Element::FCodeHorizontal, horizontal, 15),
        equal_where(looked, 30, Element::FCodeVertical, vertical, 15),
    ]
}

/// The rules on f_codes that aren't used (30), forward before backward.
#[tactic(auto, unfolding(crate::specs::PictureRules::f_code_rule))]
pub fn f_code_rules(p: &CodedPicture) -> [Option<Remark>; 4]
    ensures { told_by result ≡ f_code_rule p.now }
{
    let forward = unused_rule(!has_forward_vectors(p), p, 0);
    let backward = unused_rule(!is_b(&p.note.info), p, 1);
    [forward[0], forward[1], backward[0], backward[1]]
}

/// The rules on what a picture header says of vectors for MPEG-1 (31), forward before backward.
#[tactic(auto, unfolding(crate::specs::PictureRules::full_pel_rule))]
pub fn full_pel_rules(i: &PictureInfo) -> [Option<Remark>; 4]
    ensures { told_by result ≡ full_pel_rule i.now }
{
    let forward = i.kind != 1;
    let backward = is_b(i);
    [
        unset_where(
            forward,
            31,
            Element::FullPelForwardVector,
            i.full_pel_forward,
        ),
        equal_where(forward, 31, Element::ForwardFCode, i.forward_f_code, 7),
        unset_where(
            backward,
            31,
            Element::FullPelBackwardVector,
            i.full_pel_backward,
        ),
        equal_where(backward, 31, Element::BackwardFCode, i.backward_f_code, 7),
    ]
}

/// The rules on what a picture header says of its type and of the buffer (27 and 28), by number, in a sequence at constant rate or
/// not.
pub fn delay_rules(constant: bool, p: &CodedPicture) -> [Option<Remark>; 2]
    ensures { told_by result ≡ delay_remarks constant p.now }
{
    [
        low_delay_rule(p),
        delay_rule(constant, p.note.info.vbv_delay),
    ]
}

/// Rule 13 looks at a repeated first field of this picture.
fn is_judged(constant: bool, p: &CodedPicture) -> bool
    ensures { result ≡ is_judged constant p.now }
{
    let e = &p.note.extension;
    constant && (p.sequence.extension.progressive_sequence || !e.progressive_frame || !is_frame(e))
}

/// The rules on flags that are 0 in field pictures (33), in a sequence at constant rate or not.
#[tactic(auto, unfolding(crate::specs::PictureRules::field_rule))]
pub fn field_rules(constant: bool, p: &CodedPicture) -> [Option<Remark>; 4]
    ensures { told_by result ≡ field_rule constant p.now }
{
    let e = &p.note.extension;
    let field = !is_frame(e);
    let repeat = field && !is_judged(constant, p);
    [
        unset_where(field, 33, Element::TopFieldFirst, e.top_field_first),
        unset_where(
            field,
            33,
            Element::FramePredFrameDct,
            e.frame_pred_frame_dct,
        ),
        unset_where(field, 33, Element::ProgressiveFrame, e.progressive_frame),
        unset_where(repeat, 33, Element::RepeatFirstField, e.repeat_first_field),
    ]
}

/// A progressive frame has frame prediction.
#[tactic(auto, unfolding(crate::specs::PictureRules::prediction_rule))]
fn prediction_rule(p: &CodedPicture) -> Option<Remark>
    ensures { told_at result ≡ prediction_rule p.now }
{
    let e = &p.note.extension;
    let looked = is_frame(e) && e.progressive_frame && !p.sequence.extension.progressive_sequence;
    judge(
        !looked || e.frame_pred_frame_dct,
        Remark::of(34, Element::FramePredFrameDct, 0, 1),
    )
}

/// top_field_first in a progressive sequence.
#[tactic(auto, unfolding(crate::specs::PictureRules::top_first_rule))]
fn top_first_rule(p: &CodedPicture) -> Option<Remark>
    ensures { told_at result ≡ top_first_rule p.now }
{
    let e = &p.note.extension;
    let looked = p.sequence.extension.progressive_sequence && !e.repeat_first_field;
    unset_where(looked, 35, Element::TopFieldFirst, e.top_field_first)
}

/// A frame that isn't progressive repeats no field.
#[tactic(auto, unfolding(crate::specs::PictureRules::interlaced_rule))]
fn interlaced_rule(constant: bool, p: &CodedPicture) -> Option<Remark>
    ensures { told_at result ≡ interlaced_rule constant p.now }
{
    let e = &p.note.extension;
    let interlaced = !p.sequence.extension.progressive_sequence;
    let looked = interlaced && is_frame(e) && !e.progressive_frame && !is_judged(constant, p);
    unset_where(looked, 36, Element::RepeatFirstField, e.repeat_first_field)
}

/// A frame rate at which nothing is repeated.
fn never_repeats(progressive: bool, code: u8) -> bool
    ensures { result ≡ never_repeats progressive code }
{
    let most = if progressive { 6 } else { 2 };
    code <= most
}

/// Nothing is repeated at such a rate.
#[tactic(auto, unfolding(crate::specs::PictureRules::repeat_by_rate_rule))]
fn repeat_by_rate_rule(constant: bool, p: &CodedPicture) -> Option<Remark>
    ensures { told_at result ≡ repeat_by_rate_rule constant p.now }
{
    let e = &p.note.extension;
    let s = &p.sequence;
    let never = never_repeats(s.extension.progressive_sequence, s.info.frame_rate_code);
    let looked = never && is_frame(e) && !is_judged(constant, p);
    unset_where(looked, 37, Element::RepeatByRate, e.repeat_first_field)
}

/// chroma_420_type is what progressive_frame is.
#[tactic(auto, unfolding(crate::specs::PictureRules::chroma_rule))]
fn chroma_rule(e: &PictureExtension) -> Option<Remark>
    ensures { told_at result ≡ chroma_rule e.now }
{
    let have = number_of(e.chroma_420_type);
    let need = number_of(e.progressive_frame);
    equal(38, Element::Chroma420Type, have, need)
}

/// The rules on how a frame is shown and predicted (34 to 38), by number, in a sequence at constant rate or not.
pub fn frame_rules(constant: bool, p: &CodedPicture) -> [Option<Remark>; 5]
    ensures { told_by result ≡ frame_remarks constant p.now }
{
    [
        prediction_rule(p),
        top_first_rule(p),
        interlaced_rule(constant, p),
        repeat_by_rate_rule(constant, p),
        chroma_rule(&p.note.extension),
    ]
}

/// A picture that isn't decoded.
#[tactic(auto, unfolding(crate::specs::PictureRules::dropped_warning))]
fn dropped_warning(p: &CodedPicture) -> Option<Remark>
    ensures { told_at result ≡ dropped_warning p.now }
{
    unset(57, Element::Dropped, p.note.dropped)
}

/// A B picture that repeats a field.
#[tactic(auto, unfolding(crate::specs::PictureRules::b_repeat_warning))]
fn b_repeat_warning(p: &CodedPicture) -> Option<Remark>
    ensures { told_at result ≡ b_repeat_warning p.now }
{
    let s = &p.sequence;
    let lines = s.height() > 480 || s.info.frame_rate_code == 3;
    let looked = is_b(&p.note.info) && !is_higher(s) && lines;
    let repeats = p.note.extension.repeat_first_field;
    unset_where(looked, 59, Element::RepeatFirstField, repeats)
}

/// The warnings on a picture (57 and 59), by number.
pub fn picture_warnings(p: &CodedPicture) -> [Option<Remark>; 2]
    ensures { told_by result ≡ picture_warnings p.now }
{
    [dropped_warning(p), b_repeat_warning(p)]
}
