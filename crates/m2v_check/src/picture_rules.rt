// The rules that look at one picture (clause 8), in two parts: those before that on temporal_reference, and those behind.
ghost use Rattle.std.specs.Prelude.{◌≡◌, ◌<◌, ◌++◌, slice_index, slice_index_or, Bool, not, nat_eq, nat_le, ◌||◌, ◌&&◌, if◌then◌else◌, []};
ghost use Rattle.m2v_model.specs.Headers.{uses_backward};
ghost use Rattle.m2v_model.specs.States.{is_frame};
ghost use Rattle.m2v_model.specs.Lawful.{at_most, level_in, most_horizontal, has_forward_vectors, f_code_of, f_code_rule, horizontal_rule, vertical_rule, intra_rule, crowd_rule, repeat_rule, progressive_rule, precision_rule};
ghost use Rattle.m2v_check.specs.Breaking.{told_at, told_by, numbered_of, noted_picture};

use crate::broken::{BrokenRule, at_most, broken, judge};
use crate::coded::CodedPicture;
use crate::level::{level_of, most_horizontal};
use m2v_head::{PictureExtension, PictureInfo};

/// A frame picture.
pub fn is_frame(e: &PictureExtension) -> bool
    ensures value { result ≡ is_frame e.now }
{
    e.structure == 3
}

/// picture_coding_type is that of B pictures.
pub fn is_b(info: &PictureInfo) -> bool
    ensures value { result ≡ nat_eq info.now.kind 3 }
{
    info.kind == 3
}

/// A rule on an f_code, where it is used.
fn f_code_at(used: bool, rule: u8, picture: u64, code: u8, most: u8) -> Option<BrokenRule>
    ensures value { told_at result ≡ (if used then at_most rule picture code most else []) }
{
    if !used {
        return None;
    }
    at_most(rule, picture, u128::from(code), u128::from(most))
}

/// Forward vectors are used.
fn has_forward_vectors(p: &CodedPicture) -> bool
    ensures value { result ≡ has_forward_vectors (noted_picture p.now.note) }
{
    p.note.info.kind != 1 || p.note.extension.concealment
}

/// An f_code of a direction, 0 forward or 1 backward, and a component, 0 horizontal or 1 vertical.
fn f_code(e: &PictureExtension, direction: usize, component: usize) -> u8
    requires direction { direction < 2 }
    requires component { component < 2 }
    ensures value { result ≡ slice_index (slice_index_or e.now.f_code direction []) component }
{
    let codes = &e.f_code;
    let pair = &codes[direction];
    pair[component]
}

/// The f_codes of a component, where they are used.
fn f_code_rules(p: &CodedPicture, rule: u8, component: usize, most: u8) -> [Option<BrokenRule>; 2]
    requires component { component < 2 }
    ensures value { told_by result ≡ f_code_rule rule component (λ n. most) (numbered_of p.now) }
{
    let e = &p.note.extension;
    let fore = f_code(e, 0, component);
    let forward = f_code_at(has_forward_vectors(p), rule, p.number, fore, most);
    let back = f_code(e, 1, component);
    let backward = f_code_at(is_b(&p.note.info), rule, p.number, back, most);
    [forward, backward]
}

/// Horizontal f_codes.
#[tactic(auto, unfolding(m2v_model::specs::Lawful::horizontal_rule))]
fn horizontal_rule(p: &CodedPicture) -> [Option<BrokenRule>; 2]
    ensures value { told_by result ≡ horizontal_rule (numbered_of p.now) }
{
    let most = most_horizontal(level_of(p.sequence.extension.profile_and_level));
    f_code_rules(p, 8, 0, most)
}

/// The greatest vertical f_code of a picture.
fn most_vertical(e: &PictureExtension) -> u8
    ensures value { result ≡ (if is_frame e.now then 5 else 4) }
{
    if is_frame(e) { 5 } else { 4 }
}

/// Vertical f_codes.
#[tactic(auto, unfolding(m2v_model::specs::Lawful::vertical_rule))]
fn vertical_rule(p: &CodedPicture) -> [Option<BrokenRule>; 2]
    ensures value { told_by result ≡ vertical_rule (numbered_of p.now) }
{
    f_code_rules(p, 9, 1, most_vertical(&p.note.extension))
}

/// The first picture behind a group header is an I picture.
#[tactic(auto, unfolding(m2v_model::specs::Lawful::intra_rule))]
fn intra_rule(p: &CodedPicture) -> Option<BrokenRule>
    ensures value { told_at result ≡ intra_rule (numbered_of p.now) }
{
    let kind = p.note.info.kind;
    judge(
        !p.first_in_group || kind == 1,
        broken(10, p.number, u128::from(kind), 1),
    )
}

/// At most two macroblocks of a row are large.
#[tactic(auto, unfolding(m2v_model::specs::Lawful::crowd_rule))]
fn crowd_rule(p: &CodedPicture) -> Option<BrokenRule>
    ensures value { told_at result ≡ crowd_rule (numbered_of p.now) }
{
    let crowded = p.note.crowded;
    at_most(12, p.number, u128::from(crowded), 2)
}

/// Fields are repeated in progressive frames of interlaced sequences alone, where the rate is constant.
#[tactic(auto, unfolding(m2v_model::specs::Lawful::repeat_rule))]
fn repeat_rule(constant: bool, p: &CodedPicture) -> Option<BrokenRule>
    ensures value { told_at result ≡ repeat_rule constant (numbered_of p.now) }
{
    let e = &p.note.extension;
    let never = p.sequence.extension.progressive_sequence || !e.progressive_frame || !is_frame(e);
    judge(
        !(constant && e.repeat_first_field && never),
        broken(13, p.number, 1, 0),
    )
}

/// In a progressive sequence frames have frame prediction, and then they are progressive.
#[tactic(auto, unfolding(m2v_model::specs::Lawful::progressive_rule))]
fn progressive_rule(p: &CodedPicture) -> Option<BrokenRule>
    ensures value { told_at result ≡ progressive_rule (numbered_of p.now) }
{
    let e = &p.note.extension;
    let progressive = e.frame_pred_frame_dct && e.progressive_frame;
    judge(
        !p.sequence.extension.progressive_sequence || progressive,
        broken(14, p.number, 0, 1),
    )
}

/// The precision of DC coefficients.
#[tactic(auto, unfolding(m2v_model::specs::Lawful::precision_rule))]
fn precision_rule(p: &CodedPicture) -> Option<BrokenRule>
    ensures value { told_at result ≡ precision_rule (numbered_of p.now) }
{
    let precision = p.note.extension.dc_precision;
    at_most(15, p.number, u128::from(precision), 2)
}

/// The rules on a picture that come before the one on its place, by number: at each place the breach, where there is one.
pub fn rules_to_10(p: &CodedPicture) -> [Option<BrokenRule>; 5]
    ensures value { told_by result
        ≡ horizontal_rule (numbered_of p.now) ++ vertical_rule (numbered_of p.now)
        ++ intra_rule (numbered_of p.now) }
{
    let horizontal = horizontal_rule(p);
    let vertical = vertical_rule(p);
    [
        horizontal[0],
        horizontal[1],
        vertical[0],
        vertical[1],
        intra_rule(p),
    ]
}

/// Those that come after the one on its place, in a stream at constant rate or not.
pub fn rules_from_12(constant: bool, p: &CodedPicture) -> [Option<BrokenRule>; 4]
    ensures value { told_by result
        ≡ crowd_rule (numbered_of p.now) ++ repeat_rule constant (numbered_of p.now)
        ++ progressive_rule (numbered_of p.now) ++ precision_rule (numbered_of p.now) }
{
    [
        crowd_rule(p),
        repeat_rule(constant, p),
        progressive_rule(p),
        precision_rule(p),
    ]
}
