ghost use Rattle.std.specs.Prelude.{◌≡◌, ◌<◌, ◌+◌, ◌*◌, IfOk, IfErr, slice_index_or, false, nat_eq, ◌||◌, ◌&&◌};
ghost use Rattle.std.specs.List.{list_all, range_with_len};
ghost use Rattle.m2v_plane.specs.Fields.{lines_there as lines_there_of};
ghost use Rattle.m2v_pred.specs.Inside.{is_inside};
ghost use Rattle.m2v_model.specs.Modes.{part_decoded as part_decoded_of, direction_decoded as direction_decoded_of, is_decoded as is_decoded_of, all_inside, references_decoded};
ghost use Rattle.m2v_macroblock.specs.Modes.{skipped_mode as skipped_mode_of};
ghost use Rattle.m2v_dec_picture.specs.Conditions.{IsSetup, rows_in, place_in, IsLocated, CanPaint};
ghost use Rattle.m2v_dec_picture.specs.Reads.{Breaks};

use crate::gap::Gap;
use crate::located::Located;
use crate::prediction::place;
use m2v_macro::SliceState;
use m2v_macroblock::skipped_mode;
use m2v_model::{FaultKind, SliceSetup, Stop};
use m2v_plane::Lines;
use m2v_pred::{Form, Mode, inside, lines_read, other_field, own_field, part_count};

/// Whether these lines were decoded, where the top field and the bottom field of the reference were or weren't.
#[inline(always)]
#[tactic(auto, unfolding(m2v_plane::specs::Fields::lines_there))]
fn lines_there(top: bool, bottom: bool, lines: Lines) -> bool
    ensures { result ≡ lines_there_of top bottom lines }
{
    match lines {
        Lines::Whole => top && bottom,
        Lines::Top => top,
        Lines::Bottom => bottom,
    }
}

/// Whether what a part of a macroblock reads in a direction was decoded.
#[tactic(auto, unfolding(m2v_model::specs::Modes::part_decoded))]
fn part_decoded(
    fields: [bool; 2],
    mode: &Mode,
    direction: usize,
    structure: u8,
    part: usize,
) -> bool
    requires direction { direction < 2 }
    requires part { part < 2 }
    ensures { result ≡ part_decoded_of (slice_index_or fields 0 false)
        (slice_index_or fields 1 false) mode.now direction structure part }
{
    let own = lines_there(
        fields[0],
        fields[1],
        lines_read(mode, direction, structure, part),
    );
    let other = other_field(own_field(structure, part));
    own && (mode.form != Form::Dual || lines_there(fields[0], fields[1], other))
}

/// Whether what the parts of a macroblock read in a direction was decoded.
#[tactic(auto, unfolding(m2v_model::specs::Modes::direction_decoded))]
fn parts_decoded(fields: [bool; 2], mode: &Mode, direction: usize, structure: u8) -> bool
    requires direction { direction < 2 }
    ensures { result ≡ direction_decoded_of (slice_index_or fields 0 false)
        (slice_index_or fields 1 false) mode.now direction structure }
{
    part_decoded(fields, mode, direction, structure, 0)
        && (part_count(mode.form, structure) == 1
            || part_decoded(fields, mode, direction, structure, 1))
}

/// Whether what a macroblock reads in a direction was decoded. Where both fields were, its parts aren't looked at.
#[inline(always)]
#[tactic(auto, using(crate::proofs::Decoded::whole_decoded))]
fn direction_decoded(fields: [bool; 2], mode: &Mode, direction: usize, structure: u8) -> bool
    requires direction { direction < 2 }
    ensures { result ≡ direction_decoded_of (slice_index_or fields 0 false)
        (slice_index_or fields 1 false) mode.now direction structure }
{
    if fields[0] && fields[1] {
        return true;
    }
    parts_decoded(fields, mode, direction, structure)
}

/// Whether the fields that a macroblock is predicted from were decoded.
#[inline(always)]
#[tactic(auto, unfolding(m2v_model::specs::Modes::is_decoded))]
fn is_decoded(references: &[bool; 4], structure: u8, mode: &Mode) -> bool
    ensures { result ≡ is_decoded_of references.now structure mode.now }
{
    let [top, bottom, behind_top, behind_bottom] = *references;
    (!mode.forward || direction_decoded([top, bottom], mode, 0, structure))
        && (!mode.backward || direction_decoded([behind_top, behind_bottom], mode, 1, structure))
}

/// Whether the predictions of the macroblocks of a gap by a mode read inside their references.
fn gap_inside(s: &SliceSetup, row: u32, mode: &Mode, gap: Gap) -> bool
    requires setup { IsSetup s.now }
    requires row { row < rows_in s.now }
    requires within { 0 < gap.count → gap.column + gap.count < s.now.context.columns }
    ensures { result ≡ list_all (λ k. is_inside mode.now (place_in s.now row (gap.column + k))
        s.now.dims) (range_with_len 0 gap.count) }
{
    for k in 0..gap.count {
        if !inside(mode, place(s, row, gap.column + k), s.dims) {
            return false;
        }
    }
    true
}

/// Whether the predictions of the macroblocks of a gap read inside their references. Most gaps are empty.
#[inline(always)]
fn skipped_inside(s: &SliceSetup, row: u32, gap: Gap, before: &SliceState) -> bool
    requires setup { IsSetup s.now }
    requires row { row < rows_in s.now }
    requires within { 0 < gap.count → gap.column + gap.count < s.now.context.columns }
    ensures { result ≡ list_all (λ k. is_inside (skipped_mode_of s.now.context before.now)
        (place_in s.now row (gap.column + k)) s.now.dims)
        (range_with_len 0 gap.count) }
{
    if gap.count == 0 {
        return true;
    }
    let mode = skipped_mode(&s.context, before);
    gap_inside(s, row, &mode, gap)
}

/// Whether both hold.
#[inline(always)]
fn both(one: bool, other: bool) -> bool
    ensures { result ≡ (one && other) }
{
    one && other
}

/// Whether what a macroblock and those skipped before it are predicted from lies inside its references (clause 7.6.3.8).
fn are_inside(s: &SliceSetup, row: u32, before: &SliceState, x: &Located) -> bool
    requires setup { IsSetup s.now }
    requires row { row < rows_in s.now }
    requires located { IsLocated s.now.context row before.now x.now }
    ensures { result ≡ all_inside s.now before.now x.now.syntax }
{
    let gap_inside = skipped_inside(s, row, x.gap, before);
    let own_inside = inside(&x.mode, place(s, row, x.column), s.dims);
    both(gap_inside, own_inside)
}

/// Whether the fields that the macroblocks of a gap are predicted from were decoded.
fn gap_decoded(s: &SliceSetup, gap: Gap, before: &SliceState) -> bool
    ensures { result ≡ (nat_eq gap.count 0
        || is_decoded_of s.now.references s.now.context.extension.structure
        (skipped_mode_of s.now.context before.now)) }
{
    if gap.count == 0 {
        return true;
    }
    let skipped = skipped_mode(&s.context, before);
    is_decoded(&s.references, s.context.extension.structure, &skipped)
}

/// Whether the fields that a macroblock and those skipped before it are predicted from were decoded.
#[tactic(auto, unfolding(m2v_model::specs::Modes::references_decoded))]
fn are_decoded(s: &SliceSetup, row: u32, before: &SliceState, x: &Located) -> bool
    requires setup { IsSetup s.now }
    requires located { IsLocated s.now.context row before.now x.now }
    ensures { result ≡ references_decoded s.now before.now x.now.syntax }
{
    let gap_decoded = gap_decoded(s, x.gap, before);
    let own_decoded = is_decoded(&s.references, s.context.extension.structure, &x.mode);
    both(gap_decoded, own_decoded)
}

/// What a macroblock and those skipped before it are predicted from lies inside its references, and was decoded. The place
/// of a fault is the macroblock's first bit, where `left` bits are left.
///
/// # Errors
/// `VectorOutside` of any of them before `MissingReference` of any of them.
pub fn check(
    s: &SliceSetup,
    row: u32,
    before: &SliceState,
    x: &Located,
    left: u64,
) -> Result<(), Stop>
    requires setup { IsSetup s.now }
    requires row { row < rows_in s.now }
    requires located { IsLocated s.now.context row before.now x.now }
    ensures held { IfOk result (λ done. CanPaint s.now before.now x.now.syntax) }
    ensures broken { IfErr result (Breaks s.now before.now x.now.syntax left) }
{
    if !are_inside(s, row, before, x) {
        return Err(Stop {
            kind: FaultKind::VectorOutside,
            left,
        });
    }
    if !are_decoded(s, row, before, x) {
        return Err(Stop {
            kind: FaultKind::MissingReference,
            left,
        });
    }
    Ok(())
}
