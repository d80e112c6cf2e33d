//! The activities of a group's pictures.
ghost use Rattle.std.specs.Prelude.{◌≡◌, ◌+◌, ◌*◌, ◌<◌, ◌≤◌, ◌++◌, All, IfOk, OnOk, IfSome, sum, length, map, slice_index_or, option_to_list};
ghost use Rattle.m2v_kernel.specs.Sums.{sad};
ghost use Rattle.m2v_pred.specs.m2v_plane.declared.planes.Plane.TheVariants.{Y};
ghost use Rattle.m2v_pred.specs.m2v_plane.Sizes.{IsSize, lines_of};
ghost use Rattle.m2v_pred.specs.m2v_plane.Samples.{Samples};
ghost use Rattle.m2v_pred.specs.m2v_plane.Fields.{no_samples};
ghost use Rattle.m2v_pred.specs.Motion.{own_lines as own_lines_of};
ghost use Rattle.m2v_enc_activity.specs.Activity.{least, luma_of, activity_at, row_activities, picture_activities, activities, group_activities, rows_in, look_of, IsPictureOf, IsActivity, IsGroupActivity};
ghost use Rattle.m2v_order.specs.declared.jobs.PictureJob.{PictureJob};

use crate::compare::{Look, look_at};
use crate::macroblock::{sad_of, texture};
use crate::source::copy_luma;
use m2v_order::{Memory, PictureJob};
use m2v_pred::own_lines;
use m2v_pred::plane::{Dims, Frame, Lines};
use std::alloc::Global;

/// A macroblock of a picture of a structure (table 6-14).
#[derive(Clone, Copy)]
struct Place {
    structure: u8,
    row: u32,
    column: u32,
}

/// The change of a macroblock against that of another frame.
fn change(frames: &[Frame], dims: Dims, at: Place, k: u32, luma: &[u8]) -> u32
    requires sizes { All (λ (f : Samples). f.dims ≡ dims) frames.now }
    requires frame { k < length frames.now }
    requires row { 16 * at.row + 16 ≤ lines_of dims Y (own_lines_of at.structure) }
    requires column { at.column < dims.mb_width }
    requires whole { length luma.now ≡ 256 }
    ensures value { result ≡ sad luma.now (luma_of frames.now at.structure at.row at.column k) }
    ensures most { result ≤ 65280 }
{
    let mut other = [0; 256];
    copy_luma(
        &frames[k as usize],
        at.structure,
        at.row,
        at.column,
        &mut other,
    );
    sad_of(luma, &other)
}

/// The least so far, and the change against another frame, where there is one.
fn with_change(
    frames: &[Frame],
    dims: Dims,
    at: Place,
    other: Option<u32>,
    luma: &[u8],
    so_far: u32,
) -> u32
    requires sizes { All (λ (f : Samples). f.dims ≡ dims) frames.now }
    requires frame { IfSome other (λ k. k < length frames.now) }
    requires row { 16 * at.row + 16 ≤ lines_of dims Y (own_lines_of at.structure) }
    requires column { at.column < dims.mb_width }
    requires whole { length luma.now ≡ 256 }
    ensures value { result ≡ least so_far (map (λ k. sad luma.now
        (luma_of frames.now at.structure at.row at.column k)) (option_to_list other)) }
    ensures most { result ≤ so_far }
{
    match other {
        Some(k) => so_far.min(change(frames, dims, at, k, luma)),
        None => so_far,
    }
}

/// The frames that a picture is looked at with are those of the group.
#[tactic(auto, unfolding(crate::specs::Activity::activity_at, crate::specs::Activity::activity))]
fn activity_at(frames: &[Frame], dims: Dims, look: &Look, row: u32, column: u32) -> u32
    requires sizes { All (λ (f : Samples). f.dims ≡ dims) frames.now }
    requires own { look.now.frame < length frames.now }
    requires others { All (λ k. k < length frames.now) look.now.others }
    requires row { 16 * row + 16 ≤ lines_of dims Y (own_lines_of look.now.structure) }
    requires column { column < dims.mb_width }
    ensures value { result ≡ activity_at frames.now look.now row column }
    ensures range { IsActivity result }
{
    let at = Place {
        structure: look.structure,
        row,
        column,
    };
    let mut luma = [0; 256];
    copy_luma(
        &frames[look.frame as usize],
        at.structure,
        row,
        column,
        &mut luma,
    );
    let plain = texture(&luma);
    let last = with_change(frames, dims, at, look.last, &luma, plain);
    256 + with_change(frames, dims, at, look.earlier, &luma, last)
}

/// Puts the activities of a macroblock row behind others.
fn push_row(
    frames: &[Frame],
    dims: Dims,
    look: &Look,
    row: u32,
    out: &mut Vec<u32>,
) -> Result<(), Memory>
    requires sizes { All (λ (f : Samples). f.dims ≡ dims) frames.now }
    requires own { look.now.frame < length frames.now }
    requires others { All (λ k. k < length frames.now) look.now.others }
    requires row { 16 * row + 16 ≤ lines_of dims Y (own_lines_of look.now.structure) }
    ensures ok { OnOk result (out.new.items
        ≡ out.old.items ++ row_activities dims frames.now look.now row) }
    ensures range { OnOk result (All IsActivity out.old.items → All IsActivity out.new.items) }
{
    for column in 0..dims.mb_width {
        out.push(activity_at(frames, dims, look, row, column))?;
    }
    Ok(())
}

/// The macroblock rows of a picture of a structure.
fn rows_in(dims: Dims, structure: u8) -> u32
    ensures value { result ≡ rows_in dims structure }
{
    match own_lines(structure) {
        Lines::Whole => dims.mb_rows,
        Lines::Top | Lines::Bottom => dims.mb_rows / 2,
    }
}

/// Puts the activities of a picture behind others.
fn push_picture(frames: &[Frame], dims: Dims, look: &Look, out: &mut Vec<u32>) -> Result<(), Memory>
    requires size { IsSize dims }
    requires sizes { All (λ (f : Samples). f.dims ≡ dims) frames.now }
    requires own { look.now.frame < length frames.now }
    requires others { All (λ k. k < length frames.now) look.now.others }
    ensures ok { OnOk result (out.new.items
        ≡ out.old.items ++ picture_activities dims frames.now look.now) }
    ensures range { OnOk result (All IsActivity out.old.items → All IsActivity out.new.items) }
{
    for row in 0..rows_in(dims, look.structure) {
        push_row(frames, dims, look, row, out)?;
    }
    Ok(())
}

/// The activities of a group's pictures.
#[derive(Drop)]
pub struct GroupActivities {
    /// Of all macroblocks: picture by picture in coding order, of each row by row from the top. Each is from 256 to 65,536.
    pub macroblocks: Vec<u32>,
    /// Of each picture: the sum of those of its macroblocks.
    pub pictures: Vec<u32>,
}

/// The sum of activities of a picture's macroblocks, of which it has at most 8,640.
fn sum_of(activities: &[u32]) -> u32
    requires range { All IsActivity activities.now }
    requires few { length activities.now ≤ 8640 }
    ensures value { result ≡ sum activities.now }
    ensures most { result ≤ 65536 * length activities.now }
    ensures some { 256 * length activities.now ≤ result }
{
    let mut sum = 0;
    for i in 0..activities.len() {
        sum += activities[i];
    }
    sum
}

/// The activities of a group's pictures, which are made of its frames, all of this size. A picture has a macroblock row.
///
/// # Errors
/// `Memory` where no memory is left.
pub fn activities(
    alloc: Global,
    dims: Dims,
    frames: &[Frame],
    pictures: &[PictureJob],
) -> Result<GroupActivities, Memory>
    requires size { IsSize dims }
    requires sizes { All (λ (f : Samples). f.dims ≡ dims) frames.now }
    requires pictures { All (IsPictureOf (length frames.now)) pictures.now }
    requires rows { All (λ (j : PictureJob). 1 ≤ rows_in dims j.structure) pictures.now }
    ensures macroblocks { IfOk result
        (λ a. a.macroblocks.items ≡ activities dims frames.now pictures.now) }
    ensures pictures { IfOk result
        (λ a. a.pictures.items ≡ group_activities dims frames.now pictures.now) }
    ensures range { IfOk result (λ a. All IsActivity a.macroblocks.items) }
    ensures sums { IfOk result (λ a. All IsGroupActivity a.pictures.items) }
{
    let mut all = GroupActivities {
        macroblocks: Vec::new(alloc),
        pictures: Vec::new(alloc),
    };
    for p in 0..pictures.len() {
        let look = look_at(pictures, p);
        let from = all.macroblocks.len();
        push_picture(frames, dims, &look, &mut all.macroblocks)?;
        all.pictures.push(sum_of(&all.macroblocks[from..]))?;
    }
    Ok(all)
}
