//! The activities of a group, as far as its plans go by them.
ghost use Rattle.std.specs.Prelude.{◌≡◌, true, [], All, IfOk, replicate};
ghost use Rattle.m2v_plane.specs.Samples.{Samples};
ghost use Rattle.m2v_set.specs.Numbers.{dims_of};
ghost use Rattle.m2v_set.specs.Rules.{is_even};
ghost use Rattle.m2v_order.specs.Whole.{IsGroupOf, handed};
ghost use Rattle.m2v_enc_activity.specs.Activity.{IsActivity};
ghost use Rattle.m2v_rate.specs.Sharing.{IsPictureActivity};
ghost use Rattle.m2v_slice.specs.Books.{macroblock_activities, picture_activities};

use m2v_core::Memory;
use m2v_enc_activity::{GroupActivities, activities};
use m2v_order::GroupJobs;
use m2v_set::{Passed, Planning};
use std::alloc::Global;

/// No activity of a macroblock, and 0 of so many pictures.
fn none(alloc: Global, pictures: usize) -> Result<GroupActivities, Memory>
    ensures macroblocks { IfOk result (λ a. a.macroblocks.items ≡ []) }
    ensures pictures { IfOk result (λ a. a.pictures.items ≡ replicate pictures 0) }
{
    Ok(GroupActivities {
        macroblocks: Vec::new(alloc),
        pictures: vec![in alloc; 0; pictures]?,
    })
}

/// The activities of a group of these settings, all of whose frames are of the settings' size: where the plan goes by the
/// source those of its macroblocks and pictures; with the plan by weights none of macroblocks, and 0 of each picture.
///
/// # Errors
/// `Memory` where no memory is left.
#[tactic(auto, unfolding(crate::specs::Books::macroblock_activities, crate::specs::Books::picture_activities, m2v_set::specs::Rules::is_even))]
pub fn source_activities(
    alloc: Global,
    settings: &Passed,
    group: &GroupJobs,
) -> Result<GroupActivities, Memory>
    requires group { IsGroupOf settings.now (handed group.now) }
    requires sizes { All (λ (f : Samples). f.dims ≡ dims_of settings.now) group.now.frames.items }
    ensures macroblocks { IfOk result (λ a. a.macroblocks.items
        ≡ macroblock_activities settings.now group.now.frames.items group.now.pictures.items) }
    ensures pictures { IfOk result (λ a. a.pictures.items
        ≡ picture_activities settings.now group.now.frames.items group.now.pictures.items) }
    ensures range { IfOk result (λ a. All IsActivity a.macroblocks.items) }
    ensures sums { is_even settings.now.planning ≡ true
        → IfOk result (λ a. All IsPictureActivity a.pictures.items) }
{
    match settings.settings().planning {
        Planning::Weights => none(alloc, group.pictures.len()),
        Planning::Even => activities(alloc, settings.dims(), &group.frames, &group.pictures),
    }
}
