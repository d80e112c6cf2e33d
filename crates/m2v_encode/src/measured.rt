//! A group that was handed out, and how much there is to code of it.
ghost use Rattle.std.specs.Prelude.{◌≡◌, ◌<◌, All, IfOk};
ghost use Rattle.m2v_plane.specs.Samples.{Samples};
ghost use Rattle.m2v_set.specs.Numbers.{dims_of};
ghost use Rattle.m2v_order.specs.declared.jobs.PictureJob.{PictureJob};
ghost use Rattle.m2v_order.specs.Whole.{IsGroupOf, handed};
ghost use Rattle.m2v_encode.specs.Steps.{CanCode};

use m2v_order::GroupJobs;
use m2v_plane::Memory;
use m2v_set::Passed;
use m2v_slice::{GroupActivities, source_activities};
use std::alloc::Global;

/// A group with its activities.
#[derive(Drop)]
pub(crate) struct MeasuredGroup {
    pub(crate) group: GroupJobs,
    pub(crate) active: GroupActivities,
}

/// A group of the settings with its activities.
pub(crate) fn measured(
    alloc: Global,
    settings: &Passed,
    group: GroupJobs,
) -> Result<MeasuredGroup, Memory>
    requires group { IsGroupOf settings.now (handed group) }
    requires sizes { All (λ (f : Samples). f.dims ≡ dims_of settings.now) group.frames.items }
    requires early { All (λ (j : PictureJob). j.display < 1000000) group.pictures.items }
    ensures group { IfOk result (λ m. m.group ≡ group) }
    ensures code { IfOk result (CanCode settings.now) }
{
    let active = source_activities(alloc, settings, &group)?;
    Ok(MeasuredGroup { group, active })
}
