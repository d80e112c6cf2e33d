//! How long frames are shown, and the times behind the pictures of a group.
ghost use Rattle.std.specs.Prelude.{◌≡◌, All, IfOk};
ghost use Rattle.m2v_set.specs.Numbers.{IsInterval};
ghost use Rattle.m2v_order.specs.Times.{repeats, is_top_first, repeats_last, interval_behind, anchor_after, intervals_of};

use crate::Memory;
use crate::jobs::PictureJob;
use m2v_set::{Passed, Scan, Settings};
use std::alloc::Global;

/// Whether a frame begins with its top field (top_field_first, clause 6.3.10), by its display number: with pulldown two of
/// four frames do, without it all scan frames.
#[tactic(auto, unfolding(crate::specs::Times::is_top_first, crate::specs::Times::is_frames))]
pub fn top_field_first(settings: &Settings, display: u64) -> bool
    ensures value { result ≡ is_top_first settings.now display }
{
    if settings.pulldown {
        return display % 4 == 0 || display % 4 == 3;
    }
    match settings.scan {
        Scan::Frames => true,
        Scan::Progressive | Scan::Fields => false,
    }
}

/// Whether a frame's first field is shown again after its second (repeat_first_field, clause 6.3.10), by its display number:
/// with pulldown every second frame's.
#[tactic(auto, unfolding(crate::specs::Times::repeats))]
pub fn repeat_first_field(settings: &Settings, display: u64) -> bool
    ensures value { result ≡ repeats settings.now display }
{
    settings.pulldown && display % 2 == 0
}

/// Whether the anchor that was coded last repeats a field.
#[tactic(auto, unfolding(crate::specs::Times::repeats_last))]
fn repeats_after(settings: &Settings, last: Option<u64>) -> bool
    ensures value { result ≡ repeats_last settings.now last }
{
    match last {
        Some(display) => repeat_first_field(settings, display),
        None => false,
    }
}

/// The time behind a picture, by the anchor that was coded before it.
#[tactic(auto, unfolding(crate::specs::Times::interval_behind))]
fn interval_after(settings: &Passed, last: Option<u64>, job: &PictureJob) -> u64
    ensures value { result ≡ interval_behind settings.now last job.now }
    ensures time { IsInterval settings.now result }
{
    let known = settings.settings();
    let repeats = if job.kind == 3 {
        repeat_first_field(known, job.display)
    } else {
        repeats_after(known, last)
    };
    if repeats {
        settings.longest_interval()
    } else {
        settings.interval()
    }
}

/// The anchor that was coded last, behind a picture.
fn last_after(last: Option<u64>, job: &PictureJob) -> Option<u64>
    ensures value { result ≡ anchor_after last job.now }
{
    if job.kind == 3 {
        last
    } else {
        Some(job.display)
    }
}

/// The times behind pictures in coding order, in units of 1/720,000 s. `before` is the display number of the anchor that was
/// coded before them.
pub fn intervals(
    alloc: Global,
    settings: &Passed,
    before: Option<u64>,
    pictures: &[PictureJob],
) -> Result<Vec<u64>, Memory>
    ensures value { IfOk result (λ v. v.items ≡ intervals_of settings.now before pictures.now) }
    ensures times { IfOk result (λ v. All (IsInterval settings.now) v.items) }
{
    let mut times = Vec::new(alloc);
    let mut last = before;
    for i in 0..pictures.len() {
        let job = &pictures[i];
        times.push(interval_after(settings, last, job))?;
        last = last_after(last, job);
    }
    Ok(times)
}
