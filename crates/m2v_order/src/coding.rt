// The pictures of a group in coding order.
ghost use Rattle.std.specs.Prelude.{◌≡◌, ℕ, ◌+◌, ◌-◌, ◌≤◌, ◌<◌, ◌^◌, ◌++◌, IfOk, OnOk};
ghost use Rattle.std.specs.List.{flat_map};
ghost use Rattle.m2v_order.specs.Coding.{is_anchor, is_intra, kind_of, anchors_between, frames_between, in_order};
ghost use Rattle.m2v_order.specs.Groups.{jobs_of, past_last, intra_from};

use crate::Memory;
use crate::jobs::PictureJob;
use m2v_set::{Scan, Settings};
use std::alloc::Global;

/// The first I frame at a frame or after it.
#[tactic(auto, unfolding(crate::specs::Groups::intra_from))]
pub(crate) fn intra_at(settings: &Settings, display: u64) -> u64
    requires group { 1 ≤ settings.now.group }
    requires small { display < 2 ^ 32 }
    ensures value { result ≡ intra_from settings.now display }
    ensures most { result < display + settings.now.group }
    ensures least { display ≤ result }
{
    let group = u64::from(settings.group);
    (display + (group - 1)) / group * group
}

/// Whether a frame, of `count`, is an anchor.
#[tactic(auto, unfolding(crate::specs::Coding::is_anchor))]
fn anchor_at(settings: &Settings, count: u64, display: u64) -> bool
    requires group { 1 ≤ settings.now.group }
    requires step { 1 ≤ settings.now.step }
    requires small { display < 2 ^ 32 }
    ensures value { result ≡ is_anchor settings.now count display }
{
    let last = display + 1 == count;
    let closing = settings.closed && (display + 1) % u64::from(settings.group) == 0;
    display % u64::from(settings.step) == 0 || last || closing
}

/// The type of a frame, of `count`.
#[tactic(auto, unfolding(crate::specs::Coding::is_intra))]
fn kind_at(settings: &Settings, count: u64, display: u64) -> u8
    requires group { 1 ≤ settings.now.group }
    requires step { 1 ≤ settings.now.step }
    requires small { display < 2 ^ 32 }
    ensures value { result ≡ kind_of settings.now count display }
{
    if display % u64::from(settings.group) == 0 {
        1
    } else if anchor_at(settings, count, display) {
        2
    } else {
        3
    }
}

/// Appends the pictures of a frame in a group that begins with frame `first`.
#[tactic(auto, unfolding(crate::specs::Coding::structures))]
fn push_frame(
    settings: &Settings,
    count: u64,
    first: u64,
    display: u64,
    pictures: &mut Vec<PictureJob>,
) -> Result<(), Memory>
    requires group { 1 ≤ settings.now.group }
    requires step { 1 ≤ settings.now.step }
    requires begun { first ≤ display }
    requires small { display < 2 ^ 32 }
    ensures ok { OnOk result (pictures.new.items ≡ pictures.old.items ++ jobs_of settings.now count
        first display) }
{
    let job = |structure: u8| PictureJob {
        frame: (display - first) as u32,
        display,
        kind: kind_at(settings, count, display),
        structure,
    };
    match settings.scan {
        Scan::Progressive | Scan::Frames => pictures.push(job(3))?,
        Scan::Fields => {
            pictures.push(job(1))?;
            pictures.push(job(2))?;
        }
    }
    Ok(())
}

/// Appends the pictures of the frames from one on below another.
fn push_between(
    settings: &Settings,
    count: u64,
    first: u64,
    from: u64,
    to: u64,
    pictures: &mut Vec<PictureJob>,
) -> Result<(), Memory>
    requires group { 1 ≤ settings.now.group }
    requires step { 1 ≤ settings.now.step }
    requires begun { first ≤ from }
    requires order { from ≤ to }
    requires small { to < 2 ^ 32 }
    ensures ok { OnOk result (pictures.new.items ≡ pictures.old.items
        ++ flat_map (jobs_of settings.now count first) (frames_between from to)) }
{
    for display in from..to {
        push_frame(settings, count, first, display, pictures)?;
    }
    Ok(())
}

/// Appends the pictures of an anchor, and then those of the frames between the anchor before, behind which `from` stands,
/// and itself.
fn push_anchor(
    settings: &Settings,
    count: u64,
    first: u64,
    from: u64,
    anchor: u64,
    pictures: &mut Vec<PictureJob>,
) -> Result<(), Memory>
    requires group { 1 ≤ settings.now.group }
    requires step { 1 ≤ settings.now.step }
    requires begun { first ≤ from }
    requires order { from ≤ anchor }
    requires small { anchor < 2 ^ 32 }
    ensures ok { OnOk result (pictures.new.items
        ≡ (pictures.old.items ++ jobs_of settings.now count first anchor)
        ++ flat_map (jobs_of settings.now count first) (frames_between from anchor)) }
{
    push_frame(settings, count, first, anchor, pictures)?;
    push_between(settings, count, first, from, anchor, pictures)
}

/// The pictures of the frames from `first` on below `to`, of `count`, up to the last anchor in coding order, and the
/// frame behind that anchor.
fn pictures_up_to(
    alloc: Global,
    settings: &Settings,
    count: u64,
    first: u64,
    to: u64,
) -> Result<(Vec<PictureJob>, u64), Memory>
    requires group { 1 ≤ settings.now.group }
    requires step { 1 ≤ settings.now.step }
    requires begun { first ≤ to }
    requires small { to < 2 ^ 32 }
    ensures pictures { IfOk result (λ p. p.0.items ≡ flat_map (jobs_of settings.now count first)
        (in_order first (anchors_between settings.now count first to))) }
    ensures behind { IfOk result
        (λ p. p.1 ≡ past_last first (anchors_between settings.now count first to)) }
    ensures begun { IfOk result (λ p. first ≤ p.1) }
    ensures most { IfOk result (λ p. p.1 ≤ to) }
{
    let mut pictures = Vec::new(alloc);
    let mut from = first;
    for display in first..to {
        if anchor_at(settings, count, display) {
            push_anchor(settings, count, first, from, display, &mut pictures)?;
            from = display + 1;
        }
    }
    Ok((pictures, from))
}

/// The group that begins with frame `first` in display order, of `count` frames, below the frame `to`: its pictures in
/// coding order, and how many frames it has.
pub(crate) fn group_pictures(
    alloc: Global,
    settings: &Settings,
    count: u64,
    first: u64,
    to: u64,
) -> Result<(Vec<PictureJob>, usize), Memory>
    requires group { 1 ≤ settings.now.group }
    requires step { 1 ≤ settings.now.step }
    requires begun { first ≤ to }
    requires small { to < 2 ^ 32 }
    ensures pictures { IfOk result (λ p. p.0.items ≡ flat_map (jobs_of settings.now count first)
        (in_order first (anchors_between settings.now count first to))) }
    ensures size { IfOk result
        (λ p. p.1 ≡ past_last first (anchors_between settings.now count first to) - first) }
    ensures most { IfOk result (λ p. p.1 + first ≤ to) }
{
    let (pictures, after) = pictures_up_to(alloc, settings, count, first, to)?;
    Ok((pictures, (after - first) as usize))
}
