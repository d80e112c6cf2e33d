//! What a picture is compared with.
ghost use Rattle.std.specs.Prelude.{◌≡◌, ℕ, ◌∷◌, ◌++◌, [], ◌-◌, ◌<◌, ◌≤◌, not, ◌&&◌, nat_eq, All, IsNone, IfSome, length, map, take, option_to_list};
ghost use Rattle.m2v_enc_activity.specs.Activity.{anchors_before, job_in, look_of, IsPictureOf};

use m2v_order::PictureJob;
use std::marker::Model;

/// A picture as it is looked at: its structure (table 6-14), the place of its source frame in the group, and those of the
/// frames that it is compared with.
#[derive(Drop)]
pub(crate) struct Look {
    pub(crate) structure: u8,
    pub(crate) frame: u32,
    pub(crate) last: Option<u32>,
    pub(crate) earlier: Option<u32>,
}

impl Model for Look {
    ghost use Rattle.std.specs.Prelude.{◌++◌, option_to_list};
    ghost use Rattle.m2v_enc_activity.specs.Activity.{Look};

    ghost Value = { Look };

    ghost view = { λ l. record {
      structure = l.structure;
      frame = l.frame;
      others = option_to_list l.last ++ option_to_list l.earlier;
    } };
}

/// Whether a picture is an anchor of a structure.
fn is_anchor(job: &PictureJob, structure: u8) -> bool
    ensures value { result ≡ not (nat_eq job.now.kind 3) && nat_eq job.now.structure structure }
{
    job.kind != 3 && job.structure == structure
}

/// The last anchor of a structure before picture p, if the group has one.
fn anchor_before(pictures: &[PictureJob], structure: u8, p: usize) -> Option<usize>
    requires picture { p ≤ length pictures.now }
    ensures none { IsNone result → anchors_before pictures.now structure p ≡ [] }
    ensures some { IfSome result (λ q. (q < p)
        × (anchors_before pictures.now structure p ≡ q ∷ anchors_before pictures.now structure q)) }
{
    let mut at = p;
    while at > 0 {
        at -= 1;
        if is_anchor(&pictures[at], structure) {
            return Some(at);
        }
    }
    None
}

/// The anchors that a picture is compared with, by their places in coding order.
#[derive(Clone, Copy, Debug, PartialEq, Eq)]
struct Anchors {
    last: Option<usize>,
    earlier: Option<usize>,
}

/// Those of picture p: the last one for a P picture, the last two for a B picture, as far as the group has them.
fn anchors_of(pictures: &[PictureJob], p: usize) -> Anchors
    requires picture { p < length pictures.now }
    requires kind { 1 ≤ (job_in pictures.now p).kind }
    requires known { (job_in pictures.now p).kind ≤ 3 }
    ensures value { take ((job_in pictures.now p).kind - 1)
        (anchors_before pictures.now (job_in pictures.now p).structure p)
        ≡ option_to_list result.last ++ option_to_list result.earlier }
    ensures last { IfSome result.last (λ q. q < length pictures.now) }
    ensures earlier { IfSome result.earlier (λ q. q < length pictures.now) }
{
    let job = &pictures[p];
    match job.kind {
        1 => Anchors {
            last: None,
            earlier: None,
        },
        2 => Anchors {
            last: anchor_before(pictures, job.structure, p),
            earlier: None,
        },
        _ => two_anchors(pictures, job.structure, p),
    }
}

/// The last two anchors before a picture.
fn two_anchors(pictures: &[PictureJob], structure: u8, p: usize) -> Anchors
    requires picture { p < length pictures.now }
    ensures value { take 2 (anchors_before pictures.now structure p)
        ≡ option_to_list result.last ++ option_to_list result.earlier }
    ensures last { IfSome result.last (λ q. q < length pictures.now) }
    ensures earlier { IfSome result.earlier (λ q. q < length pictures.now) }
{
    match anchor_before(pictures, structure, p) {
        None => Anchors {
            last: None,
            earlier: None,
        },
        Some(last) => Anchors {
            last: Some(last),
            earlier: anchor_before(pictures, structure, last),
        },
    }
}

/// The source frame of a picture, where there is one.
fn frame_of(pictures: &[PictureJob], p: Option<usize>) -> Option<u32>
    requires picture { IfSome p (λ q. q < length pictures.now) }
    ensures value { option_to_list result
        ≡ map (λ q. (job_in pictures.now q).frame) (option_to_list p) }
    ensures frame { (n : ℕ) → All (IsPictureOf n) pictures.now → All (λ k. k < n) (option_to_list result) }
{
    match p {
        Some(q) => Some(pictures[q].frame),
        None => None,
    }
}

/// A picture of a group as it is looked at.
pub(crate) fn look_at(pictures: &[PictureJob], p: usize) -> Look
    requires picture { p < length pictures.now }
    requires kind { 1 ≤ (job_in pictures.now p).kind }
    requires known { (job_in pictures.now p).kind ≤ 3 }
    ensures value { result ≡ look_of pictures.now p }
    ensures frames { (n : ℕ) → All (IsPictureOf n) pictures.now → All (λ k. k < n) result.others }
{
    let job = &pictures[p];
    let anchors = anchors_of(pictures, p);
    Look {
        structure: job.structure,
        frame: job.frame,
        last: frame_of(pictures, anchors.last),
        earlier: frame_of(pictures, anchors.earlier),
    }
}
