//! Which of the frames that a picture may be predicted from are there.
ghost use Rattle.std.specs.Prelude.{◌≡◌, ◌↔◌, ◌&&◌, true, if◌then◌else◌, IsTrue};
ghost use Rattle.m2v_model.specs.States.{is_b};
ghost use Rattle.m2v_dec_batch.specs.Jobs.{ends_anchor as is_anchor_end};
ghost use Rattle.m2v_dec_batch.specs.Batches.{reading_of as reading_by};
ghost use Rattle.m2v_dec_batch.specs.Filled.{top_there, bottom_there, backward_there, HasFields};

use crate::{Header, ends_anchor};
use m2v_dec_rows::dec_picture::Reading;

/// Which frames are there before a picture.
#[derive(Clone, Copy, Debug, PartialEq, Eq)]
pub struct FramesThere {
    /// The last anchor but one.
    pub older: bool,
    /// The last anchor.
    pub newer: bool,
    /// The frame of the first field, if the picture is a second field.
    pub first: bool,
}

/// Which frames are there behind a picture, by those before it.
pub(crate) fn behind(before: FramesThere, h: Header) -> FramesThere
    ensures older { result.older ≡ (if is_anchor_end h then before.newer else before.older) }
    ensures newer { result.newer ≡ (if is_anchor_end h then true else before.newer) }
    ensures first { result.first ≡ true }
{
    if ends_anchor(h) {
        FramesThere {
            older: before.newer,
            newer: true,
            first: true,
        }
    } else {
        FramesThere {
            older: before.older,
            newer: before.newer,
            first: true,
        }
    }
}

/// What tells the references of a picture: an I picture has none.
pub(crate) fn reading_of(h: Header) -> Option<Reading>
    ensures value { result ≡ reading_by h }
{
    if h.kind == 1 {
        return None;
    }
    Some(Reading {
        kind: h.kind,
        second_field: h.second,
        structure: h.structure,
    })
}

/// Whether the frame with a field of the forward reference is there; it may be the first field that a second one has
/// before it.
fn has_forward(r: &Reading, is_first: bool, at: FramesThere) -> bool
    ensures value { result ≡ (if is_b r.now.kind then at.older else if r.now.second_field && is_first
        then at.first else at.newer) }
{
    if r.kind == 3 {
        at.older
    } else if r.second_field && is_first {
        at.first
    } else {
        at.newer
    }
}

/// Whether the frame with the top field of the forward reference is there.
fn has_top(reading: &Option<Reading>, at: FramesThere) -> bool
    ensures value { result ≡ top_there reading.now at }
{
    match reading {
        None => false,
        Some(r) => has_forward(r, r.structure != 1, at),
    }
}

/// Whether the frame with the bottom field of the forward reference is there.
fn has_bottom(reading: &Option<Reading>, at: FramesThere) -> bool
    ensures value { result ≡ bottom_there reading.now at }
{
    match reading {
        None => false,
        Some(r) => has_forward(r, r.structure == 1, at),
    }
}

/// Whether the frame of the backward reference is there, which B pictures alone have.
fn has_backward(reading: &Option<Reading>, at: FramesThere) -> bool
    ensures value { result ≡ backward_there reading.now at }
{
    match reading {
        None => false,
        Some(r) => { if r.kind == 3 { at.newer } else { false } }
    }
}

/// Whether each field that was decoded stands in a frame that is there: forward top, forward bottom, backward top,
/// backward bottom.
pub(crate) fn has_fields(decoded: &[bool; 4], reading: &Option<Reading>, at: FramesThere) -> bool
    ensures fields { IsTrue result ↔ HasFields decoded.now reading.now at }
{
    if decoded[0] && !has_top(reading, at) {
        return false;
    }
    if decoded[1] && !has_bottom(reading, at) {
        return false;
    }
    if (decoded[2] || decoded[3]) && !has_backward(reading, at) {
        return false;
    }
    true
}
