//! The warning on the parity of fields, as they are shown.
ghost use Rattle.std.specs.Prelude.{◌≡◌};
ghost use Rattle.m2v_strict.specs.Remarks.{told_at};
ghost use Rattle.m2v_strict.specs.ParityRules.{begins_top, repeats, shown_frame, differ, has_parity, parity_warning, no_parity, shown_with, last_with, parity_with};

use crate::element::Element;
use crate::remark::{Remark, judge, number_of};
use m2v_check::{CodedPicture, ends_frame, is_frame};

/// A frame of an interlaced sequence, as it is shown.
#[derive(Clone, Copy, Debug, PartialEq, Eq)]
pub struct ShownFrame {
    /// The number of the picture that ends it, in coding order.
    pub picture: u64,
    /// Where that picture's start code begins in the input, in bits.
    pub bit: u64,
    /// Its first field is the top one.
    pub first_top: bool,
    /// Its last field is the top one.
    pub last_top: bool,
}

/// The frames of a sequence in display order, as far as the parity of fields asks for it.
#[derive(Clone, Copy, Debug, PartialEq, Eq)]
pub struct Parity {
    /// Each frame is shown when it is decoded.
    pub low_delay: bool,
    /// Whether the last field that was shown is a top field.
    pub last: Option<bool>,
    /// The anchor that waits to be shown.
    pub anchor: Option<ShownFrame>,
}

/// The first field of the frame that a picture ends is the top one.
fn begins_top(p: &CodedPicture) -> bool
    ensures { result ≡ begins_top p.now }
{
    let e = &p.note.extension;
    if is_frame(e) {
        e.top_field_first
    } else {
        e.structure == 2
    }
}

/// The frame is shown for three fields.
fn repeats(p: &CodedPicture) -> bool
    ensures { result ≡ repeats p.now }
{
    is_frame(&p.note.extension) && p.note.extension.repeat_first_field
}

/// Two fields have another parity.
fn differ(a: bool, b: bool) -> bool
    ensures { result ≡ differ a b }
{
    if a { !b } else { b }
}

impl ShownFrame {
    /// The frame that a picture ends, whose start code stands at a bit of the input.
    pub fn new(p: &CodedPicture, bit: u64) -> ShownFrame
        ensures { result ≡ shown_frame p.now bit }
    {
        let first_top = begins_top(p);
        ShownFrame {
            picture: p.number,
            bit,
            first_top,
            last_top: if repeats(p) { first_top } else { !first_top },
        }
    }
}

/// A picture ends a frame of an interlaced sequence, which is shown.
pub fn has_parity(p: &CodedPicture) -> bool
    ensures { result ≡ has_parity p.now }
{
    !p.sequence.extension.progressive_sequence && ends_frame(&p.note) && !p.note.dropped
}

/// The warning on a frame (58) behind a field, of which this says whether it is a top field.
#[tactic(auto, unfolding(crate::specs::ParityRules::parity_warning))]
pub fn parity_warning(last: Option<bool>, f: &ShownFrame) -> Option<Remark>
    ensures { told_at result ≡ parity_warning last f.now }
{
    let Some(last) = last else {
        return None;
    };
    judge(
        differ(last, f.first_top),
        Remark::of(
            58,
            Element::FieldParity,
            number_of(f.first_top),
            number_of(!f.first_top),
        ),
    )
}

impl Parity {
    /// Before the first frame of a sequence.
    pub fn new(low_delay: bool) -> Parity
        ensures { result ≡ no_parity low_delay }
    {
        Parity {
            low_delay,
            last: None,
            anchor: None,
        }
    }

    /// A frame comes, a B frame or not. Answers the frame that is shown with it: itself, or the anchor before it.
    pub fn frame(&mut self, f: ShownFrame, b: bool) -> Option<ShownFrame>
        ensures shown { result ≡ shown_with self.old f b }
        ensures value { self.new ≡ parity_with self.old f b }
    {
        let mut shown = Some(f);
        if !(self.low_delay || b) {
            shown = self.anchor;
            self.anchor = Some(f);
        }
        if let Some(f) = shown {
            self.last = Some(f.last_top);
        }
        shown
    }
}
