// The time from the removal of each picture to that of the next one (C.9 to C.12).
ghost use Rattle.std.specs.Prelude.{◌≡◌, ◌≤◌, ◌<◌, ◌^◌, not, ◌&&◌, if◌then◌else◌};
ghost use Rattle.m2v_audit.specs.Times.{fields_of, frame_fields, is_anchor, opened, fields_until_next, time_of, last_with, after};

use m2v_model::{PictureNote, Sequence};
use m2v_strict::check::{ends_frame, is_b, is_frame, time_of_field};
use std::marker::Model;

/// For how many fields a frame picture is shown (clause 6.3.10).
fn frame_fields(progressive: bool, repeat: bool, top_first: bool) -> u64
    ensures value { result ≡ frame_fields progressive repeat top_first }
    ensures least { 2 ≤ result }
    ensures most { result ≤ 6 }
{
    if !repeat {
        return 2;
    }
    if !progressive {
        return 3;
    }
    if top_first { 6 } else { 4 }
}

/// For how many fields a picture is shown: 1 of a field picture; 2 or 3 of a frame; in a progressive sequence, which
/// shows a frame once, twice or three times, 2, 4 or 6 (clause 6.3.10).
pub fn fields_of(sequence: &Sequence, note: &PictureNote) -> u64
    ensures value { result ≡ fields_of sequence.now note.now }
    ensures most { result ≤ 6 }
{
    let e = &note.extension;
    if is_frame(e) {
        let progressive = sequence.extension.progressive_sequence;
        frame_fields(progressive, e.repeat_first_field, e.top_field_first)
    } else {
        1
    }
}

/// A picture that others refer to: an I or a P picture.
fn is_anchor(note: &PictureNote) -> bool
    ensures value { result ≡ is_anchor note.now }
{
    !is_b(&note.info)
}

/// For how many fields the last whole anchor is shown.
fn last_with(last: u64, sequence: &Sequence, note: &PictureNote) -> u64
    requires least { 2 ≤ last }
    requires most { last ≤ 6 }
    ensures value { result ≡ last_with last sequence.now note.now }
    ensures least { 2 ≤ result }
    ensures most { result ≤ 6 }
{
    if !is_anchor(note) || !ends_frame(note) {
        return last;
    }
    let e = &note.extension;
    if is_frame(e) {
        let progressive = sequence.extension.progressive_sequence;
        frame_fields(progressive, e.repeat_first_field, e.top_field_first)
    } else {
        2
    }
}

/// Which pictures came, as far as times ask for it.
///
/// Contracts see it as low_delay and frame_rate_code of the first sequence header, and for how many fields the last whole
/// anchor is shown, from 2 to 6.
#[derive(Clone, Copy)]
pub struct Times {
    low_delay: bool,
    code: u8,
    last: u64,
}

impl Model for Times {
    ghost use Rattle.std.specs.Prelude.{◌≤◌};
    ghost use Rattle.m2v_audit.specs.Times.{Times as State};

    ghost Value = { State };

    ghost view = { λ t. record { low_delay = t.low_delay; code = t.code; last = t.last } };

    ghost invariant = { λ t. (2 ≤ t.last) × (t.last ≤ 6) };

    ghost inverse = { λ v. record { low_delay = v.low_delay; code = v.code; last = v.last } };
}

impl Times {
    /// Before the first picture, by low_delay and frame_rate_code of the first sequence header.
    pub fn new(low_delay: bool, code: u8) -> Times
        ensures value { result ≡ opened low_delay code }
    {
        Times {
            low_delay,
            code,
            last: 2,
        }
    }

    /// The fields from the removal of a picture to that of the next one.
    fn fields_until_next(&self, sequence: &Sequence, note: &PictureNote) -> u64
        ensures value { result ≡ fields_until_next self.now sequence.now note.now }
        ensures most { result ≤ 6 }
    {
        let anchor = is_anchor(note);
        if is_frame(&note.extension) {
            return self.fields_of_frame(anchor, sequence, note);
        }
        if anchor && ends_frame(note) {
            self.last - 1
        } else {
            1
        }
    }

    /// The same, of a frame picture.
    fn fields_of_frame(&self, anchor: bool, sequence: &Sequence, note: &PictureNote) -> u64
        ensures value { result
            ≡ (if anchor && not self.now.low_delay then self.now.last else fields_of sequence.now
            note.now) }
        ensures most { result ≤ 6 }
    {
        if anchor && !self.low_delay {
            self.last
        } else {
            fields_of(sequence, note)
        }
    }

    /// Moves past a picture, and answers the time from its removal to that of the next one, in units of 1/720,000 s.
    pub fn next(&mut self, sequence: &Sequence, note: &PictureNote) -> u64
        ensures value { result ≡ time_of self.old sequence.now note.now }
        ensures most { result < 2 ^ 20 }
        ensures after { self.new ≡ after self.old sequence.now note.now }
    {
        let fields = self.fields_until_next(sequence, note);
        self.last = last_with(self.last, sequence, note);
        fields * time_of_field(self.code)
    }
}
