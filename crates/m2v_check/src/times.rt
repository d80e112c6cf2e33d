// The time from the removal of each picture to that of the next one (clauses C.9 to C.12).
ghost use Rattle.std.specs.Prelude.{◌≡◌, ◌<◌, ◌^◌, ◌*◌, ◌≤◌, not, ◌&&◌, if◌then◌else◌};
ghost use Rattle.m2v_set.specs.Numbers.{frame_time, field_time};
ghost use Rattle.m2v_model.specs.Buffering.{repeats, time_shown};
ghost use Rattle.m2v_check.specs.Breaking.{numbered_of};
ghost use Rattle.m2v_check.specs.Holding.{time_behind, repeats_behind};

use crate::coded::CodedPicture;
use crate::level::time_of_field;
use crate::picture_rules::{is_b, is_frame};
use crate::rules::ends_frame;

/// Which pictures came, as far as times ask for it.
#[derive(Clone, Copy, Debug, PartialEq, Eq)]
pub struct Times {
    /// Each frame is shown when it is decoded.
    pub low_delay: bool,
    /// frame_rate_code of the first sequence header.
    pub code: u8,
    /// The last anchor is a frame picture whose first field is shown again.
    pub repeats: bool,
}

/// A frame picture whose first field is shown again.
fn repeats(p: &CodedPicture) -> bool
    ensures value { result ≡ repeats (numbered_of p.now) }
{
    let e = &p.note.extension;
    !p.sequence.extension.progressive_sequence && (is_frame(e) && e.repeat_first_field)
}

/// The time of a frame, or of three fields.
fn time_shown(repeated: bool, code: u8) -> u64
    ensures value { result ≡ time_shown repeated code }
    ensures most { result < 2 ^ 20 }
{
    let field = time_of_field(code);
    if repeated { 3 * field } else { 2 * field }
}

impl Times {
    /// The time behind a picture, in units of 1/720,000 s.
    fn behind(&self, p: &CodedPicture) -> u64
        ensures value { result ≡ time_behind self.now (numbered_of p.now) }
        ensures most { result < 2 ^ 20 }
    {
        let anchor = !is_b(&p.note.info);
        if is_frame(&p.note.extension) {
            return time_shown(self.repeated(anchor, p), self.code);
        }
        let field = time_of_field(self.code);
        if anchor && ends_frame(&p.note) && self.repeats {
            2 * field
        } else {
            field
        }
    }

    /// A field is repeated in the time behind a frame picture.
    fn repeated(&self, anchor: bool, p: &CodedPicture) -> bool
        ensures value { result
            ≡ (if anchor && not self.now.low_delay then self.now.repeats else repeats
            (numbered_of p.now)) }
    {
        if anchor && !self.low_delay {
            self.repeats
        } else {
            repeats(p)
        }
    }

    /// Moves past a picture, and answers the time behind it.
    pub fn next(&mut self, p: &CodedPicture) -> u64
        ensures value { result ≡ time_behind self.old (numbered_of p.now) }
        ensures most { result < 2 ^ 20 }
        ensures new { self.new
            ≡ record self.old { repeats = repeats_behind self.old (numbered_of p.now) } }
    {
        let time = self.behind(p);
        if !is_b(&p.note.info) && ends_frame(&p.note) {
            self.repeats = repeats(p);
        }
        time
    }
}
