// The rules, picture by picture.
ghost use Rattle.std.specs.Prelude.{◌≡◌, ◌+◌, ◌<◌, ◌≤◌, ◌^◌, not, nat_eq, Some, None, IfSome, MatchOption};
ghost use Rattle.std.specs.Option.{option_map};
ghost use Rattle.m2v_model.specs.States.{first_or};
ghost use Rattle.m2v_check.specs.Running.{low_delay_with, lesser, no_rules, with_sequence, with_group, coded_next, constant_with, ends_frame, unplaced_of, begun_with, placed_with, with_picture, broken_in};

use crate::broken::{BrokenRule, either, first_of};
use crate::coded::CodedPicture;
use crate::header_rules::sequence_breach;
use crate::picture_rules::{is_b, is_frame, rules_from_12, rules_to_10};
use crate::places::{Places, Unplaced};
use m2v_model::{PictureNote, Sequence};

/// The vbv_delay of a stream at variable rate (clause 6.3.9).
pub const VARIABLE: u32 = 65_535;

/// Of two breaches of sequence headers that of the lesser rule, of one rule the first.
fn lesser(a: Option<BrokenRule>, b: Option<BrokenRule>) -> Option<BrokenRule>
    ensures value { result ≡ lesser a b }
{
    match (a, b) {
        (Some(x), Some(y)) => { if y.rule < x.rule { b } else { a } }
        (Some(_), None) => a,
        (None, _) => b,
    }
}

/// The picture ends its frame: a frame picture or a second field.
pub fn ends_frame(note: &PictureNote) -> bool
    ensures value { result ≡ ends_frame note.now }
{
    is_frame(&note.extension) || !note.first
}

/// The rules of a stream as far as it was read.
#[derive(Clone, Copy, Debug, PartialEq, Eq)]
pub struct Rules {
    /// The first sequence header.
    pub first: Option<Sequence>,
    /// The last one.
    pub sequence: Option<Sequence>,
    /// A group header came, and no picture behind it.
    pub first_in_group: bool,
    /// How many pictures came.
    pub pictures: u64,
    /// The first vbv_delay doesn't say that the rate is variable.
    pub constant: bool,
    /// The first rule that sequence headers break.
    pub headers: Option<BrokenRule>,
    /// Where frames stand in their group, and the first rule that pictures break.
    pub places: Places,
}

impl Rules {
    /// Nothing was read.
    pub fn new() -> Rules
        ensures value { result ≡ no_rules }
    {
        Rules {
            first: None,
            sequence: None,
            first_in_group: false,
            pictures: 0,
            constant: true,
            headers: None,
            places: Places::new(),
        }
    }

    /// A sequence header came.
    pub fn sequence(&mut self, s: &Sequence)
        ensures value { self.new ≡ with_sequence self.old s.now }
    {
        self.headers = lesser(self.headers, sequence_breach(s));
        self.sequence = Some(*s);
        self.first_sequence(s);
    }

    /// Keeps what the first sequence header says.
    fn first_sequence(&mut self, s: &Sequence)
        ensures value { self.new ≡ record self.old {
          first = Some (first_or self.old.first s.now);
          places = record self.old.places {
            low_delay = low_delay_with self.old.first s.now
                self.old.places.low_delay;
          };
        } }
    {
        match self.first {
            Some(_) => {}
            None => {
                self.first = Some(*s);
                self.places.set_low_delay(s.extension.low_delay);
            }
        }
    }

    /// A group header came.
    pub fn group(&mut self)
        ensures value { self.new ≡ with_group self.old }
    {
        self.first_in_group = true;
    }

    /// The picture that comes next, where a sequence header came before it.
    pub fn coded(&self, note: &PictureNote) -> Option<CodedPicture>
        ensures value { result ≡ option_map (λ s. coded_next self.now s note.now)
            self.now.sequence }
    {
        match self.sequence {
            Some(sequence) => Some(CodedPicture {
                number: self.pictures,
                sequence,
                first_in_group: self.first_in_group,
                note: *note,
            }),
            None => None,
        }
    }

    /// The rate is constant, as the first picture says.
    fn constant_with(&self, p: &CodedPicture) -> bool
        ensures value { result ≡ constant_with self.now p.now }
    {
        if p.number == 0 {
            return p.note.info.vbv_delay != VARIABLE;
        }
        self.constant
    }

    /// The picture that comes next was decoded.
    pub fn picture(&mut self, p: &CodedPicture)
        requires few { self.old.pictures < 2 ^ 60 }
        requires shown { self.old.places.shown ≤ self.old.pictures }
        ensures value { self.new ≡ with_picture self.old p.now }
        ensures shown { self.new.places.shown ≤ self.new.pictures }
    {
        let constant = self.constant_with(p);
        self.constant = constant;
        let unplaced = Unplaced {
            number: p.number,
            reference: p.note.info.temporal_reference,
            before: first_of(&rules_to_10(p)),
            behind: first_of(&rules_from_12(constant, p)),
        };
        self.begin(p.first_in_group);
        self.place(&p.note, unplaced);
        self.pictures += 1;
        self.first_in_group = false;
    }

    /// The group before ends, where the picture is the first of its own.
    fn begin(&mut self, first_in_group: bool)
        requires few { self.old.places.shown < 2 ^ 60 }
        ensures value { self.new
            ≡ record self.old { places = begun_with first_in_group self.old.places } }
        ensures few { self.new.places.shown ≤ self.old.places.shown }
    {
        if first_in_group {
            self.places.close();
        }
    }

    /// The picture's frame has a place, or waits for it.
    fn place(&mut self, note: &PictureNote, p: Unplaced)
        requires few { self.old.places.shown < 2 ^ 60 }
        ensures value { self.new
            ≡ record self.old { places = placed_with note.now self.old.places p } }
        ensures few { self.new.places.shown ≤ self.old.places.shown + 1 }
    {
        if ends_frame(note) {
            self.places.frame(p, is_b(&note.info));
        } else {
            self.places.field(p);
        }
    }

    /// The first rule that is broken, where the stream ends here: that of the least picture, then of the least number.
    pub fn broken(&self) -> Option<BrokenRule>
        requires few { self.now.places.shown < 2 ^ 61 }
        ensures value { result ≡ broken_in self.now }
    {
        either(self.headers, self.places.broken())
    }
}
