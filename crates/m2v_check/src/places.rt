// temporal_reference is the place of a frame in the display order of its group (clause 6.3.9), which is known as soon as
// the frame is shown: a B frame's at once, an anchor's when the next one comes or its group ends.
ghost use Rattle.std.specs.Prelude.{◌≡◌, ◌+◌, ◌%◌, ◌<◌, ◌≤◌, ◌^◌, Bool};
ghost use Rattle.m2v_check.specs.Running.{waiting_in, reference_breach, breach_at, field_breach, frame_breach, anchor_breach, all_broken, with_field, with_frame, with_low_delay, group_closed, no_places};

use crate::broken::{BrokenRule, broken, either};

/// A picture whose place isn't known yet.
#[derive(Clone, Copy, Debug, PartialEq, Eq)]
pub struct Unplaced {
    /// Its number in decoding order.
    pub number: u64,
    /// Its temporal_reference.
    pub reference: u32,
    /// The first rule that it breaks of those before the one on its place.
    pub before: Option<BrokenRule>,
    /// The first of those behind it.
    pub behind: Option<BrokenRule>,
}

/// A frame whose place isn't known yet: a frame picture, or two fields.
#[derive(Clone, Copy, Debug, PartialEq, Eq)]
pub struct UnplacedFrame {
    /// Its first field.
    pub first: Option<Unplaced>,
    /// Its frame picture or second field.
    pub last: Unplaced,
}

/// The rule on temporal_reference, for a picture of a frame at a place.
fn reference_breach(number: u64, reference: u32, place: u64) -> Option<BrokenRule>
    ensures value { result ≡ reference_breach number reference place }
{
    let place = place % 1024;
    if u64::from(reference) == place {
        return None;
    }
    Some(broken(11, number, u128::from(reference), u128::from(place)))
}

impl Unplaced {
    /// The first rule that it breaks, where its frame has a place.
    fn breach(&self, place: u64) -> Option<BrokenRule>
        ensures value { result ≡ breach_at self.now place }
    {
        let own = reference_breach(self.number, self.reference, place);
        either(self.before, either(own, self.behind))
    }
}

/// The first rule that a field breaks, if there is one.
fn field_breach(field: &Option<Unplaced>, place: u64) -> Option<BrokenRule>
    ensures value { result ≡ field_breach field.now place }
{
    match field {
        Some(p) => p.breach(place),
        None => None,
    }
}

impl UnplacedFrame {
    /// The first rule that one of its pictures breaks, where it has a place.
    fn breach(&self, place: u64) -> Option<BrokenRule>
        ensures value { result ≡ frame_breach self.now place }
    {
        either(field_breach(&self.first, place), self.last.breach(place))
    }
}

/// Where the frames of a group stand in display order, and what their pictures break.
#[derive(Clone, Copy, Debug, PartialEq, Eq)]
pub struct Places {
    /// Each frame is shown when it is decoded.
    pub low_delay: bool,
    /// How many frames of the group were shown.
    pub shown: u64,
    /// The first field of a frame that isn't whole.
    pub begun: Option<Unplaced>,
    /// The anchor of the group that waits to be shown.
    pub anchor: Option<UnplacedFrame>,
    /// The first rule that is broken by the pictures before that anchor.
    pub settled: Option<BrokenRule>,
    /// The first rule that is broken by the pictures behind it.
    pub later: Option<BrokenRule>,
}

/// The first rule that the anchor breaks that waits, where it has a place.
fn anchor_breach(anchor: &Option<UnplacedFrame>, place: u64) -> Option<BrokenRule>
    ensures value { result ≡ anchor_breach anchor.now place }
{
    match anchor {
        Some(f) => f.breach(place),
        None => None,
    }
}

impl Places {
    /// Nothing was decoded.
    pub fn new() -> Places
        ensures value { result ≡ no_places }
    {
        Places {
            low_delay: false,
            shown: 0,
            begun: None,
            anchor: None,
            settled: None,
            later: None,
        }
    }

    /// Says whether each frame is shown when it is decoded.
    pub fn set_low_delay(&mut self, low_delay: bool)
        ensures value { self.new ≡ with_low_delay self.old low_delay }
    {
        self.low_delay = low_delay;
    }

    /// How many frames of the group wait to be shown.
    fn waiting(&self) -> u64
        ensures value { result ≡ waiting_in self.now }
        ensures most { result ≤ 1 }
    {
        match self.anchor {
            Some(_) => 1,
            None => 0,
        }
    }

    /// A first field was decoded.
    pub fn field(&mut self, p: Unplaced)
        ensures value { self.new ≡ with_field self.old p }
    {
        self.begun = Some(p);
    }

    /// A frame was decoded, with its frame picture or its second field, and is a B frame or not.
    pub fn frame(&mut self, p: Unplaced, b: bool)
        requires few { self.old.shown < 2 ^ 60 }
        ensures value { self.new ≡ with_frame self.old p b }
        ensures few { self.new.shown ≤ self.old.shown + 1 }
    {
        let frame = UnplacedFrame {
            first: self.begun,
            last: p,
        };
        self.begun = None;
        if self.low_delay || b {
            self.later = either(self.later, frame.breach(self.shown));
            self.shown += 1;
            return;
        }
        let before = either(anchor_breach(&self.anchor, self.shown), self.later);
        self.settled = either(self.settled, before);
        self.shown += self.waiting();
        self.anchor = Some(frame);
        self.later = None;
    }

    /// The first rule that is broken, where the group ends here.
    pub fn broken(&self) -> Option<BrokenRule>
        requires few { self.now.shown < 2 ^ 61 }
        ensures value { result ≡ all_broken self.now }
    {
        let anchor = anchor_breach(&self.anchor, self.shown);
        let begun = field_breach(&self.begun, self.shown + self.waiting());
        either(self.settled, either(anchor, either(self.later, begun)))
    }

    /// The group ends here.
    pub fn close(&mut self)
        requires few { self.old.shown < 2 ^ 61 }
        ensures value { self.new ≡ group_closed self.old }
    {
        self.settled = self.broken();
        self.shown = 0;
        self.begun = None;
        self.anchor = None;
        self.later = None;
    }
}
