// temporal_reference is the place of a frame in the display order of its group (clause 6.3.9), which is known as soon as
// the frame is shown: a B frame's at once, an anchor's when the next one comes or its group ends.
ghost use Rattle.std.specs.Prelude.{◌≡◌, ◌+◌, ◌<◌, ◌≤◌, ◌^◌};
ghost use Rattle.m2v_audit.specs.Places.{misplaced, field_misplaced, frame_misplaced, anchor_misplaced, waiting_in, no_places, with_field, with_frame, told_with_frame, group_closed, told_at_close};

/// A picture whose place isn't known yet.
#[derive(Clone, Copy)]
pub struct Waiting {
    /// Its number in the sequence, in coding order.
    pub number: u64,
    /// Where its picture start code begins in the input, in bits.
    pub bit: u64,
    /// Its temporal_reference.
    pub reference: u32,
}

/// A frame whose place isn't known yet: a frame picture, or two fields.
#[derive(Clone, Copy)]
pub struct WaitingFrame {
    /// Its first field.
    pub first: Option<Waiting>,
    /// Its frame picture or second field.
    pub last: Waiting,
}

/// A picture whose temporal_reference isn't the place of its frame.
#[derive(Clone, Copy)]
pub struct Misplaced {
    /// Its number in the sequence, in coding order.
    pub number: u64,
    /// Where its picture start code begins in the input, in bits.
    pub bit: u64,
    /// Its temporal_reference.
    pub have: u128,
    /// The place of its frame, modulo 1024.
    pub need: u128,
}

/// Where the frames of a group stand in display order.
#[derive(Clone, Copy)]
pub struct Places {
    /// Each frame is shown when it is decoded.
    pub low_delay: bool,
    /// How many frames of the group were shown.
    pub shown: u64,
    /// The first field of a frame that isn't whole.
    pub begun: Option<Waiting>,
    /// The anchor of the group that waits to be shown.
    pub anchor: Option<WaitingFrame>,
}

impl Waiting {
    /// What is told of it, where its frame stands at a place.
    fn misplaced(&self, place: u64) -> Option<Misplaced>
        ensures value { result ≡ misplaced self.now place }
    {
        let place = place % 1024;
        let told = Misplaced {
            number: self.number,
            bit: self.bit,
            have: u128::from(self.reference),
            need: u128::from(place),
        };
        if u64::from(self.reference) == place {
            None
        } else {
            Some(told)
        }
    }
}

/// What is told of a first field, where there is one.
fn field_misplaced(field: &Option<Waiting>, place: u64) -> Option<Misplaced>
    ensures value { result ≡ field_misplaced field.now place }
{
    match field {
        Some(p) => p.misplaced(place),
        None => None,
    }
}

impl WaitingFrame {
    /// What is told of its pictures, where it stands at a place.
    fn misplaced(&self, place: u64) -> [Option<Misplaced>; 2]
        ensures value { result ≡ frame_misplaced self.now place }
    {
        [
            field_misplaced(&self.first, place),
            self.last.misplaced(place),
        ]
    }
}

/// What is told of the anchor that waits, where there is one.
fn anchor_misplaced(anchor: &Option<WaitingFrame>, place: u64) -> [Option<Misplaced>; 2]
    ensures value { result ≡ anchor_misplaced anchor.now place }
{
    match anchor {
        Some(f) => f.misplaced(place),
        None => [None, None],
    }
}

impl Places {
    /// Before the first group of a sequence.
    pub fn new(low_delay: bool) -> Places
        ensures value { result ≡ no_places low_delay }
    {
        Places {
            low_delay,
            shown: 0,
            begun: None,
            anchor: None,
        }
    }

    /// How many frames of the group wait to be shown.
    fn waiting(&self) -> u64
        ensures value { result ≡ waiting_in self.now }
        ensures most { result ≤ 1 }
    {
        match self.anchor {
            Some(_) => 1,
            None => 0,
        }
    }

    /// A first field came.
    pub fn field(&mut self, p: Waiting)
        ensures value { self.new ≡ with_field self.old p }
    {
        self.begun = Some(p);
    }

    /// A frame came, with its frame picture or its second field, and is a B frame or not. Tells which pictures stand
    /// wrong, of the frame itself where it is shown, and else of the anchor before it: a first field, then its frame
    /// picture or second field.
    pub fn frame(&mut self, p: Waiting, b: bool) -> [Option<Misplaced>; 2]
        requires few { self.old.shown < 2 ^ 60 }
        ensures told { result ≡ told_with_frame self.old p b }
        ensures value { self.new ≡ with_frame self.old p b }
        ensures few { self.new.shown ≤ self.old.shown + 1 }
    {
        let frame = WaitingFrame {
            first: self.begun,
            last: p,
        };
        self.begun = None;
        if self.low_delay || b {
            let told = frame.misplaced(self.shown);
            self.shown += 1;
            return told;
        }
        let told = anchor_misplaced(&self.anchor, self.shown);
        self.shown += self.waiting();
        self.anchor = Some(frame);
        told
    }

    /// What is told where the group ends.
    fn left(&self) -> [Option<Misplaced>; 3]
        requires few { self.now.shown < 2 ^ 61 }
        ensures told { result ≡ told_at_close self.now }
    {
        let [first, last] = anchor_misplaced(&self.anchor, self.shown);
        let begun = field_misplaced(&self.begun, self.shown + self.waiting());
        [first, last, begun]
    }

    /// The group ends. Tells which pictures stand wrong, of the anchor that waits, its first field first, and then of a
    /// first field without a second one.
    pub fn close(&mut self) -> [Option<Misplaced>; 3]
        requires few { self.old.shown < 2 ^ 61 }
        ensures told { result ≡ told_at_close self.old }
        ensures value { self.new ≡ group_closed self.old }
    {
        let told = self.left();
        self.shown = 0;
        self.begun = None;
        self.anchor = None;
        told
    }
}
