ghost use Rattle.std.specs.Prelude.{◌≡◌, None};
ghost use Rattle.m2v_order.specs.Display.{opening, shown, held, emptied};

use m2v_set::plane::Frame;
use std::marker::Model;
use std::mem;

/// picture_coding_type of a B picture.
const B: u8 = 3;

/// Frames on their way from decoding order to display order (clause 6.1.1.11), whatever holds a frame. Contracts see it as
/// low_delay and the anchor that is held.
#[derive(Drop)]
pub struct AnchorQueue<F> {
    low_delay: bool,
    anchor: Option<F>,
}

/// A queue that holds the frames themselves.
pub type DisplayQueue = AnchorQueue<Frame>;

impl<F> Model for AnchorQueue<F> {
    ghost use Rattle.m2v_order.specs.Display.{Holder};

    ghost Value = { Holder F };

    ghost view = { λ q. record { low_delay = q.low_delay; anchor = q.anchor } };
}

impl<F> AnchorQueue<F> {
    /// A queue that holds nothing. `low_delay` is that of the sequence extension: frames are then shown as they come.
    pub fn new(low_delay: bool) -> AnchorQueue<F>
        ensures value { result ≡ opening low_delay }
    {
        AnchorQueue {
            low_delay,
            anchor: None,
        }
    }

    /// Takes the frame that was decoded, by its picture_coding_type, and gives the one that is shown then: a B frame at
    /// once, an anchor when the next one comes, everything at once with low_delay. A type that isn't 3 is an anchor's.
    #[tactic(auto, unfolding(crate::specs::Display::shown, crate::specs::Display::held))]
    pub fn decoded(&mut self, frame: F, kind: u8) -> Option<F>
        ensures shown { result ≡ shown self.old frame kind }
        ensures held { self.new ≡ held self.old frame kind }
    {
        if self.low_delay || kind == B {
            return Some(frame);
        }
        mem::replace(&mut self.anchor, Some(frame))
    }

    /// Gives the last anchor, which is shown at the end.
    pub fn finish(&mut self) -> Option<F>
        ensures shown { result ≡ self.old.anchor }
        ensures held { self.new ≡ emptied self.old }
    {
        self.anchor.take()
    }
}
