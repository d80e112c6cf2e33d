//! Frames that are references and are shown as well.
ghost use Rattle.std.specs.Prelude.{◌≡◌, IfOk, IfSome, IfErr};

use crate::Memory;
use m2v_plane::Frame;
use std::alloc::Global;
use std::marker::Model;
use std::rc::Rc;

/// A frame that the references and the display hold in common. Contracts see its samples.
#[derive(Drop)]
pub(crate) struct SharedFrame {
    frame: Rc<Frame>,
}

impl Model for SharedFrame {
    ghost use Rattle.m2v_plane.specs.Samples.{Samples};

    ghost Value = { Samples };

    ghost view = { λ s. s.frame.value };
}

impl SharedFrame {
    /// A frame that has one holder.
    pub(crate) fn new(alloc: Global, frame: Frame) -> Result<SharedFrame, Memory>
        ensures value { IfOk result (λ s. s ≡ frame) }
    {
        Ok(SharedFrame {
            frame: Rc::new(alloc, frame)?,
        })
    }

    /// The same frame for one holder more.
    pub(crate) fn share(&self) -> Result<SharedFrame, Memory>
        ensures value { IfOk result (λ s. s ≡ self.now) }
    {
        Ok(SharedFrame {
            frame: self.frame.clone()?,
        })
    }

    /// The frame itself.
    pub(crate) fn frame(&self) -> &Frame
        ensures value { result.now ≡ self.now }
    {
        self.frame.as_ref()
    }

    /// Gives the frame up. Its last holder gets it.
    pub(crate) fn give_up(self) -> Option<Frame>
        ensures value { IfSome result (λ f. f ≡ self) }
    {
        Rc::into_inner(self.frame)
    }

    /// The frame, for its only holder.
    fn take_alone(self) -> Result<Frame, SharedFrame>
        ensures ok { IfOk result (λ f. f ≡ self) }
        ensures err { IfErr result (λ s. s ≡ self) }
    {
        match Rc::try_unwrap(self.frame) {
            Ok(frame) => Ok(frame),
            Err(frame) => Err(SharedFrame { frame }),
        }
    }
}

/// A frame that is a reference still, with room for a copy of it. Contracts see its samples.
#[derive(Drop)]
struct LentFrame {
    frame: SharedFrame,
    room: Frame,
}

impl Model for LentFrame {
    ghost use Rattle.std.specs.Prelude.{◌≡◌};
    ghost use Rattle.m2v_plane.specs.Samples.{Samples};

    ghost Value = { Samples };

    ghost view = { λ l. l.frame };

    ghost invariant = { λ l. l.room.dims ≡ l.frame.dims };
}

impl LentFrame {
    /// The frame itself where nobody else holds it any more, else a copy in the room.
    fn into_frame(self) -> Frame
        ensures value { result ≡ self }
    {
        let LentFrame { frame, mut room } = self;
        match frame.take_alone() {
            Ok(frame) => frame,
            Err(shared) => {
                room.copy_from(shared.frame());
                room
            }
        }
    }
}

/// Who holds a frame that is due.
#[derive(Drop)]
enum Held {
    /// Nobody else: no picture is predicted from it.
    Alone(Frame),
    /// The references too.
    Shared(LentFrame),
}

/// A frame on its way to the display. An anchor stays a reference meanwhile and isn't copied, but a copy can be had without
/// asking for memory. Contracts see its samples.
#[derive(Drop)]
pub struct DueFrame {
    held: Held,
}

impl Model for DueFrame {
    ghost use Rattle.m2v_plane.specs.Samples.{Samples};

    ghost Value = { Samples };

    ghost use Rattle.m2v_dec_picture.specs.Due.{samples_held};

    ghost view = { λ d. samples_held d.held };
}

impl DueFrame {
    /// A frame that nobody else holds.
    pub(crate) fn alone(frame: Frame) -> DueFrame
        ensures value { result ≡ frame }
    {
        DueFrame {
            held: Held::Alone(frame),
        }
    }

    /// A frame that the references hold too, with room for a copy of it.
    pub(crate) fn shared(frame: SharedFrame, room: Frame) -> DueFrame
        requires room { room.dims ≡ frame.dims }
        ensures value { result ≡ frame }
    {
        DueFrame {
            held: Held::Shared(LentFrame { frame, room }),
        }
    }

    /// The frame, to be read where it stands.
    pub fn frame(&self) -> &Frame
        ensures value { result.now ≡ self.now }
    {
        match &self.held {
            Held::Alone(frame) => frame,
            Held::Shared(lent) => lent.frame.frame(),
        }
    }

    /// The frame for good: a copy of it where it is a reference still.
    pub fn into_frame(self) -> Frame
        ensures value { result ≡ self }
    {
        match self.held {
            Held::Alone(frame) => frame,
            Held::Shared(lent) => lent.into_frame(),
        }
    }

    /// Gives the frame up. What nobody holds then may be painted over: the frame, and the room for its copy.
    pub(crate) fn give_up(self) -> (Option<Frame>, Option<Frame>)
        ensures value { IfSome result.0 (λ f. f ≡ self) }
    {
        match self.held {
            Held::Alone(frame) => (Some(frame), None),
            Held::Shared(lent) => {
                let LentFrame { frame, room } = lent;
                (frame.give_up(), Some(room))
            }
        }
    }
}
