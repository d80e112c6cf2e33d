//! What a reader of rows begins with.
ghost use Rattle.std.specs.Prelude.{◌≡◌, false, IfOk, IfSome};
ghost use Rattle.m2v_decode.specs.AtHand.{IsAtHand};

use crate::Memory;
use crate::decoder::Decoder;
use m2v_dec_rows::dec_picture::FramesAtHand;
use m2v_model::State;
use m2v_plane::Dims;
use std::alloc::Global;

/// What stands between two pieces behind the first sequence header: the headers in force, the size of frames, and copies of
/// the frames at hand.
#[derive(Drop)]
pub struct AtHand {
    pub state: State,
    pub dims: Dims,
    pub frames: FramesAtHand,
}

impl Decoder {
    /// What a reader of rows begins with between two pieces; None before the first sequence header.
    pub fn at_hand(&mut self, alloc: Global) -> Result<Option<AtHand>, Memory>
        requires going { self.old.failed ≡ false }
        ensures same { self.new ≡ self.old }
        ensures hand { IfOk result (λ hand. IfSome hand (IsAtHand self.old)) }
    {
        let Some(s) = &self.course.state.sequence else {
            return Ok(None);
        };
        let dims = s.dims();
        let frames = self.course.gallery.at_hand(alloc)?;
        Ok(Some(AtHand {
            state: self.course.state,
            dims,
            frames,
        }))
    }
}
