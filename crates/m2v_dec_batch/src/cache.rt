//! What a worker keeps of the rows that it learned of.
ghost use Rattle.std.specs.Prelude.{◌≡◌, ◌+◌, ◌*◌, ◌^◌, ◌<◌, ◌≤◌, ◌&&◌, is_some, IfSome, Some, None};
ghost use Rattle.std.specs.Option.{option_map};
ghost use Rattle.m2v_plane.specs.Sizes.{part_of};
ghost use Rattle.m2v_pred.specs.Motion.{own_lines as lines_of};
ghost use Rattle.m2v_dec_batch.specs.Batches.{with_own};
ghost use Rattle.m2v_dec_batch.specs.Learned.{is_of, stands_at, in_second, held_of, samples_in};

use crate::picture::{FramePlace, Header};
use m2v_plane::{Frame, FrameRoom, RowSamples};
use m2v_pred::own_lines;

/// A frame behind a picture of the batch, as far as its rows were learned: one behind another, from the first on.
#[derive(Drop)]
pub struct HeldFrame {
    // room for the frame, until rows are learned
    pub(crate) room: Option<FrameRoom>,
    pub(crate) frame: Option<Frame>,
    // the picture
    pub(crate) picture: Option<u32>,
    // how many of its rows were learned
    pub(crate) count: u32,
    // whether all of these are rebuilt
    pub(crate) whole: bool,
}

impl HeldFrame {
    /// Room for a frame.
    pub(crate) fn in_room(room: FrameRoom) -> HeldFrame
        ensures room { result.room ≡ Some room }
        ensures frame { result.frame ≡ None }
        ensures picture { result.picture ≡ None }
    {
        HeldFrame {
            room: Some(room),
            frame: None,
            picture: None,
            count: 0,
            whole: true,
        }
    }

    /// Whether this is the frame behind a picture.
    pub(crate) fn is_of(&self, q: u32) -> bool
        ensures value { result ≡ is_of self.now.picture q }
    {
        match self.picture {
            Some(p) => p == q,
            None => false,
        }
    }

    /// Whether this is the frame at a place.
    fn stands_at(&self, place: Option<FramePlace>) -> bool
        ensures value { result ≡ stands_at self.now.picture place }
    {
        match place {
            Some(FramePlace::Behind(q)) => self.is_of(q),
            _ => false,
        }
    }

    /// Has a frame there, of samples 0 where there was room alone.
    pub(crate) fn fill_room(&mut self)
        ensures value { self.new ≡ record self.old {
          room = None;
          frame = samples_in self.old.room self.old.frame;
        } }
    {
        if let Some(room) = self.room.take() {
            self.frame = Some(room.blank());
        }
    }

    /// Learns the next row, the row `r` of a picture, where it is rebuilt.
    pub(crate) fn add(&mut self, h: Header, r: u32, row: Option<&RowSamples>)
        requires few { self.old.count ≤ 2 ^ 20 }
        requires row { IfSome self.old.frame
            (λ f. 16 * r + 16 ≤ part_of (lines_of h.structure) (16 * f.dims.mb_rows)) }
        requires same { IfSome self.old.frame (λ f. IfSome row (λ x. x.now.dims ≡ f.dims)) }
        ensures value { self.new ≡ record self.old {
          frame = option_map (with_own h r (option_map (λ x. x.now) row.entry)) self.old.frame;
          count = self.old.count + 1;
          whole = self.old.whole && is_some (option_map (λ x. x.now) row.entry);
        } }
    {
        self.count += 1;
        match row {
            None => self.whole = false,
            Some(row) => {
                if let Some(frame) = &mut self.frame {
                    frame.set_row(own_lines(h.structure), r, row);
                }
            }
        }
    }
}

/// What a worker keeps of the rows that it learned of: two frames, as many as a picture is predicted from.
/// [`DecodeBook`](crate::DecodeBook) makes it.
#[derive(Drop)]
pub struct DecodeCache {
    pub(crate) one: HeldFrame,
    pub(crate) two: HeldFrame,
    // a frame of samples 0, where a field has no row: there the frame behind one has none that could be learned
    pub(crate) blank: Option<Frame>,
}

impl DecodeCache {
    /// Whether the second frame is the one behind a picture, or is given up for it: where neither is, the first one stays if
    /// it is the one at the place that is kept.
    #[tactic(auto, unfolding(crate::specs::Learned::in_second))]
    pub(crate) fn in_second(&self, q: u32, keep: Option<FramePlace>) -> bool
        ensures value { result ≡ in_second self.now q keep }
    {
        if self.one.is_of(q) {
            return false;
        }
        self.two.is_of(q) || self.one.stands_at(keep)
    }

    /// The frame behind a picture, if one of both is.
    #[tactic(auto, unfolding(crate::specs::Learned::held_of))]
    pub(crate) fn held_of(&self, q: u32) -> &HeldFrame
        ensures value { result.now ≡ held_of self.now q }
    {
        if self.one.is_of(q) {
            &self.one
        } else {
            &self.two
        }
    }
}
