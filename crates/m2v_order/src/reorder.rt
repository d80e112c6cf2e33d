ghost use Rattle.std.specs.Prelude.{◌≡◌, ◌+◌, ◌<◌, ◌≤◌, ◌^◌, ◌↔◌, false, All, length, IsSome, IsTrue, IfOk, IfErr, OnOk, OnErr, IfSome, OnSome, IfNone};
ghost use Rattle.m2v_set.specs.m2v_plane.Samples.{Samples};
ghost use Rattle.m2v_set.specs.Numbers.{dims_of};
ghost use Rattle.m2v_order.specs.declared.jobs.PictureJob.{PictureJob};
ghost use Rattle.m2v_order.specs.Groups.{opening, first_of, next_intra, is_due, group_of, after_push, after_end, after_group};
ghost use Rattle.m2v_order.specs.Whole.{IsGroupOf, handed};

use crate::Memory;
use crate::coding::{group_pictures, intra_at};
use crate::jobs::GroupJobs;
use m2v_set::Passed;
use m2v_set::plane::Frame;
use std::alloc::{AllocError, Global};
use std::marker::Model;
use std::mem;

/// Frames on their way from display order to groups in coding order. A group is handed out once the next I frame, or the
/// end, has come; frames are moved, never copied.
///
/// Contracts see it as its settings, the number of frames pushed, the frames that aren't handed out, and whether the end
/// has come.
#[derive(Drop)]
pub struct Reorder {
    passed: Passed,
    pushed: u64,
    frames: Vec<Frame>,
    ended: bool,
}

impl Model for Reorder {
    ghost use Rattle.std.specs.Prelude.{◌≡◌, ◌<◌, All};
    ghost use Rattle.m2v_set.specs.m2v_plane.Samples.{Samples};
    ghost use Rattle.m2v_set.specs.Numbers.{dims_of};
    ghost use Rattle.m2v_order.specs.Groups.{Queue, IsSoundQueue};

    ghost Value = { Queue Samples };

    ghost view = { λ r. record {
      settings = r.passed;
      pushed = r.pushed;
      frames = r.frames.items;
      ended = r.ended;
    } };

    ghost invariant = { λ r. IsSoundQueue (record {
      settings = r.passed;
      pushed = r.pushed;
      frames = r.frames.items;
      ended = r.ended;
    }) × (r.pushed < 1000000)
        × All (λ (f : Samples). f.dims ≡ dims_of r.passed) r.frames.items };
}

impl Reorder {
    /// A reorder for settings that passed, before the first frame. (An empty vector takes no memory today.)
    pub fn new(alloc: Global, settings: &Passed) -> Result<Reorder, Memory>
        ensures value { IfOk result (λ r. r ≡ opening settings.now) }
    {
        Ok(Reorder {
            passed: *settings,
            pushed: 0,
            frames: Vec::new(alloc),
            ended: false,
        })
    }

    /// Takes the next frame in display order, of the settings' size. Where memory runs out it gives the frame back, and
    /// nothing changes. At most 999,999 frames are pushed, and none after the end.
    pub fn push(&mut self, _alloc: Global, frame: Frame) -> Result<(), (Frame, Memory)>
        requires size { frame.dims ≡ dims_of self.old.settings }
        requires before_end { self.old.ended ≡ false }
        requires few { self.old.pushed < 999999 }
        ensures ok { OnOk result (self.new ≡ after_push self.old frame) }
        ensures back { IfErr result (λ e. e.0 ≡ frame) }
        ensures memory { OnErr result (self.new ≡ self.old) }
    {
        // groups and steps of settings that pass
        let _known = self.passed.settings();
        if let Err(refused) = self.frames.push(frame) {
            return Err((refused.value, AllocError));
        }
        self.pushed += 1;
        Ok(())
    }

    /// Says that no frame follows.
    pub fn end(&mut self)
        ensures value { self.new ≡ after_end self.old }
    {
        self.ended = true;
    }

    /// Hands out the next group. There is none exactly where neither the next I frame nor the end has come, or all
    /// groups were handed out. It is a group of the settings (`IsGroupOf`), of 1 to 63 frames and 1 to 126 pictures. Where
    /// memory runs out nothing changes.
    #[tactic(auto, unfolding(crate::specs::Groups::group_of, crate::specs::Groups::anchor_before))]
    pub fn next_group(&mut self, alloc: Global) -> Result<Option<GroupJobs>, Memory>
        ensures due { IfOk result (λ o. IsSome o ↔ IsTrue (is_due self.old)) }
        ensures frames { IfOk result
            (λ o. IfSome o (λ g. g.frames.items ≡ (group_of self.old).frames)) }
        ensures pictures { IfOk result
            (λ o. IfSome o (λ g. g.pictures.items ≡ (group_of self.old).pictures)) }
        ensures before { IfOk result (λ o. IfSome o (λ g. g.before ≡ (group_of self.old).before)) }
        ensures group { IfOk result (λ o. IfSome o (λ g. IsGroupOf self.old.settings (handed g))) }
        ensures nonempty { IfOk result (λ o. IfSome o (λ g. 0 < length g.frames.items)) }
        ensures places { IfOk result
            (λ o. IfSome o (λ g. All (λ (j : PictureJob). (j.display ≡ first_of self.old + j.frame)
            × (j.frame < length g.frames.items)) g.pictures.items)) }
        ensures size { IfOk result
            (λ o. IfSome o (λ g. All (λ (f : Samples). f.dims ≡ dims_of self.old.settings)
            g.frames.items)) }
        ensures rest { IfOk result (λ o. OnSome o (self.new ≡ after_group self.old)) }
        ensures same { IfOk result (λ o. IfNone o (self.new ≡ self.old)) }
        ensures memory { OnErr result (self.new ≡ self.old) }
    {
        if !self.is_due() {
            return Ok(None);
        }
        let first = self.first();
        let to = self.next_intra().min(self.pushed);
        let settings = self.passed.settings();
        let (pictures, size) = group_pictures(alloc, settings, self.pushed, first, to)?;
        let rest = self.frames.split_off(size)?;
        let frames = mem::replace(&mut self.frames, rest);
        Ok(Some(GroupJobs {
            frames,
            pictures,
            before: first.checked_sub(1),
        }))
    }

    /// The display number of the first frame that isn't handed out.
    fn first(&self) -> u64
        ensures value { result ≡ first_of self.now }
        ensures most { result < 1000000 }
    {
        self.pushed - self.frames.len() as u64
    }

    /// The next I frame after that of the next group.
    fn next_intra(&self) -> u64
        ensures value { result ≡ next_intra self.now }
        ensures least { first_of self.now ≤ result }
        ensures most { result < 2 ^ 32 }
    {
        let settings = self.passed.settings();
        intra_at(settings, self.first()) + u64::from(settings.group)
    }

    /// Whether a group can be handed out.
    #[tactic(auto, unfolding(crate::specs::Groups::is_due))]
    fn is_due(&self) -> bool
        ensures value { result ≡ is_due self.now }
    {
        !self.frames.is_empty() && (self.ended || self.next_intra() < self.pushed)
    }
}
