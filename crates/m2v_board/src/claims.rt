// Jobs are claimed, taken and published: the steps claim, exchange and raise.
ghost use Rattle.std.specs.Prelude.{◌≡◌, ◌≢◌, ℕ, ◌+◌, ◌<◌, ◌≤◌, ◌∷◌, ◌↔◌, Some, None, IsNone, IfSome, IfNone, MatchOption, All, Contains};
ghost use Rattle.m2v_board.specs.Posts.{IsBlank, IsReady, Has};
ghost use Rattle.m2v_board.specs.Rule.{past, times};
ghost use Rattle.m2v_board.specs.Steps.{drew, draw, publish};
ghost use Rattle.m2v_board.specs.Passes.{book_of, jobs_of, view, slot_of, IsPassOf};

use crate::board::Board;
use crate::laid::bring;
use crate::pass::Pass;
use crate::plays::{Draw, Raise, Told};
use crate::post::Post;
use crate::view::View;
use atomic_table::Seat;
use m2v_core::JobBook;
use std::marker::Brand;

impl<B: JobBook> Board<B> {
    fn draw<W: Told<Option<Box<Post<B>>>>>(
        &self,
        seat: &mut Seat<Option<Box<Post<B>>>, View>,
    ) -> u64
        requires fits { (seat.old.table_id ≡ self.now.table.shared.table_id)
            × (seat.old.me.0.jobs ≡ jobs_of self.now) }
        requires stands { 0 < seat.old.me.0.passes }
        requires none_past { past (jobs_of self.now) seat.old.me.0.drawn ≡ 0 }
        requires told { (j : ℕ) (x : _)
            → Has (IsBlank (B.fits_piece (book_of self.now)) (B.fits_shared (book_of self.now))) j x
            → W.is_so j x }
        ensures same { seat.new.table_id ≡ seat.old.table_id }
        ensures drew { drew W.is_so seat.old.me result seat.new.me }
    {
        self.table.shared.fetch_add::<Draw<W>>(seat, 0, 1)
    }

    /// The next job that no pass has drawn, which is open from then on. None exactly where the
    /// number drawn is past the jobs: the pass keeps that number, and draws no more.
    pub fn claim(&self, pass: &mut Pass<B>) -> Option<u32>
        requires pass { IsPassOf self.now pass.old }
        ensures pass { IsPassOf self.now pass.new }
        ensures none { IsNone result ↔ (0 < past (jobs_of self.now) (view pass.new).drawn) }
        // The number of its own step joins the list of this pass.
        ensures some { IfSome result (λ j. (j < jobs_of self.now)
            × (view pass.new ≡ draw (view pass.old) j)) }
        ensures ends { IfNone result (past (jobs_of self.now) (view pass.old).drawn ≡ 0 → (r : ℕ)
            × (jobs_of self.now ≤ r) × (view pass.new ≡ draw (view pass.old) r)) }
        ensures ended { IfNone result (0 < past (jobs_of self.now) (view pass.old).drawn
            → view pass.new ≡ view pass.old) }
        // The job's slot has its blank post, and the other slots are as they were.
        ensures blank { IfSome result (λ j. (x : _) × (slot_of pass.new j ≡ Some x)
            × Has (IsBlank (B.fits_piece (book_of self.now)) (B.fits_shared (book_of self.now))) j
            x) }
        ensures others { MatchOption result ((i : ℕ) → slot_of pass.new i ≡ slot_of pass.old i)
            (λ j. (i : ℕ) → i ≢ j → slot_of pass.new i ≡ slot_of pass.old i) }
    {
        if pass.ended {
            return None;
        }
        let drawn = self.draw::<Brand>(&mut pass.seat);
        if drawn < self.jobs as u64 {
            pass.queue.push_front_reserved(drawn as u32);
            Some(drawn as u32)
        } else {
            pass.ended = true;
            None
        }
    }

    /// The blank post of a job that this pass claimed, and of which it took nothing yet.
    pub fn take(&self, pass: &mut Pass<B>, j: u32) -> Box<Post<B>>
        requires pass { IsPassOf self.now pass.old }
        requires claimed { (x : _) × (slot_of pass.old j ≡ Some x)
            × Has (IsBlank (B.fits_piece (book_of self.now)) (B.fits_shared (book_of self.now))) j
            x }
        ensures pass { IsPassOf self.now pass.new × (view pass.new ≡ view pass.old) }
        ensures taken { slot_of pass.new j ≡ Some None }
        ensures others { (i : ℕ) → i ≢ j → slot_of pass.new i ≡ slot_of pass.old i }
        ensures blank { IsBlank (B.fits_piece (book_of self.now)) (B.fits_shared (book_of self.now))
            j result.value }
    {
        bring(&mut pass.seat, &mut pass.queue, j);
        self.table
            .shared
            .exchange(&mut pass.seat, j as usize, None)
            .unwrap()
    }

    /// Shows the post of an open job, which this pass took and made ready, to every pass, and wakes those that sleep until
    /// it is shown.
    pub fn publish(&self, pass: &mut Pass<B>, j: u32, post: Box<Post<B>>)
        requires pass { IsPassOf self.now pass.old }
        requires taken { slot_of pass.old j ≡ Some None }
        requires learned { All (λ i. Contains (view pass.old).borrowed i)
            (B.needs (book_of self.now) j) }
        requires ready { IsReady (B.value (book_of self.now)) (B.shared (book_of self.now)) j
            post.value }
        ensures pass { IsPassOf self.now pass.new × (view pass.new ≡ publish (view pass.old) j) }
        ensures shown { slot_of pass.new j ≡ None }
        ensures others { (i : ℕ) → i ≢ j → slot_of pass.new i ≡ slot_of pass.old i }
    {
        bring(&mut pass.seat, &mut pass.queue, j);
        let shared = &self.table.shared;
        drop(shared.exchange(&mut pass.seat, j as usize, Some(post)));
        shared.store::<Raise>(&mut pass.seat, j as usize + 1, 1);
        shared.wake_all(j as usize + 1);
        let _ = pass.queue.pop_front();
    }
}
