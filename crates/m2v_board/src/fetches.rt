// Posts are lent to learn from them: the steps look, borrow and return.
ghost use Rattle.std.specs.Prelude.{◌≡◌, ℕ, ◌+◌, ◌<◌, ◌∷◌, Some, None, MatchBool, length, slice_index};
ghost use Rattle.atomic_table.specs.Table.{rest};
ghost use Rattle.m2v_board.specs.Posts.{IsReady, Has};
ghost use Rattle.m2v_board.specs.Steps.{borrow, give_back};
ghost use Rattle.m2v_board.specs.Passes.{book_of, jobs_of, view, slot_of, IsPassOf};

use crate::board::Board;
use crate::pass::Pass;
use crate::plays::{Lend, Return, Told};
use crate::post::Post;
use crate::view::View;
use atomic_table::Seat;
use m2v_core::JobBook;
use std::marker::Brand;
use std::sync::Wait;
use std::thread::yield_now;

// How often a fetch looks before it sleeps.
const TURNS_AWAKE: u32 = 100;

impl<B: JobBook> Board<B> {
    // Whether the job was published and its post at home, which the seat then has.
    fn borrow<W: Told<Option<Box<Post<B>>>>>(
        &self,
        seat: &mut Seat<Option<Box<Post<B>>>, View>,
        j: u32,
    ) -> bool
        requires fits { seat.old.table_id ≡ self.now.table.shared.table_id }
        requires stands { 0 < seat.old.me.0.passes }
        requires free { seat.old.me.0.holds ≡ None }
        requires job { j < jobs_of self.now }
        requires told { (i : ℕ) (x : _)
            → Has (IsReady (B.value (book_of self.now)) (B.shared (book_of self.now))) i x
            → W.is_so i x }
        ensures same { seat.new.table_id ≡ seat.old.table_id }
        ensures lent { MatchBool result ((x : _) × W.is_so j x
            × (seat.new.me ≡ (borrow seat.old.me.0 j, (j, x) ∷ seat.old.me.1)))
            (seat.new.me ≡ seat.old.me) }
    {
        self.table
            .shared
            .compare_exchange::<Lend<W>>(seat, j as usize + 1, 1, 2)
            == 1
    }

    // Looks until the job is published and its post at home. It looks some turns at once; from then on it sleeps while the
    // job isn't published. A post that is lent is at home again as soon as it was learned from, and isn't waited for asleep.
    fn wait_for<R: Wait>(&self, rt: &R, seat: &mut Seat<Option<Box<Post<B>>>, View>, j: u32)
        requires fits { seat.old.table_id ≡ self.now.table.shared.table_id }
        requires stands { 0 < seat.old.me.0.passes }
        requires free { seat.old.me.0.holds ≡ None }
        requires job { j < jobs_of self.now }
        ensures same { seat.new.table_id ≡ seat.old.table_id }
        ensures lent { (x : _)
            × Has (IsReady (B.value (book_of self.now)) (B.shared (book_of self.now))) j x
            × (seat.new.me ≡ (borrow seat.old.me.0 j, (j, x) ∷ seat.old.me.1)) }
    {
        let mut turns = 0;
        for _ in rt.forever() {
            if self.borrow::<Brand>(seat, j) {
                return;
            }
            if turns < TURNS_AWAKE {
                turns += 1;
            } else {
                self.table.shared.park(rt, j as usize + 1, 0);
            }
            yield_now();
        }
        unreachable!()
    }

    // Puts a post back that was lent.
    fn give_back(&self, seat: &mut Seat<Option<Box<Post<B>>>, View>, j: u32, post: Box<Post<B>>)
        requires fits { seat.old.table_id ≡ self.now.table.shared.table_id }
        requires stands { 0 < seat.old.me.0.passes }
        requires job { j < jobs_of self.now }
        requires holds { seat.old.me.0.holds ≡ Some j }
        requires out { seat.old.me.1 ≡ (j, None) ∷ rest seat.old.me.1 }
        requires ready { IsReady (B.value (book_of self.now)) (B.shared (book_of self.now)) j
            post.value }
        ensures same { seat.new.table_id ≡ seat.old.table_id }
        ensures given { seat.new.me ≡ (give_back seat.old.me.0, rest seat.old.me.1) }
    {
        let shared = &self.table.shared;
        drop(shared.exchange(seat, j as usize, Some(post)));
        shared.store::<Return>(seat, j as usize + 1, 1);
    }

    /// Waits until need number `at` of job j is published, learns what it shares, and puts its post
    /// back. The cache then has the final value, whoever published it.
    pub fn fetch<R: Wait>(
        &self,
        rt: &R,
        pass: &mut Pass<B>,
        book: &B,
        j: u32,
        at: u32,
        need: u32,
        cache: &mut B::Cache,
    )
        requires pass { IsPassOf self.now pass.old }
        requires book { book_of self.now ≡ book.now }
        requires sizes { jobs_of self.now ≡ B.jobs book.now }
        requires job { j < B.jobs book.now }
        requires at { at < length (B.needs book.now j) }
        requires need { need ≡ slice_index (B.needs book.now j) at }
        requires cache { B.fits_cache book.now cache.old }
        ensures pass { IsPassOf self.now pass.new
            × (view pass.new ≡ give_back (borrow (view pass.old) need)) }
        ensures slots { (i : ℕ) → slot_of pass.new i ≡ slot_of pass.old i }
        ensures fits { B.fits_cache book.now cache.new }
        ensures learned { cache.new ≡ B.learned book.now j at (B.shared book.now need) cache.old }
    {
        self.wait_for(rt, &mut pass.seat, need);
        let post = self
            .table
            .shared
            .exchange(&mut pass.seat, need as usize, None)
            .unwrap();
        book.learn(j, at, &post.shared, cache);
        self.give_back(&mut pass.seat, need, post);
    }
}
