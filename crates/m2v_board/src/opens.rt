// A new board and its passes: the steps make and split.
ghost use Rattle.std.specs.Prelude.{◌≡◌, ℕ, ◌+◌, ◌<◌, ◌≤◌, [], IfOk, length, slice_index_or, All};
ghost use Rattle.std.specs.Vec.{vec_len, vec_capacity};
ghost use Rattle.std.specs.VecDeque.{deque_capacity};
ghost use Rattle.m2v_board.specs.Posts.{IsBlank};
ghost use Rattle.m2v_board.specs.Rule.{past, first_view};
ghost use Rattle.m2v_board.specs.Slots.{IsRoom};
ghost use Rattle.m2v_board.specs.Steps.{fewer};
ghost use Rattle.m2v_board.specs.Passes.{book_of, jobs_of, workers_of, IsNew};

use crate::board::Board;
use crate::laid::{rooms_for, wrapped, zeros};
use crate::pass::Pass;
use crate::plays::Cut;
use crate::post::Post;
use crate::rule::About;
use crate::view::View;
use atomic_table::{Refused, Seat, Table};
use m2v_core::{JobBook, Memory};
use std::alloc::{AllocError, Global};
use std::collections::VecDeque;
use std::snapshot::Snapshot;

impl<B: JobBook> Pass<B> {
    fn new(seat: Seat<Option<Box<Post<B>>>, View>, queue: VecDeque<u32>) -> Pass<B>
        requires seat { (n : ℕ) × (seat.me ≡ (first_view n 1, [])) × IsRoom n queue }
        ensures { result.seat ≡ seat }
    {
        Pass {
            seat,
            queue,
            ended: false,
        }
    }
}

impl<B: JobBook> Board<B> {
    /// A board over one blank post for each job, in order, and a pass for each of 1 to 16 workers.
    ///
    /// Fails only for want of memory, and drops the posts then.
    pub fn new(
        alloc: Global,
        book: &B,
        posts: Vec<Box<Post<B>>>,
        workers: u32,
    ) -> Result<(Board<B>, Vec<Pass<B>>), Memory>
        requires count { length posts.items ≡ B.jobs book.now }
        requires blank { (j : ℕ) (d : _) → j < B.jobs book.now
            → IsBlank (B.fits_piece book.now) (B.fits_shared book.now) j
            (slice_index_or posts.items j d).value }
        requires workers { (0 < workers) × (workers ≤ 16) }
        ensures board { IfOk result (λ r. (book_of r.0 ≡ book.now) × (jobs_of r.0 ≡ B.jobs book.now)
            × (workers_of r.0 ≡ workers)) }
        ensures passes { IfOk result (λ r. (vec_len r.1 ≡ workers)
            × All (λ p. IsNew r.0 p) r.1.items) }
    {
        let jobs = book.jobs();
        let words = zeros(alloc, jobs)?;
        let slots = wrapped(alloc, posts)?;
        let first = VecDeque::with_capacity(alloc, jobs as usize)?;
        let rooms = rooms_for(alloc, workers - 1, jobs)?;
        let mut passes = Vec::with_capacity(alloc, workers as usize)?;
        let about = About {
            book: Snapshot::of(book),
            jobs,
            workers,
        };
        let (table, seat) = match Table::new(alloc, &words, slots, &about) {
            Ok(made) => made,
            Err(Refused { slots: _ }) => return Err(AllocError),
        };
        let board = Board { table, jobs };
        board.deal(seat, first, rooms, &mut passes);
        Ok((board, passes))
    }

    // One pass of those that a seat stands for.
    fn another(&self, seat: &mut Seat<Option<Box<Post<B>>>, View>, queue: VecDeque<u32>) -> Pass<B>
        requires fits { seat.old.table_id ≡ self.now.table.shared.table_id }
        requires more { 1 < seat.old.me.0.passes }
        requires jobs { seat.old.me.0.jobs ≡ jobs_of self.now }
        requires none_past { past (jobs_of self.now) seat.old.me.0.drawn ≡ 0 }
        requires room { IsRoom (jobs_of self.now) queue }
        ensures same { seat.new.table_id ≡ seat.old.table_id }
        ensures fewer { seat.new.me ≡ (fewer seat.old.me.0, seat.old.me.1) }
        ensures new { IsNew self.now result }
    {
        Pass::new(self.table.shared.split_seat::<Cut>(seat), queue)
    }

    // A pass for each room, and one more.
    fn deal(
        &self,
        mut seat: Seat<Option<Box<Post<B>>>, View>,
        first: VecDeque<u32>,
        mut rooms: Vec<VecDeque<u32>>,
        passes: &mut Vec<Pass<B>>,
    )
        requires seat { (seat.table_id ≡ self.now.table.shared.table_id)
            × (seat.me ≡ (first_view (jobs_of self.now) (vec_len rooms + 1), [])) }
        requires rooms { IsRoom (jobs_of self.now) first
            × All (λ q. IsRoom (jobs_of self.now) q) rooms.items }
        requires empty { vec_len passes.old ≡ 0 }
        requires space { vec_len rooms + 1 ≤ vec_capacity passes.old }
        ensures { (vec_len passes.new ≡ vec_len rooms + 1)
            × All (λ p. IsNew self.now p) passes.new.items }
    {
        while let Some(queue) = rooms.pop() {
            passes.push_reserved(self.another(&mut seat, queue));
        }
        passes.push_reserved(Pass::new(seat, first));
    }
}
