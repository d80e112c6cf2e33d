// What one worker knows of the board.
ghost use Rattle.std.specs.Prelude.{◌≡◌, ◌+◌, ◌<◌, ◌≤◌, ℕ, nat_lt, None, if◌then◌else◌};
ghost use Rattle.std.specs.VecDeque.{deque_capacity};
ghost use Rattle.m2v_board.specs.Rule.{past, times};
ghost use Rattle.m2v_board.specs.Slots.{jobs_in};

use crate::post::Post;
use crate::view::View;
use atomic_table::Seat;
use m2v_core::JobBook;
use std::collections::VecDeque;

/// What one worker has done on a board, and the slots of the jobs that it has open.
///
/// A job is open from its claim to its publication.
pub struct Pass<B: JobBook> {
    pub(crate) seat: Seat<Option<Box<Post<B>>>, View>,
    // The jobs of the slots that the seat has, in the seat's order.
    pub(crate) queue: VecDeque<u32>,
    // Whether a number past the jobs was drawn.
    pub(crate) ended: bool,
    ghost stands: { 0 < seat.me.0.passes },
    ghost at_rest: { seat.me.0.holds ≡ None },
    ghost drew_past: { ended ≡ nat_lt 0 (past seat.me.0.jobs seat.me.0.drawn) },
    ghost order: { jobs_in seat.me.1 ≡ queue.items },
    ghost tally: { (i : ℕ) → times i queue.items + times i seat.me.0.published
        ≡ (if nat_lt i seat.me.0.jobs then times i seat.me.0.drawn else 0) },
    ghost once: { (i : ℕ) → times i queue.items ≤ 1 },
    ghost room: { seat.me.0.jobs ≤ deque_capacity queue },
}

impl<B: JobBook> Pass<B> {
    pub(crate) fn into_parts(self) -> (Seat<Option<Box<Post<B>>>, View>, bool)
        ensures { (result.0 ≡ self.seat) × (result.1 ≡ self.ended) }
    {
        let Self {
            seat,
            queue: _,
            ended,
        } = self;
        (seat, ended)
    }
}

impl<B: JobBook> Drop for Pass<B> {
    fn drop(self) {
        let Self {
            seat: _,
            queue: _,
            ended: _,
        } = self;
    }
}
