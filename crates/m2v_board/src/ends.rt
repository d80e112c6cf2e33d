// Passes become one, and the board ends: the steps join and close.
ghost use Rattle.std.specs.Prelude.{◌≡◌, ℕ, ◌<◌, ◌≤◌, ◌||◌, ◌⊎◌, None, slice_index_or, Contains};
ghost use Rattle.std.specs.Vec.{vec_len, vec_capacity};
ghost use Rattle.m2v_board.specs.Posts.{IsReady};
ghost use Rattle.m2v_board.specs.Rule.{past};
ghost use Rattle.m2v_board.specs.Steps.{both};
ghost use Rattle.m2v_board.specs.Passes.{book_of, jobs_of, workers_of, view, slot_of, IsPassOf};

use crate::board::Board;
use crate::laid::emptied;
use crate::pass::Pass;
use crate::plays::Both;
use crate::post::Post;
use m2v_core::JobBook;

impl<B: JobBook> Board<B> {
    /// Takes in a pass that has published each job that it claimed.
    pub fn join(&self, into: &mut Pass<B>, other: Pass<B>)
        requires into { IsPassOf self.now into.old }
        requires other { IsPassOf self.now other }
        requires done { (i : ℕ) → slot_of other i ≡ None }
        ensures pass { IsPassOf self.now into.new
            × (view into.new ≡ both (view into.old) (view other)) }
        ensures slots { (i : ℕ) → slot_of into.new i ≡ slot_of into.old i }
    {
        let (seat, ended) = other.into_parts();
        self.table.shared.join_seat::<Both>(&mut into.seat, seat);
        into.ended = either(into.ended, ended);
    }

    /// Ends the board once one pass stands for all and all jobs are published: `into`, which is
    /// empty and has room, gets the post of each job, in order.
    ///
    /// A pass that stands for all, has drawn past the jobs and has published each job that it
    /// claimed, has published all.
    pub fn close(self, pass: Pass<B>, into: &mut Vec<Box<Post<B>>>)
        requires pass { IsPassOf self pass }
        requires all { (view pass).passes ≡ workers_of self }
        requires published { ((j : ℕ) → j < jobs_of self → Contains (view pass).published j)
            ⊎ ((0 < past (jobs_of self) (view pass).drawn) × ((j : ℕ) → slot_of pass j ≡ None)) }
        requires room { (vec_len into.old ≡ 0) × (jobs_of self ≤ vec_capacity into.old) }
        ensures count { vec_len into.new ≡ jobs_of self }
        ensures ready { (j : ℕ) (d : _) → j < jobs_of self
            → IsReady (B.value (book_of self)) (B.shared (book_of self)) j
            (slice_index_or into.new.items j d).value }
    {
        let Board { table, jobs } = self;
        let (seat, _) = pass.into_parts();
        emptied(table.close_with(seat), jobs, into);
    }
}

fn either(a: bool, b: bool) -> bool
    ensures { result ≡ (a || b) }
{
    a || b
}
