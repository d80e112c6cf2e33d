//! A group that is ready to be coded.
ghost use Rattle.std.specs.Prelude.{◌≡◌};
ghost use Rattle.m2v_encode.specs.Ready.{IsReady};

use crate::crew::Crew;
use crate::done::{DoneGroup, GroupFacts};
use m2v_board::Gate;
use m2v_slice::EncodeBook;
use m2v_wave::{Bench, run_jobs_beside};
use std::sync::Wait;
use std::thread::Threads;

/// The book of a group and a bench for its jobs, with what is asked of the group once they are done.
pub(crate) struct ReadyGroup {
    pub(crate) facts: GroupFacts,
    pub(crate) book: EncodeBook,
    pub(crate) bench: Bench<EncodeBook>,
}

impl ReadyGroup {
    /// Does the group's jobs, by as many workers as the bench has. The calling thread, which is one of them, first does
    /// something of its own.
    pub(crate) fn work_beside<R: Threads + Wait + Sync, G: Gate + Sync, F: FnMut() -> A, A>(
        self,
        crew: &Crew<R, G>,
        own: &mut F,
    ) -> (DoneGroup, A)
        requires ready { IsReady self }
        requires own { F.pre own.old }
        ensures done { result.0 ≡ self.book }
        ensures own { F.step own.old result.1 own.new }
    {
        let ReadyGroup { facts, book, bench } = self;
        let (done, answer) = run_jobs_beside(crew.rt, &book, bench, crew.gate, own);
        (DoneGroup { facts, done }, answer)
    }

    /// Does the group's jobs, by as many workers as the bench has.
    pub(crate) fn work<R: Threads + Wait + Sync, G: Gate + Sync>(
        self,
        crew: &Crew<R, G>,
    ) -> DoneGroup
        requires ready { IsReady self }
        ensures done { result ≡ self.book }
    {
        let (done, ()) = self.work_beside(crew, &mut || {});
        done
    }
}
