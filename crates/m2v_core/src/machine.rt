// The core over one book.
ghost use Rattle.std.specs.Prelude.{◌≡◌, ◌≢◌, ℕ, ◌<◌, ◌∷◌, ◌++◌, [], List, Result, Ok, Err, None, Some, IfOk, OnOk, OnErr, replicate, slice_set, slice_index_or, length};
ghost use Rattle.std.specs.Vec.{vec_len};
ghost use Rattle.m2v_core.specs.declared.event.Event.TheVariants.{Claim, Publish, Fetch};
ghost use Rattle.m2v_core.specs.Core.{State, Good, opening, missing, publish, answer, after};
ghost use Rattle.m2v_core.specs.Lists.{lists};
ghost use Rattle.m2v_core.specs.Machine.{Machine, IsSoundCore, Stepped};

use crate::book::{JobBook, Memory};
use crate::event::{Answer, Event, StepFault};
use crate::needs::NeedList;
use crate::published::{
    computed, count_open, count_published, first_missing, is_open, is_published,
};
use std::alloc::{AllocError, Global};
use std::marker::Model;
use std::snapshot::Snapshot;

/// The scheduling of one book's jobs: which are drawn, by which worker, and which are published.
///
/// Contracts see the book and a state of the core, which is good at each moment.
pub struct Core<B: JobBook> {
    of: Snapshot<B>,
    jobs: u32,
    next: u32,
    claimed: Vec<Vec<u32>>,
    published: Vec<Option<B::Piece>>,
}

impl<B: JobBook> Model for Core<B> {
    ghost Value = { Machine B B.Piece };

    ghost view = { λ c. record {
      book = c.of.value;
      state = record {
        jobs = c.jobs;
        next = c.next;
        claimed = lists c.claimed.items;
        published = c.published.items;
      };
    } };

    ghost invariant = { λ c. IsSoundCore (B.jobs c.of.value) (B.value c.of.value)
        (B.fits_piece c.of.value) record {
          jobs = c.jobs;
          next = c.next;
          claimed = lists c.claimed.items;
          published = c.published.items;
        } };
}

impl<B: JobBook> Drop for Core<B> {
    fn drop(self) {
        let Self {
            of: _,
            jobs: _,
            next: _,
            claimed: _,
            published: _,
        } = self;
    }
}

impl<B: JobBook> Core<B> {
    /// A core over the book, with nothing drawn. Fails only for want of memory.
    pub fn for_book(alloc: Global, book: &B, workers: u32) -> Result<Core<B>, Memory>
        ensures { IfOk result (λ c. c ≡ record {
          book = book.now;
          state = opening (B.jobs book.now) workers;
        }) }
    {
        let jobs = book.jobs();
        let claimed = no_claims(alloc, workers)?;
        let published = none_published(alloc, jobs)?;
        Ok(Core {
            of: Snapshot::of(book),
            jobs,
            next: 0,
            claimed,
            published,
        })
    }

    /// Takes one event, of the book for which the core was made.
    ///
    /// NotLawful comes exactly where: the worker is past the workers (have worker, need workers);
    /// Publish names a job that the worker didn't claim or has published (have job, need the number
    /// of its open claims); Publish finds a need unpublished (have job, need that need); Fetch names
    /// an unpublished job (have job, need the number of published jobs). A step that is refused
    /// changes nothing. Publish computes the job from what is published; it and Claim may want
    /// memory, Fetch never does.
    pub fn step(&mut self, alloc: Global, book: &B, event: Event) -> Result<Answer, StepFault>
        requires book { self.old.book ≡ book.now }
        ensures book { self.new.book ≡ self.old.book }
        ensures stepped { Stepped (B.value book.now) (B.needs book.now) self.old.state event result
            self.new.state }
        ensures same { OnErr result (self.new.state ≡ self.old.state) }
        ensures good { Good (B.value book.now) self.new.state }
        ensures memory { (worker job : ℕ) → event ≡ Event.Fetch worker job
            → result ≢ Err StepFault.Memory }
    {
        // The check reads the invariant where a field is used.
        let _of = &self.of;
        match event {
            Event::Claim { worker } => self.claim(worker),
            Event::Publish { worker, job } => self.publish(alloc, book, worker, job),
            Event::Fetch { worker, job } => self.fetch(worker, job),
        }
    }

    #[tactic(auto, using(crate::proofs::Answers::claims), unfolding(crate::specs::Core::answer, crate::specs::Core::after))]
    fn claim(&mut self, worker: u32) -> Result<Answer, StepFault>
        ensures book { self.new.book ≡ self.old.book }
        ensures stepped { Stepped (B.value self.old.book) (B.needs self.old.book) self.old.state
            (Claim worker) result self.new.state }
    {
        let workers = self.claimed.len() as u64;
        if worker as u64 >= workers {
            return Err(StepFault::NotLawful {
                have: worker as u64,
                need: workers,
            });
        }
        if self.next == self.jobs {
            return Ok(Answer::End);
        }
        let drawn = self.next;
        match note(&mut self.claimed, worker, drawn) {
            Ok(()) => {
                self.next += 1;
                Ok(Answer::Drawn(drawn))
            }
            Err(_) => Err(StepFault::Memory),
        }
    }

    #[tactic(auto, using(std::proofs::lemmas::Bool::Decides::nat_tests), unfolding(crate::specs::Core::answer))]
    fn fetch(&mut self, worker: u32, job: u32) -> Result<Answer, StepFault>
        ensures same { self.new ≡ self.old }
        ensures answer { result ≡ answer (B.needs self.old.book) self.old.state (Fetch worker job) }
        ensures memory { result ≢ Err StepFault.Memory }
    {
        let workers = self.claimed.len() as u64;
        if worker as u64 >= workers {
            return Err(StepFault::NotLawful {
                have: worker as u64,
                need: workers,
            });
        }
        if is_published(self.published.as_slice(), job) {
            return Ok(Answer::Done);
        }
        Err(StepFault::NotLawful {
            have: job as u64,
            need: count_published(self.published.as_slice()),
        })
    }

    #[tactic(auto, using(crate::proofs::Answers::publications), unfolding(crate::specs::Core::answer, crate::specs::Core::after))]
    fn publish(
        &mut self,
        alloc: Global,
        book: &B,
        worker: u32,
        job: u32,
    ) -> Result<Answer, StepFault>
        requires { self.old.book ≡ book.now }
        ensures book { self.new.book ≡ self.old.book }
        ensures stepped { Stepped (B.value self.old.book) (B.needs self.old.book) self.old.state
            (Publish worker job) result self.new.state }
    {
        let workers = self.claimed.len() as u64;
        if worker as u64 >= workers {
            return Err(StepFault::NotLawful {
                have: worker as u64,
                need: workers,
            });
        }
        let claims = claims_of(self.claimed.as_slice(), worker);
        let published = self.published.as_slice();
        if !is_open(claims, published, job) {
            return Err(StepFault::NotLawful {
                have: job as u64,
                need: count_open(claims, published),
            });
        }
        let mut needs = NeedList::new();
        book.needs(job, &mut needs);
        if let Some(need) = first_missing(needs.as_slice(), published) {
            return Err(StepFault::NotLawful {
                have: job as u64,
                need: need as u64,
            });
        }
        match self.add_piece(alloc, book, job, &needs) {
            Ok(()) => Ok(Answer::Done),
            Err(_) => Err(StepFault::Memory),
        }
    }

    // Computes the piece of a job that was drawn, and whose needs are all published.
    fn add_piece(
        &mut self,
        alloc: Global,
        book: &B,
        job: u32,
        needs: &NeedList,
    ) -> Result<(), Memory>
        requires book { self.old.book ≡ book.now }
        requires drawn { job < self.old.state.next }
        requires needs { needs.now ≡ B.needs book.now job }
        requires none_missing { missing self.old.state needs.now ≡ None }
        ensures book { self.new.book ≡ self.old.book }
        ensures done { OnOk result (self.new.state ≡ publish (B.value self.old.book) self.old.state
            job) }
        ensures memory { OnErr result (self.new.state ≡ self.old.state) }
    {
        let piece = computed(
            alloc,
            book,
            job,
            needs.as_slice(),
            self.published.as_slice(),
        )?;
        self.published[job as usize] = Some(piece);
        Ok(())
    }
}

// An empty list of claims for each worker.
fn no_claims(alloc: Global, workers: u32) -> Result<Vec<Vec<u32>>, Memory>
    ensures { IfOk result (λ v. lists v.items ≡ replicate workers []) }
{
    let mut claimed = Vec::new(alloc);
    for _i in 0..workers {
        claimed.push(Vec::new(alloc))?;
    }
    Ok(claimed)
}

// Nothing published, of each job.
fn none_published<T: Drop>(alloc: Global, jobs: u32) -> Result<Vec<Option<T>>, Memory>
    ensures { IfOk result (λ v. v.items ≡ replicate jobs None) }
{
    let mut published = Vec::new(alloc);
    for _i in 0..jobs {
        published.push(None)?;
    }
    Ok(published)
}

// The jobs that one worker claimed.
fn claims_of(claimed: &[Vec<u32>], worker: u32) -> &[u32]
    requires { worker < length claimed.now }
    ensures { result.now ≡ slice_index_or (lists claimed.now) worker [] }
{
    claimed[worker as usize].as_slice()
}

// Puts a job behind those that one worker claimed.
fn note(claimed: &mut Vec<Vec<u32>>, worker: u32, job: u32) -> Result<(), Memory>
    requires { worker < vec_len claimed.old }
    ensures done { OnOk result (lists claimed.new.items ≡ slice_set (lists claimed.old.items) worker
        (slice_index_or (lists claimed.old.items) worker [] ++ job ∷ [])) }
    ensures same { OnErr result (lists claimed.new.items ≡ lists claimed.old.items) }
{
    match claimed[worker as usize].push(job) {
        Ok(()) => Ok(()),
        Err(_) => Err(AllocError),
    }
}
