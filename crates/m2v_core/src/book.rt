// A book of jobs: which jobs there are, what each stands on, and what its piece is.
ghost use Rattle.std.specs.Prelude.{◌≡◌, ℕ, ◌<◌, ◌≤◌, List, [], All, length, slice_index, IfOk};
ghost use Rattle.m2v_core.specs.Book.{cache_after};

use crate::needs::NeedList;
use std::alloc::{AllocError, Global};

/// Want of memory.
pub type Memory = AllocError;

/// The jobs of one piece of work. Job j stands on its needs, which are lower jobs.
///
/// What a job's piece is doesn't depend on who makes it or when: `work` gives `value(j)` once a
/// cache has learned the shared parts of the needs of j in order, whatever it held before.
pub trait JobBook {
    /// What a job makes.
    type Piece: Drop + Send + Sync;

    /// What other jobs learn of a job.
    type Shared: Drop + Send + Sync;

    /// What a worker keeps of the jobs that it learned of.
    type Cache: Drop + Send + Sync;

    // How many jobs there are.
    ghost jobs: { Self → ℕ };

    // The jobs that a job stands on, in order.
    ghost needs: { Self → ℕ → List ℕ };

    // The piece of a job.
    ghost value: { Self → ℕ → Self.Piece };

    // What others learn of a job whose piece is its value.
    ghost shared: { Self → ℕ → Self.Shared };

    // The number that a gate is told of a job.
    ghost told: { Self → ℕ → ℕ };

    // What learning a shared part, as need number `at` of a job, makes of a cache.
    ghost learned: { Self → ℕ → ℕ → Self.Shared → Self.Cache → Self.Cache };

    // Made by a blank call of this book for this job, and written since by its own calls alone.
    ghost fits_piece: { Self → ℕ → Self.Piece → Type 0 };

    ghost fits_shared: { Self → ℕ → Self.Shared → Type 0 };

    ghost fits_cache: { Self → Self.Cache → Type 0 };

    /// How many jobs there are.
    fn jobs(&self) -> u32
        ensures { result ≡ jobs self.now };

    /// Puts the needs of job j into an empty list, in order.
    fn needs(&self, j: u32, out: &mut NeedList)
        requires job { j < jobs self.now }
        requires blank { out.old ≡ [] }
        ensures { out.new ≡ needs self.now j };

    /// A piece for job j that nothing has written yet.
    fn blank_piece(&self, alloc: Global, j: u32) -> Result<Self::Piece, Memory>
        requires { j < jobs self.now }
        ensures { IfOk result (λ p. fits_piece self.now j p) };

    /// A shared part for job j that nothing has written yet.
    fn blank_shared(&self, alloc: Global, j: u32) -> Result<Self::Shared, Memory>
        requires { j < jobs self.now }
        ensures { IfOk result (λ s. fits_shared self.now j s) };

    /// A cache that has learned nothing yet.
    fn blank_cache(&self, alloc: Global) -> Result<Self::Cache, Memory>
        ensures { IfOk result (λ c. fits_cache self.now c) };

    /// Makes the piece of job j, of a cache that has learned its needs in order.
    fn work(&self, j: u32, cache: &Self::Cache, out: &mut Self::Piece)
        requires job { j < jobs self.now }
        requires fits { fits_piece self.now j out.old }
        requires learned { (c : Self.Cache) × fits_cache self.now c
            × (cache.now ≡ cache_after (learned self.now j) (shared self.now) (needs self.now j)
            (length (needs self.now j)) c) }
        ensures fits { fits_piece self.now j out.new }
        ensures value { out.new ≡ value self.now j };

    /// Makes what others learn of job j, of its piece.
    fn share(&self, j: u32, piece: &Self::Piece, into: &mut Self::Shared)
        requires job { j < jobs self.now }
        requires piece { fits_piece self.now j piece.now }
        requires into { fits_shared self.now j into.old }
        ensures fits { fits_shared self.now j into.new }
        ensures shared { piece.now ≡ value self.now j → into.new ≡ shared self.now j };

    /// Learns the shared part of need number `at` of job j.
    fn learn(&self, j: u32, at: u32, part: &Self::Shared, cache: &mut Self::Cache)
        requires job { j < jobs self.now }
        requires at { at < length (needs self.now j) }
        requires part { part.now ≡ shared self.now (slice_index (needs self.now j) at) }
        requires cache { fits_cache self.now cache.old }
        ensures fits { fits_cache self.now cache.new }
        ensures learned { cache.new ≡ learned self.now j at part.now cache.old };

    /// The number that a gate is told of job j, once it is done.
    fn tell(&self, j: u32, part: &Self::Shared) -> u64
        requires job { j < jobs self.now }
        requires part { part.now ≡ shared self.now j }
        ensures { result ≡ told self.now j };

    // The two laws below speak of every plain value of the book's type, also of one that no book has that was made by
    // calls. So where they hold of proper books alone, `jobs` is guarded: it is 0 of all other values.

    // Each need is a lower job.
    ghost needs_are_below: { (book : Self) (j : ℕ) → j < jobs book
        → All (λ i. i < j) (needs book j) };

    // A need list has room for all of them.
    ghost needs_are_few: { (book : Self) (j : ℕ) → j < jobs book → length (needs book j) ≤ 160 };
}
