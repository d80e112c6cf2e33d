// One worker, from its first claim to its last.
ghost use Rattle.std.specs.Prelude.{◌≡◌, ◌≢◌, ℕ, ◌+◌, ◌<◌, false, Some, None, All, Contains, length};
ghost use Rattle.m2v_board.specs.Rule.{past};
ghost use Rattle.m2v_board.specs.Posts.{IsBlank, IsReady, Has};
ghost use Rattle.m2v_board.specs.Passes.{book_of, jobs_of, view, slot_of, IsPassOf};
ghost use Rattle.m2v_core.specs.Book.{cache_after};
ghost use Rattle.m2v_wave.specs.Idle.{IsIdle, IsEnded};

use m2v_board::{Board, Gate, Pass, Post};
use m2v_core::{JobBook, NeedList};
use std::sync::Wait;

/// A worker of a bench, with its number, counted from 0.
pub struct Worker<B: JobBook> {
    pub(crate) number: u32,
    pub(crate) pass: Pass<B>,
    pub(crate) cache: B::Cache,
}

impl<B: JobBook> Worker<B> {
    pub(crate) fn into_pass(self) -> Pass<B>
        ensures { result ≡ self.pass }
    {
        let Self {
            number: _,
            pass,
            cache: _,
        } = self;
        pass
    }
}

impl<B: JobBook> Drop for Worker<B> {
    fn drop(self) {
        let Self {
            number: _,
            pass: _,
            cache: _,
        } = self;
    }
}

// Learns each need of a job, in order.
fn learn_all<R: Wait, B: JobBook>(
    rt: &R,
    book: &B,
    board: &Board<B>,
    pass: &mut Pass<B>,
    cache: &mut B::Cache,
    j: u32,
)
    requires board { (book_of board.now ≡ book.now) × (jobs_of board.now ≡ B.jobs book.now) }
    requires pass { IsPassOf board.now pass.old }
    requires job { j < B.jobs book.now }
    requires cache { B.fits_cache book.now cache.old }
    ensures pass { IsPassOf board.now pass.new × ((view pass.new).passes ≡ (view pass.old).passes) }
    ensures slots { (i : ℕ) → slot_of pass.new i ≡ slot_of pass.old i }
    ensures borrowed { All (λ i. Contains (view pass.new).borrowed i) (B.needs book.now j) }
    ensures fits { B.fits_cache book.now cache.new }
    ensures learned { cache.new ≡ cache_after (B.learned book.now j) (B.shared book.now)
        (B.needs book.now j) (length (B.needs book.now j)) cache.old }
{
    let mut needs = NeedList::new();
    book.needs(j, &mut needs);
    for at in 0..needs.len() {
        board.fetch(rt, pass, book, j, at, needs.get(at), cache);
    }
}

// Makes a blank post ready, and answers what the gate is told of it.
fn fill<B: JobBook>(book: &B, cache: &B::Cache, j: u32, post: &mut Post<B>) -> u64
    requires job { j < B.jobs book.now }
    requires learned { (c : _) × B.fits_cache book.now c
        × (cache.now ≡ cache_after (B.learned book.now j) (B.shared book.now) (B.needs book.now j)
        (length (B.needs book.now j)) c) }
    requires blank { IsBlank (B.fits_piece book.now) (B.fits_shared book.now) j post.old }
    ensures ready { IsReady (B.value book.now) (B.shared book.now) j post.new }
    ensures told { result ≡ B.told book.now j }
{
    book.work(j, cache, &mut post.piece);
    book.share(j, &post.piece, &mut post.shared);
    post.ready = true;
    book.tell(j, &post.shared)
}

// Tells the gate that a job is done. The book is for the contract.
fn tell_gate<B: JobBook, G: Gate>(_book: &B, gate: &G, number: u32, j: u32, told: u64)
    requires { told ≡ B.told _book.now j }
{
    gate.done(number, j, told);
}

// Does one job that the worker's pass has claimed, and publishes it.
fn work_one<R: Wait, B: JobBook, G: Gate>(
    rt: &R,
    book: &B,
    board: &Board<B>,
    gate: &G,
    worker: &mut Worker<B>,
    j: u32,
)
    requires board { (book_of board.now ≡ book.now) × (jobs_of board.now ≡ B.jobs book.now) }
    requires pass { IsPassOf board.now worker.old.pass }
    requires job { j < B.jobs book.now }
    requires cache { B.fits_cache book.now worker.old.cache }
    requires slot { (x : _) × (slot_of worker.old.pass j ≡ Some x)
        × Has (IsBlank (B.fits_piece (book_of board.now)) (B.fits_shared (book_of board.now))) j x }
    ensures pass { IsPassOf board.now worker.new.pass
        × ((view worker.new.pass).passes ≡ (view worker.old.pass).passes) }
    ensures shown { slot_of worker.new.pass j ≡ None }
    ensures others { (i : ℕ) → i ≢ j → slot_of worker.new.pass i ≡ slot_of worker.old.pass i }
    ensures fits { B.fits_cache book.now worker.new.cache }
{
    let mut post = board.take(&mut worker.pass, j);
    gate.pass(worker.number, j);
    learn_all(rt, book, board, &mut worker.pass, &mut worker.cache, j);
    let told = fill(book, &worker.cache, j, &mut post);
    tell_gate(book, gate, worker.number, j, told);
    board.publish(&mut worker.pass, j, post);
}

// Claims a job and does it. False where no job was left.
pub(crate) fn one_turn<R: Wait, B: JobBook, G: Gate>(
    rt: &R,
    book: &B,
    board: &Board<B>,
    gate: &G,
    worker: &mut Worker<B>,
) -> bool
    requires board { (book_of board.now ≡ book.now) × (jobs_of board.now ≡ B.jobs book.now) }
    requires pass { IsIdle board.now worker.old.pass }
    requires cache { B.fits_cache book.now worker.old.cache }
    ensures pass { IsIdle board.now worker.new.pass }
    ensures passes { (view worker.new.pass).passes ≡ (view worker.old.pass).passes }
    ensures cache { B.fits_cache book.now worker.new.cache }
    ensures ended { result ≡ false → 0 < past (jobs_of board.now) (view worker.new.pass).drawn }
{
    match board.claim(&mut worker.pass) {
        None => false,
        Some(j) => {
            work_one(rt, book, board, gate, worker, j);
            true
        }
    }
}

// Does jobs until none is left.
pub(crate) fn work_all<R: Wait, B: JobBook, G: Gate>(
    rt: &R,
    book: &B,
    board: &Board<B>,
    gate: &G,
    worker: &mut Worker<B>,
)
    requires board { (book_of board.now ≡ book.now) × (jobs_of board.now ≡ B.jobs book.now) }
    requires pass { IsIdle board.now worker.old.pass }
    requires cache { B.fits_cache book.now worker.old.cache }
    ensures pass { IsEnded board.now worker.new.pass }
    ensures passes { (view worker.new.pass).passes ≡ (view worker.old.pass).passes }
{
    for _ in rt.forever() {
        if !one_turn(rt, book, board, gate, worker) {
            return;
        }
    }
    unreachable!()
}
