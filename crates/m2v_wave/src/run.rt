// The run.
ghost use Rattle.std.specs.Prelude.{◌≡◌, ℕ, ◌+◌, ◌<◌, ◌≤◌, [], All, Contains, length, slice_index_or};
ghost use Rattle.std.specs.Vec.{vec_len, vec_capacity};
ghost use Rattle.m2v_board.specs.Passes.{book_of, jobs_of, workers_of, view, IsPassOf};
ghost use Rattle.m2v_wave.specs.Idle.{IsIdle, IsEnded};
ghost use Rattle.m2v_wave.specs.Benches.{IsBenchOf};
ghost use Rattle.m2v_wave.specs.Works.{CanWork, HasWorked};

use crate::bench::Bench;
use crate::done::Done;
use crate::each::for_each;
use crate::worker::{Worker, work_all};
use m2v_board::{Board, Gate, Pass, Post};
use m2v_core::JobBook;
use std::snapshot::Snapshot;
use std::sync::Wait;
use std::thread::Threads;

fn work_in<R: Wait, B: JobBook, G: Gate>(
    rt: &R,
    book: &B,
    board: &Board<B>,
    gate: &G,
    worker: &mut Worker<B>,
)
    requires { CanWork B.jobs B.fits_cache book.now board.now worker.old }
    ensures { HasWorked board.now worker.new }
{
    work_all(rt, book, board, gate, worker);
}

// Every worker does jobs until none is left; this thread calls a closure first.
fn work_all_in<R: Threads + Wait + Sync, B: JobBook + Sync, G: Gate + Sync, F: FnMut() -> A, A>(
    rt: &R,
    book: &B,
    board: &Board<B>,
    gate: &G,
    workers: &mut [Worker<B>],
    own: &mut F,
) -> A
    requires idle { All (λ w. CanWork B.jobs B.fits_cache book.now board.now w) workers.old }
    requires own { F.pre own.old }
    ensures ended { All (λ w. HasWorked board.now w) workers.new }
    ensures own { F.step own.old result own.new }
{
    for_each(
        rt,
        &|w: &mut Worker<B>|
            requires { CanWork B.jobs B.fits_cache book.now board.now w.now }
            ensures { HasWorked board.entry.now w.exit.now }
        { work_in(rt, book, board, gate, w) },
        workers,
        own,
    )
}

fn join_one<B: JobBook>(board: &Board<B>, all: &mut Pass<B>, worker: Worker<B>)
    requires all { IsEnded board.now all.old }
    requires worker { HasWorked board.now worker }
    ensures all { IsEnded board.now all.new }
    ensures passes { (view all.new).passes ≡ (view all.old).passes + 1 }
{
    board.join(all, worker.into_pass());
}

// One pass for all that have worked.
fn joined<B: JobBook>(board: &Board<B>, mut all: Pass<B>, mut workers: Vec<Worker<B>>) -> Pass<B>
    requires pass { IsEnded board.now all }
    requires workers { All (λ w. HasWorked board.now w) workers.items }
    ensures pass { IsEnded board.now result }
    ensures passes { (view result).passes ≡ (view all).passes + vec_len workers }
{
    while let Some(worker) = workers.pop() {
        join_one(board, &mut all, worker);
    }
    all
}

// Every worker does jobs until none is left; this thread calls a closure first.
fn worked<R: Threads + Wait + Sync, B: JobBook + Sync, G: Gate + Sync, F: FnMut() -> A, A>(
    rt: &R,
    book: &B,
    board: &Board<B>,
    gate: &G,
    mut workers: Vec<Worker<B>>,
    own: &mut F,
) -> (Vec<Worker<B>>, A)
    requires idle { All (λ w. CanWork B.jobs B.fits_cache book.now board.now w) workers.items }
    requires own { F.pre own.old }
    ensures count { vec_len result.0 ≡ vec_len workers }
    ensures ended { All (λ w. HasWorked board.now w) result.0.items }
    ensures own { F.step own.old result.1 own.new }
{
    let answer = work_all_in(rt, book, board, gate, workers.as_mut_slice(), own);
    (workers, answer)
}

// The last of them gives the first pass.
fn one_pass<B: JobBook>(board: &Board<B>, mut workers: Vec<Worker<B>>) -> Pass<B>
    requires some { 0 < vec_len workers }
    requires workers { All (λ w. HasWorked board.now w) workers.items }
    ensures pass { IsEnded board.now result }
    ensures passes { (view result).passes ≡ vec_len workers }
{
    let Some(first) = workers.pop() else {
        unreachable!()
    };
    joined(board, first.into_pass(), workers)
}

// Ends the board once one pass stands for all, and gives the pieces.
pub(crate) fn ended<B: JobBook>(
    book: &B,
    board: Board<B>,
    all: Pass<B>,
    mut posts: Vec<Box<Post<B>>>,
) -> Done<B>
    requires board { (book_of board ≡ book.now) × (jobs_of board ≡ B.jobs book.now) }
    requires pass { IsEnded board all }
    requires passes { (view all).passes ≡ workers_of board }
    requires room { (vec_len posts ≡ 0) × (jobs_of board ≤ vec_capacity posts) }
    ensures { result ≡ book.now }
{
    board.close(all, &mut posts);
    Done {
        of: Snapshot::of(book),
        posts,
    }
}

/// Runs all jobs of the bench's book by its workers, each a thread where one can be started. Takes
/// no memory and refuses nothing: each piece is the value of its job, for every number of workers.
pub fn run_jobs<R: Threads + Wait + Sync, B: JobBook + Sync, G: Gate + Sync>(
    rt: &R,
    book: &B,
    bench: Bench<B>,
    gate: &G,
) -> Done<B>
    requires { IsBenchOf B.jobs B.fits_cache book.now bench }
    ensures { result ≡ book.now }
{
    let (done, ()) = run_jobs_beside(rt, book, bench, gate, &mut || {});
    done
}

/// As [`run_jobs`], and calls a closure beside that: this thread starts the others, calls it, and is
/// a worker then.
pub fn run_jobs_beside<
    R: Threads + Wait + Sync,
    B: JobBook + Sync,
    G: Gate + Sync,
    F: FnMut() -> A,
    A,
>(rt: &R, book: &B, bench: Bench<B>, gate: &G, own: &mut F) -> (Done<B>, A)
    requires bench { IsBenchOf B.jobs B.fits_cache book.now bench }
    requires own { F.pre own.old }
    ensures done { result.0 ≡ book.now }
    ensures own { F.step own.old result.1 own.new }
{
    let Bench {
        board,
        workers,
        done,
    } = bench;
    let (workers, answer) = worked(rt, book, &board, gate, workers, own);
    let pass = one_pass(&board, workers);
    (ended(book, board, pass, done), answer)
}
