// What a run takes.
ghost use Rattle.std.specs.Prelude.{◌≡◌, ℕ, ◌<◌, ◌≤◌, ◌^◌, IfOk, All, length, slice_index_or};
ghost use Rattle.std.specs.Vec.{vec_len, vec_capacity};
ghost use Rattle.m2v_board.specs.Posts.{IsBlank};
ghost use Rattle.m2v_board.specs.Passes.{book_of, jobs_of, IsNew};
ghost use Rattle.m2v_wave.specs.Pieces.{MayServe};
ghost use Rattle.m2v_wave.specs.Works.{CanWork};

use crate::spare::Spare;
use crate::worker::Worker;
use m2v_board::{Board, Pass, Post};
use m2v_core::{JobBook, Memory};
use std::alloc::Global;

/// All that a run over one book needs: a board, its workers, and room for the posts.
pub struct Bench<B: JobBook> {
    pub(crate) board: Board<B>,
    pub(crate) workers: Vec<Worker<B>>,
    pub(crate) done: Vec<Box<Post<B>>>,
}

impl<B: JobBook> Bench<B> {
    ghost use Rattle.m2v_wave.specs.Benches.{IsBenchOf, worker_count};

    /// A bench of 1 to 16 workers for the book. Takes all memory that a run over it needs, and fails
    /// only for want of it.
    pub fn for_book(alloc: Global, book: &B, workers: u32) -> Result<Bench<B>, Memory>
        requires { (0 < workers) × (workers ≤ 16) }
        ensures bench { IfOk result (λ b. IsBenchOf B.jobs B.fits_cache book.now b) }
        ensures workers { IfOk result (λ b. worker_count b ≡ workers) }
    {
        let posts = all_posts(alloc, book, Vec::new(alloc))?;
        Bench::with_posts(alloc, book, workers, posts)
    }

    /// As [`Bench::for_book`], with the posts of a run before, as far as there are jobs for them: what a job writes in one
    /// need not be blank. Memory is taken for the other jobs alone.
    pub fn again(alloc: Global, book: &B, workers: u32, spare: Spare<B>) -> Result<Bench<B>, Memory>
        requires workers { (0 < workers) × (workers ≤ 16) }
        requires spare { MayServe (B.jobs book.now) (B.fits_piece book.now)
            (B.fits_shared book.now) spare.posts.items }
        ensures bench { IfOk result (λ b. IsBenchOf B.jobs B.fits_cache book.now b) }
        ensures workers { IfOk result (λ b. worker_count b ≡ workers) }
    {
        let posts = all_posts(alloc, book, renewed(book, spare))?;
        Bench::with_posts(alloc, book, workers, posts)
    }

    // A bench of so many workers, with a blank post of each job.
    fn with_posts(
        alloc: Global,
        book: &B,
        workers: u32,
        posts: Vec<Box<Post<B>>>,
    ) -> Result<Bench<B>, Memory>
        requires workers { (0 < workers) × (workers ≤ 16) }
        requires count { length posts.items ≡ B.jobs book.now }
        requires blank { (j : ℕ) (d : _) → j < B.jobs book.now
            → IsBlank (B.fits_piece book.now) (B.fits_shared book.now) j
            (slice_index_or posts.items j d).value }
        ensures bench { IfOk result (λ b. IsBenchOf B.jobs B.fits_cache book.now b) }
        ensures workers { IfOk result (λ b. worker_count b ≡ workers) }
    {
        let jobs = book.jobs();
        let caches = blank_caches(alloc, book, workers)?;
        let mut crew = Vec::with_capacity(alloc, workers as usize)?;
        let done = Vec::with_capacity(alloc, jobs as usize)?;
        // The board comes last, since only `close` ends it.
        let (board, passes) = Board::new(alloc, book, posts, workers)?;
        hire(book, &board, passes, caches, &mut crew);
        Ok(Bench {
            board,
            workers: crew,
            done,
        })
    }
}

// A post of the job that nothing has written yet.
fn blank_post<B: JobBook>(alloc: Global, book: &B, j: u32) -> Result<Box<Post<B>>, Memory>
    requires { j < B.jobs book.now }
    ensures { IfOk result (λ b. IsBlank (B.fits_piece book.now) (B.fits_shared book.now) j
        b.value) }
{
    let piece = book.blank_piece(alloc, j)?;
    let shared = book.blank_shared(alloc, j)?;
    let post = Post {
        job: j,
        ready: false,
        piece,
        shared,
    };
    Ok(Box::new(alloc, post)?)
}

// A blank post of each job, in order: those that are there, and new ones.
fn all_posts<B: JobBook>(
    alloc: Global,
    book: &B,
    mut posts: Vec<Box<Post<B>>>,
) -> Result<Vec<Box<Post<B>>>, Memory>
    requires few { length posts.items ≤ B.jobs book.now }
    requires blank { (j : ℕ) (d : _) → j < length posts.items
        → IsBlank (B.fits_piece book.now) (B.fits_shared book.now) j
        (slice_index_or posts.items j d).value }
    ensures count { IfOk result (λ v. length v.items ≡ B.jobs book.now) }
    ensures blank { IfOk result (λ v. (j : ℕ) (d : _) → j < B.jobs book.now
        → IsBlank (B.fits_piece book.now) (B.fits_shared book.now) j
        (slice_index_or v.items j d).value) }
{
    let jobs = book.jobs();
    for j in posts.len() as u32..jobs {
        posts.push(blank_post(alloc, book, j)?)?;
    }
    Ok(posts)
}

// Makes a post of a run before a blank one of this job. The book is for the contract.
fn renew<B: JobBook>(_book: &B, j: u32, post: &mut Box<Post<B>>)
    requires fits { B.fits_piece _book.now j post.old.value.piece
        × B.fits_shared _book.now j post.old.value.shared }
    ensures { IsBlank (B.fits_piece _book.now) (B.fits_shared _book.now) j post.new.value }
{
    post.job = j;
    post.ready = false;
}

// Makes posts of a run before blank ones of the first jobs.
fn renew_all<B: JobBook>(book: &B, posts: &mut [Box<Post<B>>])
    requires few { length posts.old ≤ B.jobs book.now }
    requires most { length posts.old < 2 ^ 32 }
    requires fits { MayServe (B.jobs book.now) (B.fits_piece book.now) (B.fits_shared book.now)
        posts.old }
    ensures count { length posts.new ≡ length posts.old }
    ensures blank { (j : ℕ) (d : _) → j < length posts.new
        → IsBlank (B.fits_piece book.now) (B.fits_shared book.now) j
        (slice_index_or posts.new j d).value }
{
    for j in 0..posts.len() {
        renew(book, j as u32, &mut posts[j]);
    }
}

// The posts of a run before, as far as there are jobs for them, as blank ones.
fn renewed<B: JobBook>(book: &B, spare: Spare<B>) -> Vec<Box<Post<B>>>
    requires spare { MayServe (B.jobs book.now) (B.fits_piece book.now) (B.fits_shared book.now)
        spare.posts.items }
    ensures few { length result.items ≤ B.jobs book.now }
    ensures blank { (j : ℕ) (d : _) → j < length result.items
        → IsBlank (B.fits_piece book.now) (B.fits_shared book.now) j
        (slice_index_or result.items j d).value }
{
    let mut posts = spare.into_posts();
    posts.truncate(book.jobs() as usize);
    renew_all(book, &mut posts);
    posts
}

// A cache for each worker.
fn blank_caches<B: JobBook>(alloc: Global, book: &B, workers: u32) -> Result<Vec<B::Cache>, Memory>
    ensures count { IfOk result (λ v. vec_len v ≡ workers) }
    ensures fits { IfOk result (λ v. All (B.fits_cache book.now) v.items) }
{
    let mut caches = Vec::new(alloc);
    for _i in 0..workers {
        caches.push(book.blank_cache(alloc)?)?;
    }
    Ok(caches)
}

// A worker for each pass.
fn hire<B: JobBook>(
    book: &B,
    board: &Board<B>,
    mut passes: Vec<Pass<B>>,
    mut caches: Vec<B::Cache>,
    crew: &mut Vec<Worker<B>>,
)
    requires board { (book_of board.now ≡ book.now) × (jobs_of board.now ≡ B.jobs book.now) }
    requires passes { All (λ p. IsNew board.now p) passes.items }
    requires caches { All (B.fits_cache book.now) caches.items }
    requires count { vec_len caches ≡ vec_len passes }
    requires room { (vec_len crew.old ≡ 0) × (vec_len passes ≤ vec_capacity crew.old)
        × (vec_len passes ≤ 16) }
    ensures count { vec_len crew.new ≡ vec_len passes }
    ensures idle { All (λ w. CanWork B.jobs B.fits_cache book.now board.now w) crew.new.items }
{
    while let Some(pass) = passes.pop() {
        let Some(cache) = caches.pop() else {
            unreachable!()
        };
        let worker = worker_of(book, board, passes.len() as u32, pass, cache);
        crew.push_reserved(worker);
    }
}

// The worker of a new pass. The book and the board are for the contract.
fn worker_of<B: JobBook>(
    _book: &B,
    _board: &Board<B>,
    number: u32,
    pass: Pass<B>,
    cache: B::Cache,
) -> Worker<B>
    requires board { (book_of _board.now ≡ _book.now) × (jobs_of _board.now ≡ B.jobs _book.now) }
    requires new { IsNew _board.now pass }
    requires fits { B.fits_cache _book.now cache }
    ensures { CanWork B.jobs B.fits_cache _book.now _board.now result }
{
    Worker {
        number,
        pass,
        cache,
    }
}
