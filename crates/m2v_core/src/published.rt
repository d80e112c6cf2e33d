// What a core has published, and the piece that is computed of it.
ghost use Rattle.std.specs.Prelude.{◌≡◌, ℕ, ◌+◌, ◌<◌, ◌==◌, ◌&&◌, true, not, None, Some, IfOk, OnOk, is_some, slice_index, slice_index_or, count_by, find, length};
ghost use Rattle.std.specs.List.{list_any};
ghost use Rattle.m2v_core.specs.Book.{cache_after};

use crate::book::{JobBook, Memory};
use std::alloc::Global;

// Whether the job is published.
pub(crate) fn is_published<T>(published: &[Option<T>], j: u32) -> bool
    ensures { result ≡ is_some (slice_index_or published.now j None) }
{
    match published.get(j as usize) {
        Some(piece) => piece.is_some(),
        None => false,
    }
}

// How many jobs are published.
pub(crate) fn count_published<T>(published: &[Option<T>]) -> u64
    ensures { result ≡ count_by is_some published.now }
{
    published.iter().filter(|piece| piece.is_some()).count() as u64
}

// Whether the job is one of those claimed.
fn is_claimed(claims: &[u32], j: u32) -> bool
    ensures { result ≡ list_any (λ i. i == j) claims.now }
{
    claims.iter().any(|i| *i == j)
}

// Whether the job is one of those claimed, and not published.
pub(crate) fn is_open<T>(claims: &[u32], published: &[Option<T>], j: u32) -> bool
    ensures { result ≡ (list_any (λ i. i == j) claims.now && not
        (is_some (slice_index_or published.now j None))) }
{
    is_claimed(claims, j) && !is_published(published, j)
}

// How many of the jobs claimed are not published.
pub(crate) fn count_open<T>(claims: &[u32], published: &[Option<T>]) -> u64
    ensures { result ≡ count_by (λ j. not (is_some (slice_index_or published.now j None)))
        claims.now }
{
    claims
        .iter()
        .filter(|j| !is_published(published, **j))
        .count() as u64
}

// The first need that isn't published.
pub(crate) fn first_missing<T>(needs: &[u32], published: &[Option<T>]) -> Option<u32>
    ensures { result ≡ find (λ i. not (is_some (slice_index_or published.now i None))) needs.now }
{
    needs.iter().copied().find(|i| !is_published(published, *i))
}

// Learns one need of a job from its published piece.
fn learn_need<B: JobBook>(
    alloc: Global,
    book: &B,
    j: u32,
    at: u32,
    published: &[Option<B::Piece>],
    need: u32,
    cache: &mut B::Cache,
) -> Result<(), Memory>
    requires job { j < B.jobs book.now }
    requires at { at < length (B.needs book.now j) }
    requires need { need ≡ slice_index (B.needs book.now j) at }
    requires job_of_need { need < B.jobs book.now }
    requires there { is_some (slice_index_or published.now need None) ≡ true }
    requires value { (p : B.Piece) → slice_index_or published.now need None ≡ Some p
        → p ≡ B.value book.now need }
    requires fits { (p : B.Piece) → slice_index_or published.now need None ≡ Some p
        → B.fits_piece book.now need p }
    requires cache { B.fits_cache book.now cache.old }
    ensures fits { OnOk result (B.fits_cache book.now cache.new) }
    ensures learned { OnOk result (cache.new ≡ B.learned book.now j at (B.shared book.now need)
        cache.old) }
{
    let Some(Some(piece)) = published.get(need as usize) else {
        unreachable!()
    };
    let mut part = book.blank_shared(alloc, need)?;
    book.share(need, piece, &mut part);
    book.learn(j, at, &part, cache);
    Ok(())
}

// The piece of a job whose needs are all published.
pub(crate) fn computed<B: JobBook>(
    alloc: Global,
    book: &B,
    j: u32,
    needs: &[u32],
    published: &[Option<B::Piece>],
) -> Result<B::Piece, Memory>
    requires job { j < B.jobs book.now }
    requires needs { needs.now ≡ B.needs book.now j }
    requires count { length published.now ≡ B.jobs book.now }
    requires none_missing { find (λ i. not (is_some (slice_index_or published.now i None)))
        needs.now ≡ None }
    requires value { (i : ℕ) (p : B.Piece) → slice_index_or published.now i None ≡ Some p
        → p ≡ B.value book.now i }
    requires fits { (i : ℕ) (p : B.Piece) → slice_index_or published.now i None ≡ Some p
        → B.fits_piece book.now i p }
    ensures value { IfOk result (λ p. p ≡ B.value book.now j) }
    ensures fits { IfOk result (λ p. B.fits_piece book.now j p) }
{
    let mut cache = book.blank_cache(alloc)?;
    let mut piece = book.blank_piece(alloc, j)?;
    for at in 0..needs.len() {
        learn_need(alloc, book, j, at as u32, published, needs[at], &mut cache)?;
    }
    book.work(j, &cache, &mut piece);
    Ok(piece)
}
