//! Posts that are kept from group to group.
ghost use Rattle.std.specs.Prelude.{◌≡◌, ◌<◌, ◌≤◌, IfOk, IfSome};
ghost use Rattle.m2v_slice.specs.Conditions.{IsBook};
ghost use Rattle.m2v_slice.specs.Jobs.{jobs_of, FitsCache};
ghost use Rattle.m2v_wave.specs.Benches.{IsBenchOf};
ghost use Rattle.m2v_encode.specs.Kept.{ServeAll};

use m2v_plane::Memory;
use m2v_set::Passed;
use m2v_slice::EncodeBook;
use m2v_wave::{Bench, Done, Spare};
use std::alloc::Global;
use std::marker::Model;

/// The posts of a group that is done, for the next group, so that no memory is taken and cleared for them again. Contracts
/// see the settings of both.
#[derive(Drop)]
pub(crate) struct KeptPosts {
    settings: Passed,
    posts: Spare<EncodeBook>,
}

impl Model for KeptPosts {
    ghost use Rattle.m2v_set.specs.declared.settings.Settings.{Settings};
    ghost use Rattle.m2v_encode.specs.Kept.{ServeAll};

    ghost Value = { Settings };

    ghost view = { λ k. k.settings };

    ghost invariant = { λ k. ServeAll k.settings k.posts.posts.items };
}

impl KeptPosts {
    /// The posts of a group of these settings that is done.
    pub(crate) fn of(settings: &Passed, done: Done<EncodeBook>) -> KeptPosts
        requires book { IsBook done }
        requires same { settings.now ≡ done.settings }
        ensures value { result ≡ settings.now }
    {
        KeptPosts {
            settings: *settings,
            posts: done.into_spare(),
        }
    }

    fn into_posts(self) -> Spare<EncodeBook>
        ensures serve { ServeAll self result.posts.items }
    {
        let Self { settings: _, posts } = self;
        posts
    }
}

/// A bench for a group's book, with the posts of the group before, where there are any.
pub(crate) fn bench_for(
    alloc: Global,
    book: &EncodeBook,
    workers: u32,
    kept: Option<KeptPosts>,
) -> Result<Bench<EncodeBook>, Memory>
    requires workers { (0 < workers) × (workers ≤ 16) }
    requires kept { IfSome kept (λ s. s ≡ book.now.settings) }
    ensures bench { IfOk result (λ b. IsBenchOf jobs_of FitsCache book.now b) }
{
    match kept {
        Some(kept) => Bench::again(alloc, book, workers, kept.into_posts()),
        None => Bench::for_book(alloc, book, workers),
    }
}
