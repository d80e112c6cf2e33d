// What a run gives.
ghost use Rattle.std.specs.Prelude.{◌≡◌, ◌<◌};
ghost use Rattle.m2v_wave.specs.Pieces.{ArePieces};

use crate::spare::Spare;
use m2v_board::Post;
use m2v_core::JobBook;
use std::marker::Model;
use std::snapshot::Snapshot;

/// The pieces of all jobs of a book. Contracts see the book.
pub struct Done<B: JobBook> {
    pub(crate) of: Snapshot<B>,
    pub(crate) posts: Vec<Box<Post<B>>>,
}

impl<B: JobBook> Model for Done<B> {
    ghost Value = { B };

    ghost view = { λ d. d.of.value };

    ghost invariant = { λ d. ArePieces (B.jobs d.of.value) (B.value d.of.value) (B.shared d.of.value)
        d.posts };
}

impl<B: JobBook> Drop for Done<B> {
    fn drop(self) {
        let Self { of: _, posts: _ } = self;
    }
}

impl<B: JobBook> Done<B> {
    /// The piece of job j, which is its value.
    pub fn piece(&self, j: u32) -> &B::Piece
        requires { j < B.jobs self.now }
        ensures { result.now ≡ B.value self.now j }
    {
        &self.posts[j as usize].piece
    }

    /// Its posts, for the jobs of another book.
    pub fn into_spare(self) -> Spare<B>
        ensures { ArePieces (B.jobs self) (B.value self) (B.shared self) result.posts }
    {
        let Self { of: _, posts } = self;
        Spare { posts }
    }
}
