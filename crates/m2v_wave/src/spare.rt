// Posts that no run has any more.
ghost use Rattle.std.specs.Prelude.{◌≡◌};

use m2v_board::Post;
use m2v_core::JobBook;

/// The posts of a book whose jobs are done, as room for those of another: see [`Bench::again`](crate::Bench::again).
pub struct Spare<B: JobBook> {
    pub(crate) posts: Vec<Box<Post<B>>>,
}

impl<B: JobBook> Drop for Spare<B> {
    fn drop(self) {
        let Self { posts: _ } = self;
    }
}

impl<B: JobBook> Spare<B> {
    pub(crate) fn into_posts(self) -> Vec<Box<Post<B>>>
        ensures { result ≡ self.posts }
    {
        let Self { posts } = self;
        posts
    }
}
