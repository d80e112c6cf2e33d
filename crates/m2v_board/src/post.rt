// What lies in a slot: the piece of a job, and what others learn of it.
use m2v_core::JobBook;

/// The piece of a job and its shared part: blank, or ready with what the book says.
pub struct Post<B: JobBook> {
    /// The number of the job.
    pub job: u32,
    /// Whether the piece and the shared part were made.
    pub ready: bool,
    /// The piece of the job.
    pub piece: B::Piece,
    /// What other jobs learn of it.
    pub shared: B::Shared,
}

impl<B: JobBook> Drop for Post<B> {
    fn drop(self) {
        let Self {
            job: _,
            ready: _,
            piece: _,
            shared: _,
        } = self;
    }
}
