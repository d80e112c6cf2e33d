// What a run tells of its jobs.

/// Told of each job of a run. A gate of a test may hold a worker in either call.
pub trait Gate {
    /// After the claim of a job, and before its first fetch.
    fn pass(&self, worker: u32, job: u32);

    /// After the job's work, and before its publication, with what the book tells of it.
    fn done(&self, worker: u32, job: u32, told: u64);
}

/// A gate that does nothing.
pub struct OpenGate;

impl Gate for OpenGate {
    fn pass(&self, _worker: u32, _job: u32) {}

    fn done(&self, _worker: u32, _job: u32, _told: u64) {}
}
