// What a core is asked and what it answers.

/// What a worker asks of a core. Workers and jobs are counted from 0.
#[derive(Clone, Copy, Debug, PartialEq, Eq)]
pub enum Event {
    /// The worker wants a job.
    Claim { worker: u32 },
    /// The worker wants its job done and shown to all.
    Publish { worker: u32, job: u32 },
    /// The worker wants to learn of a job.
    Fetch { worker: u32, job: u32 },
}

/// What a core answers to an event that it accepts.
#[derive(Clone, Copy, Debug, PartialEq, Eq)]
pub enum Answer {
    /// The job that was drawn for the worker.
    Drawn(u32),
    /// All jobs were drawn.
    End,
    /// The job is published.
    Done,
}

/// Why a core refuses an event.
#[derive(Clone, Copy, Debug, PartialEq, Eq)]
pub enum StepFault {
    /// The event isn't possible in this state.
    NotLawful { have: u64, need: u64 },
    /// No memory was left.
    Memory,
}
