// A gate that holds jobs until others came.
use m2v_board::Gate;
use std::hint::spin_loop;
use std::sync::atomic::{AtomicU64, Ordering};

/// How many turns a job is held before the gate is given up.
const TURNS: u32 = 50_000_000;

/// Waits for a number to be reached: whether it was.
fn has_come(number: &AtomicU64, least: u64) -> bool {
    for _ in 0..TURNS {
        if number.load(Ordering::SeqCst) >= least {
            return true;
        }
        spin_loop();
    }
    false
}

/// A gate that holds job `held` in `pass` until job `other` is done, and, where they meet, job `other` until job `held`
/// came to the gate. It lets all others pass, and keeps what it was told of these two.
#[derive(Drop)]
pub(crate) struct Meeting {
    held: u32,
    other: u32,
    meet: bool,
    held_passes: AtomicU64,
    other_done: AtomicU64,
    held_told: AtomicU64,
    other_told: AtomicU64,
    given_up: AtomicU64,
}

impl Meeting {
    /// A gate to which no job came.
    pub(crate) fn new(held: u32, other: u32, meet: bool) -> Meeting {
        Meeting {
            held,
            other,
            meet,
            held_passes: AtomicU64::new(0),
            other_done: AtomicU64::new(0),
            held_told: AtomicU64::new(0),
            other_told: AtomicU64::new(0),
            given_up: AtomicU64::new(0),
        }
    }

    /// Waits for a call that stores 1.
    fn wait_for(&self, call: &AtomicU64) {
        if !has_come(call, 1) {
            self.given_up.store(1, Ordering::SeqCst);
        }
    }

    /// Whether a job was held for too long.
    pub(crate) fn is_given_up(&self) -> bool {
        self.given_up.load(Ordering::SeqCst) > 0
    }

    /// What was told of the job that is held.
    pub(crate) fn held_told(&self) -> u64 {
        self.held_told.load(Ordering::SeqCst)
    }

    /// What was told of the other job.
    pub(crate) fn other_told(&self) -> u64 {
        self.other_told.load(Ordering::SeqCst)
    }
}

impl Gate for Meeting {
    fn pass(&self, _worker: u32, job: u32) {
        if job == self.held {
            self.held_passes.store(1, Ordering::SeqCst);
            self.wait_for(&self.other_done);
        } else if job == self.other && self.meet {
            self.wait_for(&self.held_passes);
        }
    }

    fn done(&self, _worker: u32, job: u32, told: u64) {
        if job == self.held {
            self.held_told.store(told, Ordering::SeqCst);
        } else if job == self.other {
            self.other_told.store(told, Ordering::SeqCst);
            self.other_done.store(1, Ordering::SeqCst);
        }
    }
}

/// A gate that holds so many jobs, from one on, in `pass` until all of them came: only as many workers open it.
#[derive(Drop)]
pub(crate) struct Gathering {
    first: u32,
    count: u32,
    came: AtomicU64,
    given_up: AtomicU64,
}

impl Gathering {
    /// A gate to which no job came.
    pub(crate) fn new(first: u32, count: u32) -> Gathering {
        Gathering {
            first,
            count,
            came: AtomicU64::new(0),
            given_up: AtomicU64::new(0),
        }
    }

    /// Whether all jobs came, and none was held for too long.
    pub(crate) fn is_opened(&self) -> bool {
        self.given_up.load(Ordering::SeqCst) == 0
            && self.came.load(Ordering::SeqCst) == u64::from(self.count)
    }
}

impl Gate for Gathering {
    fn pass(&self, _worker: u32, job: u32) {
        if job.wrapping_sub(self.first) < self.count {
            self.came.fetch_add(1, Ordering::SeqCst);
            if !has_come(&self.came, u64::from(self.count)) {
                self.given_up.store(1, Ordering::SeqCst);
            }
        }
    }

    fn done(&self, _worker: u32, _job: u32, _told: u64) {}
}
