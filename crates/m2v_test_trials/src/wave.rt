// Whole runs.
ghost use Rattle.std.specs.Prelude.{◌≡◌, ◌<◌, ◌≤◌};

use crate::books::{Chain, Pair};
use m2v_board::{Gate, OpenGate};
use m2v_core::{JobBook, Memory};
use m2v_wave::{Bench, Done, run_jobs};
use std::alloc::Global;
use std::hint::spin_loop;
use std::process::Abort;
use std::sync::Wait;
use std::sync::atomic::{AtomicU64, Ordering};
use std::test::Fail;
use std::thread::Threads;

// The pieces of a book of three jobs.
fn pieces<B: JobBook<Piece = u64>>(done: &Done<B>) -> [u64; 3]
    requires { B.jobs done.now ≡ 3 }
{
    [*done.piece(0), *done.piece(1), *done.piece(2)]
}

// The three jobs of the chain, whose values are 0, 1 and 3.
fn run_chain<R: Abort + Threads + Wait + Sync>(
    rt: &R,
    alloc: Global,
    workers: u32,
) -> Result<(), Memory>
    requires { (0 < workers) × (workers ≤ 16) }
{
    let bench = Bench::for_book(alloc, &Chain, workers)?;
    let done = run_jobs(rt, &Chain, bench, &OpenGate);
    assert_eq!(rt; pieces(&done), [0, 1, 3]);
    Ok(())
}

#[test]
fn each_piece_of_a_chain_is_its_value(rt: HostRuntime) -> Result<(), Fail> {
    run_chain(&rt, rt.alloc(), 1)?;
    run_chain(&rt, rt.alloc(), 2)?;
    run_chain(&rt, rt.alloc(), 16)?;
    Ok(())
}

// What a gate saw of one job: when its calls came, 0 being never, by which worker, and what it was told.
#[derive(Drop)]
struct Seen {
    passed: AtomicU64,
    passed_by: AtomicU64,
    done: AtomicU64,
    done_by: AtomicU64,
    told: AtomicU64,
}

impl Seen {
    fn new() -> Seen {
        Seen {
            passed: AtomicU64::new(0),
            passed_by: AtomicU64::new(0),
            done: AtomicU64::new(0),
            done_by: AtomicU64::new(0),
            told: AtomicU64::new(0),
        }
    }
}

// A gate that holds job 0 in `pass` until job 1 is done, and job 1 in `pass` until job 0 was there, each for 50,000,000
// turns at most. One worker alone never opens it. It lets the third job pass.
#[derive(Drop)]
struct Meeting {
    calls: AtomicU64,
    given_up: AtomicU64,
    first: Seen,
    second: Seen,
    third: Seen,
}

impl Meeting {
    fn new() -> Meeting {
        Meeting {
            calls: AtomicU64::new(0),
            given_up: AtomicU64::new(0),
            first: Seen::new(),
            second: Seen::new(),
            third: Seen::new(),
        }
    }

    // The number of a call, counted from 1.
    fn call(&self) -> u64 {
        self.calls.fetch_add(1, Ordering::SeqCst).wrapping_add(1)
    }

    fn of(&self, job: u32) -> &Seen {
        match job {
            0 => &self.first,
            1 => &self.second,
            _ => &self.third,
        }
    }

    fn wait_for(&self, call: &AtomicU64) {
        for _ in 0..50_000_000u32 {
            if call.load(Ordering::SeqCst) > 0 {
                return;
            }
            spin_loop();
        }
        self.given_up.store(1, Ordering::SeqCst);
    }
}

impl Gate for Meeting {
    fn pass(&self, worker: u32, job: u32) {
        let seen = self.of(job);
        seen.passed_by.store(u64::from(worker), Ordering::SeqCst);
        seen.passed.store(self.call(), Ordering::SeqCst);
        match job {
            0 => self.wait_for(&self.second.done),
            1 => self.wait_for(&self.first.passed),
            _ => {}
        }
    }

    fn done(&self, worker: u32, job: u32, told: u64) {
        let seen = self.of(job);
        seen.done_by.store(u64::from(worker), Ordering::SeqCst);
        seen.told.store(told, Ordering::SeqCst);
        seen.done.store(self.call(), Ordering::SeqCst);
    }
}

// What was stored last.
fn read(number: &AtomicU64) -> u64 {
    number.load(Ordering::SeqCst)
}

// Job 1 is made while job 0 waits: by another worker, each of which makes the job that it passed with.
fn check_meeting<R: Abort>(rt: &R, gate: &Meeting) {
    let (first, second) = (&gate.first, &gate.second);
    assert_eq!(rt; read(&gate.given_up), 0);
    assert_eq!(rt; read(&first.told), 5);
    assert_eq!(rt; read(&second.told), 8);
    assert_eq!(rt; read(&gate.third.told), 11);
    assert!(rt; read(&first.passed) < read(&second.done));
    assert!(rt; read(&second.passed) < read(&second.done));
    assert!(rt; read(&second.done) < read(&first.done));
    assert_eq!(rt; read(&first.passed_by), read(&first.done_by));
    assert_eq!(rt; read(&second.passed_by), read(&second.done_by));
    assert!(rt; read(&first.done_by) < 2);
    assert!(rt; read(&second.done_by) < 2);
    assert!(rt; read(&first.done_by) != read(&second.done_by));
}

fn run_pair<R: Abort + Threads + Wait + Sync>(rt: &R, alloc: Global) -> Result<(), Memory> {
    let bench = Bench::for_book(alloc, &Pair, 2)?;
    let gate = Meeting::new();
    let done = run_jobs(rt, &Pair, bench, &gate);
    check_meeting(rt, &gate);
    assert_eq!(rt; pieces(&done), [5, 8, 11]);
    Ok(())
}

#[test]
fn two_jobs_are_made_beside_each_other(rt: HostRuntime) -> Result<(), Fail> {
    run_pair(&rt, rt.alloc())?;
    Ok(())
}
