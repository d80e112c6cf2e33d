// The calls of an endpoint in memory: their numbers, and which of them fail.
ghost use Rattle.std.specs.Prelude.{◌≡◌, ◌+◌, ◌<◌, ◌^◌, ◌==◌, IsTrue};
ghost use Rattle.std.specs.List.{list_any};

use std::marker::Model;

/// The calls so far, and the numbers of those that fail.
#[derive(Drop)]
pub(crate) struct CallList {
    fail: Vec<u64>,
    made: u64,
    failed: u64,
}

impl Model for CallList {
    ghost use Rattle.std.specs.Prelude.{◌+◌, ◌≤◌, count_by, nat_lt, vec_len};
    ghost use Rattle.m2v_port.specs.Memory.{Calls};

    ghost Value = { Calls };

    ghost view = { λ c. record { fail = c.fail.items; made = c.made; failed = c.failed } };

    // No number is counted twice: those still to come stand in the list beside those that failed.
    ghost invariant = { λ c. c.failed + count_by (λ number. nat_lt c.made number) c.fail.items
        ≤ vec_len c.fail };
}

impl CallList {
    ghost use Rattle.m2v_port.specs.Memory.{no_calls, next_fails, after_call};

    /// No call was made yet.
    pub(crate) fn new(fail: Vec<u64>) -> Self
        ensures { result ≡ no_calls fail.items }
    {
        CallList {
            fail,
            made: 0,
            failed: 0,
        }
    }

    /// Counts the next call, and says whether it fails.
    pub(crate) fn next_fails(&mut self) -> bool
        ensures fails { result ≡ next_fails self.old }
        ensures after { self.new ≡ after_call self.old }
    {
        let fails = stands(&self.fail, self.made);
        self.made = self.made.saturating_add(1);
        if fails {
            self.failed += 1;
        }
        fails
    }

    /// How many calls failed: never more than there are numbers.
    pub(crate) fn failed(&self) -> u64
        ensures value { result ≡ self.now.failed }
        ensures below { result < 2 ^ 63 }
    {
        self.failed
    }
}

// Whether the number after those of the calls made stands in the list.
fn stands(fail: &[u64], made: u64) -> bool
    ensures value { result ≡ list_any (λ number. number == made + 1) fail.now }
    ensures fits { IsTrue result → made + 1 < 2 ^ 64 }
{
    match made.checked_add(1) {
        Some(number) => fail.contains(&number),
        None => false,
    }
}
