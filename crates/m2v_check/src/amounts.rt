// The most that the buffer holds. What arrives ends with the stream, so what is held when a picture is removed is known as
// soon as all bits came that arrive until then: until then the picture waits in a queue, which is as long as the buffer
// holds pictures.
ghost use Rattle.std.specs.Prelude.{◌≡◌, ◌+◌, ◌-◌, ◌*◌, ◌<◌, ◌≤◌, ◌^◌, ℕ, max, min, nat_eq, [], ◌∷◌, ◌++◌, OnOk, IfSome, IsSome};
ghost use Rattle.std.specs.VecDeque.{deque_len};
ghost use Rattle.m2v_check.specs.Holding.{cut_at, most_with, IsFirst};

use std::alloc::{AllocError, Global};
use std::collections::VecDeque;

/// What is held when a picture is removed, before the cut at the stream's end, in units of 1/1800 bit; and how many bits
/// were removed before.
#[derive(Clone, Copy)]
pub struct Amount {
    pub held: u128,
    pub removed: u64,
}

impl Amount {
    /// What is held in a stream of so many bits.
    fn in_stream(&self, total: u64) -> u128
        ensures value { result ≡ cut_at total self.now }
    {
        let rest = 1800 * u128::from(total.saturating_sub(self.removed));
        self.held.min(rest)
    }

    /// All that is held came already, where so many bits of the stream came.
    fn came(&self, total: u64) -> bool
        ensures value { result ≡ nat_eq (cut_at total self.now) self.now.held }
    {
        self.in_stream(total) == self.held
    }
}

/// The most that was held, and the pictures for which it isn't known yet what is held.
#[derive(Drop)]
pub struct Amounts {
    pub most: u128,
    pub waiting: VecDeque<Amount>,
}

impl Amounts {
    /// No picture was removed.
    pub fn new(alloc: Global) -> Amounts
        ensures value { (t : ℕ) → most_with t result.most result.waiting.items ≡ 0 }
    {
        Amounts {
            most: 0,
            waiting: VecDeque::new(alloc),
        }
    }

    /// A picture is removed.
    pub fn add(&mut self, amount: Amount) -> Result<(), AllocError>
        ensures value { OnOk result ((t : ℕ) → most_with t self.new.most self.new.waiting.items
            ≡ max (most_with t self.old.most self.old.waiting.items) (cut_at t amount)) }
    {
        self.waiting.push_back(amount)?;
        Ok(())
    }

    /// The picture that waits first, where so many bits of the stream came, and all came that it holds.
    fn first_known(&self, total: u64) -> Option<Amount>
        ensures known { IfSome result (λ a. cut_at total a ≡ a.held) }
        ensures first { IfSome result (λ a. IsFirst a self.now.waiting.items) }
        ensures some { IsSome result → 0 < deque_len self.now.waiting }
    {
        match self.waiting.front() {
            Some(amount) => {
                let amount = *amount;
                if amount.came(total) {
                    Some(amount)
                } else {
                    None
                }
            }
            None => None,
        }
    }

    /// So many bits of the stream came: what is known of a stream that is longer is the same as before.
    pub fn settle(&mut self, total: u64)
        ensures value { (t : ℕ) → total ≤ t → most_with t self.new.most self.new.waiting.items
            ≡ most_with t self.old.most self.old.waiting.items }
    {
        while let Some(amount) = self.first_known(total) {
            self.most = self.most.max(amount.held);
            self.waiting.pop_front();
        }
    }

    /// The most that is held in a stream of so many bits.
    pub fn finish(&mut self, total: u64) -> u128
        ensures value { result ≡ most_with total self.old.most self.old.waiting.items }
    {
        while let Some(amount) = self.waiting.pop_front() {
            self.most = self.most.max(amount.in_stream(total));
        }
        self.most
    }
}
