// The account of a sequence's buffer as it is told. What is held ends with the stream, so a removal is told once as many
// bits are known as could be held, or at the sequence's end: until then its picture waits in a queue, which is as long
// as the buffer holds pictures.
ghost use Rattle.std.specs.Prelude.{◌≡◌, ℕ, ◌+◌, ◌*◌, ◌<◌, ◌≤◌, ◌^◌, [], ◌++◌, OnOk, OnErr, IsNone};
ghost use Rattle.std.specs.Option.{option_map, option_to_list};
ghost use Rattle.m2v_vbv.specs.Buffer.{Buffer as Held, Picture, told, next};
ghost use Rattle.m2v_audit.specs.Account.{IsPicture, Account as State, opened, with_picture, with_more, longer, last_bits, untold, known as known_of, settles, first_of, first_settled, first_left, first_ended, Tells, settled, after_settled, ended};

use m2v_vbv::{Buffer, Removed};
use std::alloc::{AllocError, Global};
use std::collections::VecDeque;
use std::marker::Model;

/// A picture that is removed from the buffer.
#[derive(Clone, Copy)]
pub struct Due {
    /// Its number in the sequence, in coding order.
    pub number: u64,
    /// Where its picture start code begins in the input, in bits.
    pub bit: u64,
    /// Its bits, with the headers before it and the zero bytes after it.
    pub bits: u64,
    /// Those of them up to the end of its picture start code.
    pub code_bits: u64,
    /// The time from its removal to the next one, in units of 1/720,000 s.
    pub units: u64,
    /// Its vbv_delay.
    pub delay: u64,
}

/// The account of a sequence's buffer, which tells each removal as soon as no bit that follows can change what is told
/// of it.
///
/// Contracts see it as the buffer after the removals that were told, the whole pictures that wait, the last picture, of
/// which more bits may follow, and the bits of all pictures so far.
#[derive(Drop)]
pub struct Account {
    buffer: Buffer,
    waiting: VecDeque<Due>,
    /// The bits of the pictures that wait.
    whole: u64,
    last: Option<Due>,
    total: u64,
}

impl Model for Account {
    ghost use Rattle.m2v_audit.specs.Account.{Account as State, IsSound};

    ghost Value = { State };

    ghost view = { λ a. record {
      buffer = a.buffer;
      waiting = a.waiting.items;
      last = a.last;
      total = a.total;
    } };

    ghost invariant = { λ a. IsSound a.buffer a.waiting.items a.whole a.last a.total };
}

impl Account {
    /// The account when the first bits of the first picture were read.
    pub fn new(alloc: Global, buffer: Buffer, first: Due) -> Account
        requires begin { buffer.removals ≡ 0 }
        requires picture { IsPicture first }
        requires most { first.bits ≤ 2 ^ 40 }
        ensures value { result ≡ opened buffer first }
    {
        Account {
            buffer,
            waiting: VecDeque::new(alloc),
            whole: 0,
            last: Some(first),
            total: first.bits,
        }
    }

    /// The first bits of another picture were read: the one before it is whole, and waits for its removal.
    pub fn picture(&mut self, next: Due) -> Result<(), AllocError>
        requires picture { IsPicture next }
        requires most { self.old.total + next.bits ≤ 2 ^ 40 }
        ensures value { OnOk result (self.new ≡ with_picture self.old next) }
        ensures err { OnErr result (self.new ≡ self.old) }
    {
        if let Some(last) = self.last {
            self.waiting.push_back(last)?;
            self.whole += last.bits;
        }
        self.last = Some(next);
        self.total += next.bits;
        Ok(())
    }

    /// More bits of the last picture were read.
    pub fn more(&mut self, bits: u64)
        requires most { self.old.total + bits ≤ 2 ^ 40 }
        ensures value { self.new ≡ with_more self.old bits }
    {
        if let Some(last) = self.last {
            self.last = Some(Due {
                bits: last.bits + bits,
                ..last
            });
        }
        self.total += bits;
    }

    /// The next removal, if it is settled: as many bits are known as could be held.
    pub fn settle(&mut self) -> Option<(Due, Removed)>
        ensures exact { Tells (first_settled self.old) self.old result self.new }
        ensures told { settled self.old ≡ option_to_list result ++ settled self.new }
        ensures after { after_settled self.new ≡ after_settled self.old }
        ensures none { IsNone result → settled self.old ≡ [] }
        ensures all { IsNone result → self.new ≡ after_settled self.old }
    {
        if self.is_settled() {
            self.first()
        } else {
            None
        }
    }

    /// At the sequence's end: the next removal of all that are left, that of the last picture too.
    pub fn finish(&mut self) -> Option<(Due, Removed)>
        ensures exact { Tells (first_ended self.old) self.old result self.new }
        ensures told { ended self.old ≡ option_to_list result ++ ended self.new }
        ensures none { IsNone result → ended self.old ≡ [] }
    {
        match self.first() {
            Some(told) => Some(told),
            None => self.end(),
        }
    }

    /// The bits that were read and weren't removed.
    fn known(&self) -> u64
        ensures value { result ≡ known_of self.now }
        ensures most { result ≤ 2 ^ 40 }
    {
        self.whole + bits_of(&self.last)
    }

    /// As many bits are known as could be held when the next picture is due.
    fn is_settled(&self) -> bool
        ensures value { result ≡ settles self.now.buffer (known_of self.now) }
    {
        self.buffer.reach() <= 1800 * u128::from(self.known())
    }

    /// Removes the picture that waits first.
    fn first(&mut self) -> Option<(Due, Removed)>
        ensures exact { Tells (first_of self.old.waiting self.old) self.old result self.new }
    {
        let known = self.known();
        let due = self.waiting.pop_front()?;
        self.whole -= due.bits;
        let removed = self
            .buffer
            .remove(due.bits, due.code_bits, due.units, known);
        Some((due, removed))
    }

    /// Removes the last picture, where none waits before it.
    fn end(&mut self) -> Option<(Due, Removed)>
        requires alone { self.old.waiting ≡ [] }
        ensures exact { Tells (first_left [] self.old.last self.old) self.old result self.new }
    {
        let known = self.known();
        let due = self.last.take()?;
        let removed = self
            .buffer
            .remove(due.bits, due.code_bits, due.units, known);
        Some((due, removed))
    }
}

/// The bits of the last picture, 0 where there is none.
fn bits_of(last: &Option<Due>) -> u64
    ensures value { result ≡ last_bits last.now }
{
    match last {
        Some(due) => due.bits,
        None => 0,
    }
}
