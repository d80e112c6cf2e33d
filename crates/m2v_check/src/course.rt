// The account of a stream's buffer (Annex C), picture by picture.
ghost use Rattle.std.specs.Prelude.{◌≡◌, ◌+◌, ◌-◌, ◌*◌, ◌<◌, ◌≤◌, ◌^◌, nat_eq, nat_le, Some, None, IsErr, ◌↔◌};
ghost use Rattle.m2v_check.specs.Holding.{exact_at, is_whole, delays_with, full_with, course_after, removed_by, amount_by, over_by, IsExact, IsSound, IsNext, stepped, with_more};

use crate::amounts::Amount;
use m2v_vbv::{Account, AccountFault};

/// A picture that is removed next, as far as it was read.
#[derive(Clone, Copy)]
pub struct Next {
    /// Its bits so far.
    pub bits: u64,
    /// Those of them up to the end of its picture start code.
    pub code: u64,
    /// The time from its removal to that of the picture behind it, in units of 1/720,000 s.
    pub units: u64,
    /// Its vbv_delay.
    pub delay: u64,
}

/// An account that is above the buffer, if the stream is long enough, and the bits that were removed before.
#[derive(Clone, Copy)]
pub struct Full {
    pub account: Account,
    pub removed: u64,
}

/// The account of a stream, up to the picture that is removed next.
#[derive(Clone, Copy)]
pub struct Course {
    /// The size of the buffer, in units of 1/1800 bit.
    pub size: u128,
    /// The account when the next picture is removed.
    pub account: Account,
    /// How many pictures were removed.
    pub pictures: u64,
    /// The bits of these pictures.
    pub removed: u64,
    /// The bits of the stream so far.
    pub total: u64,
    pub next: Next,
    /// How many pictures behind the first have another vbv_delay than the exact one.
    pub delays: u64,
    /// The first account above the buffer.
    pub full: Option<Full>,
    /// The first picture that isn't whole in the buffer when it is removed.
    pub under: Option<AccountFault>,
}

/// The exact delay of a picture that is removed next, whose start code ends so many bits behind those that were removed: 0
/// where that bit comes after the removal.
fn exact_delay(account: &Account, removed: u64, code: u64) -> u64
    requires exact { IsExact account.now removed }
    requires begun { account.now.start.s ≤ removed + code }
    requires place { removed + code < 2 ^ 42 }
    ensures value { result ≡ exact_at account.now removed code }
{
    if account.held() < 1800 * u128::from(code) {
        return 0;
    }
    account.delay(removed + code)
}

impl Course {
    /// How many pictures have another vbv_delay than the exact one, with the next picture.
    fn delays_with(&self) -> u64
        requires sound { IsSound self.now }
        requires whole { self.now.under ≡ None }
        ensures value { result ≡ delays_with self.now }
    {
        if self.pictures == 0 {
            return self.delays;
        }
        if self.next.delay == exact_delay(&self.account, self.removed, self.next.code) {
            return self.delays;
        }
        self.delays + 1
    }

    /// The first account above the buffer, with that of the next picture.
    fn full_with(&self) -> Option<Full>
        ensures value { result ≡ full_with self.now }
    {
        match self.full {
            Some(full) => Some(full),
            None => {
                if self.account.held() > self.size {
                    Some(Full {
                        account: self.account,
                        removed: self.removed,
                    })
                } else {
                    None
                }
            }
        }
    }

    /// Removes the next picture, whose bits all were read, unless one wasn't whole before. Answers what was held.
    pub fn remove(&mut self) -> Option<Amount>
        requires sound { IsSound self.old }
        ensures value { self.new ≡ removed_by self.old.under self.old }
        ensures amount { result ≡ amount_by self.old.under self.old }
    {
        match self.under {
            Some(_) => None,
            None => self.remove_whole(),
        }
    }

    /// The same, where none wasn't whole before.
    fn remove_whole(&mut self) -> Option<Amount>
        requires sound { IsSound self.old }
        requires whole { self.old.under ≡ None }
        ensures value { self.new ≡ removed_by None self.old }
        ensures amount { result ≡ amount_by None self.old }
    {
        let held = self.account.held();
        let removed = self.removed;
        let delays = self.delays_with();
        let full = self.full_with();
        match self.account.remove(self.next.bits, self.next.units) {
            Err(fault) => {
                self.under = Some(fault);
                None
            }
            Ok(()) => {
                self.delays = delays;
                self.full = full;
                self.pictures += 1;
                self.removed += self.next.bits;
                Some(Amount { held, removed })
            }
        }
    }

    /// Removes the next picture, and moves on to the one behind it. Answers what was held.
    pub fn step(&mut self, next: &Next) -> Option<Amount>
        requires sound { IsSound self.old }
        requires next { IsNext next.now }
        requires most { self.old.total + next.now.bits ≤ 2 ^ 40 }
        ensures value { self.new ≡ stepped self.old next.now }
        ensures amount { result ≡ amount_by self.old.under self.old }
        ensures sound { IsSound self.new }
    {
        let amount = self.remove();
        self.total += next.bits;
        self.next = *next;
        amount
    }

    /// More bits of the next picture were read.
    pub fn more(&mut self, bits: u64)
        requires sound { IsSound self.old }
        requires most { self.old.total + bits ≤ 2 ^ 40 }
        ensures value { self.new ≡ with_more self.old bits }
        ensures sound { IsSound self.new }
    {
        self.next.bits += bits;
        self.total += bits;
    }

    /// How the account fails by what is held, in the stream as long as it is.
    pub fn over(&self) -> Option<AccountFault>
        requires most { self.now.total ≤ 2 ^ 40 }
        ensures value { result ≡ over_by self.now.full self.now.total }
    {
        match &self.full {
            Some(full) => over_at(full, self.total),
            None => None,
        }
    }
}

/// How an account above the buffer fails, in a stream of so many bits.
fn over_at(full: &Full, total: u64) -> Option<AccountFault>
    requires most { total ≤ 2 ^ 40 }
    ensures value { result ≡ over_by (Some full.now) total }
{
    match full.account.judge(total.saturating_sub(full.removed)) {
        Ok(()) => None,
        Err(fault) => Some(fault),
    }
}
