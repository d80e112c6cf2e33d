ghost use Rattle.std.specs.Prelude.{◌≡◌, ℕ, ◌+◌, ◌-◌, ◌*◌, ◌/◌, ◌%◌, ◌<◌, ◌≤◌, ◌^◌, ◌↔◌, IsErr, IfErr, OnOk, OnErr, min};
ghost use Rattle.m2v_vbv.specs.Account.{opening, after, LeavesRoom, IsTight, stuffing_of, arriving};

use crate::fault::AccountFault;
use std::marker::Model;

/// The account of a decoder's buffer at constant rate (Annex C): what is held right before the next picture is removed,
/// in units of 1/1800 bit, as if the stream had no end. Times are in units of 1/720,000 s, so that a rate of K times
/// 400 bit/s adds K to what is held in each unit.
///
/// Contracts see it as its starting numbers, the number of removals, the time since the first one, and what is held.
/// Its conditions: every number of bits is below 2^42, every time below 2^20, and fewer than 2^40 removals came before.
#[derive(Clone, Copy)]
pub struct Account {
    k: u64,
    buffer_bits: u64,
    s: u64,
    delay: u64,
    removals: u64,
    time: u64,
    held: u128,
}

impl Model for Account {
    ghost use Rattle.std.specs.Prelude.{◌≤◌, ◌<◌, ◌+◌, ◌*◌, ◌^◌};
    ghost use Rattle.m2v_vbv.specs.Account.{State};
    ghost use Rattle.m2v_vbv.specs.Annex.{Start};

    ghost Value = { State };

    ghost view = { λ a. record {
      start = record {
        k = a.k;
        buffer_bits = a.buffer_bits;
        s = a.s;
        delay = a.delay;
      };
      removals = a.removals;
      time = a.time;
      held = a.held;
    } };

    ghost invariant = { λ a. (1 ≤ a.k) × (a.k < 2 ^ 30) × (a.buffer_bits ≤ 2 ^ 33) × (a.s < 2 ^ 40)
        × (a.delay < 2 ^ 16) × (a.removals ≤ 2 ^ 40) × (a.time ≤ 2 ^ 20 * a.removals)
        × (a.held ≤ 2 ^ 52 + 2 ^ 50 * a.removals) };

    ghost inverse = { λ v. record {
      k = v.start.k;
      buffer_bits = v.start.buffer_bits;
      s = v.start.s;
      delay = v.start.delay;
      removals = v.removals;
      time = v.time;
      held = v.held;
    } };
}

impl Account {
    /// The account when the first picture is removed. `k` is the rate in units of 400 bit/s, `buffer_bits` the size of
    /// the buffer, `s` the bits up to and with the first picture start code, and `delay` the time that the first picture
    /// waits (vbv_delay) in ticks of 1/90,000 s.
    pub fn start(k: u64, buffer_bits: u64, s: u64, delay: u64) -> Account
        requires rate { 1 ≤ k }
        requires rates { k < 2 ^ 30 }
        requires buffer { buffer_bits ≤ 2 ^ 33 }
        requires begin { s < 2 ^ 40 }
        requires wait { delay < 2 ^ 16 }
        ensures value { result ≡ opening (record {
          k = k;
          buffer_bits = buffer_bits;
          s = s;
          delay = delay;
        }) }
    {
        let held = 1800 * u128::from(s) + 8 * u128::from(k) * u128::from(delay);
        Account {
            k,
            buffer_bits,
            s,
            delay,
            removals: 0,
            time: 0,
            held,
        }
    }

    /// What is held before the cut at the whole length.
    #[inline]
    pub fn held(&self) -> u128
        ensures value { result ≡ self.now.held }
    {
        self.held
    }

    /// Removes a picture of so many bits, the next one being due so many units later. Where less is held than its bits
    /// it is refused, and nothing changes.
    pub fn remove(&mut self, bits: u64, units: u64) -> Result<(), AccountFault>
        requires bits { bits < 2 ^ 42 }
        requires units { units < 2 ^ 20 }
        requires few { self.old.removals < 2 ^ 40 }
        ensures refused { IsErr result ↔ (self.old.held < 1800 * bits) }
        ensures ok { OnOk result (self.new ≡ after self.old bits units) }
        ensures under { IfErr result (λ e. e ≡ AccountFault.Under self.old.removals self.old.held
            (1800 * bits)) }
        ensures err { OnErr result (self.new ≡ self.old) }
    {
        let need = 1800 * u128::from(bits);
        if self.held < need {
            return Err(AccountFault::Under {
                picture: self.removals,
                have: self.held,
                need,
            });
        }
        self.held = self.held - need + self.arriving(units);
        self.time += units;
        self.removals += 1;
        Ok(())
    }

    /// Looks whether the buffer takes what is held, of a stream with so many bits that aren't removed.
    pub fn judge(&self, rest: u64) -> Result<(), AccountFault>
        requires rest { rest < 2 ^ 42 }
        ensures refused { IsErr result
            ↔ (1800 * self.now.start.buffer_bits < min self.now.held (1800 * rest)) }
        ensures over { IfErr result
            (λ e. e ≡ AccountFault.Over self.now.removals (min self.now.held (1800 * rest))
            (1800 * self.now.start.buffer_bits)) }
    {
        let have = self.held.min(1800 * u128::from(rest));
        let size = 1800 * u128::from(self.buffer_bits);
        if have > size {
            return Err(AccountFault::Over {
                picture: self.removals,
                have,
                size,
            });
        }
        Ok(())
    }

    /// The zero bits to be sent after a picture of so many bits, in whole bytes: the fewest with which the buffer takes
    /// what arrives until the next picture, so many units later. The picture is held whole, and the buffer takes what is
    /// held. Where the buffer takes what arrives in that time and a byte more, the zero bytes are held too; and where there
    /// are zero bytes, less than a byte is missing then to fill the buffer: with one of them less it would run over.
    #[tactic(auto, unfolding(crate::specs::Account::stuffing_of))]
    pub fn stuffing(&self, bits: u64, units: u64) -> u64
        requires bits { bits < 2 ^ 42 }
        requires units { units < 2 ^ 20 }
        requires whole { 1800 * bits ≤ self.now.held }
        requires taken { self.now.held ≤ 1800 * self.now.start.buffer_bits }
        ensures value { result ≡ stuffing_of self.now bits units }
        ensures bytes { result % 8 ≡ 0 }
        ensures enough { LeavesRoom self.now (bits + result) units }
        ensures fewest { (z : ℕ) → z % 8 ≡ 0 → LeavesRoom self.now (bits + z) units → result ≤ z }
        ensures small { result < 2 ^ 40 }
        ensures held { self.now.start.k * units + 14400 ≤ 1800 * self.now.start.buffer_bits
            → 1800 * (bits + result) ≤ self.now.held }
        ensures tight { self.now.start.k * units + 14400 ≤ 1800 * self.now.start.buffer_bits
            → 0 < result → IsTight self.now bits result units }
    {
        let full = 1800 * (u128::from(self.buffer_bits) + u128::from(bits));
        let excess = (self.held + self.arriving(units)).saturating_sub(full);
        8 * excess.div_ceil(14_400) as u64
    }

    /// The delay (vbv_delay) of the next picture, whose start code ends at bit `pos` of the stream, in ticks of
    /// 1/90,000 s, rounded down. It isn't negative: no more bits stand before it than arrive until its removal.
    pub fn delay(&self, pos: u64) -> u64
        requires place { pos < 2 ^ 42 }
        requires begun { self.now.start.s ≤ pos }
        requires arrives { 1800 * (pos - self.now.start.s)
            ≤ 8 * self.now.start.k * self.now.start.delay + self.now.start.k * self.now.time }
        ensures value { result ≡ arriving self.now pos / (8 * self.now.start.k) }
    {
        let rate = u128::from(self.k);
        let arrived = 8 * rate * u128::from(self.delay) + rate * u128::from(self.time);
        ((arrived - 1800 * u128::from(pos - self.s)) / (8 * rate)) as u64
    }

    /// What arrives in so many units.
    fn arriving(&self, units: u64) -> u128
        requires units { units < 2 ^ 20 }
        ensures value { result ≡ self.now.start.k * units }
        ensures most { result < 2 ^ 50 }
    {
        u128::from(self.k * units)
    }
}
