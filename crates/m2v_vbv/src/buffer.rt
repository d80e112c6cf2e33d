ghost use Rattle.std.specs.Prelude.{◌≡◌, ℕ, ◌+◌, ◌-◌, ◌*◌, ◌/◌, ◌<◌, ◌≤◌, ◌^◌, min, max, nat_lt, if◌then◌else◌};
ghost use Rattle.std.specs.Int.{div_ceil};
ghost use Rattle.m2v_vbv.specs.Buffer.{constant_start, variable_start, size_of, reach, have_of, kept_of, wait_for, full_of, told, next};

use crate::removed::Removed;
use std::marker::Model;

/// The decoder's buffer (Annex C), whose account goes on behind a failure: a picture that isn't whole when it is due is
/// waited for, and what finds no room comes later. At constant rate bits always come, at variable rate only while there
/// is room. Amounts are in units of 1/1800 bit, times in units of 1/720,000 s, so that a rate of K times 400 bit/s adds K
/// in each unit.
///
/// Contracts see it as its rate, its size, its step of waiting, the number of removals, the time since the first picture
/// was due, and what has come and wasn't taken, as if the stream had no end. Its conditions: every number of bits is below
/// 2^42, every time below 2^20, and fewer than 2^40 removals came before.
#[derive(Clone, Copy)]
pub struct Buffer {
    k: u64,
    buffer_bits: u64,
    step: u64,
    varies: bool,
    removals: u64,
    time: u128,
    held: u128,
}

impl Model for Buffer {
    ghost use Rattle.std.specs.Prelude.{◌≤◌, ◌<◌, ◌+◌, ◌*◌, ◌^◌};
    ghost use Rattle.m2v_vbv.specs.Buffer.{Buffer as State};

    ghost Value = { State };

    ghost view = { λ b. record {
      inflow = record {
        k = b.k;
        buffer_bits = b.buffer_bits;
        step = b.step;
        varies = b.varies;
      };
      removals = b.removals;
      time = b.time;
      held = b.held;
    } };

    ghost invariant = { λ b. (1 ≤ b.k) × (b.k < 2 ^ 30) × (b.buffer_bits ≤ 2 ^ 33) × (1 ≤ b.step)
        × (b.step < 2 ^ 20) × (b.removals ≤ 2 ^ 40) × (b.time ≤ 2 ^ 54 * b.removals)
        × (b.held ≤ 2 ^ 52 + 2 ^ 50 * b.removals) };

    ghost inverse = { λ v. record {
      k = v.inflow.k;
      buffer_bits = v.inflow.buffer_bits;
      step = v.inflow.step;
      varies = v.inflow.varies;
      removals = v.removals;
      time = v.time;
      held = v.held;
    } };
}

impl Buffer {
    /// The buffer at constant rate when the first picture is due. `k` is the rate in units of 400 bit/s, `buffer_bits`
    /// the size, `step` the step of waiting (a unit, or two fields where low_delay is 1), `s` the bits up to the end of
    /// the first picture start code, and `delay` its vbv_delay in ticks of 1/90,000 s.
    pub fn constant(k: u64, buffer_bits: u64, step: u64, s: u64, delay: u64) -> Buffer
        requires rate { 1 ≤ k }
        requires rates { k < 2 ^ 30 }
        requires buffer { buffer_bits ≤ 2 ^ 33 }
        requires steps { 1 ≤ step }
        requires step { step < 2 ^ 20 }
        requires begin { s < 2 ^ 40 }
        requires wait { delay < 2 ^ 16 }
        ensures value { result ≡ constant_start (record {
          k = k;
          buffer_bits = buffer_bits;
          s = s;
          delay = delay;
        }) step }
    {
        Buffer {
            k,
            buffer_bits,
            step,
            varies: false,
            removals: 0,
            time: 0,
            held: 1800 * u128::from(s) + 8 * u128::from(k) * u128::from(delay),
        }
    }

    /// The buffer at variable rate when the first picture is due: it is full.
    pub fn variable(k: u64, buffer_bits: u64, step: u64) -> Buffer
        requires rate { 1 ≤ k }
        requires rates { k < 2 ^ 30 }
        requires buffer { buffer_bits ≤ 2 ^ 33 }
        requires steps { 1 ≤ step }
        requires step { step < 2 ^ 20 }
        ensures value { result ≡ variable_start k buffer_bits step }
    {
        Buffer {
            k,
            buffer_bits,
            step,
            varies: true,
            removals: 0,
            time: 0,
            held: 1800 * u128::from(buffer_bits),
        }
    }

    /// Removes a picture of so many bits, so many of them up to the end of its start code, the next one being due so many
    /// units later than this one is removed. `rest` is the number of the stream's bits that weren't taken before it.
    #[tactic(auto, unfolding(crate::specs::Buffer::told, crate::specs::Buffer::next))]
    pub fn remove(&mut self, bits: u64, code_bits: u64, units: u64, rest: u64) -> Removed
        requires bits { bits < 2 ^ 42 }
        requires code { code_bits < 2 ^ 42 }
        requires units { units < 2 ^ 20 }
        requires rest { rest < 2 ^ 42 }
        requires few { self.old.removals < 2 ^ 40 }
        ensures told { result ≡ told self.old (record {
          bits = bits;
          code_bits = code_bits;
          units = units;
        }) rest }
        ensures next { self.new ≡ next self.old (record {
          bits = bits;
          code_bits = code_bits;
          units = units;
        }) rest }
    {
        let need = 1800 * bits;
        let have = self.have(rest);
        let wait = self.wait(need.saturating_sub(have));
        let full = self.full(need, have, wait);
        let told = Removed {
            time: self.time,
            have,
            need,
            is_over: self.size() < have,
            is_under: have < need,
            wait,
            delay: full.saturating_sub(1800 * u128::from(code_bits)) / (8 * u128::from(self.k)),
        };
        self.held = full.saturating_sub(u128::from(need)) + u128::from(self.k * units);
        self.time += u128::from(wait + units);
        self.removals += 1;
        told
    }

    /// What the buffer takes.
    fn size(&self) -> u64
        ensures value { result ≡ size_of self.now.inflow }
        ensures most { result < 2 ^ 44 }
    {
        1800 * self.buffer_bits
    }

    /// What is there when the next picture is due, in a stream without an end.
    pub fn reach(&self) -> u128
        ensures value { result ≡ reach self.now }
        ensures most { result ≤ self.now.held }
    {
        if self.varies {
            self.held.min(u128::from(self.size()))
        } else {
            self.held
        }
    }

    /// What is held then.
    fn have(&self, rest: u64) -> u64
        requires rest { rest < 2 ^ 42 }
        ensures value { result ≡ have_of self.now rest }
        ensures most { result < 2 ^ 53 }
    {
        self.reach().min(u128::from(1800 * rest)) as u64
    }

    /// The time in which so much comes, in whole steps.
    fn wait(&self, missing: u64) -> u64
        requires missing { missing < 2 ^ 53 }
        ensures value { result ≡ wait_for self.now.inflow missing }
        ensures most { result < 2 ^ 53 + 2 ^ 20 }
    {
        self.step * self.steps(missing)
    }

    /// How many steps of waiting bring so much.
    fn steps(&self, missing: u64) -> u64
        ensures value { result ≡ div_ceil missing (self.now.inflow.k * self.now.inflow.step) }
    {
        missing.div_ceil(self.k * self.step)
    }

    /// What is there when a picture is removed that asks for so much, where so much was held when it was due and the
    /// decoder waited so long.
    fn full(&self, need: u64, have: u64, wait: u64) -> u128
        requires need { need < 2 ^ 53 }
        requires wait { wait < 2 ^ 54 }
        ensures value { let size = size_of self.now.inflow in
            let kept = if nat_lt size have then size else reach self.now in
            let come = min (kept + self.now.inflow.k * wait) (max size need) in
            result ≡ (if nat_lt have need then come else kept) }
        ensures most { result - need ≤ max self.now.held (2 ^ 52) }
    {
        let size = self.size();
        let kept = if size < have {
            u128::from(size)
        } else {
            self.reach()
        };
        if have < need {
            (kept + u128::from(self.k) * u128::from(wait)).min(u128::from(size.max(need)))
        } else {
            kept
        }
    }
}
