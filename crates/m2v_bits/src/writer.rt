ghost use Rattle.std.specs.Prelude.{◌≡◌, ℕ, ◌+◌, ◌-◌, ◌*◌, ◌/◌, ◌%◌, ◌^◌, ◌<◌, ◌≤◌, ◌++◌, [], length, take, replicate, false};
ghost use Rattle.m2v_bits.specs.Bits.{Written, bits, bits_of, packed, to_edge};

use crate::low::{joined, low};
use std::marker::Model;

/// Writes bits into a buffer, the highest bit of each byte first (clause 4.6 of ISO/IEC 13818-2).
///
/// Contracts see it as the bits written, and how many more there is room for.
#[derive(Drop)]
pub struct BitWriter {
    buf: Vec<u8>,
    used: usize,
    held: u8,
    pending: u64,
}

impl Model for BitWriter {
    ghost use Rattle.std.specs.Prelude.{◌+◌, ◌-◌, ◌*◌, ◌^◌, ◌<◌, ◌≤◌, ◌++◌, length, take};
    ghost use Rattle.m2v_bits.specs.Bits.{Written, bits, bits_of};

    ghost Value = { Written };

    ghost view = { λ w. record {
      written = bits (take w.used w.buf.items)
          ++ bits_of w.held w.pending;
      room = 8 * length w.buf.items - (8 * w.used + w.held);
    } };

    ghost invariant = { λ w. (w.held < 8) × (8 * w.used + w.held ≤ 8 * length w.buf.items)
        × (w.pending < 2 ^ w.held) × (length w.buf.items < 2 ^ 60) };
}

/// Writes the whole bytes that held bits fill, byte by byte, and gives the place after them.
#[cold]
#[inline(never)]
fn spill_near_end(buf: &mut Vec<u8>, mut at: usize, acc: u64, held: u8) -> usize
    requires width { held < 64 }
    requires room { at + held / 8 ≤ length buf.old.items }
    ensures place { result ≡ at + held / 8 }
    ensures len { length buf.new.items ≡ length buf.old.items }
    ensures written { bits (take result buf.new.items) ++ bits_of (held % 8) acc
        ≡ bits (take at buf.old.items) ++ bits_of held acc }
{
    let mut left = held;
    while left >= 8 {
        left -= 8;
        buf[at] = low(acc >> left, 8) as u8;
        at += 1;
    }
    at
}

/// The held bits as the highest of 40.
#[inline(always)]
fn raised(acc: u64, held: u8) -> u64
    requires width { held < 40 }
    requires fits { acc < 2 ^ held }
    ensures { result ≡ acc * 2 ^ (40 - held) }
{
    acc << (40 - held)
}

/// Writes the four highest bytes of a word of 40 bits.
#[inline(always)]
fn put_four(buf: &mut Vec<u8>, at: usize, word: u64)
    requires { at + 4 ≤ length buf.old.items }
    ensures len { length buf.new.items ≡ length buf.old.items }
    ensures written { bits (take (at + 4) buf.new.items) ++ bits_of 8 word
        ≡ bits (take at buf.old.items) ++ bits_of 40 word }
{
    buf[at] = low(word >> 32, 8) as u8;
    buf[at + 1] = low(word >> 24, 8) as u8;
    buf[at + 2] = low(word >> 16, 8) as u8;
    buf[at + 3] = low(word >> 8, 8) as u8;
}

/// Writes the whole bytes that held bits fill, four bytes in one step where there is room, and gives the place after
/// those that are filled.
#[inline(always)]
fn spill(buf: &mut Vec<u8>, at: usize, acc: u64, held: u8) -> usize
    requires width { held < 40 }
    requires fits { acc < 2 ^ held }
    requires room { at + held / 8 ≤ length buf.old.items }
    ensures place { result ≡ at + held / 8 }
    ensures len { length buf.new.items ≡ length buf.old.items }
    ensures written { bits (take result buf.new.items) ++ bits_of (held % 8) acc
        ≡ bits (take at buf.old.items) ++ bits_of held acc }
{
    if buf.len() - at < 4 {
        return spill_near_end(buf, at, acc, held);
    }
    put_four(buf, at, raised(acc, held));
    at + (held / 8) as usize
}

/// The first bytes of a buffer, which are what their bits fill.
fn whole_bytes(buf: &[u8], used: usize) -> &[u8]
    requires { used ≤ length buf.now }
    ensures bits { result.now ≡ take used buf.now }
    ensures packed { result.now ≡ packed (bits (take used buf.now)) }
{
    &buf[..used]
}

impl BitWriter {
    /// A writer that has written nothing, over a buffer of fewer than 2^60 bytes; its room is the whole buffer.
    #[tactic(auto, using(crate::proofs::Cursor::lengths), unfolding(crate::specs::Bits::bits_of))]
    pub fn over(buf: Vec<u8>) -> BitWriter
        requires { length buf.items < 2 ^ 60 }
        ensures written { result.written ≡ [] }
        ensures room { result.room ≡ 8 * length buf.items }
    {
        BitWriter {
            buf,
            used: 0,
            held: 0,
            pending: 0,
        }
    }

    /// How many more bits there is room for.
    pub fn room(&self) -> u64
        ensures { result ≡ self.now.room }
    {
        8 * (self.buf.len() as u64) - (8 * (self.used as u64) + self.held as u64)
    }

    /// How many bits are written.
    pub fn bit_len(&self) -> u64
        ensures { result ≡ length self.now.written }
    {
        8 * (self.used as u64) + self.held as u64
    }

    /// Nothing is written any more, and the room is the whole buffer.
    #[tactic(auto, using(crate::proofs::Cursor::lengths), unfolding(crate::specs::Bits::bits_of))]
    pub fn clear(&mut self)
        ensures written { self.new.written ≡ [] }
        ensures room { self.new.room ≡ self.old.room + length self.old.written }
    {
        self.used = 0;
        self.held = 0;
        self.pending = 0;
    }

    /// Appends the n bits of a value, the highest first.
    pub fn put(&mut self, value: u32, n: u8)
        requires width { n ≤ 32 }
        requires fits { value < 2 ^ n }
        requires room { n ≤ self.old.room }
        ensures written { self.new.written ≡ self.old.written ++ bits_of n value }
        ensures room { self.new.room + n ≡ self.old.room }
    {
        let acc = joined(self.pending, n, value as u64);
        let held = self.held + n;
        let used = spill(&mut self.buf, self.used, acc, held);
        self.used = used;
        self.held = held % 8;
        self.pending = low(acc, held % 8);
    }

    /// Zero bits up to the edge of a byte.
    pub fn align(&mut self)
        ensures written { self.new.written ≡ self.old.written
            ++ replicate (to_edge (length self.old.written)) false }
        ensures room { self.new.room + to_edge (length self.old.written) ≡ self.old.room }
    {
        let n = (8 - self.held) % 8;
        self.put(0, n);
    }

    /// The bytes that are written.
    pub fn bytes(&self) -> &[u8]
        requires { length self.now.written % 8 ≡ 0 }
        ensures bits { bits result.now ≡ self.now.written }
        ensures value { result.now ≡ packed self.now.written }
    {
        whole_bytes(&self.buf, self.used)
    }

    /// The buffer, which begins with the bytes written.
    pub fn into_buf(self) -> Vec<u8>
        requires { length self.written % 8 ≡ 0 }
        ensures begins { bits (take (length self.written / 8) result.items) ≡ self.written }
        ensures len { 8 * length result.items ≡ length self.written + self.room }
    {
        let BitWriter {
            buf,
            used: _,
            held: _,
            pending: _,
        } = self;
        buf
    }
}
