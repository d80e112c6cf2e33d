ghost use Rattle.std.specs.Prelude.{◌≡◌, ℕ, ◌+◌, ◌-◌, ◌*◌, ◌/◌, ◌%◌, ◌^◌, ◌<◌, ◌≤◌, ◌++◌, ◌∷◌, [], length, take, drop, slice_index, ◌↔◌, IsNone, not, IsSome, IfSome, IsTrue, replicate, false};
ghost use Rattle.m2v_bits.specs.Bits.{Unread, IsSound, bits, bits_of, number, ahead, past, all_zero, first_one, padded};

use crate::low::low;
use std::marker::Model;

/// Reads bits from bytes, the highest bit of each byte first (clause 4.6 of ISO/IEC 13818-2).
///
/// Contracts see it as its whole text of bits, the place of the next bit, and the bits from there on. Zero bits that
/// end the text need not be kept as bytes: a unit may have any number of zero bytes behind what it says.
#[derive(Drop)]
pub struct BitReader<'a> {
    bytes: &'a [u8],
    zeros: u64,
    place: u64,
}

impl<'a> Model for BitReader<'a> {
    ghost use Rattle.std.specs.Prelude.{◌+◌, ◌*◌, ◌^◌, ◌<◌, ◌≤◌, length, drop};
    ghost use Rattle.m2v_bits.specs.Bits.{Unread, bits, padded};

    ghost Value = { Unread };

    ghost view = { λ r. record {
      text = padded (bits r.bytes.now) r.zeros;
      place = r.place;
      rest = drop r.place (padded (bits r.bytes.now) r.zeros);
    } };

    ghost invariant = { λ r. (r.place ≤ 8 * length r.bytes.now + r.zeros)
        × (8 * length r.bytes.now + r.zeros < 2 ^ 63) };
}

/// The byte at i, or 0 past the end.
#[inline(always)]
fn byte_at(bytes: &[u8], i: usize) -> u64
    ensures value { result ≡ slice_index bytes.now i }
    ensures byte { result < 256 }
{
    if i < bytes.len() { bytes[i] as u64 } else { 0 }
}

/// Five bytes from i on where the text ends within eight, zeros past the end.
#[cold]
#[inline(never)]
fn last_window(bytes: &[u8], i: usize) -> u64
    requires { i < 2 ^ 60 }
    ensures { bits_of 40 result ≡ ahead 40 (drop (8 * i) (bits bytes.now)) }
{
    let a = byte_at(bytes, i);
    let b = byte_at(bytes, i + 1);
    let c = byte_at(bytes, i + 2);
    let d = byte_at(bytes, i + 3);
    let e = byte_at(bytes, i + 4);
    (((a * 256 + b) * 256 + c) * 256 + d) * 256 + e
}

/// Five bytes from i on, zeros past the end: one load wherever eight bytes are there.
#[inline(always)]
fn window(bytes: &[u8], i: usize) -> u64
    requires { i < 2 ^ 60 }
    ensures { bits_of 40 result ≡ ahead 40 (drop (8 * i) (bits bytes.now)) }
{
    if i + 8 > bytes.len() {
        return last_window(bytes, i);
    }
    let word = u64::from_be_bytes([
        bytes[i],
        bytes[i + 1],
        bytes[i + 2],
        bytes[i + 3],
        bytes[i + 4],
        bytes[i + 5],
        bytes[i + 6],
        bytes[i + 7],
    ]);
    word >> 24
}

impl<'a> BitReader<'a> {
    /// A reader at the first bit of fewer than 2^60 bytes.
    pub fn new(bytes: &'a [u8]) -> BitReader<'a>
        requires { length bytes.now < 2 ^ 60 }
        ensures { result ≡ record { text = bits bytes.now; place = 0; rest = bits bytes.now } }
    {
        BitReader {
            bytes,
            zeros: 0,
            place: 0,
        }
    }

    /// A reader at the first bit of bytes behind which so many zero bits end the text, fewer than 2^63 bits in all.
    pub fn with_zeros(bytes: &'a [u8], zeros: u64) -> BitReader<'a>
        requires { 8 * length bytes.now + zeros < 2 ^ 63 }
        ensures { result ≡ record {
          text = padded (bits bytes.now) zeros;
          place = 0;
          rest = padded (bits bytes.now) zeros;
        } }
    {
        BitReader {
            bytes,
            zeros,
            place: 0,
        }
    }

    /// How many bits were taken.
    #[inline(always)]
    pub fn place(&self) -> u64
        ensures value { result ≡ self.now.place }
        ensures sound { IsSound self.now }
    {
        self.place
    }

    /// How many bits are left. Readers of elements tell the place of a fault by it.
    #[inline(always)]
    pub fn left(&self) -> u64
        ensures value { result ≡ length self.now.rest }
        ensures below { result < 2 ^ 63 }
        ensures text { result ≤ length self.now.text }
    {
        8 * (self.bytes.len() as u64) + self.zeros - self.place
    }

    /// The next n bits as a number, the highest first; zeros past the end.
    #[inline(always)]
    #[tactic(auto, using(crate::proofs::Cursor::lengths, std::proofs::lemmas::Nat::mod_below, std::proofs::lemmas::Nat::pow_pos))]
    pub fn peek(&self, n: u8) -> u32
        requires { n ≤ 32 }
        ensures value { result ≡ number (ahead n self.now.rest) }
        ensures below { result < 2 ^ n }
        ensures whole { n ≤ length self.now.rest → result ≡ number (take n self.now.rest) }
    {
        let inside = (self.place % 8) as u8;
        let w = window(self.bytes, (self.place / 8) as usize);
        low(w >> (40 - inside - n), n) as u32
    }

    /// The next n bits as a number, where seven whole bytes stand behind the one that holds the next bit, so that 57 bits
    /// are left at least; nothing near the end. A reader of short codes goes by it without asking how many bits are left.
    #[inline(always)]
    pub fn peek_inside(&self, n: u8) -> Option<u32>
        requires { n ≤ 32 }
        ensures value { IfSome result (λ v. v ≡ number (ahead n self.now.rest)) }
        ensures below { IfSome result (λ v. v < 2 ^ n) }
        ensures left { IsSome result → 57 ≤ length self.now.rest }
    {
        if (self.place / 8) as usize + 8 > self.bytes.len() {
            return None;
        }
        Some(self.peek(n))
    }

    /// Goes n bits on. A reader of codes peeks once and then skips what it used.
    #[inline(always)]
    pub fn skip(&mut self, n: u8)
        requires { n ≤ length self.old.rest }
        ensures { self.new ≡ past n self.old }
    {
        self.place += n as u64;
    }

    /// Takes the next n bits as a number, or nothing where fewer are left.
    #[inline(always)]
    pub fn take(&mut self, n: u8) -> Option<u32>
        requires { n ≤ 32 }
        ensures none { IsNone result ↔ (length self.old.rest < n) }
        ensures stays { IsNone result → self.new ≡ self.old }
        ensures some { IfSome result (λ v. (self.new ≡ past n self.old)
            × (v ≡ number (take n self.old.rest))) }
        ensures below { IfSome result (λ v. v < 2 ^ n) }
    {
        if self.left() < n as u64 {
            return None;
        }
        let v = self.peek(n);
        self.skip(n);
        Some(v)
    }

    /// Whether all bits that are left are 0. Where a 1 stands among the next 32 bits one look tells.
    #[inline(always)]
    pub fn rest_is_zero(&self) -> bool
        ensures { result ≡ all_zero self.now.rest }
    {
        if self.peek(32) != 0 {
            return false;
        }
        self.is_zero_throughout()
    }

    /// Whether all bits that are left are 0, 32 at a time.
    #[cold]
    #[inline(never)]
    fn is_zero_throughout(&self) -> bool
        ensures { result ≡ all_zero self.now.rest }
    {
        let (_, found) = self.past_zeros();
        !found
    }

    /// Another reader at the same bit, for a place before the one that is read to.
    #[inline(always)]
    pub fn fork(&self) -> BitReader<'a>
        ensures { result ≡ self.now }
    {
        BitReader {
            bytes: self.bytes,
            zeros: self.zeros,
            place: self.place,
        }
    }

    /// How many bits are left from the first 1 on, 0 where there is none: the place of a bit 1
    /// that stands behind a header's last element.
    pub fn left_from_one(&self) -> u64
        ensures value { result ≡ first_one self.now.rest }
        ensures within { result ≤ length self.now.rest }
        ensures text { result ≤ length self.now.text }
    {
        let (near, _) = self.past_zeros();
        near.left_from_near_one()
    }

    /// Another reader of the same text, behind zero bits, 32 at a time, and whether a 1 is left.
    fn past_zeros(&self) -> (BitReader<'a>, bool)
        ensures text { result.0.text ≡ self.now.text }
        ensures one { first_one result.0.rest ≡ first_one self.now.rest }
        ensures within { length result.0.rest ≤ length self.now.rest }
        ensures found { all_zero self.now.rest ≡ not result.1 }
    {
        let mut ahead = self.fork();
        while ahead.left() > self.zeros {
            let n = (ahead.left() - self.zeros).min(32) as u8;
            if ahead.peek(n) != 0 {
                return (ahead, true);
            }
            ahead.skip(n);
        }
        (ahead, false)
    }

    /// How many bits are left from the first 1 on, bit by bit.
    fn left_from_near_one(&self) -> u64
        ensures value { result ≡ first_one self.now.rest }
        ensures within { result ≤ length self.now.rest }
    {
        let mut ahead = self.fork();
        while ahead.left() > self.zeros {
            if ahead.peek(1) != 0 {
                return ahead.left();
            }
            ahead.skip(1);
        }
        0
    }

    /// Goes to the end.
    pub fn finish(&mut self)
        ensures text { self.new.text ≡ self.old.text }
        ensures rest { self.new.rest ≡ [] }
    {
        self.place = 8 * (self.bytes.len() as u64) + self.zeros;
    }
}
