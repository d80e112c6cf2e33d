ghost use Rattle.std.specs.Prelude.{◌≡◌, ◌+◌, ◌*◌, ◌≤◌, ◌<◌, ◌^◌, length};
ghost use Rattle.m2v_model.specs.Units.{body};
ghost use Rattle.m2v_model.specs.Streams.{value_of};
ghost use Rattle.m2v_dec_unit.specs.Texts.{text_of};

use crate::search::bytes_from;
use m2v_bits::BitReader;
use std::marker::Model;

/// A unit of a stream: from its start code up to the next one (clause 5.2.3). Contracts see its bytes, the zero bytes
/// that end it among them.
#[derive(Drop)]
pub struct Unit<'a> {
    bytes: &'a [u8],
    zeros: u64,
}

impl<'a> Model for Unit<'a> {
    ghost use Rattle.std.specs.Prelude.{List, ℕ, ◌+◌, ◌^◌, ◌≤◌, length};
    ghost use Rattle.m2v_dec_unit.specs.Texts.{text_of};

    ghost Value = { List ℕ };

    ghost view = { λ u. text_of u.bytes.now u.zeros };

    ghost invariant = { λ u. (4 ≤ length u.bytes.now) × (length u.bytes.now + u.zeros ≤ 2 ^ 36) };
}

impl<'a> Unit<'a> {
    /// A unit of these bytes and of so many zero bytes.
    pub fn new(bytes: &'a [u8], zeros: u64) -> Unit<'a>
        requires code { 4 ≤ length bytes.now }
        requires most { length bytes.now + zeros ≤ 2 ^ 36 }
        ensures { result ≡ text_of bytes.now zeros }
    {
        Unit { bytes, zeros }
    }

    /// The value of its start code.
    pub fn value(&self) -> u8
        ensures { result ≡ value_of self.now }
    {
        self.bytes[3]
    }

    /// Its bits behind the start code.
    pub fn body(&self) -> BitReader<'a>
        ensures rest { result.rest ≡ body self.now }
        ensures text { result.text ≡ body self.now }
        ensures short { length result.text < 2 ^ 40 }
    {
        BitReader::with_zeros(bytes_from(self.bytes, 4), 8 * self.zeros)
    }

    /// How many bits it has.
    pub fn bits(&self) -> u64
        ensures value { result ≡ 8 * length self.now }
        ensures most { result < 2 ^ 40 }
    {
        8 * (self.bytes.len() as u64 + self.zeros)
    }
}
