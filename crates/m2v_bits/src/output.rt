ghost use Rattle.std.specs.Prelude.{◌≡◌, ℕ, ◌+◌, ◌-◌, ◌^◌, ◌<◌, ◌≤◌, ◌++◌, List, [], ◌∷◌, Bool, length};
ghost use Rattle.m2v_bits.specs.Bits.{bits_of};
ghost use Rattle.m2v_bits.specs.Outputs.{Gains};

use crate::writer::BitWriter;

/// What a text is put into, code by code: a [`BitWriter`] keeps its bits, a [`BitCount`] how many they are. So one body
/// writes a text and tells its length.
pub trait BitOutput {
    // Whether all that was put can be this text, as far as the output tells.
    ghost took: { Self → List Bool → Type 0 };

    // How many more bits it takes.
    ghost space: { Self → ℕ };

    /// Appends the n bits of a value, the highest first.
    fn append(&mut self, value: u32, n: u8)
        requires width { n ≤ 32 }
        requires fits { value < 2 ^ n }
        requires room { n ≤ space self.old }
        ensures { Gains took space self.old (bits_of n value) self.new };
}

/// The bit of a flag.
#[inline(always)]
#[tactic(auto, unfolding(crate::specs::Bits::bits_of))]
pub fn flag_bit(flag: bool) -> u32
    ensures below { result < 2 }
    ensures bits { bits_of 1 result ≡ flag ∷ [] }
{
    if flag { 1 } else { 0 }
}

impl BitOutput for BitWriter {
    ghost took = { λ w text. w.written ≡ text };

    ghost space = { λ w. w.room };

    #[inline(always)]
    fn append(&mut self, value: u32, n: u8) {
        self.put(value, n);
    }
}

/// How many bits were put, 2^32 - 1 at most.
#[derive(Clone, Copy, Debug, PartialEq, Eq)]
pub struct BitCount {
    /// How many.
    pub bits: u32,
}

impl BitOutput for BitCount {
    ghost took = { λ c text. c.bits ≡ length text };

    ghost space = { λ c. 4294967295 - c.bits };

    #[inline(always)]
    fn append(&mut self, _value: u32, n: u8) {
        self.bits += u32::from(n);
    }
}
