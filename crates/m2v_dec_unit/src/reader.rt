ghost use Rattle.std.specs.Prelude.{◌≡◌, ◌+◌, ◌*◌, ◌^◌, ◌<◌, ◌≤◌, length, IfSome};
ghost use Rattle.m2v_model.specs.Units.{Next, AreUnits, unit_bits};
ghost use Rattle.m2v_dec_unit.specs.Texts.{text_of, units_in, IsZeroEnded};

use crate::Unit;
use crate::search::{bytes_from, next_unit};
use std::marker::Model;

/// The units of a piece that are left, one after another.
#[derive(Drop)]
pub struct UnitReader<'a> {
    bytes: &'a [u8],
    zeros: u64,
}

impl<'a> Model for UnitReader<'a> {
    ghost use Rattle.std.specs.Prelude.{List, ℕ, ◌+◌, ◌^◌, ◌≤◌, ◌<◌, length};
    ghost use Rattle.m2v_model.specs.Units.{Units};
    ghost use Rattle.m2v_dec_unit.specs.Texts.{text_of, units_in, IsZeroEnded, BeginsUnit};

    ghost Value = { Units };

    ghost view = { λ r. units_in (text_of r.bytes.now r.zeros) };

    ghost invariant = { λ r. (length r.bytes.now + r.zeros ≤ 2 ^ 36)
        × IsZeroEnded r.bytes.now r.zeros × BeginsUnit r.bytes.now r.zeros };
}

impl<'a> UnitReader<'a> {
    /// The units of bytes and of so many zero bytes behind them. Zero bytes are left out behind a zero byte alone.
    pub fn new(bytes: &'a [u8], zeros: u64) -> UnitReader<'a>
        requires most { length bytes.now + zeros ≤ 2 ^ 36 }
        requires zeros { IsZeroEnded bytes.now zeros }
        ensures value { result ≡ units_in (text_of bytes.now zeros) }
        ensures units { AreUnits result }
        ensures bits { unit_bits result ≤ 8 * (length bytes.now + zeros) }
        ensures count { 4 * length result ≤ length bytes.now + zeros }
    {
        let first = next_unit(bytes, 0);
        let bytes = bytes_from(bytes, first);
        let zeros = if bytes.is_empty() { 0 } else { zeros };
        UnitReader { bytes, zeros }
    }

    /// Takes the next unit; None where none is left.
    pub fn next(&mut self) -> Option<Unit<'a>>
        ensures next { Next result self.old self.new }
        ensures long { IfSome result (λ u. 4 ≤ length u) }
    {
        if self.bytes.is_empty() {
            return None;
        }
        let end = next_unit(self.bytes, 4);
        let (unit, behind) = self.bytes.split_at(end);
        self.bytes = behind;
        if behind.is_empty() {
            let zeros = self.zeros;
            self.zeros = 0;
            return Some(Unit::new(unit, zeros));
        }
        Some(Unit::new(unit, 0))
    }

    /// How many bits the units that are left have.
    pub fn left(&self) -> u64
        ensures value { result ≡ unit_bits self.now }
        ensures most { result < 2 ^ 40 }
    {
        8 * (self.bytes.len() as u64 + self.zeros)
    }
}
