ghost use Rattle.std.specs.Prelude.{ℕ, ◌≡◌, ◌≢◌, ◌+◌, ◌/◌, ◌%◌, ◌<◌, ◌≤◌, ◌∷◌, All, map, pos, replicate, slice_index, slice_index_or, slice_set, unsigned_abs};
ghost use Rattle.std.specs.List.{range_with_len};
ghost use Rattle.std.specs.Int.{bit_at};
ghost use Rattle.m2v_quant.specs.Kinds.{IsKind, IsLevel, IsCoefficient};
ghost use Rattle.m2v_quant.specs.Scans.{scan_order};
ghost use Rattle.m2v_quant.specs.Coefficients.{saturated_of, saturated_at, coefficient_sum};
ghost use Rattle.m2v_quant.specs.Prefix.{AreInRows, AreSaturated};
ghost use Rattle.m2v_quant.specs.Sparse.{AreKept, IsClearFrom, spread};

use crate::block_levels::BlockLevels;
use crate::inverse::{Told, later_coefficient, put_at, put_coefficient, turn_last};
use crate::kind::{BlockKind, Levels};
use crate::scans::scan;
use std::marker::Model;

/// A level and its position in scan order.
#[derive(Clone, Copy, Debug, PartialEq, Eq)]
pub struct LevelAt {
    pub position: u16,
    pub level: i16,
}

/// The levels of a block of which those that are 0 aren't kept, so that nothing is cleared for a block, and what is worked
/// out of it goes over the others alone. Contracts see all 64, as those of [`crate::Levels`].
#[derive(Drop)]
pub struct SparseLevels {
    first: i32,
    count: usize,
    later: [LevelAt; 63],
}

impl Model for SparseLevels {
    ghost use Rattle.m2v_quant.specs.declared.kind.Levels.{Levels};

    ghost Value = { Levels };

    ghost use Rattle.m2v_quant.specs.Sparse.{AreKept, spread};

    ghost view = { λ s. record { at = spread s.first s.later s.count } };

    ghost invariant = { λ s. AreKept s.first s.later s.count };
}

impl SparseLevels {
    /// All 0.
    pub fn new() -> SparseLevels
        ensures value { result.at ≡ replicate 64 (pos 0) }
    {
        let none = LevelAt {
            position: 0,
            level: 0,
        };
        SparseLevels {
            first: 0,
            count: 0,
            later: [none; 63],
        }
    }

    /// The first level stands among zeros.
    #[inline(always)]
    pub fn open(&mut self, first: i32)
        requires level { IsLevel first }
        ensures value { self.new.at ≡ first ∷ replicate 63 (pos 0) }
        ensures clear { IsClearFrom 1 self.new.at }
    {
        self.first = first;
        self.count = 0;
    }

    /// Sets the level of a position, which isn't the first, behind all that aren't 0.
    #[inline(always)]
    pub fn put_later(&mut self, position: usize, level: i32)
        requires later { 1 ≤ position }
        requires inside { position < 64 }
        requires level { IsLevel level }
        requires some { level ≢ pos 0 }
        requires clear { IsClearFrom position self.old.at }
        ensures value { self.new.at ≡ slice_set self.old.at position level }
        ensures clear { IsClearFrom (position + 1) self.new.at }
    {
        self.later[self.count] = LevelAt {
            position: position as u16,
            level: level as i16,
        };
        self.count += 1;
    }

    /// Sets the level of a position behind all that aren't 0.
    #[inline(always)]
    pub fn put(&mut self, position: usize, level: i32)
        requires inside { position < 64 }
        requires level { IsLevel level }
        requires some { level ≢ pos 0 }
        requires clear { IsClearFrom position self.old.at }
        ensures value { self.new.at ≡ slice_set self.old.at position level }
        ensures clear { IsClearFrom (position + 1) self.new.at }
    {
        // a block has 64 levels, which only the fields say
        let _first = &self.first;
        if position == 0 {
            self.open(level);
        } else {
            self.put_later(position, level);
        }
    }

    /// The level of the first position.
    #[inline(always)]
    pub fn first_level(&self) -> i32
        ensures value { result ≡ slice_index_or self.now.at 0 (pos 0) }
    {
        self.first
    }

    /// All 64 levels.
    pub fn dense(&self) -> Levels
        ensures value { result ≡ self.now }
    {
        Levels {
            at: all_of(self.first, &self.later, self.count),
        }
    }
}

/// The first level and those that are kept behind it, among zeros.
fn all_of(first: i32, later: &[LevelAt; 63], count: usize) -> [i32; 64]
    requires kept { AreKept first later.now count }
    ensures value { result ≡ spread first later.now count }
{
    let mut at = [0; 64];
    at[0] = first;
    for i in 0..count {
        at[later[i].position as usize] = i32::from(later[i].level);
    }
    at
}

/// The place of one kept level more, and what is told with it.
#[inline(always)]
fn put_kept(
    x: &LevelAt,
    kind: &BlockKind,
    intra: bool,
    alternate: bool,
    out: &mut [i32; 64],
    told: Told,
) -> Told
    requires later { 1 ≤ x.now.position }
    requires position { x.now.position < 64 }
    requires level { IsLevel x.now.level }
    requires some { x.now.level ≢ pos 0 }
    requires kind { IsKind kind.now }
    requires intra { kind.now.intra ≡ intra }
    requires alternate { kind.now.alternate ≡ alternate }
    ensures value { out.new ≡ slice_set out.old (slice_index (scan_order kind.now.alternate)
        x.now.position)
        (saturated_of kind.now (slice_index (scan_order kind.now.alternate) x.now.position)
        x.now.level) }
    ensures within { slice_index (scan_order kind.now.alternate) x.now.position < 64 }
    ensures parity { result.parity % 2
        ≡ (told.parity + unsigned_abs
        (saturated_of kind.now (slice_index (scan_order kind.now.alternate) x.now.position)
        x.now.level)) % 2 }
    ensures row { bit_at result.rows
        (slice_index (scan_order kind.now.alternate) x.now.position / 8) ≡ 1 }
    ensures rows { (y : ℕ) → bit_at result.rows y ≡ 0 → bit_at told.rows y ≡ 0 }
{
    let place = scan(alternate, x.position as u8);
    let level = i32::from(x.level);
    put_at(
        place,
        later_coefficient(kind, intra, place, level),
        out,
        told,
    )
}

/// The coefficients of the first level and of so many that are kept behind it, where all are 0 yet. Whether the block is
/// intra and goes by the alternate scan is the kind's, once more, so that neither is asked at each level.
#[inline(always)]
fn put_all(
    first: i32,
    later: &[LevelAt; 63],
    count: usize,
    kind: &BlockKind,
    intra: bool,
    alternate: bool,
    out: &mut [i32; 64],
) -> Told
    requires kept { AreKept first later.now count }
    requires kind { IsKind kind.now }
    requires intra { kind.now.intra ≡ intra }
    requires alternate { kind.now.alternate ≡ alternate }
    requires zeros { out.old ≡ replicate 64 (pos 0) }
    ensures { AreSaturated (spread first later.now count) kind.now out.new result }
{
    let none = Told { parity: 0, rows: 0 };
    let mut told = put_coefficient(first, kind, intra, alternate, 0, out, none);
    for i in 0..count {
        told = put_kept(&later[i], kind, intra, alternate, out, told);
    }
    told
}

/// The same, by the kind's scan.
#[inline(always)]
fn put_by_scan(
    first: i32,
    later: &[LevelAt; 63],
    count: usize,
    kind: &BlockKind,
    intra: bool,
    out: &mut [i32; 64],
) -> Told
    requires kept { AreKept first later.now count }
    requires kind { IsKind kind.now }
    requires intra { kind.now.intra ≡ intra }
    requires zeros { out.old ≡ replicate 64 (pos 0) }
    ensures { AreSaturated (spread first later.now count) kind.now out.new result }
{
    if kind.alternate {
        return put_all(first, later, count, kind, intra, true, out);
    }
    put_all(first, later, count, kind, intra, false, out)
}

/// The same, by what the kind says.
#[inline(always)]
fn put_by_kind(
    first: i32,
    later: &[LevelAt; 63],
    count: usize,
    kind: &BlockKind,
    out: &mut [i32; 64],
) -> Told
    requires kept { AreKept first later.now count }
    requires kind { IsKind kind.now }
    requires zeros { out.old ≡ replicate 64 (pos 0) }
    ensures { AreSaturated (spread first later.now count) kind.now out.new result }
{
    if kind.intra {
        return put_by_scan(first, later, count, kind, true, out);
    }
    put_by_scan(first, later, count, kind, false, out)
}

/// The coefficients before mismatch control, and what is told of them.
#[inline(always)]
fn saturate(
    first: i32,
    later: &[LevelAt; 63],
    count: usize,
    kind: &BlockKind,
    out: &mut [i32; 64],
) -> Told
    requires kept { AreKept first later.now count }
    requires kind { IsKind kind.now }
    ensures value { out.new ≡ map (saturated_at (spread first later.now count) kind.now)
        (range_with_len 0 64) }
    ensures parity { result.parity % 2 ≡ unsigned_abs (coefficient_sum 64
        (saturated_at (spread first later.now count) kind.now)) % 2 }
    ensures rows { AreInRows result.rows out.new }
    ensures within { All IsCoefficient out.new }
{
    *out = [0; 64];
    put_by_kind(first, later, count, kind, out)
}

impl BlockLevels for SparseLevels {
    ghost list = { λ l. l.at };

    fn coefficients(&self, kind: &BlockKind, out: &mut [i32; 64]) -> u32 {
        let told = saturate(self.first, &self.later, self.count, kind, out);
        turn_last(out, told)
    }
}
