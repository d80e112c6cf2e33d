ghost use Rattle.std.specs.Prelude.{◌≡◌, ◌≢◌, ◌+◌, ◌*◌, ◌/◌, ◌%◌, ◌^◌, ◌<◌, ◌≤◌, ◌∷◌, [], cond, min, slice_index, slice_index_or, slice_set, ◌-◌, IsTrue, ℕ, All, ℤ, pos, ◌*ℤ◌, unsigned_abs, nat_eq, if◌then◌else◌, map, replicate};
ghost use Rattle.std.specs.List.{range_with_len};
ghost use Rattle.std.specs.Int.{bit_at};
ghost use Rattle.m2v_quant.specs.Kinds.{IsKind, IsLevel, IsCoefficient};
ghost use Rattle.m2v_quant.specs.Quantiser.{with_sign};
ghost use Rattle.m2v_quant.specs.Prefix.{AreInRows, IsUpTo};
ghost use Rattle.m2v_quant.specs.Scans.{scan_order};
ghost use Rattle.m2v_quant.specs.Coefficients.{ac_coefficient, dc_coefficient, saturated, saturated_of, saturated_at, coefficients_of, coefficient_sum, other_parity};

use crate::kind::{BlockKind, Levels};
use crate::scans::scan;

/// The product of matrix value and scale of a raster place.
#[inline(always)]
pub fn step(kind: &BlockKind, place: u8) -> u32
    requires kind { IsKind kind.now }
    requires place { place < 64 }
    ensures value { result ≡ slice_index kind.now.matrix place * kind.now.scale }
    ensures least { 1 ≤ result }
    ensures most { result ≤ 28560 }
{
    u32::from(kind.matrix[place as usize]) * kind.scale
}

/// What a block that is not intra adds to twice the size of a level.
#[inline(always)]
fn extra(intra: bool, size: u32) -> u32
    ensures value { result ≡ cond intra 0 (min size 1) }
    ensures most { result ≤ 1 }
{
    if intra { 0 } else { size.min(1) }
}

/// The same of a level that isn't 0.
#[inline(always)]
fn some_extra(intra: bool, _size: u32) -> u32
    requires { 1 ≤ _size }
    ensures value { result ≡ cond intra 0 (min _size 1) }
    ensures most { result ≤ 1 }
{
    if intra { 0 } else { 1 }
}

/// The size of a coefficient by that of its level, and by what is added to twice that.
#[inline(always)]
fn ac_size(extra: u32, step: u32, size: u32) -> u32
    requires extra { extra ≤ 1 }
    requires step { step ≤ 28560 }
    requires size { size ≤ 2047 }
    ensures { result ≡ (2 * size + extra) * step / 32 }
{
    (2 * size + extra) * step / 32
}

/// A number of this size and the sign of `like`, kept within -2048 to 2047.
#[inline(always)]
#[tactic(auto, unfolding(crate::specs::Coefficients::saturated, crate::specs::Quantiser::with_sign))]
fn kept(like: i32, size: u32) -> i32
    ensures value { result ≡ saturated (with_sign like size) }
    ensures within { IsCoefficient result }
{
    if like < 0 {
        -(size.min(2048) as i32)
    } else {
        size.min(2047) as i32
    }
}

/// A coefficient that is no intra DC.
#[inline(always)]
fn ac(intra: bool, step: u32, level: i32) -> i32
    requires step { step ≤ 28560 }
    requires level { IsLevel level }
    ensures value { result ≡ saturated (ac_coefficient intra step level) }
    ensures within { IsCoefficient result }
{
    let size = level.unsigned_abs();
    kept(level, ac_size(extra(intra, size), step, size))
}

/// The same of a level that isn't 0.
#[inline(always)]
fn some_ac(intra: bool, step: u32, level: i32) -> i32
    requires step { step ≤ 28560 }
    requires level { IsLevel level }
    requires some { level ≢ pos 0 }
    ensures value { result ≡ saturated (ac_coefficient intra step level) }
    ensures within { IsCoefficient result }
{
    let size = level.unsigned_abs();
    kept(level, ac_size(some_extra(intra, size), step, size))
}

/// An intra DC coefficient.
#[inline(always)]
fn dc(precision: u8, level: i32) -> i32
    requires precision { precision ≤ 3 }
    requires level { IsLevel level }
    ensures value { result ≡ saturated (dc_coefficient precision level) }
    ensures within { IsCoefficient result }
{
    kept(level, (8u32 >> precision) * level.unsigned_abs())
}

/// The coefficient of a raster place before mismatch control, by its level. Whether the block is intra is the kind's, once
/// more: what is known where it is called needs no test here.
#[inline(always)]
#[tactic(auto, unfolding(crate::specs::Coefficients::saturated_of))]
fn coefficient(kind: &BlockKind, intra: bool, place: u8, level: i32) -> i32
    requires kind { IsKind kind.now }
    requires intra { kind.now.intra ≡ intra }
    requires place { place < 64 }
    requires level { IsLevel level }
    ensures value { result ≡ saturated_of kind.now place level }
    ensures within { IsCoefficient result }
{
    if intra && place == 0 {
        return dc(kind.precision, level);
    }
    ac(intra, step(kind, place), level)
}

/// The coefficient of a raster place other than the first, by its level, which isn't 0.
#[inline(always)]
pub fn later_coefficient(kind: &BlockKind, intra: bool, place: u8, level: i32) -> i32
    requires kind { IsKind kind.now }
    requires intra { kind.now.intra ≡ intra }
    requires later { 1 ≤ place }
    requires place { place < 64 }
    requires level { IsLevel level }
    requires some { level ≢ pos 0 }
    ensures value { result ≡ saturated_of kind.now place level }
    ensures within { IsCoefficient result }
{
    some_ac(intra, step(kind, place), level)
}

/// A number of the parity of a sum with one more number.
#[inline(always)]
fn parity_with(parity: u32, coefficient: i32) -> u32
    requires { IsCoefficient coefficient }
    ensures { result % 2 ≡ (parity + unsigned_abs coefficient) % 2 }
{
    parity ^ coefficient.cast_unsigned()
}

/// A coefficient of the other parity.
#[inline(always)]
#[tactic(auto, unfolding(crate::specs::Coefficients::other_parity))]
pub fn turned(coefficient: i32) -> i32
    requires { IsCoefficient coefficient }
    ensures value { result ≡ other_parity coefficient }
    ensures within { IsCoefficient result }
{
    if coefficient.unsigned_abs() % 2 == 0 {
        coefficient + 1
    } else {
        coefficient - 1
    }
}

/// What is told of the coefficients that are put.
#[derive(Clone, Copy)]
pub struct Told {
    /// It is even where their sum is.
    pub parity: u32,
    /// The rows of the block in which they stand: bit y is 0 where none stands in row y.
    pub rows: u32,
}

/// Rows with that of one more place.
#[inline(always)]
fn rows_with(rows: u32, place: u8) -> u32
    requires { place < 64 }
    ensures here { bit_at result (place / 8) ≡ 1 }
    ensures others { (y : ℕ) → bit_at result y ≡ 0 → bit_at rows y ≡ 0 }
{
    rows | (1 << (place / 8))
}

/// Puts one coefficient more, and tells it with the others.
#[inline(always)]
pub fn put_at(place: u8, coefficient: i32, out: &mut [i32; 64], told: Told) -> Told
    requires place { place < 64 }
    requires coefficient { IsCoefficient coefficient }
    ensures value { out.new ≡ slice_set out.old place coefficient }
    ensures parity { result.parity % 2 ≡ (told.parity + unsigned_abs coefficient) % 2 }
    ensures row { bit_at result.rows (place / 8) ≡ 1 }
    ensures rows { (y : ℕ) → bit_at result.rows y ≡ 0 → bit_at told.rows y ≡ 0 }
{
    out[place as usize] = coefficient;
    Told {
        parity: parity_with(told.parity, coefficient),
        rows: rows_with(told.rows, place),
    }
}

/// The place of one level more, and what is told with it.
#[inline(always)]
pub fn put_coefficient(
    level: i32,
    kind: &BlockKind,
    intra: bool,
    alternate: bool,
    i: u8,
    out: &mut [i32; 64],
    told: Told,
) -> Told
    requires level { IsLevel level }
    requires kind { IsKind kind.now }
    requires intra { kind.now.intra ≡ intra }
    requires alternate { kind.now.alternate ≡ alternate }
    requires i { i < 64 }
    ensures value { out.new ≡ slice_set out.old (slice_index (scan_order kind.now.alternate) i)
        (saturated_of kind.now (slice_index (scan_order kind.now.alternate) i) level) }
    ensures within { slice_index (scan_order kind.now.alternate) i < 64 }
    ensures parity { result.parity % 2
        ≡ (told.parity + unsigned_abs
        (saturated_of kind.now (slice_index (scan_order kind.now.alternate) i) level)) % 2 }
    ensures row { bit_at result.rows (slice_index (scan_order kind.now.alternate) i / 8) ≡ 1 }
    ensures rows { (y : ℕ) → bit_at result.rows y ≡ 0 → bit_at told.rows y ≡ 0 }
{
    let place = scan(alternate, i);
    put_at(place, coefficient(kind, intra, place, level), out, told)
}

/// The coefficients of one level more.
#[inline(always)]
fn put_level(
    levels: &Levels,
    kind: &BlockKind,
    intra: bool,
    alternate: bool,
    i: u8,
    out: &mut [i32; 64],
    told: Told,
) -> Told
    requires kind { IsKind kind.now }
    requires intra { kind.now.intra ≡ intra }
    requires alternate { kind.now.alternate ≡ alternate }
    requires levels { All IsLevel levels.now.at }
    requires i { i < 64 }
    requires before { IsUpTo levels.now.at kind.now i out.old told }
    ensures { IsUpTo levels.now.at kind.now (i + 1) out.new result }
{
    let level = levels.at[i as usize];
    if level == 0 {
        return told;
    }
    put_coefficient(level, kind, intra, alternate, i, out, told)
}

/// Whether so many levels are 0, from one on.
#[inline(always)]
fn is_empty(levels: &Levels, from: u8, count: u8) -> bool
    requires { from + count ≤ 64 }
    ensures { IsTrue result → (j : ℕ) → j < count → slice_index_or levels.now.at (from + j) (pos 0)
        ≡ pos 0 }
{
    let mut bits = 0;
    for j in 0..count {
        bits |= levels.at[(from + j) as usize].cast_unsigned();
    }
    bits == 0
}

/// How many groups of eight levels hold all that aren't 0, or some more: 2, 4 or 8.
#[inline(always)]
fn groups(levels: &Levels) -> u8
    ensures within { result ≤ 8 }
    ensures zeros { (j : ℕ) → j < 64 - 8 * result
        → slice_index_or levels.now.at (8 * result + j) (pos 0) ≡ pos 0 }
{
    if is_empty(levels, 16, 48) {
        return 2;
    }
    if is_empty(levels, 32, 32) { 4 } else { 8 }
}

/// The coefficients of four levels more.
#[inline(always)]
fn put_four(
    levels: &Levels,
    kind: &BlockKind,
    intra: bool,
    alternate: bool,
    from: u8,
    out: &mut [i32; 64],
    told: Told,
) -> Told
    requires kind { IsKind kind.now }
    requires intra { kind.now.intra ≡ intra }
    requires alternate { kind.now.alternate ≡ alternate }
    requires levels { All IsLevel levels.now.at }
    requires from { from ≤ 60 }
    requires before { IsUpTo levels.now.at kind.now from out.old told }
    ensures { IsUpTo levels.now.at kind.now (from + 4) out.new result }
{
    let one = put_level(levels, kind, intra, alternate, from, out, told);
    let two = put_level(levels, kind, intra, alternate, from + 1, out, one);
    let three = put_level(levels, kind, intra, alternate, from + 2, out, two);
    put_level(levels, kind, intra, alternate, from + 3, out, three)
}

/// The coefficients of eight levels more.
#[inline(always)]
fn put_group(
    levels: &Levels,
    kind: &BlockKind,
    intra: bool,
    alternate: bool,
    from: u8,
    out: &mut [i32; 64],
    told: Told,
) -> Told
    requires kind { IsKind kind.now }
    requires intra { kind.now.intra ≡ intra }
    requires alternate { kind.now.alternate ≡ alternate }
    requires levels { All IsLevel levels.now.at }
    requires from { from ≤ 56 }
    requires before { IsUpTo levels.now.at kind.now from out.old told }
    ensures { IsUpTo levels.now.at kind.now (from + 8) out.new result }
{
    if is_empty(levels, from, 8) {
        return told;
    }
    let half = put_four(levels, kind, intra, alternate, from, out, told);
    put_four(levels, kind, intra, alternate, from + 4, out, half)
}

/// The coefficients of so many groups of eight levels, where all of the block are 0 yet. Whether the block is intra and
/// goes by the alternate scan is the kind's, once more, so that neither is asked at each level.
#[inline(always)]
fn put_groups(
    levels: &Levels,
    kind: &BlockKind,
    intra: bool,
    alternate: bool,
    end: u8,
    out: &mut [i32; 64],
) -> Told
    requires kind { IsKind kind.now }
    requires intra { kind.now.intra ≡ intra }
    requires alternate { kind.now.alternate ≡ alternate }
    requires levels { All IsLevel levels.now.at }
    requires end { end ≤ 8 }
    requires zeros { out.old ≡ replicate 64 (pos 0) }
    ensures { IsUpTo levels.now.at kind.now (8 * end) out.new result }
{
    let mut told = Told { parity: 0, rows: 0 };
    for group in 0..end {
        told = put_group(levels, kind, intra, alternate, 8 * group, out, told);
    }
    told
}

/// The same, by the kind's scan.
#[inline(always)]
fn put_by_scan(levels: &Levels, kind: &BlockKind, intra: bool, end: u8, out: &mut [i32; 64]) -> Told
    requires kind { IsKind kind.now }
    requires intra { kind.now.intra ≡ intra }
    requires levels { All IsLevel levels.now.at }
    requires end { end ≤ 8 }
    requires zeros { out.old ≡ replicate 64 (pos 0) }
    ensures { IsUpTo levels.now.at kind.now (8 * end) out.new result }
{
    if kind.alternate {
        return put_groups(levels, kind, intra, true, end, out);
    }
    put_groups(levels, kind, intra, false, end, out)
}

/// The same, by what the kind says.
#[inline(always)]
fn put_by_kind(levels: &Levels, kind: &BlockKind, end: u8, out: &mut [i32; 64]) -> Told
    requires kind { IsKind kind.now }
    requires levels { All IsLevel levels.now.at }
    requires end { end ≤ 8 }
    requires zeros { out.old ≡ replicate 64 (pos 0) }
    ensures { IsUpTo levels.now.at kind.now (8 * end) out.new result }
{
    if kind.intra {
        return put_by_scan(levels, kind, true, end, out);
    }
    put_by_scan(levels, kind, false, end, out)
}

/// The coefficients of levels before mismatch control, and what is told of them. Most levels are 0, and stand in
/// groups: what is written is the places of the others.
#[inline(always)]
fn saturate(levels: &Levels, kind: &BlockKind, out: &mut [i32; 64]) -> Told
    requires kind { IsKind kind.now }
    requires levels { All IsLevel levels.now.at }
    ensures value { out.new ≡ map (saturated_at levels.now.at kind.now) (range_with_len 0 64) }
    ensures parity { result.parity % 2
        ≡ unsigned_abs (coefficient_sum 64 (saturated_at levels.now.at kind.now)) % 2 }
    ensures rows { AreInRows result.rows out.new }
    ensures within { All IsCoefficient out.new }
{
    *out = [0; 64];
    let end = groups(levels);
    put_by_kind(levels, kind, end, out)
}

/// Turns the last of the coefficients where the sum of all is even: which rows hold one other than 0 then.
#[inline(always)]
pub fn turn_last(out: &mut [i32; 64], told: Told) -> u32
    requires within { All IsCoefficient out.old }
    requires rows { AreInRows told.rows out.old }
    ensures even { told.parity % 2 ≡ 0
        → out.new ≡ slice_set out.old 63 (other_parity (slice_index_or out.old 63 (pos 0))) }
    ensures odd { told.parity % 2 ≢ 0 → out.new ≡ out.old }
    ensures rows { AreInRows result out.new }
    ensures within { All IsCoefficient out.new }
{
    if told.parity % 2 != 0 {
        return told.rows;
    }
    out[63] = turned(out[63]);
    rows_with(told.rows, 63)
}

/// The 64 coefficients of a block, those of [`dequantise`], and which rows hold one other than 0: bit y is 0 where row y
/// holds none.
#[inline(always)]
pub fn dequantise_rows(levels: &Levels, kind: &BlockKind, out: &mut [i32; 64]) -> u32
    requires kind { IsKind kind.now }
    requires levels { All IsLevel levels.now.at }
    ensures value { out.new ≡ coefficients_of levels.now.at kind.now }
    ensures rows { AreInRows result out.new }
    ensures coefficients { All IsCoefficient out.new }
{
    let told = saturate(levels, kind, out);
    turn_last(out, told)
}

/// The 64 coefficients of a block in raster order, each from -2048 to 2047, of its levels (clauses 7.3 and 7.4):
/// inverse scan, inverse quantisation, saturation and mismatch control.
pub fn dequantise(levels: &Levels, kind: &BlockKind, out: &mut [i32; 64])
    requires kind { IsKind kind.now }
    requires levels { All IsLevel levels.now.at }
    ensures value { out.new ≡ coefficients_of levels.now.at kind.now }
    ensures coefficients { All IsCoefficient out.new }
{
    dequantise_rows(levels, kind, out);
}
