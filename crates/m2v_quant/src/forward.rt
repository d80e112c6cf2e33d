ghost use Rattle.std.specs.Prelude.{◌≡◌, ◌*◌, ◌/◌, ◌<◌, ◌≤◌, ◌&&◌, not, cond, nat_eq, replicate, true, false, All, IfSome, slice_index, pos, neg_ℤ, ◌≤ℤ◌, ◌+ℤ◌, ◌*ℤ◌, unsigned_abs};
ghost use Rattle.std.specs.Int.{bit_at, int_shr, int_max, int_min};
ghost use Rattle.std.specs.Int.RustNames.{int_div};
ghost use Rattle.m2v_quant.specs.Kinds.{IsKind, IsLevel, IsTransformed};
ghost use Rattle.m2v_quant.specs.Marks.{level_of_place, AreMarked, ArePlacedBut, IsStepOf};
ghost use Rattle.m2v_quant.specs.Quantiser.{dc_level, with_sign, ac_level, levels_of, is_empty};

use crate::inverse::step;
use crate::kind::{BlockKind, Levels};
use crate::marks::{behind_first, first_place, flat_marks, intra_marks, is_flat, other_marks};
use crate::positions::position;

/// An eighth, to the nearest.
#[inline(always)]
fn eighth(f: i32) -> i32
    requires low { neg_ℤ (pos 4096) ≤ℤ f }
    requires high { f ≤ℤ pos 4095 }
    ensures { result ≡ int_shr (f +ℤ pos 4) 3 }
{
    (f + 4) >> 3
}

/// Kept within 0 to 255.
#[inline(always)]
fn kept(level: i32) -> i32
    ensures value { result ≡ int_max (int_min level (pos 255)) (pos 0) }
    ensures least { pos 0 ≤ℤ result }
    ensures most { result ≤ℤ pos 255 }
{
    level.min(255).max(0)
}

/// The level of an intra DC coefficient at 8 bits (precision 0): an eighth of the coefficient, to the nearest,
/// kept within 0 to 255. A profile that codes the DC alone needs no more of the quantiser.
#[inline(always)]
#[tactic(auto, unfolding(crate::specs::Quantiser::dc_level))]
pub fn dc_level(f: i32) -> i32
    requires low { neg_ℤ (pos 4096) ≤ℤ f }
    requires high { f ≤ℤ pos 4095 }
    ensures value { result ≡ dc_level f }
    ensures least { pos 0 ≤ℤ result }
    ensures most { result ≤ℤ pos 255 }
{
    kept(eighth(f))
}

/// What is added before a division that is to go to the nearest in an intra block, and to be cut toward zero in another.
#[inline(always)]
#[tactic(auto, unfolding(crate::specs::Quantiser::with_sign))]
fn half(intra: bool, step: u32, f: i32) -> i32
    requires { step ≤ 28560 }
    ensures value { result ≡ with_sign f (cond intra (step / 2) 0) }
    ensures low { neg_ℤ (pos 14280) ≤ℤ result }
    ensures high { result ≤ℤ pos 14280 }
{
    if !intra {
        return 0;
    }
    if f < 0 {
        -((step / 2) as i32)
    } else {
        (step / 2) as i32
    }
}

/// Sixteen times a coefficient, and what is added.
#[inline(always)]
fn sixteenths(intra: bool, step: u32, f: i32) -> i32
    requires most { step ≤ 28560 }
    requires range { IsTransformed f }
    ensures value { result ≡ pos 16 *ℤ f +ℤ with_sign f (cond intra (step / 2) 0) }
    ensures low { neg_ℤ (pos 79816) ≤ℤ result }
    ensures high { result ≤ℤ pos 79816 }
{
    16 * f + half(intra, step, f)
}

/// These over a step. Division of signed numbers spares the steps by size and sign.
#[inline(always)]
fn quotient(intra: bool, step: u32, f: i32) -> i32
    requires least { 1 ≤ step }
    requires most { step ≤ 28560 }
    requires range { IsTransformed f }
    ensures { result ≡ int_div (pos 16 *ℤ f +ℤ with_sign f (cond intra (step / 2) 0)) (pos step) }
{
    sixteenths(intra, step, f) / step as i32
}

/// The level of a coefficient that is no intra DC.
#[inline(always)]
fn ac_level(intra: bool, step: u32, f: i32) -> i32
    requires least { 1 ≤ step }
    requires most { step ≤ 28560 }
    requires range { IsTransformed f }
    ensures value { result ≡ ac_level intra step f }
    ensures within { IsLevel result }
{
    quotient(intra, step, f).min(2047).max(-2047)
}

/// The step of a raster place: `flat`, where that is the one of all places.
#[inline(always)]
fn step_of(kind: &BlockKind, flat: Option<u32>, place: u8) -> u32
    requires kind { IsKind kind.now }
    requires flat { IfSome flat (IsStepOf kind.now) }
    requires place { place < 64 }
    ensures value { result ≡ slice_index kind.now.matrix place * kind.now.scale }
    ensures least { 1 ≤ result }
    ensures most { result ≤ 28560 }
{
    match flat {
        Some(all) => all,
        None => step(kind, place),
    }
}

/// The level of a raster place that is no intra DC. Whether the block is intra is the kind's, once more, so that it isn't
/// asked at each place.
#[inline(always)]
fn place_level(f: &[i32; 64], kind: &BlockKind, intra: bool, flat: Option<u32>, place: u8) -> i32
    requires kind { IsKind kind.now }
    requires intra { kind.now.intra ≡ intra }
    requires flat { IfSome flat (IsStepOf kind.now) }
    requires coefficients { All IsTransformed f.now }
    requires place { place < 64 }
    ensures value { result ≡ level_of_place f.now kind.now place }
    ensures within { IsLevel result }
{
    ac_level(intra, step_of(kind, flat, place), f[place as usize])
}

/// Puts the level of the first raster place that is left: which are left behind it. Whether the block goes by the alternate
/// scan is the kind's, once more.
#[inline(always)]
fn put_first(
    f: &[i32; 64],
    kind: &BlockKind,
    intra: bool,
    flat: Option<u32>,
    alternate: bool,
    left: u64,
    levels: &mut [i32; 64],
) -> u64
    requires kind { IsKind kind.now }
    requires intra { kind.now.intra ≡ intra }
    requires flat { IfSome flat (IsStepOf kind.now) }
    requires alternate { kind.now.alternate ≡ alternate }
    requires coefficients { All IsTransformed f.now }
    requires some { 0 < left }
    requires later { intra ≡ true → bit_at left 0 ≡ 0 }
    requires before { ArePlacedBut left f.now kind.now levels.old }
    ensures less { result < left }
    ensures later { intra ≡ true → bit_at result 0 ≡ 0 }
    ensures placed { ArePlacedBut result f.now kind.now levels.new }
{
    let place = first_place(left);
    levels[position(alternate, place) as usize] = place_level(f, kind, intra, flat, place);
    behind_first(left, place)
}

/// Puts the levels of all raster places that are marked, where the others stand.
#[inline(always)]
fn put_marked(
    f: &[i32; 64],
    kind: &BlockKind,
    intra: bool,
    flat: Option<u32>,
    alternate: bool,
    marks: u64,
    levels: &mut [i32; 64],
)
    requires kind { IsKind kind.now }
    requires intra { kind.now.intra ≡ intra }
    requires flat { IfSome flat (IsStepOf kind.now) }
    requires alternate { kind.now.alternate ≡ alternate }
    requires coefficients { All IsTransformed f.now }
    requires later { intra ≡ true → bit_at marks 0 ≡ 0 }
    requires before { ArePlacedBut marks f.now kind.now levels.old }
    ensures value { levels.new ≡ levels_of f.now kind.now }
    ensures levels { All IsLevel levels.new }
{
    let mut left = marks;
    while left != 0 {
        left = put_first(f, kind, intra, flat, alternate, left, levels);
    }
}

/// The same by the kind's scan.
#[inline(always)]
fn put_by_scan(
    f: &[i32; 64],
    kind: &BlockKind,
    intra: bool,
    flat: Option<u32>,
    marks: u64,
    levels: &mut [i32; 64],
)
    requires kind { IsKind kind.now }
    requires intra { kind.now.intra ≡ intra }
    requires flat { IfSome flat (IsStepOf kind.now) }
    requires coefficients { All IsTransformed f.now }
    requires later { intra ≡ true → bit_at marks 0 ≡ 0 }
    requires before { ArePlacedBut marks f.now kind.now levels.old }
    ensures value { levels.new ≡ levels_of f.now kind.now }
    ensures levels { All IsLevel levels.new }
{
    if kind.alternate {
        put_marked(f, kind, intra, flat, true, marks, levels);
    } else {
        put_marked(f, kind, intra, flat, false, marks, levels);
    }
}

/// The levels of a block that isn't intra, among zeros, by its marks: whether any isn't 0.
#[inline(always)]
fn put_other(
    f: &[i32; 64],
    kind: &BlockKind,
    flat: Option<u32>,
    marks: u64,
    levels: &mut [i32; 64],
) -> bool
    requires kind { IsKind kind.now }
    requires intra { kind.now.intra ≡ false }
    requires flat { IfSome flat (IsStepOf kind.now) }
    requires coefficients { All IsTransformed f.now }
    requires marks { AreMarked 0 f.now kind.now marks }
    requires zeros { levels.old ≡ replicate 64 (pos 0) }
    ensures value { levels.new ≡ levels_of f.now kind.now }
    ensures levels { All IsLevel levels.new }
    ensures some { result ≡ not (is_empty (levels_of f.now kind.now)) }
{
    put_by_scan(f, kind, false, flat, marks, levels);
    marks != 0
}

/// The levels of a block that isn't intra, among zeros: whether any isn't 0. Its matrix mostly is flat.
#[inline(always)]
fn quantise_other(f: &[i32; 64], kind: &BlockKind, levels: &mut [i32; 64]) -> bool
    requires kind { IsKind kind.now }
    requires intra { kind.now.intra ≡ false }
    requires coefficients { All IsTransformed f.now }
    requires zeros { levels.old ≡ replicate 64 (pos 0) }
    ensures value { levels.new ≡ levels_of f.now kind.now }
    ensures levels { All IsLevel levels.new }
    ensures some { result ≡ not (is_empty (levels_of f.now kind.now)) }
{
    if is_flat(&kind.matrix) {
        return put_other(f, kind, Some(16 * kind.scale), flat_marks(f, kind), levels);
    }
    put_other(f, kind, None, other_marks(f, kind), levels)
}

/// Whether there is a mark, or a DC level other than 0.
#[inline(always)]
fn has_some(marks: u64, dc: i32) -> bool
    ensures { result ≡ not (nat_eq marks 0 && nat_eq (unsigned_abs dc) 0) }
{
    marks != 0 || dc != 0
}

/// The levels of an intra block, among zeros: whether any isn't 0.
#[inline(always)]
fn quantise_intra(f: &[i32; 64], kind: &BlockKind, levels: &mut [i32; 64]) -> bool
    requires kind { IsKind kind.now }
    requires intra { kind.now.intra ≡ true }
    requires coefficients { All IsTransformed f.now }
    requires zeros { levels.old ≡ replicate 64 (pos 0) }
    ensures value { levels.new ≡ levels_of f.now kind.now }
    ensures levels { All IsLevel levels.new }
    ensures some { result ≡ not (is_empty (levels_of f.now kind.now)) }
{
    let marks = intra_marks(f, kind);
    let dc = dc_level(f[0]);
    levels[0] = dc;
    put_by_scan(f, kind, true, None, marks, levels);
    has_some(marks, dc)
}

/// The 64 levels of a block in scan order, each from -2047 to 2047, of its coefficients in raster order, each from -4096
/// to 4095, and whether any isn't 0. Precision is 0.
pub fn quantise(f: &[i32; 64], kind: &BlockKind, out: &mut Levels) -> bool
    requires kind { IsKind kind.now }
    requires precision { kind.now.precision ≡ 0 }
    requires coefficients { All IsTransformed f.now }
    ensures value { out.new.at ≡ levels_of f.now kind.now }
    ensures levels { All IsLevel out.new.at }
    ensures some { result ≡ not (is_empty out.new.at) }
{
    out.at = [0; 64];
    if kind.intra {
        return quantise_intra(f, kind, &mut out.at);
    }
    quantise_other(f, kind, &mut out.at)
}
