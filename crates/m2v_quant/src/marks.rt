//! At which raster places of a block a level other than 0 stands, as bits. Most places have none: lanes tell which do.
ghost use Rattle.std.specs.Prelude.{◌≡◌, ◌≢◌, ℕ, ◌<◌, ◌≤◌, All, IsTrue, true, false, cond, pos};
ghost use Rattle.std.specs.Int.{bit_at};
ghost use Rattle.m2v_quant.specs.Kinds.{IsKind, IsTransformed};
ghost use Rattle.m2v_quant.specs.Marks.{AreMarked, IsFlat, limits_of};

use crate::kind::BlockKind;
use std::simd::prelude::*;

/// The coefficients in 16 bits. These hold them, so their limits don't change them, and let one instruction narrow eight.
#[inline(always)]
fn narrowed(f: &[i32; 64]) -> i16x64
    requires { All IsTransformed f.now }
    ensures { result ≡ f.now }
{
    i32x64::from_slice(f)
        .simd_clamp(i32x64::splat(-32768), i32x64::splat(32767))
        .cast::<i16>()
}

/// One bit a raster place, the lowest one for the first: 1 where the coefficient's size is above its limit.
#[inline(always)]
fn marks_above(f: &[i32; 64], kind: &BlockKind, limits: i16x64) -> u64
    requires kind { IsKind kind.now }
    requires coefficients { All IsTransformed f.now }
    requires limits { limits ≡ limits_of kind.now }
    ensures { AreMarked 0 f.now kind.now result }
{
    // a matrix has 64 numbers, which only the field says
    let _matrix = &kind.matrix;
    narrowed(f).abs().simd_gt(limits).to_bitmask()
}

/// By how many bits a step is shifted for its limit.
#[inline(always)]
fn limit_shift(intra: bool) -> i16
    ensures { result ≡ cond intra (pos 5) (pos 4) }
{
    if intra { 5 } else { 4 }
}

/// The limits of the sizes of coefficients: up to them a coefficient has no level.
#[inline(always)]
fn limits(kind: &BlockKind, intra: bool) -> i16x64
    requires kind { IsKind kind.now }
    requires intra { kind.now.intra ≡ intra }
    ensures { result ≡ limits_of kind.now }
{
    let steps = u8x64::from_slice(&kind.matrix).cast::<i16>() * i16x64::splat(kind.scale as i16);
    (steps - i16x64::splat(1)) >> i16x64::splat(limit_shift(intra))
}

/// The same of a block that isn't intra, where the matrix is 16 everywhere.
#[inline(always)]
fn flat_limits(kind: &BlockKind) -> i16x64
    requires kind { IsKind kind.now }
    requires intra { kind.now.intra ≡ false }
    requires flat { IsFlat kind.now.matrix }
    ensures { result ≡ limits_of kind.now }
{
    i16x64::splat((kind.scale - 1) as i16)
}

/// Whether a matrix is 16 everywhere.
#[inline(always)]
pub fn is_flat(matrix: &[u8; 64]) -> bool
    ensures { IsTrue result → IsFlat matrix.now }
{
    !u8x64::from_slice(matrix).simd_ne(u8x64::splat(16)).any()
}

/// The first raster place that is marked.
#[inline(always)]
pub fn first_place(marks: u64) -> u8
    requires { 0 < marks }
    ensures below { result < 64 }
    ensures here { bit_at marks result ≡ 1 }
    ensures before { (p : ℕ) → p < result → bit_at marks p ≡ 0 }
{
    marks.trailing_zeros() as u8
}

/// Marks without that of the first place: a number less 1 has 0 there, and behind it the same bits.
#[inline(always)]
pub fn behind_first(marks: u64, _first: u8) -> u64
    requires here { bit_at marks _first ≡ 1 }
    requires before { (p : ℕ) → p < _first → bit_at marks p ≡ 0 }
    ensures less { result < marks }
    ensures others { (p : ℕ) → p ≢ _first → bit_at result p ≡ bit_at marks p }
{
    marks & (marks - 1)
}

/// Marks without that of place 0.
#[inline(always)]
fn but_first(marks: u64) -> u64
    ensures none { bit_at result 0 ≡ 0 }
    ensures others { (p : ℕ) → p < 64 → p ≢ 0 → bit_at result p ≡ bit_at marks p }
{
    marks & !1
}

/// The marks of a block that isn't intra, where the matrix is 16 everywhere.
#[inline(always)]
pub fn flat_marks(f: &[i32; 64], kind: &BlockKind) -> u64
    requires kind { IsKind kind.now }
    requires intra { kind.now.intra ≡ false }
    requires flat { IsFlat kind.now.matrix }
    requires coefficients { All IsTransformed f.now }
    ensures { AreMarked 0 f.now kind.now result }
{
    marks_above(f, kind, flat_limits(kind))
}

/// The marks of a block that isn't intra.
#[inline(always)]
pub fn other_marks(f: &[i32; 64], kind: &BlockKind) -> u64
    requires kind { IsKind kind.now }
    requires intra { kind.now.intra ≡ false }
    requires coefficients { All IsTransformed f.now }
    ensures { AreMarked 0 f.now kind.now result }
{
    marks_above(f, kind, limits(kind, false))
}

/// The marks of an intra block, but for that of its DC, which is 0.
#[inline(always)]
pub fn intra_marks(f: &[i32; 64], kind: &BlockKind) -> u64
    requires kind { IsKind kind.now }
    requires intra { kind.now.intra ≡ true }
    requires coefficients { All IsTransformed f.now }
    ensures first { bit_at result 0 ≡ 0 }
    ensures later { AreMarked 1 f.now kind.now result }
{
    but_first(marks_above(f, kind, limits(kind, true)))
}
