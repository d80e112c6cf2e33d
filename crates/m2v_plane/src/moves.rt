//! Whole lines, moved by slices.
ghost use Rattle.std.specs.Prelude.{◌⊎◌, ◌%◌, ℕ, ◌≡◌, ◌≤◌, ◌<◌, ◌*◌, ◌+◌, ◌-◌, ◌^◌, length, vec_len, slice_index, min, drop, replicate};
ghost use Rattle.std.specs.List.{range_with_len};
ghost use Rattle.m2v_plane.specs.Sizes.{frame_line, part_of, stride_in};
ghost use Rattle.m2v_plane.specs.Samples.{plane_with_lines, plane_with_row, plane_with_square, put, square_of};
ghost use Rattle.m2v_plane.specs.Raw.{padded, shown};

use crate::planes::{Lines, place_of};
use std::simd::prelude::*;

/// A line whose last sample is repeated to its end.
fn pad_line(out: &mut [u8], line: &[u8])
    requires some { 1 ≤ length line.now }
    requires room { length line.now ≤ length out.old }
    ensures value { (k : ℕ) → k < length out.old → slice_index out.new k
        ≡ slice_index line.now (min k (length line.now - 1)) }
{
    let last = line[line.len() - 1];
    out[..line.len()].copy_from_slice(line);
    out[line.len()..].fill(last);
}

/// A plane of whole macroblocks, its right and its lower edge repeated.
pub fn pad_plane(
    out: &mut [u8],
    lines: usize,
    columns: usize,
    bytes: &[u8],
    height: usize,
    width: usize,
)
    requires place { length out.old ≡ lines * columns }
    requires whole { length bytes.now ≡ height * width }
    requires tall { 1 ≤ height }
    requires wide { 1 ≤ width }
    requires room { width ≤ columns }
    requires lines { lines ≤ 2 ^ 12 }
    requires columns { columns ≤ 2 ^ 12 }
    ensures value { out.new ≡ padded lines columns height width bytes.now }
{
    for line in 0..lines {
        let from = line.min(height - 1) * width;
        pad_line(
            &mut out[line * columns..line * columns + columns],
            &bytes[from..from + width],
        );
    }
}

/// The part of a plane that is shown.
pub fn crop_plane(out: &mut [u8], height: usize, width: usize, plane: &[u8], columns: usize)
    requires whole { length out.old ≡ height * width }
    requires lines { height * columns ≤ length plane.now }
    requires room { width ≤ columns }
    requires tall { height ≤ 2 ^ 12 }
    requires wide { columns ≤ 2 ^ 12 }
    ensures value { out.new ≡ shown columns height width plane.now }
{
    for row in 0..height {
        let from = row * columns;
        out[row * width..row * width + width].copy_from_slice(&plane[from..from + width]);
    }
}

/// Where a line of the whole frame or of one field begins in a plane of so many lines.
#[inline(always)]
pub fn line_start(lines: Lines, line: usize, total: usize, columns: usize) -> usize
    requires line { line < part_of lines total }
    requires total { total ≤ 2 ^ 12 }
    requires columns { columns ≤ 2 ^ 12 }
    ensures value { result ≡ frame_line lines line * columns }
    ensures within { result + columns ≤ total * columns }
{
    place_of(lines, line) * columns
}

/// How far a line of the whole frame or of one field begins behind the one before.
#[inline(always)]
pub fn stride_of(lines: Lines, columns: usize) -> usize
    requires { columns ≤ 2 ^ 12 }
    ensures { result ≡ stride_in lines columns }
{
    match lines {
        Lines::Whole => columns,
        Lines::Top | Lines::Bottom => 2 * columns,
    }
}

/// One macroblock row of the whole frame or of one field.
pub fn set_rows(
    plane: &mut [u8],
    total: usize,
    columns: usize,
    height: usize,
    lines: Lines,
    row: usize,
    samples: &[u8],
)
    requires whole { length plane.old ≡ total * columns }
    requires row { row * height + height ≤ part_of lines total }
    requires samples { length samples.now ≡ height * columns }
    requires some { 1 ≤ height }
    requires total { total ≤ 2 ^ 12 }
    requires columns { columns ≤ 2 ^ 12 }
    ensures value { plane.new ≡ plane_with_row total columns height lines row plane.old
        samples.now }
{
    for line in 0..height {
        let at = line_start(lines, row * height + line, total, columns);
        plane[at..at + columns].copy_from_slice(&samples[line * columns..line * columns + columns]);
    }
}

/// Lines of samples 0. Each line is filled for itself: a fill as short as that goes by lanes, where one fill of the whole
/// plane would cost an instruction a byte.
pub fn clear_lines(plane: &mut [u8], lines: usize, columns: usize)
    requires whole { length plane.old ≡ lines * columns }
    requires lines { lines ≤ 2 ^ 12 }
    requires columns { columns ≤ 2 ^ 12 }
    ensures value { plane.new ≡ replicate (lines * columns) 0 }
{
    for line in 0..lines {
        let from = line * columns;
        plane[from..from + columns].fill(0);
    }
}

/// Samples put in the place of as many others.
#[inline(always)]
pub fn put_part(out: &mut [u8], from: usize, samples: &[u8])
    requires { from + length samples.now ≤ length out.old }
    ensures value { out.new ≡ put out.old from samples.now }
{
    out[from..from + samples.len()].copy_from_slice(samples);
}

/// A line of a macroblock, 16 or 8 samples, copied by one move.
#[inline(always)]
fn copy_side(out: &mut [u8], line: &[u8])
    requires side { (length line.now ≡ 16) ⊎ (length line.now ≡ 8) }
    requires same { length out.old ≡ length line.now }
    ensures value { out.new ≡ line.now }
{
    if line.len() == 16 {
        u8x16::from_slice(line).copy_to_slice(out);
    } else {
        u8x8::from_slice(line).copy_to_slice(out);
    }
}

/// Where a macroblock's square lies in a plane: so many lines of as many samples, in a macroblock row and column.
#[derive(Clone, Copy)]
pub struct Square {
    /// Its side.
    pub side: usize,
    /// The macroblock row.
    pub row: usize,
    /// The macroblock in its row.
    pub column: usize,
}

/// The square of one macroblock of the whole frame or of one field.
#[inline(always)]
pub fn set_square(
    plane: &mut [u8],
    total: usize,
    columns: usize,
    lines: Lines,
    square: Square,
    samples: &[u8],
)
    requires whole { length plane.old ≡ total * columns }
    requires side { (square.side ≡ 16) ⊎ (square.side ≡ 8) }
    requires row { square.row * square.side + square.side ≤ part_of lines total }
    requires column { square.side * square.column + square.side ≤ columns }
    requires samples { length samples.now ≡ square.side * square.side }
    requires total { total ≤ 2 ^ 12 }
    requires columns { columns ≤ 2 ^ 12 }
    ensures value { plane.new ≡ plane_with_square total columns square.side lines square.row
        square.column (square_of square.side samples.now) plane.old }
{
    let Square { side, row, column } = square;
    for line in 0..side {
        let at = line_start(lines, row * side + line, total, columns) + side * column;
        let from = side * line;
        copy_side(&mut plane[at..at + side], &samples[from..from + side]);
    }
}

/// How many of so many lines are lines of the whole frame or of one field.
#[inline(always)]
fn part_of(lines: Lines, total: usize) -> usize
    ensures value { result ≡ part_of lines total }
{
    match lines {
        Lines::Whole => total,
        Lines::Top | Lines::Bottom => total / 2,
    }
}

/// The lines of the whole frame or of one field, as they are in another plane.
pub fn set_lines(plane: &mut [u8], total: usize, columns: usize, lines: Lines, samples: &[u8])
    requires whole { length plane.old ≡ total * columns }
    requires samples { length samples.now ≡ total * columns }
    requires even { total % 2 ≡ 0 }
    requires some { 1 ≤ total }
    requires total { total ≤ 2 ^ 12 }
    requires columns { columns ≤ 2 ^ 12 }
    ensures value { plane.new ≡ plane_with_lines total columns lines plane.old samples.now }
{
    let count = part_of(lines, total);
    for line in 0..count {
        let at = line_start(lines, line, total, columns);
        plane[at..at + columns].copy_from_slice(&samples[at..at + columns]);
    }
}
