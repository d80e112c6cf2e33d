ghost use Rattle.std.specs.Prelude.{◌≡◌, ℕ, ◌+◌, ◌-◌, ◌*◌, ◌/◌, ◌%◌, ◌<◌, ◌≤◌, ◌++◌, ℤ, pos, ◌≤ℤ◌, ◌^◌, ◌-ℤ◌, All, length, nat_lt, unsigned_abs};
ghost use Rattle.m2v_idct.specs.Ranges.{IsSample};
ghost use Rattle.m2v_block.specs.Dc.{dc_text};
ghost use Rattle.m2v_plane.specs.Sizes.{IsSize, side};
ghost use Rattle.m2v_flat.specs.Flat.{block_plane, block_line, block_column, samples_at, level, predictor, block_text, end_of_block};

use m2v_bits::BitWriter;
use m2v_block::write_dc;
use m2v_idct::forward_dc;
use m2v_plane::{Dims, Frame, Lines, Plane, RefView};
use m2v_quant::dc_level;

/// Where a block begins: its plane, and the line and the column of its first sample.
#[derive(Clone, Copy)]
struct Place {
    plane: Plane,
    line: u32,
    column: u32,
}

/// Where a block of a macroblock begins (clause 6.1.3).
#[inline(always)]
#[tactic(auto, unfolding(crate::specs::Flat::block_plane, crate::specs::Flat::block_line, crate::specs::Flat::block_column))]
fn place_of(dims: Dims, row: u32, column: u32, block: u32) -> Place
    requires size { IsSize dims }
    requires row { row < dims.mb_rows }
    requires column { column < dims.mb_width }
    requires block { block < 6 }
    ensures plane { result.plane ≡ block_plane block }
    ensures line { result.line ≡ block_line row block }
    ensures column { result.column ≡ block_column column block }
    ensures lines { result.line + 8 ≤ side result.plane * dims.mb_rows }
    ensures columns { result.column + 8 ≤ side result.plane * dims.mb_width }
    ensures line_most { result.line < 2 ^ 12 }
    ensures column_most { result.column < 2 ^ 12 }
{
    if block < 4 {
        return Place {
            plane: Plane::Y,
            line: 16 * row + 8 * (block / 2),
            column: 16 * column + 8 * (block % 2),
        };
    }
    Place {
        plane: if block == 4 { Plane::Cb } else { Plane::Cr },
        line: 8 * row,
        column: 8 * column,
    }
}

/// The samples of eight lines and eight columns of a plane.
fn samples(frame: &Frame, plane: Plane, line: u32, column: u32) -> [i32; 64]
    requires lines { line + 8 ≤ side plane * frame.now.dims.mb_rows }
    requires columns { column + 8 ≤ side plane * frame.now.dims.mb_width }
    requires line_most { line < 2 ^ 12 }
    requires column_most { column < 2 ^ 12 }
    ensures value { result ≡ samples_at frame.now plane line column }
    ensures within { All IsSample result }
{
    let mut samples = [0; 64];
    for k in 0..64u32 {
        let sample = frame.sample(plane, Lines::Whole, line + k / 8, column + k % 8);
        samples[k as usize] = i32::from(sample);
    }
    samples
}

/// The level of a block's DC.
#[tactic(auto, unfolding(crate::specs::Flat::level))]
fn dc_of(frame: &Frame, row: u32, column: u32, block: u32) -> i32
    requires row { row < frame.now.dims.mb_rows }
    requires column { column < frame.now.dims.mb_width }
    requires block { block < 6 }
    ensures value { result ≡ level frame.now row column block }
    ensures least { pos 0 ≤ℤ result }
    ensures most { result ≤ℤ pos 255 }
{
    let place = place_of(frame.dims(), row, column, block);
    dc_level(forward_dc(&samples(frame, place.plane, place.line, place.column)))
}

/// How far a level lies from its predictor.
fn difference(level: i32, predictor: i32) -> i32
    requires level_least { pos 0 ≤ℤ level }
    requires level_most { level ≤ℤ pos 255 }
    requires least { pos 0 ≤ℤ predictor }
    requires most { predictor ≤ℤ pos 255 }
    ensures value { result ≡ level -ℤ predictor }
    ensures range { unsigned_abs result < 2 ^ 11 }
{
    level - predictor
}

/// Appends a block of its DC alone.
#[tactic(auto, using(m2v_bits::proofs::Cursor::lengths, m2v_block::proofs::Numbers::dc_length))]
fn write_dc_block(difference: i32, luma: bool, out: &mut BitWriter)
    requires range { unsigned_abs difference < 2 ^ 11 }
    requires room { 24 ≤ out.old.room }
    ensures written { out.new.written
        ≡ out.old.written ++ (dc_text luma difference ++ end_of_block) }
    ensures room { out.new.room + (length (dc_text luma difference) + 2) ≡ out.old.room }
{
    write_dc(difference, luma, out);
    out.put(2, 2);
}

/// Appends a block of a macroblock and gives its level, which is the next predictor of its component; `before` is its own
/// predictor.
#[tactic(auto, using(m2v_block::proofs::Numbers::dc_length))]
pub fn write_block(
    frame: &Frame,
    row: u32,
    column: u32,
    block: u32,
    before: i32,
    out: &mut BitWriter,
) -> i32
    requires row { row < frame.now.dims.mb_rows }
    requires column { column < frame.now.dims.mb_width }
    requires block { block < 6 }
    requires before { before ≡ predictor frame.now row column block }
    requires least { pos 0 ≤ℤ before }
    requires most { before ≤ℤ pos 255 }
    requires room { 24 ≤ out.old.room }
    ensures value { result ≡ level frame.now row column block }
    ensures least { pos 0 ≤ℤ result }
    ensures most { result ≤ℤ pos 255 }
    ensures written { out.new.written ≡ out.old.written ++ block_text frame.now row column block }
    ensures room { out.new.room + length (block_text frame.now row column block) ≡ out.old.room }
{
    let level = dc_of(frame, row, column, block);
    write_dc_block(difference(level, before), block < 4, out);
    level
}
