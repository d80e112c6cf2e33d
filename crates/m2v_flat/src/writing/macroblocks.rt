ghost use Rattle.std.specs.Prelude.{◌≡◌, ℕ, ◌+◌, ◌-◌, ◌*◌, ◌<◌, ◌≤◌, ◌++◌, pos, ◌≤ℤ◌, length};
ghost use Rattle.std.specs.List.{flat_map, range_with_len};
ghost use Rattle.m2v_flat.specs.Flat.{level, block_text, predictors, blocks_text, macroblock_text, row_text};

use crate::writing::blocks::write_block;
use m2v_bits::BitWriter;
use m2v_plane::{Frame, RefView};
use m2v_vlc::{Increment, MbType, write_increment, write_type_i};

/// An intra macroblock that keeps the quantiser.
const INTRA: MbType = MbType {
    quant: false,
    forward: false,
    backward: false,
    pattern: false,
    intra: true,
};

/// The predictors of DC, one for each component (clause 7.2.1).
#[derive(Clone, Copy)]
pub struct Predictors {
    pub luma: i32,
    pub cb: i32,
    pub cr: i32,
}

/// The predictors where a slice begins: 2^7 at 8 bits.
const RESET: Predictors = Predictors {
    luma: 128,
    cb: 128,
    cr: 128,
};

/// Appends the four luma blocks of a macroblock and gives the level of the last.
fn write_luma(frame: &Frame, row: u32, column: u32, before: i32, out: &mut BitWriter) -> i32
    requires row { row < frame.now.dims.mb_rows }
    requires column { column < frame.now.dims.mb_width }
    requires before { before ≡ (predictors frame.now row column).luma }
    requires room { 96 ≤ out.old.room }
    ensures value { result ≡ level frame.now row column 3 }
    ensures written { out.new.written
        ≡ out.old.written ++ flat_map (block_text frame.now row column) (range_with_len 0 4) }
    ensures room { out.new.room
        + length (flat_map (block_text frame.now row column) (range_with_len 0 4)) ≡ out.old.room }
{
    let mut before = before;
    for block in 0..4 {
        before = write_block(frame, row, column, block, before, out);
    }
    before
}

/// Appends the six blocks of a macroblock, and gives the predictors of the next one.
fn write_blocks(
    frame: &Frame,
    row: u32,
    column: u32,
    before: Predictors,
    out: &mut BitWriter,
) -> Predictors
    requires row { row < frame.now.dims.mb_rows }
    requires column { column < frame.now.dims.mb_width }
    requires before { before ≡ predictors frame.now row column }
    requires room { 144 ≤ out.old.room }
    ensures next { result ≡ predictors frame.now row (column + 1) }
    ensures written { out.new.written ≡ out.old.written ++ blocks_text frame.now row column }
    ensures room { out.new.room + length (blocks_text frame.now row column) ≡ out.old.room }
{
    let luma = write_luma(frame, row, column, before.luma, out);
    let cb = write_block(frame, row, column, 4, before.cb, out);
    let cr = write_block(frame, row, column, 5, before.cr, out);
    Predictors { luma, cb, cr }
}

/// Appends an intra macroblock right behind the one before it or at the begin of its row, and gives the predictors of
/// the next one.
#[tactic(auto, using(m2v_bits::proofs::Cursor::lengths, m2v_vlc::proofs::Increments::increment_length, m2v_vlc::proofs::MbTypes::type_i_length), unfolding(crate::specs::Flat::macroblock_text))]
fn write_macroblock(
    frame: &Frame,
    row: u32,
    column: u32,
    before: Predictors,
    out: &mut BitWriter,
) -> Predictors
    requires row { row < frame.now.dims.mb_rows }
    requires column { column < frame.now.dims.mb_width }
    requires before { before ≡ predictors frame.now row column }
    requires room { 157 ≤ out.old.room }
    ensures next { result ≡ predictors frame.now row (column + 1) }
    ensures written { out.new.written ≡ out.old.written ++ macroblock_text frame.now row column }
    ensures room { out.new.room + length (macroblock_text frame.now row column) ≡ out.old.room }
{
    write_increment(Increment::Step(1), out);
    write_type_i(INTRA, out);
    write_blocks(frame, row, column, before, out)
}

/// Appends the macroblocks of a row.
pub fn write_row(frame: &Frame, row: u32, out: &mut BitWriter)
    requires row { row < frame.now.dims.mb_rows }
    requires width { frame.now.dims.mb_width ≤ 45 }
    requires room { 7065 ≤ out.old.room }
    ensures written { out.new.written ≡ out.old.written ++ row_text frame.now row }
    ensures room { out.new.room + length (row_text frame.now row) ≡ out.old.room }
{
    let mut before = RESET;
    for column in 0..frame.dims().mb_width {
        before = write_macroblock(frame, row, column, before, out);
    }
}
