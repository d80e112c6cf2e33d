ghost use Rattle.m2v_bits.specs.Bits.{unit};
ghost use Rattle.std.specs.Prelude.{◌≡◌, ℕ, ◌+◌, ◌*◌, ◌%◌, ◌<◌, ◌≤◌, ◌^◌, ◌++◌, [], length, nat_eq, if◌then◌else◌};
ghost use Rattle.m2v_head.specs.Texts.{slice_text};
ghost use Rattle.m2v_plane.specs.Samples.{Samples};
ghost use Rattle.m2v_flat.specs.Flat.{flat_slice, row_text, slice_unit, slices_units, sequence_units, picture_units, frame_units};

use crate::settings::FlatSettings;
use crate::writing::macroblocks::write_row;
use crate::writing::units::{
    write_picture_extension, write_picture_header, write_sequence, write_start_code,
};
use m2v_bits::BitWriter;
use m2v_head::SliceInfo;
use m2v_plane::{Frame, RefView};

/// Appends the slice of a macroblock row.
#[tactic(auto, using(m2v_bits::proofs::Cursor::lengths, crate::proofs::UnitLaws::units, crate::proofs::Lengths::row_most), unfolding(crate::specs::Flat::slice_unit))]
fn write_slice(quantiser: u32, frame: &Frame, row: u32, out: &mut BitWriter)
    requires quantiser { (1 ≤ quantiser) × (quantiser ≤ 31) }
    requires row { row < frame.now.dims.mb_rows }
    requires rows { frame.now.dims.mb_rows ≤ 36 }
    requires width { frame.now.dims.mb_width ≤ 45 }
    requires edge { length out.old.written % 8 ≡ 0 }
    requires room { 7264 ≤ out.old.room }
    ensures written { out.new.written ≡ out.old.written ++ slice_unit quantiser frame.now row }
    ensures room { out.new.room + length (slice_unit quantiser frame.now row) ≡ out.old.room }
    ensures edge { length out.new.written % 8 ≡ 0 }
{
    write_start_code((row + 1) as u8, out);
    let slice = SliceInfo {
        quantiser: quantiser as u8,
        intra_slice: None,
        reserved: 0,
    };
    slice.write(out);
    write_row(frame, row, out);
    out.align();
}

/// Appends the slices of a picture, from the top.
fn write_slices(quantiser: u32, frame: &Frame, out: &mut BitWriter)
    requires quantiser { (1 ≤ quantiser) × (quantiser ≤ 31) }
    requires rows { frame.now.dims.mb_rows ≤ 36 }
    requires width { frame.now.dims.mb_width ≤ 45 }
    requires edge { length out.old.written % 8 ≡ 0 }
    requires room { 261504 ≤ out.old.room }
    ensures written { out.new.written ≡ out.old.written ++ slices_units quantiser frame.now }
    ensures room { out.new.room + length (slices_units quantiser frame.now) ≡ out.old.room }
    ensures edge { length out.new.written % 8 ≡ 0 }
{
    for row in 0..frame.dims().mb_rows {
        write_slice(quantiser, frame, row, out);
    }
}

/// Appends picture n, which codes a frame.
#[tactic(auto, using(m2v_bits::proofs::Cursor::lengths, crate::proofs::UnitLaws::units), unfolding(crate::specs::Flat::picture_units))]
fn write_picture(settings: &FlatSettings, number: u64, frame: &Frame, out: &mut BitWriter)
    requires quantiser { (1 ≤ settings.now.quantiser) × (settings.now.quantiser ≤ 31) }
    requires rows { frame.now.dims.mb_rows ≤ 36 }
    requires width { frame.now.dims.mb_width ≤ 45 }
    requires edge { length out.old.written % 8 ≡ 0 }
    requires room { 261760 ≤ out.old.room }
    ensures written { out.new.written ≡ out.old.written ++ picture_units settings.now number
        frame.now }
    ensures room { out.new.room + length (picture_units settings.now number frame.now)
        ≡ out.old.room }
    ensures edge { length out.new.written % 8 ≡ 0 }
{
    write_picture_header(number, out);
    write_picture_extension(out);
    write_slices(settings.quantiser, frame, out);
}

/// Appends the headers before the first picture where n is 0.
#[tactic(auto, using(m2v_bits::proofs::Cursor::lengths, crate::proofs::UnitLaws::sequence_most))]
fn write_first(settings: &FlatSettings, number: u64, out: &mut BitWriter)
    requires width { settings.now.dims.width < 2 ^ 12 }
    requires height { settings.now.dims.height < 2 ^ 12 }
    requires code { settings.now.rate_code < 2 ^ 4 }
    requires edge { length out.old.written % 8 ≡ 0 }
    requires room { 256 ≤ out.old.room }
    ensures written { out.new.written
        ≡ out.old.written ++ (if nat_eq number 0 then sequence_units settings.now else []) }
    ensures room { out.new.room + length out.new.written ≡ out.old.room + length out.old.written }
    ensures enough { out.old.room ≤ out.new.room + 256 }
    ensures edge { length out.new.written % 8 ≡ 0 }
{
    if number == 0 {
        write_sequence(settings, out);
    }
}

/// Appends what frame n brings.
#[tactic(auto, using(m2v_bits::proofs::Cursor::lengths), unfolding(crate::specs::Flat::frame_units))]
pub fn write_frame(settings: &FlatSettings, number: u64, frame: &Frame, out: &mut BitWriter)
    requires width { settings.now.dims.width < 2 ^ 12 }
    requires height { settings.now.dims.height < 2 ^ 12 }
    requires code { settings.now.rate_code < 2 ^ 4 }
    requires quantiser { (1 ≤ settings.now.quantiser) × (settings.now.quantiser ≤ 31) }
    requires rows { frame.now.dims.mb_rows ≤ 36 }
    requires columns { frame.now.dims.mb_width ≤ 45 }
    requires edge { length out.old.written % 8 ≡ 0 }
    requires room { 262016 ≤ out.old.room }
    ensures written { out.new.written ≡ out.old.written ++ frame_units settings.now number
        frame.now }
    ensures room { out.new.room + length out.new.written ≡ out.old.room + length out.old.written }
    ensures edge { length out.new.written % 8 ≡ 0 }
{
    write_first(settings, number, out);
    write_picture(settings, number, frame, out);
}
