//! The headers before the slices of a picture, written.
ghost use Rattle.std.specs.Prelude.{◌≡◌, ◌+◌, ◌-◌, ◌%◌, ◌<◌, ◌≤◌, ◌++◌, [], cond, length};
ghost use Rattle.m2v_bits.specs.Bits.{start_code, unit};
ghost use Rattle.m2v_head.specs.Texts.{sequence_text, sequence_extension_text, group_text, picture_text, picture_extension_text};
ghost use Rattle.m2v_slice.specs.Headers.{sequence_of, sequence_extension_of, group_from, picture_of, extension_of, begins_group, group_units, picture_units, header_units, header_bits, IsJob};

use crate::lengths::begins;
use crate::picture::{picture, picture_extension};
use crate::sequence::{group, sequence, sequence_extension};
use m2v_bits::BitWriter;
use m2v_order::PictureJob;
use m2v_set::{Passed, Settings};

/// Appends a start code.
#[tactic(auto, using(m2v_bits::proofs::Cursor::lengths))]
fn write_start_code(value: u8, out: &mut BitWriter)
    requires { 32 ≤ out.old.room }
    ensures written { out.new.written ≡ out.old.written ++ start_code value }
    ensures room { out.new.room + 32 ≡ out.old.room }
{
    out.put(1, 24);
    out.put(u32::from(value), 8);
}

/// Appends the sequence header.
#[tactic(auto, using(m2v_bits::proofs::Cursor::lengths, crate::proofs::TextLengths::units))]
fn write_sequence(settings: &Passed, out: &mut BitWriter)
    requires edge { length out.old.written % 8 ≡ 0 }
    requires room { 96 ≤ out.old.room }
    ensures written { out.new.written ≡ out.old.written
        ++ unit 0xB3 (sequence_text (sequence_of settings.now)) }
    ensures room { out.new.room + 96 ≡ out.old.room }
    ensures edge { length out.new.written % 8 ≡ 0 }
{
    write_start_code(0xB3, out);
    sequence(settings).write(out);
    out.align();
}

/// Appends the sequence extension.
#[tactic(auto, using(m2v_bits::proofs::Cursor::lengths, crate::proofs::TextLengths::units))]
fn write_sequence_extension(settings: &Passed, out: &mut BitWriter)
    requires edge { length out.old.written % 8 ≡ 0 }
    requires room { 80 ≤ out.old.room }
    ensures written { out.new.written ≡ out.old.written
        ++ unit 0xB5 (sequence_extension_text (sequence_extension_of settings.now)) }
    ensures room { out.new.room + 80 ≡ out.old.room }
    ensures edge { length out.new.written % 8 ≡ 0 }
{
    write_start_code(0xB5, out);
    sequence_extension(settings).write(out);
    out.align();
}

/// Appends the group header.
#[tactic(auto, using(m2v_bits::proofs::Cursor::lengths, crate::proofs::TextLengths::units))]
fn write_group(settings: &Settings, display: u64, out: &mut BitWriter)
    requires display { display < 1000000 }
    requires edge { length out.old.written % 8 ≡ 0 }
    requires room { 64 ≤ out.old.room }
    ensures written { out.new.written ≡ out.old.written
        ++ unit 0xB8 (group_text (group_from settings.now display)) }
    ensures room { out.new.room + 64 ≡ out.old.room }
    ensures edge { length out.new.written % 8 ≡ 0 }
{
    write_start_code(0xB8, out);
    group(settings, display).write(out);
    out.align();
}

/// Appends the headers before a group.
#[tactic(auto, unfolding(crate::specs::Headers::group_units))]
fn write_group_units(settings: &Passed, display: u64, out: &mut BitWriter)
    requires display { display < 1000000 }
    requires edge { length out.old.written % 8 ≡ 0 }
    requires room { 240 ≤ out.old.room }
    ensures written { out.new.written ≡ out.old.written ++ group_units settings.now display }
    ensures room { out.new.room + 240 ≡ out.old.room }
    ensures edge { length out.new.written % 8 ≡ 0 }
{
    write_sequence(settings, out);
    write_sequence_extension(settings, out);
    write_group(settings.settings(), display, out);
}

/// Appends the picture header.
#[tactic(auto, using(m2v_bits::proofs::Cursor::lengths, crate::proofs::TextLengths::units))]
fn write_picture(job: &PictureJob, delay: u32, out: &mut BitWriter)
    requires job { IsJob job.now }
    requires delay { delay < 65536 }
    requires edge { length out.old.written % 8 ≡ 0 }
    requires room { 72 ≤ out.old.room }
    ensures written { out.new.written ≡ out.old.written
        ++ unit 0x00 (picture_text (picture_of job.now delay)) }
    ensures room { out.new.room + length (unit 0x00 (picture_text (picture_of job.now delay)))
        ≡ out.old.room }
    ensures edge { length out.new.written % 8 ≡ 0 }
{
    write_start_code(0x00, out);
    picture(job, delay).write(out);
    out.align();
}

/// Appends the picture coding extension.
#[tactic(auto, using(m2v_bits::proofs::Cursor::lengths, crate::proofs::TextLengths::units))]
fn write_extension(settings: &Settings, job: &PictureJob, out: &mut BitWriter)
    requires job { IsJob job.now }
    requires edge { length out.old.written % 8 ≡ 0 }
    requires room { 72 ≤ out.old.room }
    ensures written { out.new.written ≡ out.old.written
        ++ unit 0xB5 (picture_extension_text (extension_of settings.now job.now)) }
    ensures room { out.new.room + 72 ≡ out.old.room }
    ensures edge { length out.new.written % 8 ≡ 0 }
{
    write_start_code(0xB5, out);
    picture_extension(settings, job).write(out);
    out.align();
}

/// Appends the headers of a picture.
#[tactic(auto, using(crate::proofs::TextLengths::picture_units_length, crate::proofs::TextLengths::picture_unit_length), unfolding(crate::specs::Headers::picture_units))]
fn write_picture_units(settings: &Passed, job: &PictureJob, delay: u32, out: &mut BitWriter)
    requires job { IsJob job.now }
    requires delay { delay < 65536 }
    requires edge { length out.old.written % 8 ≡ 0 }
    requires room { 144 ≤ out.old.room }
    ensures written { out.new.written ≡ out.old.written ++ picture_units settings.now job.now
        delay }
    ensures room { out.new.room + length (picture_units settings.now job.now delay) ≡ out.old.room }
    ensures edge { length out.new.written % 8 ≡ 0 }
{
    write_picture(job, delay, out);
    write_extension(settings.settings(), job, out);
}

/// Appends the headers before a group where a picture begins one.
#[tactic(auto, unfolding(crate::specs::Headers::begins_group))]
fn write_group_where(settings: &Passed, job: &PictureJob, out: &mut BitWriter)
    requires job { IsJob job.now }
    requires display { job.now.display < 1000000 }
    requires edge { length out.old.written % 8 ≡ 0 }
    requires room { 240 ≤ out.old.room }
    ensures written { out.new.written ≡ out.old.written
        ++ cond (begins_group job.now) (group_units settings.now (job.now.display - job.now.frame))
        [] }
    ensures room { out.new.room + cond (begins_group job.now) 240 0 ≡ out.old.room }
    ensures edge { length out.new.written % 8 ≡ 0 }
{
    if begins(job) {
        write_group_units(settings, job.display - u64::from(job.frame), out);
    }
}

/// Appends all that stands before the slices of a picture: where it begins a group the sequence header, the sequence
/// extension and the group header (clauses 6.2.2.1, 6.2.2.3 and 6.2.2.6), and the picture header with its coding extension
/// (clauses 6.2.3 and 6.2.3.1). The delay is in ticks of 1/90,000 s.
pub fn write_headers(settings: &Passed, job: &PictureJob, delay: u32, out: &mut BitWriter)
    requires job { IsJob job.now }
    requires delay { delay < 65536 }
    requires display { job.now.display < 1000000 }
    requires edge { length out.old.written % 8 ≡ 0 }
    requires room { 384 ≤ out.old.room }
    ensures written { out.new.written ≡ out.old.written ++ header_units settings.now job.now delay }
    ensures room { out.new.room + header_bits job.now ≡ out.old.room }
    ensures edge { length out.new.written % 8 ≡ 0 }
{
    write_group_where(settings, job, out);
    write_picture_units(settings, job, delay, out);
}
