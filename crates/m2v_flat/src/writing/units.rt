ghost use Rattle.std.specs.Prelude.{◌≡◌, ℕ, ◌+◌, ◌*◌, ◌%◌, ◌<◌, ◌≤◌, ◌^◌, ◌++◌, [], length};
ghost use Rattle.m2v_bits.specs.Bits.{start_code, bits_of, unit};
ghost use Rattle.m2v_head.specs.Texts.{sequence_text, sequence_extension_text, picture_text, picture_extension_text};
ghost use Rattle.m2v_flat.specs.Flat.{flat_sequence, flat_sequence_extension, flat_picture, flat_picture_extension, sequence_units};

use crate::settings::FlatSettings;
use m2v_bits::BitWriter;
use m2v_head::{PictureExtension, PictureInfo, SequenceExtension, SequenceInfo};

/// Main profile at Main level, progressive, 4:2:0.
const SEQUENCE_EXTENSION: SequenceExtension = SequenceExtension {
    profile_and_level: 72,
    progressive_sequence: true,
    chroma_format: 1,
    horizontal_ext: 0,
    vertical_ext: 0,
    bit_rate_ext: 0,
    vbv_ext: 0,
    low_delay: false,
    rate_n: 0,
    rate_d: 0,
};

/// A progressive frame without motion.
const PICTURE_EXTENSION: PictureExtension = PictureExtension {
    f_code: [[15, 15], [15, 15]],
    dc_precision: 0,
    structure: 3,
    top_field_first: false,
    frame_pred_frame_dct: true,
    concealment: false,
    q_scale_type: false,
    intra_vlc_format: false,
    alternate_scan: false,
    repeat_first_field: false,
    chroma_420_type: true,
    progressive_frame: true,
    composite: None,
};

/// Appends a start code.
#[tactic(auto, using(m2v_bits::proofs::Cursor::lengths))]
pub fn write_start_code(value: u8, out: &mut BitWriter)
    requires { 32 ≤ out.old.room }
    ensures written { out.new.written ≡ out.old.written ++ start_code value }
    ensures room { out.new.room + 32 ≡ out.old.room }
{
    out.put(1, 24);
    out.put(value as u32, 8);
}

/// Appends the sequence header: square samples, and the most that Main profile at Main level allows of the rate and the
/// buffer.
#[tactic(auto, using(m2v_bits::proofs::Cursor::lengths, crate::proofs::UnitLaws::units))]
fn write_sequence_header(settings: &FlatSettings, out: &mut BitWriter)
    requires width { settings.now.dims.width < 2 ^ 12 }
    requires height { settings.now.dims.height < 2 ^ 12 }
    requires code { settings.now.rate_code < 2 ^ 4 }
    requires edge { length out.old.written % 8 ≡ 0 }
    requires room { 128 ≤ out.old.room }
    ensures written { out.new.written
        ≡ out.old.written ++ unit 0xB3 (sequence_text (flat_sequence settings.now)) }
    ensures room { out.new.room + length (unit 0xB3 (sequence_text (flat_sequence settings.now)))
        ≡ out.old.room }
    ensures edge { length out.new.written % 8 ≡ 0 }
{
    write_start_code(0xB3, out);
    let sequence = SequenceInfo {
        horizontal_size: settings.dims.width,
        vertical_size: settings.dims.height,
        aspect: 1,
        frame_rate_code: settings.rate_code as u8,
        bit_rate: 37500,
        vbv_buffer_size: 112,
        constrained: false,
        load_intra: None,
        load_non_intra: None,
    };
    sequence.write(out);
    out.align();
}

/// Appends the sequence extension.
#[tactic(auto, using(m2v_bits::proofs::Cursor::lengths, crate::proofs::UnitLaws::units))]
fn write_sequence_extension(out: &mut BitWriter)
    requires edge { length out.old.written % 8 ≡ 0 }
    requires room { 128 ≤ out.old.room }
    ensures written { out.new.written
        ≡ out.old.written ++ unit 0xB5 (sequence_extension_text flat_sequence_extension) }
    ensures room { out.new.room
        + length (unit 0xB5 (sequence_extension_text flat_sequence_extension)) ≡ out.old.room }
    ensures edge { length out.new.written % 8 ≡ 0 }
{
    write_start_code(0xB5, out);
    SEQUENCE_EXTENSION.write(out);
    out.align();
}

/// Appends the header of picture n.
#[tactic(auto, using(m2v_bits::proofs::Cursor::lengths, crate::proofs::UnitLaws::units))]
pub fn write_picture_header(number: u64, out: &mut BitWriter)
    requires edge { length out.old.written % 8 ≡ 0 }
    requires room { 128 ≤ out.old.room }
    ensures written { out.new.written
        ≡ out.old.written ++ unit 0x00 (picture_text (flat_picture number)) }
    ensures room { out.new.room + length (unit 0x00 (picture_text (flat_picture number)))
        ≡ out.old.room }
    ensures edge { length out.new.written % 8 ≡ 0 }
{
    write_start_code(0x00, out);
    let picture = PictureInfo {
        temporal_reference: (number % 1024) as u32,
        kind: 1,
        vbv_delay: 65535,
        full_pel_forward: false,
        forward_f_code: 0,
        full_pel_backward: false,
        backward_f_code: 0,
    };
    picture.write(out);
    out.align();
}

/// Appends the picture coding extension.
#[tactic(auto, using(m2v_bits::proofs::Cursor::lengths, crate::proofs::UnitLaws::units))]
pub fn write_picture_extension(out: &mut BitWriter)
    requires edge { length out.old.written % 8 ≡ 0 }
    requires room { 128 ≤ out.old.room }
    ensures written { out.new.written
        ≡ out.old.written ++ unit 0xB5 (picture_extension_text flat_picture_extension) }
    ensures room { out.new.room + length (unit 0xB5 (picture_extension_text flat_picture_extension))
        ≡ out.old.room }
    ensures edge { length out.new.written % 8 ≡ 0 }
{
    write_start_code(0xB5, out);
    PICTURE_EXTENSION.write(out);
    out.align();
}

/// Appends the headers before the first picture.
#[tactic(auto, using(m2v_bits::proofs::Cursor::lengths, crate::proofs::UnitLaws::units), unfolding(crate::specs::Flat::sequence_units))]
pub fn write_sequence(settings: &FlatSettings, out: &mut BitWriter)
    requires width { settings.now.dims.width < 2 ^ 12 }
    requires height { settings.now.dims.height < 2 ^ 12 }
    requires code { settings.now.rate_code < 2 ^ 4 }
    requires edge { length out.old.written % 8 ≡ 0 }
    requires room { 256 ≤ out.old.room }
    ensures written { out.new.written ≡ out.old.written ++ sequence_units settings.now }
    ensures room { out.new.room + length (sequence_units settings.now) ≡ out.old.room }
    ensures edge { length out.new.written % 8 ≡ 0 }
{
    write_sequence_header(settings, out);
    write_sequence_extension(out);
}

/// Writes the sequence end code.
#[tactic(auto, using(m2v_bits::proofs::Cursor::lengths))]
pub fn write_end(out: &mut BitWriter)
    requires empty { out.old.written ≡ [] }
    requires room { 32 ≤ out.old.room }
    ensures written { out.new.written ≡ start_code 0xB7 }
    ensures room { out.new.room + length out.new.written ≡ out.old.room }
    ensures edge { length out.new.written % 8 ≡ 0 }
{
    write_start_code(0xB7, out);
}
