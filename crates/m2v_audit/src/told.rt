//! What the report tells of a sequence header, a group header and a picture.
ghost use Rattle.std.specs.Prelude.{◌≡◌, ◌≤◌, ◌^◌};
ghost use Rattle.m2v_audit.specs.HeaderRecords.{sequence_record, group_record, type_of, structure_of, bit_of, picture_record, is_constant, rate_with, waiting_of};

use crate::opening::VARIABLE;
use crate::places::Waiting;
use crate::records::{GroupRecord, PictureRecord, SequenceRecord};
use crate::report::Rate;
use crate::times::fields_of;
use crate::words::{PictureType, RateKind, Structure};
use m2v_model::macro_library::head::GroupInfo;
use m2v_model::{PictureNote, Sequence};
use m2v_strict::check::{CodedPicture, buffer_of, rate_of};

/// A sequence, by its first header, which stands at a bit of the input.
pub(crate) fn sequence_record(number: u64, bit: u64, s: &Sequence, rate: RateKind) -> SequenceRecord
    ensures { result ≡ sequence_record number bit s.now rate }
{
    SequenceRecord {
        sequence: number,
        bit,
        width: s.width(),
        height: s.height(),
        frame_rate_code: u64::from(s.info.frame_rate_code),
        aspect: u64::from(s.info.aspect),
        profile_and_level: u64::from(s.extension.profile_and_level),
        progressive: s.extension.progressive_sequence,
        low_delay: s.extension.low_delay,
        bit_rate: rate_of(s),
        vbv_buffer_size: buffer_of(s),
        rate,
    }
}

/// The first vbv_delay doesn't say that the rate is variable.
fn is_constant(note: &Option<PictureNote>) -> bool
    ensures { result ≡ is_constant note.now }
{
    match note {
        Some(n) => n.info.vbv_delay != VARIABLE,
        None => true,
    }
}

/// How the buffer is filled, by the first header of a sequence and its first picture.
pub(crate) fn rate_with(s: &Sequence, note: &Option<PictureNote>) -> Rate
    ensures { result ≡ rate_with s.now note.now }
{
    Rate {
        constant: is_constant(note),
        low_delay: s.extension.low_delay,
        size: 1800 * (16_384 * buffer_of(s)),
    }
}

/// A group header at a bit of the input, before a picture.
pub(crate) fn group_record(
    number: u64,
    group: u64,
    bit: u64,
    picture: u64,
    g: &GroupInfo,
) -> GroupRecord
    ensures { result ≡ group_record number group bit picture g.now }
{
    GroupRecord {
        sequence: number,
        group,
        bit,
        picture,
        drop_frame: g.drop,
        hours: u64::from(g.hours),
        minutes: u64::from(g.minutes),
        seconds: u64::from(g.seconds),
        pictures: u64::from(g.pictures),
        closed: g.closed_gop,
        broken: g.broken_link,
    }
}

/// The type of a picture, by its picture_coding_type.
fn type_of(kind: u8) -> PictureType
    ensures { result ≡ type_of kind }
{
    match kind {
        1 => PictureType::I,
        2 => PictureType::P,
        _ => PictureType::B,
    }
}

/// The structure of a picture, by its picture_structure.
fn structure_of(structure: u8) -> Structure
    ensures { result ≡ structure_of structure }
{
    match structure {
        1 => Structure::Top,
        2 => Structure::Bottom,
        _ => Structure::Frame,
    }
}

/// Where the start code of a picture begins, in bits from the input's first byte.
pub(crate) fn bit_of(note: &PictureNote) -> u64
    ensures { result ≡ bit_of note.now }
{
    note.code_end.saturating_sub(32)
}

/// A picture whose piece has so many bytes, of which so many zero bytes end it.
pub(crate) fn picture_record(number: u64, p: &CodedPicture, bytes: u64, zeros: u64) -> PictureRecord
    requires bytes { bytes ≤ 2 ^ 36 }
    requires zeros { zeros ≤ 2 ^ 36 }
    ensures { result ≡ picture_record number p.now bytes zeros }
{
    PictureRecord {
        sequence: number,
        picture: p.number,
        bit: bit_of(&p.note),
        kind: type_of(p.note.info.kind),
        structure: structure_of(p.note.extension.structure),
        temporal_reference: u64::from(p.note.info.temporal_reference),
        bits: 8 * bytes,
        zeros: 8 * zeros,
        vbv_delay: u64::from(p.note.info.vbv_delay),
        fields: fields_of(&p.sequence, &p.note),
        dropped: p.note.dropped,
    }
}

/// A picture whose place in its group isn't known yet.
pub(crate) fn waiting_of(p: &CodedPicture) -> Waiting
    ensures { result ≡ waiting_of p.now }
{
    Waiting {
        number: p.number,
        bit: bit_of(&p.note),
        reference: p.note.info.temporal_reference,
    }
}
