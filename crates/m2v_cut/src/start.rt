//! Whether a group can be cut out, and where the cut begins.
ghost use Rattle.std.specs.Prelude.{◌≡◌, ◌+◌, ◌-◌, ◌/◌, ◌≤◌, ◌<◌, ◌^◌, false, IfOk, IfErr, IfSome, IfNone, IsErrOf, OnOk};
ghost use Rattle.m2v_port.specs.Port.{Rose};
ghost use Rattle.m2v_decode.specs.m2v_dec_piece.Sound.{IsSoundPiece};
ghost use Rattle.m2v_decode.specs.Decoding.{whole_of};
ghost use Rattle.m2v_law_group.specs.m2v_dec_unit.Texts.{units_in};
ghost use Rattle.m2v_law_group.specs.Groups.{group_headers, before_group, from_group};
ghost use Rattle.m2v_cut.specs.Answers.{first_picture};
ghost use Rattle.m2v_cut.specs.Starts.{IsSequencePlace, IsLooked, IsStart, is_field_number, is_other, is_intra_frame, cut_place};

use crate::look::{FirstPicture, first, last_sequence, to_header, units};
use m2v_decode::Piece;

/// What a group's piece tells of it: the places in it of the last sequence header before the group and of the group's
/// header, in bytes, whether that header has its 27 bits, and the first picture behind it.
#[derive(Clone, Copy, Debug, PartialEq, Eq)]
pub struct Start {
    pub sequence: Option<u64>,
    pub header: u64,
    pub long: bool,
    pub first: FirstPicture,
}

/// The first picture before the next group header.
fn first_of(units: &mut m2v_law_group::dec_unit::UnitReader) -> FirstPicture
    ensures { IsLooked (first_picture units.old) result }
{
    first(units)
}

/// The place of the last sequence header before a group, in bytes.
fn sequence_in(piece: &Piece, number: u64) -> Option<u64>
    requires piece { IsSoundPiece piece.now }
    requires here { number < group_headers (units_in (whole_of piece.now)) }
    ensures { IsSequencePlace result (units_in (whole_of piece.now))
        (before_group number (units_in (whole_of piece.now)))
        (from_group number (units_in (whole_of piece.now))) }
{
    let total = units(piece).left();
    match last_sequence(&mut units(piece), number) {
        None => None,
        Some(left) => Some((total - left) / 8),
    }
}

/// Looks for a group in the piece that holds its header.
pub fn start_in(piece: &Piece, number: u64) -> Start
    requires piece { IsSoundPiece piece.now }
    requires here { number < group_headers (units_in (whole_of piece.now)) }
    ensures { IsStart (units_in (whole_of piece.now)) number result }
{
    let sequence = sequence_in(piece, number);
    let mut behind = units(piece);
    let total = behind.left();
    match to_header(&mut behind, number) {
        None => unreachable!(),
        Some(unit) => {
            let left = behind.left() + unit.bits();
            Start {
                sequence,
                header: (total - left) / 8,
                long: unit.bits() >= 64,
                first: first_of(&mut behind),
            }
        }
    }
}

/// Whether a picture is one field.
pub fn is_field(picture: FirstPicture) -> bool
    ensures { result ≡ is_field_number picture.structure }
{
    picture.structure == 1 || picture.structure == 2
}

/// Whether a piece's picture is the other field of type I.
fn is_other_field(picture: FirstPicture, piece: &Piece) -> bool
    requires { IsSoundPiece piece.now }
    ensures { result ≡ is_other picture (first_picture (units_in (whole_of piece.now))) }
{
    let second = first_of(&mut units(piece));
    second.intra && is_field(second) && second.structure != picture.structure
}

/// Whether a group's first frame is a picture of type I or two fields of that type.
fn begins_intra(picture: FirstPicture, second: &Option<Piece>) -> bool
    requires { IfSome second.now IsSoundPiece }
    ensures { result ≡ is_intra_frame picture second.now }
{
    match second {
        None => picture.intra && picture.structure == 3,
        Some(piece) => picture.intra && is_other_field(picture, piece),
    }
}

/// The place of the last sequence header before a group that can be cut out; None where it can't.
pub fn cuttable(start: Start, second: &Option<Piece>) -> Option<u64>
    requires { IfSome second.now IsSoundPiece }
    ensures { result ≡ cut_place start second.now }
{
    if start.long && begins_intra(start.first, second) {
        return start.sequence;
    }
    None
}
