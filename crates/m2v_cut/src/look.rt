//! What a piece tells without being decoded: where its group headers stand, and its picture's type and structure.
ghost use Rattle.std.specs.Prelude.{◌≡◌, ◌+◌, ◌-◌, ◌*◌, ◌^◌, ◌<◌, ◌≤◌, ◌++◌, Bool, true, false, length, drop, nat_eq, nat_le, is_some, IfSome, IfNone, Some, None};
ghost use Rattle.m2v_model.specs.Units.{unit_bits, body, Next};
ghost use Rattle.m2v_model.specs.Looking.{number_from};
ghost use Rattle.m2v_decode.specs.m2v_dec_piece.Sound.{IsSoundPiece};
ghost use Rattle.m2v_decode.specs.Decoding.{whole_of};
ghost use Rattle.m2v_law_group.specs.m2v_dec_unit.Texts.{units_in};
ghost use Rattle.m2v_law_group.specs.Groups.{group_headers, to_end, from_group, before_group, is_number, is_intra, is_coding_extension, structure_of, next_unit};
ghost use Rattle.m2v_cut.specs.Answers.{first_picture, has_intra, picture_structure, or_none};
ghost use Rattle.m2v_cut.specs.Looks.{IsLastSequence, IsNumberBehind, last_behind, structure_in};

use m2v_decode::Piece;
use m2v_law_group::dec_unit::{Unit, UnitReader};

/// The values of units: a picture, the sequence header, an extension, the sequence end code and a group header.
const PICTURE: u8 = 0x00;

const SEQUENCE: u8 = 0xB3;

const EXTENSION: u8 = 0xB5;

const END: u8 = 0xB7;

const GROUP: u8 = 0xB8;

/// What is counted in a piece: its group headers, and its bits without the sequence end code.
#[derive(Clone, Copy, Debug, PartialEq, Eq)]
pub struct Counted {
    pub groups: u64,
    pub bits: u64,
}

/// A picture's type and structure, as far as they can be read: whether it is of type I; 1 for a top field, 2 for a bottom
/// field, 3 for a frame, or 0.
#[derive(Clone, Copy, Debug, PartialEq, Eq)]
pub struct FirstPicture {
    pub intra: bool,
    pub structure: u32,
}

/// How many zero bytes of a piece aren't kept.
pub fn zeros_of(piece: &Piece) -> u64
    requires { IsSoundPiece piece.now }
    ensures { result ≡ piece.now.length - length piece.now.bytes.items }
{
    piece.length - piece.bytes.len() as u64
}

/// The units of a piece.
pub fn units<'a>(piece: &'a Piece) -> UnitReader<'a>
    requires { IsSoundPiece piece.now }
    ensures value { result ≡ units_in (whole_of piece.now) }
    ensures bits { unit_bits result ≤ 8 * piece.now.length }
{
    UnitReader::new(&piece.bytes, zeros_of(piece))
}

/// Counts group headers up to the sequence end code, or to the end.
#[tactic(auto, unfolding(m2v_law_group::specs::Groups::group_headers, m2v_law_group::specs::Groups::to_end, m2v_model::specs::Pieces::is_end))]
pub fn count(units: &mut UnitReader) -> Counted
    ensures groups { result.groups ≡ group_headers (to_end units.old) }
    ensures bits { result.bits ≡ unit_bits (to_end units.old) }
{
    let total = units.left();
    let mut groups = 0;
    loop {
        let left = units.left();
        match units.next() {
            None => {
                return Counted {
                    groups,
                    bits: total,
                };
            }
            Some(unit) => {
                if unit.value() == END {
                    return Counted {
                        groups,
                        bits: total - left,
                    };
                }
                if unit.value() == GROUP {
                    groups += 1;
                }
            }
        }
    }
}

/// Takes the units up to the header of a group, which is answered; None where there is none.
#[tactic(auto, unfolding(m2v_law_group::specs::Groups::from_group))]
pub fn to_header<'a>(units: &mut UnitReader<'a>, number: u64) -> Option<Unit<'a>>
    ensures { Next result (from_group number units.old) units.new }
{
    let mut number = number;
    loop {
        match units.next() {
            None => return None,
            Some(unit) => {
                if unit.value() == GROUP {
                    if number == 0 {
                        return Some(unit);
                    }
                    number -= 1;
                }
            }
        }
    }
}

/// The number of a group among the units behind one; None where that unit is its header.
#[tactic(auto, unfolding(m2v_law_group::specs::Groups::from_group, m2v_law_group::specs::Groups::before_group))]
fn number_behind(unit: &Unit, number: u64) -> Option<u64>
    ensures { IsNumberBehind result number unit.now }
{
    if unit.value() != GROUP {
        return Some(number);
    }
    if number == 0 {
        return None;
    }
    Some(number - 1)
}

/// How many bits are left at the last sequence header behind one more unit.
fn found_behind(unit: &Unit, left: u64, found: Option<u64>) -> Option<u64>
    ensures { result ≡ last_behind unit.now left found }
{
    if unit.value() == SEQUENCE {
        return Some(left);
    }
    found
}

/// How many bits are left at the last sequence header before the header of a group, where there is one.
pub fn last_sequence(units: &mut UnitReader, number: u64) -> Option<u64>
    ensures { IsLastSequence result (before_group number units.old) (from_group number units.old) }
{
    let mut number = number;
    let mut found = None;
    loop {
        let left = units.left();
        match units.next() {
            None => return found,
            Some(unit) => match number_behind(&unit, number) {
                None => return found,
                Some(behind) => {
                    number = behind;
                    found = found_behind(&unit, left, found);
                }
            },
        }
    }
}

/// Whether the n bits that stand some bits behind a unit's start code spell a number.
#[tactic(auto, using(m2v_bits::proofs::Cursor::lengths), unfolding(m2v_model::specs::Looking::number_from))]
fn number_in(unit: &Unit, from: u8, n: u8) -> Option<u32>
    requires { n ≤ 32 }
    ensures { result ≡ number_from from n (body unit.now) }
{
    let mut bits = unit.body();
    if bits.left() < u64::from(from) + u64::from(n) {
        return None;
    }
    bits.skip(from);
    Some(bits.peek(n))
}

/// Whether a number is there and is this one.
fn is(found: Option<u32>, number: u32) -> bool
    ensures { result ≡ is_number number found }
{
    match found {
        Some(n) => n == number,
        None => false,
    }
}

/// Whether a unit is a picture coding extension (clause 6.2.3.1).
fn is_coding_extension_unit(unit: &Unit) -> bool
    ensures { result ≡ is_coding_extension unit.now }
{
    unit.value() == EXTENSION && is(number_in(unit, 0, 4), 8)
}

/// The structure of a picture, by the unit right behind its picture unit.
fn structure_behind(behind: Option<Unit>) -> u32
    ensures { result ≡ structure_in behind.entry }
{
    match behind {
        None => 0,
        Some(unit) => {
            if !is_coding_extension_unit(&unit) {
                return 0;
            }
            number_in(&unit, 22, 2).unwrap_or(0)
        }
    }
}

/// The first picture before the next group header.
#[tactic(auto, unfolding(crate::specs::Answers::first_picture))]
pub fn first(units: &mut UnitReader) -> FirstPicture
    ensures intra { result.intra ≡ has_intra (first_picture units.old) }
    ensures structure { result.structure ≡ picture_structure (first_picture units.old) }
{
    loop {
        match units.next() {
            None => {
                return FirstPicture {
                    intra: false,
                    structure: 0,
                };
            }
            Some(unit) => {
                if unit.value() == GROUP {
                    return FirstPicture {
                        intra: false,
                        structure: 0,
                    };
                }
                if unit.value() == PICTURE {
                    return FirstPicture {
                        intra: is(number_in(&unit, 10, 3), 1),
                        structure: structure_behind(units.next()),
                    };
                }
            }
        }
    }
}
