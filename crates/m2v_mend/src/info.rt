//! What a piece tells without being decoded: which headers and pictures it has, and where they stand.
ghost use Rattle.std.specs.Prelude.{◌≡◌, ℕ, List, [], ◌∷◌, nat_eq, ◌+◌, ◌-◌, ◌/◌, ◌^◌, ◌<◌, ◌≤◌, ◌||◌, ◌&&◌, length};
ghost use Rattle.m2v_model.specs.Units.{joined, unit_bits};
ghost use Rattle.m2v_decode.specs.m2v_dec_piece.Sound.{IsSoundPiece};
ghost use Rattle.m2v_decode.specs.Decoding.{whole_of};
ghost use Rattle.m2v_law_group.specs.Groups.{coded_pictures, to_end};
ghost use Rattle.m2v_law_seam.specs.Spans as spans;
ghost use Rattle.m2v_law_seam.specs.Spans.{units_of, number_or, field_by, first_field};
ghost use Rattle.m2v_law_seam.specs.Faults.{before_picture};
ghost use Rattle.m2v_mend.specs.Feeding.{from_end};
ghost use Rattle.m2v_mend.specs.Gathering as gathering;
ghost use Rattle.m2v_mend.specs.Telling.{IsInfo, IsCounted, SlicesFrom, first_kind, unit_or_none, pictures_with, place_with, counted_with, with_slices};

use crate::walk::{END, EXTENSION, GROUP, PICTURE, SEQUENCE, is, matrices_seen, number_in, units};
use m2v_dec_unit::{Unit, UnitReader};
use m2v_decode::Piece;

/// What a piece tells.
#[derive(Clone, Copy, Debug, PartialEq, Eq)]
pub struct PieceInfo {
    /// It has a sequence header, more than one, and a group header.
    pub sequence: bool,
    pub again: bool,
    pub group: bool,
    /// How many picture units it has.
    pub pictures: u64,
    /// The type of the first of them, 0 where it can't be told.
    pub kind: u32,
    /// Its structure: 1 or 2 for a field, 0 for a frame, and where it can't be told.
    pub field: u32,
    /// It has a quant matrix extension.
    pub matrices: bool,
    /// How many bytes stand before its first picture unit, and before its first quant matrix extension: all of them where
    /// there is none.
    pub picture_place: u64,
    pub matrices_place: u64,
}

/// What is counted of units.
#[derive(Clone, Copy, Debug, PartialEq, Eq)]
pub struct Counted {
    pub sequence: bool,
    pub again: bool,
    pub group: bool,
    pub pictures: u64,
    pub matrices: bool,
    pub matrices_place: u64,
}

/// The first picture: its type, its structure and how many bytes stand before it.
#[derive(Clone, Copy, Debug, PartialEq, Eq)]
pub struct FirstPicture {
    pub kind: u32,
    pub field: u32,
    pub place: u64,
}

/// A number that was looked at, 0 where it isn't there.
fn or_zero(found: Option<u32>) -> u32
    ensures { result ≡ number_or 0 found }
{
    match found {
        Some(n) => n,
        None => 0,
    }
}

/// The structure of a picture, by the unit right behind its picture unit.
fn field_behind(behind: Option<Unit>) -> u32
    ensures { result ≡ field_by (unit_or_none behind.entry) }
{
    match behind {
        None => 0,
        Some(unit) => {
            if unit.value() != EXTENSION {
                return 0;
            }
            let structure = number_in(&unit, 22, 2);
            if is(structure, 3) {
                return 0;
            }
            or_zero(structure)
        }
    }
}

/// The first picture of units.
#[tactic(auto, unfolding(m2v_law_group::specs::Groups::coded_pictures, m2v_law_seam::specs::Faults::before_picture))]
fn first_picture(units: &mut UnitReader) -> FirstPicture
    ensures kind { result.kind ≡ first_kind (coded_pictures units.old) }
    ensures field { result.field ≡ first_field (coded_pictures units.old) }
    ensures place { result.place ≡ length (joined (before_picture 0 units.old)) }
{
    let total = units.left();
    loop {
        let left = units.left();
        match units.next() {
            None => {
                return FirstPicture {
                    kind: 0,
                    field: 0,
                    place: total / 8,
                };
            }
            Some(unit) => {
                if unit.value() == PICTURE {
                    return FirstPicture {
                        kind: or_zero(number_in(&unit, 10, 3)),
                        field: field_behind(units.next()),
                        place: (total - left) / 8,
                    };
                }
            }
        }
    }
}

/// How many picture units there are with one unit more.
fn pictures_behind(pictures: u64, value: u8) -> u64
    requires { pictures < 2 ^ 40 }
    ensures { result ≡ pictures_with value pictures }
{
    if value == PICTURE {
        return pictures + 1;
    }
    pictures
}

/// How many bytes stand before the first quant matrix extension, with one unit more.
fn place_behind(matrices: bool, place: u64, bytes: u64) -> u64
    requires { place + bytes < 2 ^ 41 }
    ensures { result ≡ place_with matrices bytes place }
{
    if matrices {
        return place;
    }
    place + bytes
}

/// A sequence or a group header is among units with one more.
fn seen(before: bool, value: u8, wanted: u8) -> bool
    ensures { result ≡ (before || nat_eq value wanted) }
{
    before || value == wanted
}

/// More than one sequence header is among units with one more, where one was met before or not.
fn seen_again(before: bool, met: bool, value: u8) -> bool
    ensures { result ≡ (before || (met && nat_eq value 0xB3)) }
{
    before || met && value == SEQUENCE
}

/// What is counted with one unit more.
fn counted_with(counted: &Counted, unit: &Unit) -> Counted
    requires pictures { counted.now.pictures < 2 ^ 40 }
    requires place { counted.now.matrices_place + length unit.now < 2 ^ 41 }
    ensures { result ≡ counted_with unit.now counted.now }
{
    let value = unit.value();
    let bytes = unit.bits() / 8;
    let matrices = matrices_seen(counted.matrices, unit);
    Counted {
        sequence: seen(counted.sequence, value, SEQUENCE),
        again: seen_again(counted.again, counted.sequence, value),
        group: seen(counted.group, value, GROUP),
        pictures: pictures_behind(counted.pictures, value),
        matrices,
        matrices_place: place_behind(matrices, counted.matrices_place, bytes),
    }
}

/// What is counted with so many bytes of slices more.
fn with_slices(counted: &Counted, bytes: u64) -> Counted
    requires { counted.now.matrices_place + bytes < 2 ^ 41 }
    ensures { result ≡ with_slices bytes counted.now }
{
    let Counted {
        matrices,
        matrices_place,
        ..
    } = *counted;
    Counted {
        matrices_place: place_behind(matrices, matrices_place, bytes),
        ..*counted
    }
}

/// What is counted of units before the first sequence end code, and how many bits they have from it on. Where no more
/// than `slices` bits are left, those are slices, which aren't gone over.
#[tactic(auto, unfolding(crate::specs::Feeding::from_end, m2v_model::specs::Pieces::is_end))]
pub(crate) fn count(units: &mut UnitReader, slices: u64) -> (Counted, u64)
    requires { SlicesFrom slices units.old }
    ensures counted { IsCounted (to_end units.old) result.0 }
    ensures behind { result.1 ≡ unit_bits (from_end units.old) }
{
    let _total = units.left();
    let mut counted = Counted {
        sequence: false,
        again: false,
        group: false,
        pictures: 0,
        matrices: false,
        matrices_place: 0,
    };
    loop {
        let left = units.left();
        if left <= slices {
            return (with_slices(&counted, left / 8), 0);
        }
        match units.next() {
            None => return (counted, 0),
            Some(unit) => {
                if unit.value() == END {
                    return (counted, left);
                }
                counted = counted_with(&counted, &unit);
            }
        }
    }
}

/// What a piece tells, by what was counted of its units.
pub(crate) fn info_of(piece: &Piece, counted: &Counted) -> PieceInfo
    requires sound { IsSoundPiece piece.now }
    requires counted { IsCounted (units_of (whole_of piece.now)) counted.now }
    ensures { IsInfo (units_of (whole_of piece.now)) result }
{
    let first = first_picture(&mut units(piece));
    PieceInfo {
        sequence: counted.sequence,
        again: counted.again,
        group: counted.group,
        pictures: counted.pictures,
        kind: first.kind,
        field: first.field,
        matrices: counted.matrices,
        picture_place: first.place,
        matrices_place: counted.matrices_place,
    }
}

impl PieceInfo {
    /// A piece with a sequence or group header.
    pub fn is_entry(&self) -> bool
        ensures { (p : List ℕ) → IsInfo (units_of p) self.now → result ≡ spans.is_entry p }
    {
        self.sequence || self.group
    }

    /// Its picture is an I picture. So is the first one of pieces that begin with it, where it has one.
    pub fn is_intra(&self) -> bool
        ensures alone { (p : List ℕ) → IsInfo (units_of p) self.now
            → result ≡ spans.begins_kind 1 (p ∷ []) }
        ensures first { (p : List ℕ) (ps : List (List ℕ)) → IsInfo (units_of p) self.now
            → 1 ≤ self.now.pictures → result ≡ spans.begins_kind 1 (p ∷ ps) }
    {
        self.kind == 1
    }

    /// Its picture is a B picture.
    pub fn is_b(&self) -> bool
        ensures { (p : List ℕ) → IsInfo (units_of p) self.now → result ≡ spans.is_b_piece p }
    {
        self.kind == 3
    }

    /// Its picture is an I or P picture, which others may refer to.
    pub fn is_anchor(&self) -> bool
        ensures { (p : List ℕ) → IsInfo (units_of p) self.now → result ≡ spans.is_anchor_piece p }
    {
        self.kind == 1 || self.kind == 2
    }
}

/// The piece is a second field, where a first field of this structure waits; 0 where none does.
pub fn is_second(waiting: u32, info: &PieceInfo) -> bool
    ensures { (p : List ℕ) → IsInfo (units_of p) info.now → result ≡ spans.is_second waiting p }
{
    waiting != 0 && info.field >= 1 && info.field != waiting
}

/// The structure of the first field that waits behind a piece.
#[tactic(auto, unfolding(m2v_law_seam::specs::Spans::waits_behind))]
pub fn waits_behind(waiting: u32, info: &PieceInfo) -> u32
    ensures { (p : List ℕ) → IsInfo (units_of p) info.now
        → result ≡ spans.waits_behind waiting p }
{
    if is_second(waiting, info) {
        return 0;
    }
    info.field
}

/// A step begins at the piece: at each entry, and at each I or P picture that isn't the second field of a frame.
pub fn begins_step(waiting: u32, info: &PieceInfo) -> bool
    ensures { (p : List ℕ) → IsInfo (units_of p) info.now
        → result ≡ gathering.begins_step waiting p }
{
    let entry = info.is_entry();
    let anchor = info.is_anchor();
    let second = is_second(waiting, info);
    entry || anchor && !second
}
