//! Bytes of a piece that change, in place: temporal references, and what group headers tell; and what stands before its
//! picture: without what comes before its first sequence header, or with a header that was copied.
ghost use Rattle.std.specs.Prelude.{◌≡◌, ℕ, List, ◌∷◌, ◌+◌, ◌-◌, ◌*◌, ◌/◌, ◌%◌, ◌^◌, ◌<◌, ◌≤◌, true, length, vec_len, map, IfOk, OnOk, Ok};
ghost use Rattle.m2v_model.specs.Units.{joined};
ghost use Rattle.m2v_model.specs.Pieces.{before_sequence};
ghost use Rattle.m2v_decode.specs.m2v_dec_piece.Sound.{IsSoundPiece};
ghost use Rattle.m2v_decode.specs.Decoding.{whole_of};
ghost use Rattle.m2v_dec_unit.specs.Texts.{text_of, IsZeroEnded};
ghost use Rattle.m2v_law_group.specs.Groups.{has_sequence, with_broken_link};
ghost use Rattle.m2v_law_seam.specs.Spans.{units_of, has_group};
ghost use Rattle.m2v_law_seam.specs.Seams.{low_behind};
ghost use Rattle.m2v_law_seam.specs.Seams as seams;
ghost use Rattle.m2v_mend.specs.Editing.{IsWhole, IsUnits, EndsInZeros, zeros_in, edited, HasRoom, IsFirstLength, IsEdited, IsFromHeader, HasFront};

use crate::Memory;
use crate::walk::{GROUP, PICTURE, SEQUENCE, units, zeros_of};
use m2v_dec_unit::UnitReader;
use m2v_decode::Piece;
use std::alloc::Global;

/// What changes in each unit of a piece.
#[derive(Clone, Copy, Debug, PartialEq, Eq)]
pub enum Edit {
    /// Temporal references are lowered by so much, modulo 1024.
    Lower(u32),
    /// Group headers tell that the pictures before them aren't there.
    Mark,
}

/// The temporal reference in two bytes.
pub(crate) fn reference_of(high: u8, low: u8) -> u32
    ensures { result ≡ (4 * high + low / 64) % 1024 }
{
    (4 * u32::from(high) + u32::from(low) / 64) % 1024
}

/// A temporal reference that is lowered, by the two bytes in which it stands.
fn lowered(high: u8, low: u8, by: u32) -> u32
    ensures value { result ≡ ((4 * high + low / 64) % 1024 + 1024 - by) % 1024 }
    ensures below { result < 1024 }
{
    let reference = reference_of(high, low);
    (reference + 1024).saturating_sub(by) % 1024
}

/// Whether the bytes of a unit are those of an I, P or B picture up to its type.
fn is_typed(unit: &[u8]) -> bool
    requires { 4 ≤ length unit.now }
    ensures value { (zeros : ℕ) → IsZeroEnded unit.now zeros
        → result ≡ seams.is_typed (text_of unit.now zeros) }
    ensures long { result ≡ true → 6 ≤ length unit.now }
{
    if unit[3] != PICTURE || unit.len() < 6 {
        return false;
    }
    let kind = unit[5] / 8 % 8;
    1 <= kind && kind <= 3
}

/// Lowers the temporal reference of a unit, by its bytes that are kept.
fn lower_unit(unit: &mut [u8], by: u32)
    requires { 4 ≤ length unit.old }
    ensures length { length unit.new ≡ length unit.old }
    ensures value { (zeros : ℕ) → IsZeroEnded unit.old zeros
        → text_of unit.new zeros ≡ seams.lowered_unit by (text_of unit.old zeros) }
    ensures ended { (zeros : ℕ) → IsZeroEnded unit.old zeros → IsZeroEnded unit.new zeros }
{
    if by == 0 {
        return;
    }
    if is_typed(unit) {
        let reference = lowered(unit[4], unit[5], by);
        unit[4] = (reference / 4) as u8;
        unit[5] = (64 * (reference % 4)) as u8 + unit[5] % 64;
    }
}

/// A byte with closed_gop 0 and broken_link 1, behind the last bit of a time code.
fn broken(byte: u8) -> u8
    ensures { result ≡ with_broken_link byte }
{
    128 * (byte / 128) + 32 + byte % 32
}

/// Marks a unit, by its bytes that are kept, where it is a group header that has the two bits.
fn mark_unit(unit: &mut [u8])
    requires { 4 ≤ length unit.old }
    ensures length { length unit.new ≡ length unit.old }
    ensures value { (zeros : ℕ) → EndsInZeros unit.old zeros
        → text_of unit.new zeros ≡ seams.marked_unit (text_of unit.old zeros) }
    ensures ended { (zeros : ℕ) → EndsInZeros unit.old zeros → IsZeroEnded unit.new zeros }
{
    if unit[3] == GROUP && unit.len() >= 8 {
        unit[7] = broken(unit[7]);
    }
}

/// Edits a unit, by its bytes that are kept.
fn edit_unit(unit: &mut [u8], edit: Edit)
    requires { 4 ≤ length unit.old }
    ensures length { length unit.new ≡ length unit.old }
    ensures value { (zeros : ℕ) → HasRoom edit unit.old zeros
        → text_of unit.new zeros ≡ edited edit (text_of unit.old zeros) }
    ensures ended { (zeros : ℕ) → HasRoom edit unit.old zeros → IsZeroEnded unit.new zeros }
{
    match edit {
        Edit::Lower(by) => lower_unit(unit, by),
        Edit::Mark => mark_unit(unit),
    }
}

/// How many of the bytes that are kept the first unit has.
pub(crate) fn unit_length(bytes: &[u8], zeros: u64) -> usize
    requires some { 0 < length bytes.now }
    requires most { length bytes.now + zeros ≤ 2 ^ 36 }
    requires ended { IsZeroEnded bytes.now zeros }
    requires units { IsWhole (text_of bytes.now zeros) }
    ensures first { IsFirstLength bytes.now zeros result }
    ensures within { result ≤ length bytes.now }
{
    let mut units = UnitReader::new(bytes, zeros);
    match units.next() {
        None => bytes.len(),
        Some(unit) => (unit.bits() / 8).min(bytes.len() as u64) as usize,
    }
}

/// Edits units one after another.
fn edit_units(bytes: &mut [u8], zeros: u64, edit: Edit)
    requires most { length bytes.old + zeros ≤ 2 ^ 36 }
    requires ended { IsZeroEnded bytes.old zeros }
    requires room { HasRoom edit bytes.old zeros }
    requires units { IsWhole (text_of bytes.old zeros) }
    ensures length { length bytes.new ≡ length bytes.old }
    ensures bytes { text_of bytes.new zeros
        ≡ joined (map (edited edit) (units_of (text_of bytes.old zeros))) }
    ensures ended { IsZeroEnded bytes.new zeros }
{
    let mut at = 0;
    while at < bytes.len() {
        let n = unit_length(&bytes[at..], zeros);
        edit_unit(&mut bytes[at..at + n], edit);
        at += n;
    }
}

/// Edits the units of a piece.
fn edit_piece(piece: &mut Piece, edit: Edit)
    requires sound { IsSoundPiece piece.old }
    requires units { IsUnits piece.old }
    requires room { HasRoom edit piece.old.bytes.items (zeros_in piece.old) }
    ensures sound { IsSoundPiece piece.new }
    ensures edited { IsEdited edit piece.old piece.new }
{
    let zeros = zeros_of(piece);
    edit_units(&mut piece.bytes, zeros, edit);
}

/// Lowers the temporal references of a piece.
pub fn lower(piece: &mut Piece, low: u32)
    requires sound { IsSoundPiece piece.old }
    requires units { IsUnits piece.old }
    ensures sound { IsSoundPiece piece.new }
    ensures edited { IsEdited (Edit.Lower low) piece.old piece.new }
{
    // most pieces are lowered by nothing: their units needn't be looked for
    if low == 0 {
        return;
    }
    edit_piece(piece, Edit::Lower(low));
}

/// Marks the group headers of a piece.
pub fn mark(piece: &mut Piece)
    requires sound { IsSoundPiece piece.old }
    requires units { IsUnits piece.old }
    requires room { EndsInZeros piece.old.bytes.items (zeros_in piece.old) }
    ensures sound { IsSoundPiece piece.new }
    ensures edited { IsEdited Edit.Mark piece.old piece.new }
{
    edit_piece(piece, Edit::Mark);
}

/// By how much the temporal references of a span are lowered, by its first piece and by how much they were before it: they
/// count from 0 behind each group header.
pub fn lowered_behind(low: u32, first_has_group: bool) -> u32
    ensures { (p : List ℕ) (ps : List (List ℕ)) → has_group (units_of p) ≡ first_has_group
        → result ≡ low_behind low (p ∷ ps) }
{
    if first_has_group { 0 } else { low }
}

/// How many bytes stand before the first sequence header of units; all of theirs where there is none.
#[tactic(auto, unfolding(m2v_model::specs::Pieces::before_sequence))]
fn before_header(units: &mut UnitReader) -> u64
    ensures { result ≡ length (before_sequence units.old) }
{
    let total = units.left();
    loop {
        let left = units.left();
        match units.next() {
            None => return total / 8,
            Some(unit) => {
                if unit.value() == SEQUENCE {
                    return (total - left) / 8;
                }
            }
        }
    }
}

/// Leaves out what stands before the first sequence header of a piece.
pub fn from_sequence_on(piece: &mut Piece) -> Result<(), Memory>
    requires sound { IsSoundPiece piece.old }
    requires units { IsUnits piece.old }
    requires header { has_sequence (units_of (whole_of piece.old)) ≡ true }
    ensures sound { OnOk result (IsSoundPiece piece.new) }
    ensures front { OnOk result (IsFromHeader piece.old piece.new) }
{
    let before = before_header(&mut units(piece));
    let bytes = piece.bytes.split_off(before as usize)?;
    piece.bytes = bytes;
    piece.place += before;
    piece.length -= before;
    Ok(())
}

/// A piece with bytes in front of it, as if they stood right before it.
pub fn with_head(head: &[u8], piece: &Piece, alloc: Global) -> Result<Piece, Memory>
    requires sound { IsSoundPiece piece.now }
    requires place { length head.now ≤ piece.now.place }
    requires most { length head.now + vec_len piece.now.bytes ≤ 2097216 }
    ensures sound { IfOk result IsSoundPiece }
    ensures front { IfOk result (HasFront head.now piece.now) }
{
    let mut bytes = Vec::with_capacity(alloc, head.len() + piece.bytes.len())?;
    bytes.extend_from_slice(head)?;
    bytes.extend_from_slice(&piece.bytes)?;
    Ok(Piece {
        bytes,
        place: piece.place - head.len() as u64,
        length: piece.length + head.len() as u64,
    })
}
