//! The units of a piece, and what stands in them.
ghost use Rattle.std.specs.Prelude.{◌≡◌, ◌+◌, ◌-◌, ◌*◌, ◌<◌, ◌≤◌, ◌||◌, length};
ghost use Rattle.m2v_model.specs.Units.{unit_bits, body};
ghost use Rattle.m2v_model.specs.Looking.{number_from};
ghost use Rattle.m2v_decode.specs.m2v_dec_piece.Sound.{IsSoundPiece};
ghost use Rattle.m2v_decode.specs.Decoding.{whole_of};
ghost use Rattle.m2v_law_group.specs.Groups.{is_number};
ghost use Rattle.m2v_law_seam.specs.Spans.{units_of, is_matrices};
ghost use Rattle.m2v_mend.specs.Editing.{zeros_in};

use m2v_dec_unit::{Unit, UnitReader};
use m2v_decode::Piece;

/// The values of units: a picture, the sequence header, an extension, the sequence end code and a group header.
pub const PICTURE: u8 = 0x00;

pub const SEQUENCE: u8 = 0xB3;

pub const EXTENSION: u8 = 0xB5;

pub const END: u8 = 0xB7;

pub const GROUP: u8 = 0xB8;

/// How many zero bytes of a piece aren't kept.
pub fn zeros_of(piece: &Piece) -> u64
    requires { IsSoundPiece piece.now }
    ensures { result ≡ zeros_in piece.now }
{
    piece.length - piece.bytes.len() as u64
}

/// The units of a piece.
pub fn units<'a>(piece: &'a Piece) -> UnitReader<'a>
    requires { IsSoundPiece piece.now }
    ensures value { result ≡ units_of (whole_of piece.now) }
    ensures bits { unit_bits result ≤ 8 * piece.now.length }
{
    UnitReader::new(&piece.bytes, zeros_of(piece))
}

/// Whether the n bits that stand some bits behind a unit's start code spell a number.
#[tactic(auto, using(m2v_bits::proofs::Cursor::lengths), unfolding(m2v_model::specs::Looking::number_from))]
pub fn number_in(unit: &Unit, from: u8, n: u8) -> Option<u32>
    requires { n ≤ 32 }
    ensures { result ≡ number_from from n (body unit.now) }
{
    let mut bits = unit.body();
    if bits.left() < u64::from(from) + u64::from(n) {
        return None;
    }
    bits.skip(from);
    Some(bits.peek(n))
}

/// Whether a number is there and is this one.
pub fn is(found: Option<u32>, number: u32) -> bool
    ensures { result ≡ is_number number found }
{
    match found {
        Some(n) => n == number,
        None => false,
    }
}

/// Whether a unit is a quant matrix extension (clause 6.2.3.2).
fn is_matrices_unit(unit: &Unit) -> bool
    ensures { result ≡ is_matrices unit.now }
{
    unit.value() == EXTENSION && is(number_in(unit, 0, 4), 3)
}

/// A quant matrix extension is among units with one more.
pub fn matrices_seen(before: bool, unit: &Unit) -> bool
    ensures { result ≡ (before || is_matrices unit.now) }
{
    if before {
        return true;
    }
    is_matrices_unit(unit)
}
