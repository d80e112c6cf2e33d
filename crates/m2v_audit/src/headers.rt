//! The headers before the picture of a piece: where each stands, and what a group header says.
ghost use Rattle.std.specs.Prelude.{◌≡◌, ◌+◌, ◌≤◌, ◌^◌, ◌++◌, IfOk, OnOk};
ghost use Rattle.std.specs.Option.{option_to_list};
ghost use Rattle.m2v_model.specs.Units.{unit_bits};
ghost use Rattle.m2v_audit.specs.Front.{group_at, header_at, headers_from};

use crate::append::append;
use m2v_dec_unit::{Unit, UnitReader, group};
use m2v_model::macro_library::head::GroupInfo;
use std::alloc::{AllocError, Global};

/// A header before the picture of a piece.
#[derive(Clone, Copy)]
pub enum PieceHeader {
    /// A sequence header.
    Sequence {
        /// Where its start code begins in the input, in bits.
        bit: u64,
    },
    /// A group of pictures header.
    Group {
        /// Where its start code begins in the input, in bits.
        bit: u64,
        /// What it says.
        info: GroupInfo,
    },
}

/// A group header's unit that begins at a bit (clause 6.2.2.6), where it reads.
#[tactic(auto, unfolding(crate::specs::Front::group_at))]
fn group_in(bit: u64, u: &Unit) -> Option<PieceHeader>
    ensures { option_to_list result ≡ group_at bit u.now }
{
    match group(&mut u.body()) {
        Ok(info) => Some(PieceHeader::Group { bit, info }),
        Err(_) => None,
    }
}

/// The header of a unit that begins at a bit, where it is one of a sequence or a group.
#[tactic(auto, unfolding(crate::specs::Front::header_at))]
fn header_in(bit: u64, u: &Unit) -> Option<PieceHeader>
    ensures { option_to_list result ≡ header_at bit u.now }
{
    match u.value() {
        0xB3 => Some(PieceHeader::Sequence { bit }),
        0xB8 => group_in(bit, u),
        _ => None,
    }
}

/// Appends the header of a unit that begins at a bit, where it is one of a sequence or a group.
fn note(headers: &mut Vec<PieceHeader>, bit: u64, u: &Unit) -> Result<(), AllocError>
    ensures { OnOk result (headers.new.items ≡ headers.old.items ++ header_at bit u.now) }
{
    append(headers, header_in(bit, u))
}

/// The sequence headers and the group headers among units, of which the first begins at a bit of the input, up to the
/// first picture: in order, each with the bit at which its start code begins. A group header that doesn't read is left out.
pub fn front(
    alloc: Global,
    units: &mut UnitReader,
    bit: u64,
) -> Result<Vec<PieceHeader>, AllocError>
    requires most { bit + unit_bits units.old ≤ 2 ^ 42 }
    ensures value { IfOk result (λ headers. headers.items ≡ headers_from bit units.old) }
{
    let mut headers = Vec::new(alloc);
    let mut at = bit;
    while let Some(u) = units.next() {
        if u.value() == 0x00 {
            return Ok(headers);
        }
        note(&mut headers, at, &u)?;
        at += u.bits();
    }
    Ok(headers)
}
