//! The sequence header with which a strand would begin, read alone.
ghost use Rattle.std.specs.Prelude.{◌≡◌, ◌≤◌, IfOk, All, false, length};
ghost use Rattle.m2v_model.specs.Units.{joined};
ghost use Rattle.m2v_model.specs.ByPieces.{text_read};
ghost use Rattle.m2v_decode.specs.m2v_dec_piece.Sound.{IsSoundPiece};
ghost use Rattle.m2v_decode.specs.Decoding.{whole_of};
ghost use Rattle.m2v_law_seam.specs.Spans.{Span};
ghost use Rattle.m2v_law_seam.specs.Faults.{only_header, header_by};
ghost use Rattle.m2v_mend.specs.Members.{IsMember, IsOfStretch, IsSpan};
ghost use Rattle.m2v_law_seam.specs.Faults as faults;
ghost use Rattle.m2v_mend.specs.Alone.{fault_headed};
ghost use Rattle.m2v_mend.specs.Making.{fault_told};
ghost use Rattle.m2v_mend.specs.Header.{IsFront, IsHeadPiece, HeaderTold, IsHeaded};

use crate::Memory;
use crate::agreeing::agrees;
use crate::alone::fault_at;
use crate::edits::from_sequence_on;
use crate::head::MOST_HEAD;
use crate::opening::copy;
use crate::parts::SpanParts;
use crate::walk::{EXTENSION, units};
use m2v_dec_unit::UnitReader;
use m2v_decode::{DecodeError, Fault, Piece, Reader};
use m2v_model::{FaultKind, Sequence};
use std::alloc::{AllocError, Global};

/// How many bytes the first unit has with the extension units right behind it.
fn header_length(units: &mut UnitReader) -> u64
    ensures { result ≡ length (joined (only_header units.old)) }
{
    let total = units.left();
    let Some(_first) = units.next() else {
        return 0;
    };
    loop {
        let left = units.left();
        match units.next() {
            None => return total / 8,
            Some(unit) => {
                if unit.value() != EXTENSION {
                    return (total - left) / 8;
                }
            }
        }
    }
}

/// The first bytes of a piece.
fn front(alloc: Global, piece: &Piece, length: u64) -> Result<Piece, Memory>
    requires sound { IsSoundPiece piece.now }
    requires some { 1 ≤ length }
    requires most { length ≤ piece.now.length }
    ensures { IfOk result (IsFront piece.now length) }
{
    let kept = length.min(piece.bytes.len() as u64) as usize;
    Ok(Piece {
        bytes: Vec::from_slice(alloc, &piece.bytes[..kept])?,
        place: piece.place,
        length,
    })
}

/// The sequence header that a text has, read alone.
fn read_header(alloc: Global, piece: &Piece) -> Result<Option<Sequence>, Memory>
    requires { IsSoundPiece piece.now }
    ensures { IfOk result (λ o. o ≡ header_by (text_read (whole_of piece.now))) }
{
    let mut reader = Reader::new(alloc);
    match reader.piece(alloc, piece) {
        Ok(_notes) => {}
        Err(DecodeError::Stream(_fault)) => return Ok(None),
        Err(_) => return Err(AllocError),
    }
    if reader.waits() {
        return Ok(None);
    }
    Ok(reader.first())
}

/// The sequence header at the beginning of a piece, read with the extension units right behind it.
fn header_in(alloc: Global, piece: &Piece) -> Result<Option<Sequence>, Memory>
    requires { IsSoundPiece piece.now }
    ensures { IfOk result (HeaderTold piece.now) }
{
    let length = header_length(&mut units(piece));
    if length == 0 || length > piece.length {
        return Err(AllocError);
    }
    let header = front(alloc, piece, length)?;
    Ok(read_header(alloc, &header)?)
}

/// A head as a piece.
fn head_piece(alloc: Global, head: &[u8]) -> Result<Piece, Memory>
    ensures { IfOk result (IsHeadPiece head.now) }
{
    let length = head.len() as u64;
    if length == 0 || length > MOST_HEAD {
        return Err(AllocError);
    }
    Ok(Piece {
        bytes: Vec::from_slice(alloc, head)?,
        place: 0,
        length,
    })
}

/// A piece that begins with the sequence header of a span, and the byte of the input at which that stands, or the span where
/// it is copied.
#[derive(Drop)]
pub struct Header {
    pub piece: Piece,
    pub place: u64,
}

/// The first piece of a span from its sequence header on, or its head.
fn header_of(alloc: Global, parts: &SpanParts) -> Result<Header, Memory>
    requires { All IsMember parts.now.members.items }
    ensures sound { IfOk result (λ h. IsSoundPiece h.piece) }
    ensures told { IfOk result (λ h. (s : Span) → IsSpan s parts.now → parts.now.long ≡ false
        → IsOfStretch s → IsHeaded s h) }
{
    let Some(first) = parts.members.first() else {
        return Err(AllocError);
    };
    if first.info.sequence {
        let mut piece = copy(alloc, &first.piece)?;
        from_sequence_on(&mut piece)?;
        let place = piece.place;
        return Ok(Header { piece, place });
    }
    let Some(head) = &parts.head else {
        return Err(AllocError);
    };
    Ok(Header {
        piece: head_piece(alloc, head)?,
        place: parts.place,
    })
}

/// Whether a header that can be read doesn't agree with the first one that was kept.
fn is_other(first: &Option<Sequence>, own: &Option<Sequence>) -> bool
    ensures { result ≡ faults.is_other first.now own.now }
{
    match own {
        None => false,
        Some(_) => !agrees(first, own),
    }
}

/// The fault of a span with which no strand begins: its sequence header doesn't agree, or else this one.
pub(crate) fn refused(
    alloc: Global,
    first: &Option<Sequence>,
    parts: &SpanParts,
    fault: Fault,
) -> Result<Fault, Memory>
    requires { All IsMember parts.now.members.items }
    ensures { IfOk result (λ f. (s : Span) → IsSpan s parts.now → parts.now.long ≡ false
        → IsOfStretch s → fault_told f ≡ fault_headed first.now s (fault_told fault)) }
{
    let header = header_of(alloc, parts)?;
    let own = header_in(alloc, &header.piece)?;
    if is_other(first, &own) {
        return fault_at(FaultKind::SequenceChanged, header.place);
    }
    Ok(fault)
}
