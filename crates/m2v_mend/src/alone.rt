//! What the pieces of a span tell of a strand that would begin with it, and its faults.
ghost use Rattle.std.specs.Prelude.{◌≡◌, ◌+◌, ◌*◌, ◌&&◌, true, false, All, IfOk, option_copied, length};
ghost use Rattle.m2v_model.specs.Units.{joined};
ghost use Rattle.m2v_law_seam.specs.Spans.{units_in, picture_count, begins_kind, Span};
ghost use Rattle.m2v_law_seam.specs.Seams.{has_own_head};
ghost use Rattle.m2v_law_seam.specs.Seams as seams;
ghost use Rattle.m2v_law_seam.specs.Faults.{has_head};
ghost use Rattle.m2v_mend.specs.Members.{IsMember, IsOfStretch, IsSpan};
ghost use Rattle.m2v_mend.specs.Kept.{bodies};
ghost use Rattle.m2v_mend.specs.Opening.{IsShape};
ghost use Rattle.m2v_mend.specs.Putting.{IsLeading};
ghost use Rattle.m2v_mend.specs.Alone.{PictureTold, MatricesTold, UnableTold, LeadingTold, reference_from, byte_of};

use crate::Memory;
use crate::begin::Leading;
use crate::edits::reference_of;
use crate::member::Member;
use crate::opening::Shape;
use crate::parts::SpanParts;
use crate::sums::sum;
use m2v_decode::{Fault, Piece};
use m2v_model::FaultKind;
use std::alloc::AllocError;

/// The first piece with a picture unit.
fn first_picture(members: &[Member]) -> Option<&Member>
    requires { All IsMember members.now }
    ensures { PictureTold members.now (option_copied result) }
{
    for member in members {
        if member.info.pictures > 0 {
            return Some(member);
        }
    }
    None
}

/// The first piece with a quant matrix extension.
fn first_matrices(members: &[Member]) -> Option<&Member>
    requires { All IsMember members.now }
    ensures { MatricesTold members.now (option_copied result) }
{
    for member in members {
        if member.info.matrices {
            return Some(member);
        }
    }
    None
}

/// A place in bytes as one in bits. Places are those of an input, so that it can't overflow; if it did, want of memory would
/// be told.
pub(crate) fn bits(place: u64) -> Result<u64, Memory>
    ensures { IfOk result (λ b. b ≡ 8 * place) }
{
    match place.checked_mul(8) {
        Some(b) => Ok(b),
        None => Err(AllocError),
    }
}

/// A fault at a byte of the input.
pub(crate) fn fault_at(kind: FaultKind, place: u64) -> Result<Fault, Memory>
    ensures { IfOk result (λ f. (f.kind ≡ kind) × (f.place ≡ 8 * place)) }
{
    Ok(Fault {
        kind,
        place: bits(place)?,
    })
}

/// A fault at a byte of a piece.
fn fault_in(kind: FaultKind, piece: &Piece, place: u64) -> Result<Fault, Memory>
    ensures { IfOk result (λ f. (f.kind ≡ kind) × (f.place ≡ 8 * (piece.now.place + place))) }
{
    fault_at(kind, sum(piece.place, place)?)
}

/// A span begins with a sequence header.
pub(crate) fn begins_with_header(parts: &SpanParts) -> bool
    requires members { All IsMember parts.now.members.items }
    ensures { (s : Span) → IsSpan s parts.now → parts.now.long ≡ false
        → result ≡ has_own_head s.pieces }
{
    match parts.members.first() {
        None => false,
        Some(member) => member.info.sequence,
    }
}

/// Whether there is a sequence header with which a strand could begin.
fn is_headed(parts: &SpanParts) -> bool
    requires { All IsMember parts.now.members.items }
    ensures { (s : Span) → IsSpan s parts.now → parts.now.long ≡ false → IsOfStretch s
        → result ≡ has_head s }
{
    begins_with_header(parts) || parts.head.is_some()
}

/// Both hold.
fn both(a: bool, b: bool) -> bool
    ensures { result ≡ (a && b) }
{
    a && b
}

/// Why no strand begins with a span, whatever stands in it: there is no head, it isn't an entry, or its first picture isn't
/// an I picture.
pub(crate) fn unable(parts: &SpanParts) -> Result<Option<Fault>, Memory>
    requires { All IsMember parts.now.members.items }
    ensures { IfOk result (λ o. (s : Span) → IsSpan s parts.now → parts.now.long ≡ false
        → IsOfStretch s → UnableTold s o) }
{
    if !is_headed(parts) {
        return Ok(Some(fault_at(FaultKind::NoSequence, parts.place)?));
    }
    let Some(first) = first_picture(&parts.members) else {
        return Ok(Some(fault_at(FaultKind::MissingReference, parts.place)?));
    };
    if both(parts.entry, first.info.is_intra()) {
        return Ok(None);
    }
    let place = first.info.picture_place;
    Ok(Some(fault_in(FaultKind::MissingReference, &first.piece, place)?))
}

/// The fault of a quant matrix extension in the leading pieces of a span.
pub(crate) fn matrices_fault(parts: &SpanParts, shape: Shape) -> Result<Option<Fault>, Memory>
    requires members { All IsMember parts.now.members.items }
    requires shape { IsShape parts.now.members.items shape }
    ensures { IfOk result (λ o. (s : Span) → IsSpan s parts.now → parts.now.long ≡ false
        → LeadingTold s o) }
{
    let Some(first) = first_matrices(&parts.members[shape.frame..shape.behind]) else {
        return Ok(None);
    };
    let place = first.info.matrices_place;
    Ok(Some(fault_in(FaultKind::Unsupported, &first.piece, place)?))
}

/// A byte that is kept, or 0.
fn byte_at(bytes: &[u8], at: usize) -> u8
    ensures { result ≡ byte_of bytes.now at }
{
    if at < bytes.len() { bytes[at] } else { 0 }
}

/// The temporal reference of a picture unit that begins at a byte of a piece.
fn reference_at(piece: &Piece, place: u64) -> Result<u32, Memory>
    ensures { IfOk result (λ r. r ≡ reference_from piece.now.bytes.items place) }
{
    let high = sum(place, 4)? as usize;
    let low = sum(place, 5)? as usize;
    Ok(reference_of(byte_at(&piece.bytes, high), byte_at(&piece.bytes, low)))
}

/// The temporal reference of the first picture, where that is an I picture.
pub(crate) fn first_reference(members: &[Member]) -> Result<u32, Memory>
    requires { All IsMember members.now }
    ensures { IfOk result (λ r. begins_kind 1 (bodies members.now) ≡ true
        → r ≡ seams.first_reference (bodies members.now)) }
{
    match first_picture(members) {
        None => Ok(0),
        Some(first) => Ok(reference_at(&first.piece, first.info.picture_place)?),
    }
}

/// How many bytes pieces have.
fn bytes_of(members: &[Member]) -> Result<u64, Memory>
    requires { All IsMember members.now }
    ensures { IfOk result (λ n. n ≡ length (joined (bodies members.now))) }
{
    let mut bytes = 0;
    for member in members {
        bytes = sum(bytes, member.piece.length)?;
    }
    Ok(bytes)
}

/// How many picture units pieces have.
fn pictures_of(members: &[Member]) -> Result<u64, Memory>
    requires { All IsMember members.now }
    ensures { IfOk result (λ n. n ≡ picture_count (units_in (bodies members.now))) }
{
    let mut pictures = 0;
    for member in members {
        pictures = sum(pictures, member.info.pictures)?;
    }
    Ok(pictures)
}

/// The leading pieces of a span.
pub(crate) fn leading_of(parts: &SpanParts, shape: Shape) -> Result<Leading, Memory>
    requires members { All IsMember parts.now.members.items }
    requires shape { IsShape parts.now.members.items shape }
    ensures { IfOk result (λ l. (s : Span) → IsSpan s parts.now → parts.now.long ≡ false
        → IsLeading s l) }
{
    let before = bytes_of(&parts.members[..shape.frame])?;
    let bytes = bytes_of(&parts.members[shape.frame..shape.behind])?;
    let pictures = pictures_of(&parts.members[shape.frame..shape.behind])?;
    Ok(Leading {
        some: shape.frame < shape.behind,
        before,
        bytes,
        pictures,
    })
}
