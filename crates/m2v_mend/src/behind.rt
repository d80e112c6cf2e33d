//! A span behind a strand.
ghost use Rattle.std.specs.Prelude.{◌≡◌, ◌++◌, ◌^◌, ◌≤◌, ◌<◌, ℕ, All, IfOk, IfSome, OnOk, List, None, false};
ghost use Rattle.m2v_law_seam.specs.Spans.{Span};
ghost use Rattle.m2v_mend.specs.Copying.{fault_by};
ghost use Rattle.m2v_mend.specs.Members.{IsMember, IsOfStretch, IsSpan};
ghost use Rattle.m2v_mend.specs.Kept.{pieces_of};
ghost use Rattle.m2v_mend.specs.Putting.{CanBePut, IsUnderWay, PutTold, why_not};
ghost use Rattle.m2v_mend.specs.Strand.{IsReady, IsAt};

use crate::Memory;
use crate::copies::{bytes_of, copies};
use crate::member::Member;
use crate::parts::SpanParts;
use crate::refusal::Refusal;
use crate::strand::Strand;
use crate::sums::counted;
use m2v_decode::{Fault, Piece};
use m2v_model::{FaultKind, Sequence};
use std::alloc::Global;

/// The fault of a span that ends at a byte of the input, by why it doesn't go behind a strand, and how many bytes it has with
/// those of the strand.
fn fault_of(refusal: Refusal, end: u64, total: u64) -> Fault
    requires end { end ≤ 2 ^ 60 }
    requires total { total ≤ 2 ^ 60 }
    ensures { result ≡ fault_by refusal end total }
{
    match refusal {
        Refusal::Open => Fault {
            kind: FaultKind::Truncated,
            place: (8 * end).saturating_sub(24),
        },
        Refusal::Fault(fault) => Fault {
            kind: fault.kind,
            place: fault.place.max((8 * end).saturating_sub(8 * total)),
        },
        Refusal::Rule(place) => Fault {
            kind: FaultKind::MissingReference,
            place,
        },
        Refusal::Other => Fault {
            kind: FaultKind::SequenceChanged,
            place: 0,
        },
    }
}

/// Why a span isn't put behind a strand, and the span.
#[derive(Drop)]
pub(crate) struct NotPut {
    pub fault: Fault,
    pub parts: SpanParts,
}

/// Puts copies of the pieces of a span behind a strand, where that is one with them, and behind others: temporal references
/// are lowered by so much. Else its fault is told, and no call on the strand may follow.
fn put_copies(
    alloc: Global,
    strand: &mut Strand,
    first: &Option<Sequence>,
    low: u32,
    parts: &SpanParts,
    out: &mut Vec<Piece>,
) -> Result<Option<Fault>, Memory>
    requires ready { IsReady strand.old }
    requires members { All IsMember parts.now.members.items }
    ensures told { IfOk result (λ o. (s : Span) (bytes : List ℕ) → IsSpan s parts.now
        → parts.now.long ≡ false → IsOfStretch s → IsAt strand.old bytes
        → CanBePut bytes s.pieces → IsUnderWay strand.old.opening first.now bytes
        → PutTold strand.old.opening first.now bytes low s out.old.items out.new.items o
        strand.new) }
    ensures ready { IfOk result (λ o. o ≡ None → IsReady strand.new) }
{
    let bytes = strand.bytes();
    let mut copies = copies(alloc, &parts.members, bytes != 0, low)?;
    let total = counted(bytes, bytes_of(&copies)?)?;
    let end = counted(parts.place, parts.bytes)?;
    match strand.read(alloc, first, &copies)? {
        None => {
            out.append(&mut copies)?;
            Ok(None)
        }
        Some(refusal) => Ok(Some(fault_of(refusal, end, total))),
    }
}

/// Puts the pieces of members behind others.
fn put_out(members: Vec<Member>, out: &mut Vec<Piece>) -> Result<(), Memory>
    ensures { OnOk result (out.new.items ≡ out.old.items ++ pieces_of members.items) }
{
    for member in members {
        out.push(member.into_piece())?;
    }
    Ok(())
}

/// Puts the pieces of a span as they are behind a strand that has a byte: temporal references are lowered by nothing.
fn put_own(
    alloc: Global,
    strand: &mut Strand,
    first: &Option<Sequence>,
    parts: SpanParts,
    out: &mut Vec<Piece>,
) -> Result<Option<NotPut>, Memory>
    requires ready { IsReady strand.old }
    requires members { All IsMember parts.members.items }
    requires begun { 0 < strand.old.bytes }
    ensures told { IfOk result (λ o. (s : Span) (bytes : List ℕ) → IsSpan s parts
        → parts.long ≡ false → IsOfStretch s → IsAt strand.old bytes
        → CanBePut bytes s.pieces → IsUnderWay strand.old.opening first.now bytes
        → PutTold strand.old.opening first.now bytes 0 s out.old.items out.new.items
        (why_not o) strand.new) }
    ensures ready { IfOk result (λ o. o ≡ None → IsReady strand.new) }
    ensures parts { IfOk result (λ o. IfSome o (λ n. n.parts ≡ parts)) }
{
    let total = counted(strand.bytes(), bytes_of(&parts.members)?)?;
    let end = counted(parts.place, parts.bytes)?;
    match strand.read(alloc, first, &parts.members)? {
        None => {
            put_out(parts.into_members(), out)?;
            Ok(None)
        }
        Some(refusal) => Ok(Some(NotPut {
            fault: fault_of(refusal, end, total),
            parts,
        })),
    }
}

/// Puts a span behind a strand, where that is one with it, and its pieces behind others: its temporal references are lowered
/// by so much. Else its fault is told, and no call on the strand may follow.
///
/// Said of each span that stands in `parts`, and of all bytes for which the strand stands.
pub(crate) fn put_behind(
    alloc: Global,
    strand: &mut Strand,
    first: &Option<Sequence>,
    low: u32,
    parts: SpanParts,
    out: &mut Vec<Piece>,
) -> Result<Option<NotPut>, Memory>
    requires ready { IsReady strand.old }
    requires members { All IsMember parts.members.items }
    ensures told { IfOk result (λ o. (s : Span) (bytes : List ℕ) → IsSpan s parts
        → parts.long ≡ false → IsOfStretch s → IsAt strand.old bytes
        → CanBePut bytes s.pieces → IsUnderWay strand.old.opening first.now bytes
        → PutTold strand.old.opening first.now bytes low s out.old.items out.new.items
        (why_not o) strand.new) }
    ensures ready { IfOk result (λ o. o ≡ None → IsReady strand.new) }
    ensures parts { IfOk result (λ o. IfSome o (λ n. n.parts ≡ parts)) }
{
    if low == 0 && strand.bytes() > 0 {
        return put_own(alloc, strand, first, parts, out);
    }
    match put_copies(alloc, strand, first, low, &parts, out)? {
        None => Ok(None),
        Some(fault) => Ok(Some(NotPut { fault, parts })),
    }
}
