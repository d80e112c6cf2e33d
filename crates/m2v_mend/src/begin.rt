//! A strand that begins with a span.
ghost use Rattle.std.specs.Prelude.{◌≡◌, All, IfOk, [], true, false};
ghost use Rattle.m2v_decode.specs.m2v_dec_piece.Sound.{IsSoundPiece};
ghost use Rattle.m2v_law_seam.specs.Spans.{Span};
ghost use Rattle.m2v_law_seam.specs.Seams as seams;
ghost use Rattle.m2v_law_seam.specs.Strands as strands;
ghost use Rattle.m2v_law_seam.specs.Faults.{has_head};
ghost use Rattle.m2v_law_seam.specs.Reading.{CanGoBehind};
ghost use Rattle.m2v_mend.specs.Alone.{ReadTold, FaultOf, StrandTold, TriedTold};
ghost use Rattle.m2v_mend.specs.Members.{IsMember, IsOfStretch, IsSpan};
ghost use Rattle.m2v_mend.specs.Opening.{IsShape};
ghost use Rattle.m2v_mend.specs.Putting.{BeginTold};
ghost use Rattle.m2v_mend.specs.Strand.{IsReady, wholes_of};

use crate::Memory;
use crate::alone::{bits, fault_at, first_reference, leading_of, matrices_fault, unable};
use crate::copies::bytes_of;
use crate::header::refused;
use crate::limits::fits;
use crate::opening::{Shape, opened, shape_of};
use crate::parts::SpanParts;
use crate::refusal::Refusal;
use crate::strand::Strand;
use crate::sums::{counted, sum};
use m2v_decode::{Fault, Piece};
use m2v_model::{FaultKind, Sequence};
use std::alloc::Global;

/// The leading pieces of a span, which are left out where a strand begins with it: whether there are some, how many bytes
/// stand before them, how many they have, and how many picture units.
#[derive(Clone, Copy, Debug, PartialEq, Eq)]
pub struct Leading {
    pub some: bool,
    pub before: u64,
    pub bytes: u64,
    pub pictures: u64,
}

/// A strand that begins with a span, by how much its temporal references are lowered, and what was left out.
#[derive(Drop)]
pub struct Begun {
    pub strand: Strand,
    pub low: u32,
    pub leading: Leading,
}

/// Whether pieces are within the limits of pieces.
fn all_fit(pieces: &[Piece]) -> bool
    requires { All IsSoundPiece pieces.now }
    ensures { result ≡ strands.all_fit (wholes_of pieces.now) }
{
    for piece in pieces {
        if !fits(piece) {
            return false;
        }
    }
    true
}

/// The fault of a span by why its pieces make no strand.
fn fault_of(parts: &SpanParts, refusal: Refusal) -> Result<Fault, Memory>
    ensures { IfOk result (λ f. FaultOf parts.now.place parts.now.bytes refusal f) }
{
    match refusal {
        Refusal::Open => {
            let end = bits(sum(parts.place, parts.bytes)?)?;
            Ok(Fault {
                kind: FaultKind::Truncated,
                place: end.saturating_sub(24),
            })
        }
        Refusal::Fault(fault) => Ok(Fault {
            kind: fault.kind,
            place: bits(parts.place)?.max(fault.place),
        }),
        Refusal::Rule(_place) => fault_at(FaultKind::MissingReference, parts.place),
        Refusal::Other => fault_at(FaultKind::MissingReference, parts.place),
    }
}

/// Reads the pieces with which a strand would begin: the strand, or why they are none.
fn read(
    alloc: Global,
    first: &Option<Sequence>,
    pieces: &[Piece],
) -> Result<Result<Strand, Refusal>, Memory>
    requires { All IsSoundPiece pieces.now }
    ensures told { IfOk result (λ o. CanGoBehind [] (wholes_of pieces.now)
        → ReadTold first.now pieces.now o) }
    ensures ready { IfOk result (λ o. IfOk o IsReady) }
{
    let mut strand = Strand::another(alloc);
    let _total = counted(strand.bytes(), bytes_of(pieces)?)?;
    match strand.read(alloc, first, pieces)? {
        None => Ok(Ok(strand)),
        Some(refusal) => Ok(Err(refusal)),
    }
}

/// A strand that begins with a span, without a look at the leading pieces: its pieces are put behind others; or its fault,
/// where the sequence header agrees.
fn strand_of(
    alloc: Global,
    first: &Option<Sequence>,
    parts: &SpanParts,
    shape: Shape,
    low: u32,
    out: &mut Vec<Piece>,
) -> Result<Result<Strand, Fault>, Memory>
    requires members { All IsMember parts.now.members.items }
    requires shape { IsShape parts.now.members.items shape }
    ensures told { IfOk result (λ o. (s : Span) → IsSpan s parts.now → parts.now.long ≡ false
        → IsOfStretch s → has_head s ≡ true → low ≡ seams.first_reference s.pieces
        → StrandTold first.now s out.old.items out.new.items o) }
    ensures ready { IfOk result (λ o. IfOk o IsReady) }
{
    let unfit = FaultKind::Unsupported;
    let Some(mut pieces) = opened(alloc, &parts.members, &parts.head, shape, low)? else {
        return Ok(Err(fault_at(unfit, parts.place)?));
    };
    if !all_fit(&pieces) {
        return Ok(Err(fault_at(unfit, parts.place)?));
    }
    match read(alloc, first, &pieces)? {
        Ok(strand) => {
            out.append(&mut pieces)?;
            Ok(Ok(strand))
        }
        Err(refusal) => Ok(Err(fault_of(parts, refusal)?)),
    }
}

/// A strand that begins with a span, whose pieces are put behind others; or its fault, where the sequence header agrees.
fn tried(
    alloc: Global,
    first: &Option<Sequence>,
    parts: &SpanParts,
    shape: Shape,
    low: u32,
    out: &mut Vec<Piece>,
) -> Result<Result<Strand, Fault>, Memory>
    requires members { All IsMember parts.now.members.items }
    requires shape { IsShape parts.now.members.items shape }
    ensures told { IfOk result (λ o. (s : Span) → IsSpan s parts.now → parts.now.long ≡ false
        → IsOfStretch s → has_head s ≡ true → low ≡ seams.first_reference s.pieces
        → TriedTold first.now s out.old.items out.new.items o) }
    ensures ready { IfOk result (λ o. IfOk o IsReady) }
{
    if let Some(fault) = matrices_fault(parts, shape)? {
        return Ok(Err(fault));
    }
    strand_of(alloc, first, parts, shape, low, out)
}

/// Begins a strand with a span, where that is one by itself, and puts its pieces behind others. Else its fault is told.
///
/// Said of each span that stands in `parts`.
pub(crate) fn begin(
    alloc: Global,
    first: &Option<Sequence>,
    parts: &SpanParts,
    out: &mut Vec<Piece>,
) -> Result<Result<Begun, Fault>, Memory>
    requires members { All IsMember parts.now.members.items }
    ensures told { IfOk result (λ o. (s : Span) → IsSpan s parts.now → parts.now.long ≡ false
        → IsOfStretch s → BeginTold first.now s out.old.items out.new.items o) }
    ensures ready { IfOk result (λ o. IfOk o (λ b. IsReady b.strand)) }
{
    if let Some(fault) = unable(parts)? {
        return Ok(Err(fault));
    }
    let shape = shape_of(&parts.members);
    let low = first_reference(&parts.members)?;
    match tried(alloc, first, parts, shape, low, out)? {
        Ok(strand) => Ok(Ok(Begun {
            strand,
            low,
            leading: leading_of(parts, shape)?,
        })),
        Err(fault) => Ok(Err(refused(alloc, first, parts, fault)?)),
    }
}
