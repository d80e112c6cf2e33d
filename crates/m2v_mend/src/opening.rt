//! The pieces with which a strand begins: copies of those of a span that aren't leading ones.
ghost use Rattle.std.specs.Prelude.{◌≡◌, ◌≤◌, ◌<◌, ◌+◌, All, IfOk, OnOk, true, length};
ghost use Rattle.m2v_decode.specs.m2v_dec_piece.Sound.{IsSoundPiece};
ghost use Rattle.m2v_mend.specs.Editing.{IsUnits, EndsInZeros, zeros_in};
ghost use Rattle.m2v_mend.specs.Members.{IsMember};
ghost use Rattle.m2v_mend.specs.Opening.{IsFrame, IsBehindFrame, IsShape, IsCopy, IsLower, AreAdded, IsOwn, IsOwnFirst, FrontTold, FirstTold, items_of, OpenedTold};

use crate::Memory;
use crate::edits::{from_sequence_on, lower, mark, with_head};
use crate::head::MOST_HEAD;
use crate::limits::kept_length;
use crate::member::Member;
use crate::walk::zeros_of;
use m2v_decode::Piece;
use std::alloc::{AllocError, Global};

/// The most bytes that are kept of a piece.
const MOST: u64 = 2097216;

/// How the pieces of a span are parted: how many the first frame has, and how many stand before those behind the leading
/// ones.
#[derive(Clone, Copy, Debug, PartialEq, Eq)]
pub struct Shape {
    pub frame: usize,
    pub behind: usize,
}

/// How many pieces the first frame has.
fn frame_of(members: &[Member]) -> usize
    requires { All IsMember members.now }
    ensures { IsFrame members.now result }
{
    let Some(first) = members.first() else {
        return 0;
    };
    if first.info.field == 0 || members.len() == 1 {
        return 1;
    }
    2
}

/// How many pieces stand before the first one, from a number on, that has no B picture.
fn behind_of(members: &[Member], frame: usize) -> usize
    requires members { All IsMember members.now }
    requires within { frame ≤ length members.now }
    ensures { IsBehindFrame members.now frame result }
{
    let mut at = frame;
    while at < members.len() {
        if !members[at].info.is_b() {
            return at;
        }
        at += 1;
    }
    at
}

/// How the pieces of a span are parted.
pub(crate) fn shape_of(members: &[Member]) -> Shape
    requires { All IsMember members.now }
    ensures { IsShape members.now result }
{
    let frame = frame_of(members);
    Shape {
        frame,
        behind: behind_of(members, frame),
    }
}

/// A copy of a piece.
pub(crate) fn copy(alloc: Global, piece: &Piece) -> Result<Piece, Memory>
    ensures { IfOk result (IsCopy piece.now) }
{
    Ok(Piece {
        bytes: Vec::from_slice(alloc, &piece.bytes)?,
        place: piece.place,
        length: piece.length,
    })
}

/// Whether the last eight bytes are zero.
fn ends_in_zeros(bytes: &[u8]) -> bool
    ensures { result ≡ true → EndsInZeros bytes.now 1 }
{
    let mut at = if bytes.len() < 8 { 0 } else { bytes.len() - 8 };
    while at < bytes.len() {
        if bytes[at] != 0 {
            return false;
        }
        at += 1;
    }
    true
}

/// Whether the bytes of a piece are kept that change where its group header is marked.
fn has_room(piece: &Piece) -> bool
    requires { IsSoundPiece piece.now }
    ensures { result ≡ true → EndsInZeros piece.now.bytes.items (zeros_in piece.now) }
{
    if zeros_of(piece) == 0 {
        return true;
    }
    ends_in_zeros(&piece.bytes)
}

/// A copy of a piece with its temporal references lowered.
fn lowered(alloc: Global, piece: &Piece, low: u32) -> Result<Piece, Memory>
    requires sound { IsSoundPiece piece.now }
    requires units { IsUnits piece.now }
    ensures { IfOk result (IsLower low piece.now) }
{
    let mut copy = copy(alloc, piece)?;
    lower(&mut copy, low);
    Ok(copy)
}

/// Puts copies of pieces behind others, with their temporal references lowered.
fn push_lowered(
    alloc: Global,
    members: &[Member],
    low: u32,
    out: &mut Vec<Piece>,
) -> Result<(), Memory>
    requires { All IsMember members.now }
    ensures { OnOk result (AreAdded low members.now out.old.items out.new.items) }
{
    for member in members {
        out.push(lowered(alloc, &member.piece, low)?)?;
    }
    Ok(())
}

/// A copy of a piece, from its first sequence header on where it has one.
fn from_own_header(alloc: Global, member: &Member) -> Result<Piece, Memory>
    requires { IsMember member.now }
    ensures { IfOk result (IsOwn member.now.piece) }
{
    let mut copy = copy(alloc, &member.piece)?;
    if member.info.sequence {
        from_sequence_on(&mut copy)?;
    }
    Ok(copy)
}

/// A copy of the first piece of a span, from its own sequence header on where it has one, with its group headers marked and
/// its temporal references lowered.
fn own_first(alloc: Global, member: &Member, low: u32) -> Result<Piece, Memory>
    requires { IsMember member.now }
    ensures { IfOk result (IsOwnFirst low member.now.piece) }
{
    let mut copy = from_own_header(alloc, member)?;
    if !has_room(&copy) {
        return Err(AllocError);
    }
    mark(&mut copy);
    lower(&mut copy, low);
    Ok(copy)
}

/// A piece behind a head; none where that passes a limit.
fn fronted(alloc: Global, head: &[u8], piece: &Piece) -> Result<Option<Piece>, Memory>
    requires { IsSoundPiece piece.now }
    ensures { IfOk result (FrontTold head.now piece.now) }
{
    let length = head.len() as u64;
    if length > MOST_HEAD || length > piece.place {
        return Err(AllocError);
    }
    if length + kept_length(piece) > MOST {
        return Ok(None);
    }
    if length + piece.bytes.len() as u64 > MOST {
        return Err(AllocError);
    }
    Ok(Some(with_head(head, piece, alloc)?))
}

/// The first piece of a strand that begins with a span; none where it passes a limit.
fn first_opened(
    alloc: Global,
    member: &Member,
    head: &Option<Vec<u8>>,
    low: u32,
) -> Result<Option<Piece>, Memory>
    requires { IsMember member.now }
    ensures { IfOk result (FirstTold low (items_of head.now) member.now.piece) }
{
    let piece = own_first(alloc, member, low)?;
    if member.info.sequence {
        return Ok(Some(piece));
    }
    match head {
        None => Ok(Some(piece)),
        Some(head) => fronted(alloc, head, &piece),
    }
}

/// The pieces of a strand that begins with a span; none where the first one passes a limit.
pub(crate) fn opened(
    alloc: Global,
    members: &[Member],
    head: &Option<Vec<u8>>,
    shape: Shape,
    low: u32,
) -> Result<Option<Vec<Piece>>, Memory>
    requires members { All IsMember members.now }
    requires shape { IsShape members.now shape }
    ensures { IfOk result (OpenedTold low (items_of head.now) members.now) }
{
    let Some(member) = members.first() else {
        return Err(AllocError);
    };
    let Some(piece) = first_opened(alloc, member, head, low)? else {
        return Ok(None);
    };
    let mut out = Vec::new(alloc);
    out.push(piece)?;
    push_lowered(alloc, &members[1..shape.frame], low, &mut out)?;
    push_lowered(alloc, &members[shape.behind..], low, &mut out)?;
    Ok(Some(out))
}
