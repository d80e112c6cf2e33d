//! The span at hand.
ghost use Rattle.std.specs.Prelude.{◌≡◌, ◌+◌, ◌≤◌, ◌||◌, not, nat_le, false, [], ◌∷◌, length, is_none, All, IfOk, if◌then◌else◌};
ghost use Rattle.std.specs.Option.{option_map};
ghost use Rattle.m2v_model.specs.Units.{Units};
ghost use Rattle.m2v_model.specs.Pieces.{limit, trimmed};
ghost use Rattle.m2v_decode.specs.m2v_dec_piece.Sound.{IsSoundPiece};
ghost use Rattle.m2v_decode.specs.Decoding.{whole_of};
ghost use Rattle.m2v_law_group.specs.Groups.{from_last_sequence};
ghost use Rattle.m2v_law_seam.specs.Spans.{head_of};
ghost use Rattle.m2v_law_seam.specs.Seams.{bytes_or_none};
ghost use Rattle.m2v_law_seam.specs.Strands.{most_span};
ghost use Rattle.m2v_mend.specs.Heading.{IsHeads};
ghost use Rattle.m2v_mend.specs.Kept.{kept_of, bodies};

use crate::Memory;
use crate::head::Heads;
use crate::limits::{fits, kept_length};
use crate::member::Member;
use crate::sums::sum;
use m2v_decode::Piece;
use std::alloc::Global;

/// The most bytes that are kept of a span.
const MOST: u64 = 67_108_864;

/// A span, as far as its pieces were read.
#[derive(Drop)]
pub struct SpanParts {
    /// The byte of the input at which it begins.
    pub place: u64,
    /// The head before it, where there is one.
    pub head: Option<Vec<u8>>,
    /// Its pieces. Of a span that passes a limit the first one at most is kept.
    pub members: Vec<Member>,
    /// How many bytes it has, and how many picture units.
    pub bytes: u64,
    pub pictures: u64,
    /// How many bytes are kept of it, with those of the head where it has none of its own.
    pub kept: u64,
    /// Its first piece has a sequence or group header.
    pub entry: bool,
    /// It passes a limit.
    pub long: bool,
    ghost some: { long ≡ false → 1 ≤ length members.items },
    ghost kept_is: { long ≡ false
        → kept ≡ kept_of (option_map (λ v. v.items) head) (bodies members.items) },
}

/// A copy of the head of what follows units, where there is one.
fn head_copy(alloc: Global, heads: &Heads) -> Result<Option<Vec<u8>>, Memory>
    ensures { IfOk result (λ h. (before : Units) → IsHeads before heads.now
        → option_map (λ v. v.items) h ≡ head_of (from_last_sequence before)) }
{
    if !heads.is_there() {
        return Ok(None);
    }
    let head = heads.bytes().to_vec(alloc)?;
    Ok(Some(head))
}

/// How many bytes of a head count: none where the span has one of its own.
fn head_length(own: bool, head: &Option<Vec<u8>>) -> u64
    ensures { result
        ≡ (if own then 0 else length (bytes_or_none (option_map (λ v. v.items) head.now))) }
{
    if own {
        return 0;
    }
    match head {
        None => 0,
        Some(head) => head.len() as u64,
    }
}

/// Whether a span passes a limit with one more piece, with which so many bytes of it are kept.
fn is_long(long: bool, piece: &Piece, kept: u64) -> bool
    requires { IsSoundPiece piece.now }
    ensures { result ≡ (long || (not (is_none (limit 0 0 (whole_of piece.now)))
        || not (nat_le kept most_span))) }
{
    let fits = fits(piece);
    let passes = !fits || MOST < kept;
    long || passes
}

/// A single piece.
fn alone(alloc: Global, member: Member) -> Result<Vec<Member>, Memory>
    ensures { IfOk result (λ v. v.items ≡ member ∷ []) }
{
    let mut members = Vec::new(alloc);
    members.push(member)?;
    Ok(members)
}

impl SpanParts {
    ghost use Rattle.std.specs.Prelude.{true, ◌++◌, OnOk};
    ghost use Rattle.m2v_law_seam.specs.Spans.{end_of_span, Span};
    ghost use Rattle.m2v_mend.specs.Members.{IsMember, HasZeros, IsSpan};

    /// A span that begins with a piece, behind units of the input, whose head goes along.
    ///
    /// # Errors
    /// Want of memory.
    pub(crate) fn begin(alloc: Global, heads: &Heads, member: Member) -> Result<SpanParts, Memory>
        requires member { IsMember member }
        ensures told { IfOk result (λ x. (before : Units) → IsHeads before heads.now
            → HasZeros member → IsSpan (record {
              place = member.piece.place;
              head = head_of (from_last_sequence before);
              pieces = whole_of member.piece ∷ [];
            }) x) }
        ensures members { IfOk result (λ x. All IsMember x.members.items) }
        ensures alone { IfOk result (λ x. x.members.items ≡ member ∷ []) }
    {
        let info = member.info;
        let place = member.piece.place;
        let bytes = member.piece.length;
        let head = head_copy(alloc, heads)?;
        let own = kept_length(&member.piece);
        let kept = sum(head_length(info.sequence, &head), own)?;
        let long = is_long(false, &member.piece, kept);
        let members = alone(alloc, member)?;
        Ok(SpanParts {
            place,
            head,
            members,
            bytes,
            pictures: info.pictures,
            kept,
            entry: info.is_entry(),
            long,
        })
    }

    /// Its pieces alone.
    pub(crate) fn into_members(self) -> Vec<Member>
        ensures { result ≡ self.members }
    {
        let Self {
            place: _,
            head: _,
            members,
            bytes: _,
            pictures: _,
            kept: _,
            entry: _,
            long: _,
        } = self;
        members
    }

    /// Keeps one piece more, where the span stays within the limits; else none.
    fn keep(&mut self, member: Member, kept: u64, long: bool) -> Result<(), Memory>
        requires long { long ≡ false → self.old.long ≡ false }
        requires kept { long ≡ false
            → kept ≡ self.old.kept + length (trimmed (whole_of member.piece)) }
        ensures members { OnOk result (long ≡ false
            → self.new.members.items ≡ self.old.members.items ++ member ∷ []) }
        ensures none { OnOk result (long ≡ true → self.new.members.items ≡ []) }
        ensures kept { OnOk result (self.new.kept ≡ kept) }
        ensures long { OnOk result (self.new.long ≡ long) }
        ensures place { self.new.place ≡ self.old.place }
        ensures head { self.new.head ≡ self.old.head }
        ensures bytes { self.new.bytes ≡ self.old.bytes }
        ensures pictures { self.new.pictures ≡ self.old.pictures }
        ensures entry { self.new.entry ≡ self.old.entry }
    {
        if long {
            self.long = true;
            self.kept = kept;
            self.members.truncate(0);
            return Ok(());
        }
        self.members.push(member)?;
        self.kept = kept;
        Ok(())
    }

    /// One piece more. A span that passes a limit keeps none.
    ///
    /// # Errors
    /// Want of memory.
    pub(crate) fn push(&mut self, member: Member) -> Result<(), Memory>
        requires members { All IsMember self.old.members.items }
        requires member { IsMember member }
        ensures told { OnOk result ((s : Span) → IsSpan s self.old → 1 ≤ length s.pieces
            → HasZeros member → member.piece.place ≡ end_of_span s
            → IsSpan (record s { pieces = s.pieces ++ whole_of member.piece ∷ [] }) self.new) }
        ensures members { OnOk result (All IsMember self.new.members.items) }
    {
        let bytes = sum(self.bytes, member.piece.length)?;
        let pictures = sum(self.pictures, member.info.pictures)?;
        let kept = sum(self.kept, kept_length(&member.piece))?;
        let long = is_long(self.long, &member.piece, kept);
        self.keep(member, kept, long)?;
        self.bytes = bytes;
        self.pictures = pictures;
        Ok(())
    }
}
