//! What is kept of an input, piece by piece.
ghost use Rattle.std.specs.Prelude.{◌≡◌, ℕ, ◌+◌, ◌≤◌, ◌++◌, List, [], length, All, OnOk, None};
ghost use Rattle.m2v_model.specs.Units.{joined};
ghost use Rattle.m2v_decode.specs.m2v_dec_piece.Sound.{IsSoundPiece};
ghost use Rattle.m2v_decode.specs.Decoding.{whole_of};
ghost use Rattle.m2v_law_seam.specs.Spans.{units_in, Span};
ghost use Rattle.m2v_law_seam.specs.Mending as mending;
ghost use Rattle.m2v_mend.specs.Editing.{IsUnits};
ghost use Rattle.m2v_mend.specs.Gathering as gathering;
ghost use Rattle.m2v_mend.specs.Gathering.{Gathering, Tally, with_one, with_piece, before_stretch, stretch_ended, finished, nothing_told};
ghost use Rattle.m2v_mend.specs.Members.{IsMember, IsOfStretch, IsSpan};
ghost use Rattle.m2v_mend.specs.Making.{StrandReady, CanBeNext, IsFolded, IsNextPiece, IsFoldReady, MembersStand};
ghost use Rattle.m2v_mend.specs.Folded.{IsTold, IsBegun, IsGrown, SameHeads, Waits};

use crate::Memory;
use crate::fresh::Fresh;
use crate::groups::groups_with;
use crate::head::Heads;
use crate::info::{begins_step, waits_behind};
use crate::member::Member;
use crate::mender::Mender;
use crate::parts::SpanParts;
use crate::sums::sum;
use std::alloc::Global;

/// What is made of the pieces so far.
#[derive(Drop)]
pub struct Folding {
    pub mender: Mender,
    /// The last sequence header of the input so far.
    pub heads: Heads,
    /// The span at hand, once a piece of the stretch was read.
    pub parts: Option<SpanParts>,
    /// The structure of the first field that waits behind the last piece, 0 where none does.
    pub waiting: u32,
    /// How many groups the spans have that are whole, and how many picture units.
    pub groups: u64,
    pub pictures: u64,
}

impl Folding {
    /// Before the first piece, which may begin at any byte.
    pub(crate) fn new(alloc: Global) -> Folding
        ensures folded { (place : ℕ)
            → IsFolded [] [] (before_stretch nothing_told place []) result }
        ensures ready { IsFoldReady result }
    {
        Folding {
            mender: Mender::new(alloc),
            heads: Heads::new(alloc),
            parts: None,
            waiting: 0,
            groups: 0,
            pictures: 0,
        }
    }

    /// A span is whole.
    fn finish(&mut self, alloc: Global, parts: SpanParts) -> Result<(), Memory>
        requires ready { StrandReady self.old.mender.strand }
        requires members { All IsMember parts.members.items }
        ensures told { OnOk result ((written : List ℕ) (listed : List mending.Gap) (t : Tally)
            (s : Span) → IsTold written listed t self.old → IsSpan s parts → IsOfStretch s
            → CanBeNext t.made.strand s.pieces → IsTold written listed (with_one t s) self.new) }
        ensures ready { OnOk result (StrandReady self.new.mender.strand) }
        ensures heads { OnOk result (SameHeads self.old self.new) }
        ensures parts { OnOk result (self.new.parts ≡ self.old.parts) }
    {
        let groups = groups_with(self.groups, &parts)?;
        let pictures = sum(self.pictures, parts.pictures)?;
        self.mender.span(alloc, parts)?;
        self.groups = groups;
        self.pictures = pictures;
        Ok(())
    }

    /// A span begins with a piece.
    fn begin_span(&mut self, alloc: Global, member: Member) -> Result<(), Memory>
        requires member { IsMember member }
        ensures begun { OnOk result (IsBegun self.old member self.new) }
        ensures members { OnOk result (MembersStand self.new.parts) }
    {
        let parts = SpanParts::begin(alloc, &self.heads, member)?;
        self.heads.take(&parts.members[0])?;
        self.parts = Some(parts);
        Ok(())
    }

    /// The span at hand has one piece more.
    fn grow_span(&mut self, parts: SpanParts, member: Member) -> Result<(), Memory>
        requires members { All IsMember parts.members.items }
        requires member { IsMember member }
        ensures grown { OnOk result (IsGrown self.old parts member self.new) }
        ensures members { OnOk result (MembersStand self.new.parts) }
    {
        let mut parts = parts;
        self.heads.take(&member)?;
        parts.push(member)?;
        self.parts = Some(parts);
        Ok(())
    }

    /// The span at hand is whole, where there is one.
    fn end_span(&mut self, alloc: Global) -> Result<(), Memory>
        requires ready { IsFoldReady self.old }
        ensures ended { OnOk result ((written : List ℕ) (listed : List mending.Gap)
            (g : Gathering) → IsFolded written listed g self.old
            → IsTold written listed (finished g) self.new) }
        ensures heads { OnOk result (SameHeads self.old self.new) }
        ensures parts { OnOk result (self.new.parts ≡ None) }
        ensures ready { OnOk result (StrandReady self.new.mender.strand) }
    {
        match self.parts.take() {
            None => Ok(()),
            Some(parts) => self.finish(alloc, parts),
        }
    }

    /// One piece more, with which a step begins or not.
    fn with_member(&mut self, alloc: Global, begins: bool, member: Member) -> Result<(), Memory>
        requires ready { IsFoldReady self.old }
        requires member { IsMember member }
        ensures told { OnOk result ((written : List ℕ) (listed : List mending.Gap) (g : Gathering)
            → IsFolded written listed g self.old → IsNextPiece g member.piece
            → begins ≡ gathering.begins_step g.waiting (whole_of member.piece)
            → Waits written listed (with_piece g (whole_of member.piece)) self.new) }
        ensures ready { OnOk result (IsFoldReady self.new) }
    {
        match self.parts.take() {
            None => self.begin_span(alloc, member),
            Some(parts) => {
                if begins {
                    self.finish(alloc, parts)?;
                    return self.begin_span(alloc, member);
                }
                self.grow_span(parts, member)
            }
        }
    }

    /// One piece more of the stretch: it belongs to the span at hand, or another span begins with it.
    ///
    /// # Errors
    /// Want of memory. No call may follow then.
    pub(crate) fn piece(&mut self, alloc: Global, piece: Fresh) -> Result<(), Memory>
        requires ready { IsFoldReady self.old }
        requires sound { IsSoundPiece piece }
        requires units { IsUnits piece }
        ensures told { OnOk result ((written : List ℕ) (listed : List mending.Gap)
            (g : Gathering) → IsFolded written listed g self.old → IsNextPiece g piece
            → IsFolded written listed (with_piece g (whole_of piece)) self.new) }
        ensures ready { OnOk result (IsFoldReady self.new) }
    {
        let member = Member::new(piece);
        let info = member.info;
        let begins = begins_step(self.waiting, &info);
        let waiting = waits_behind(self.waiting, &info);
        self.with_member(alloc, begins, member)?;
        self.waiting = waiting;
        Ok(())
    }

    /// The stretch ends, and with it the span at hand and the strand that is under way. The next one may begin at any byte
    /// behind it.
    ///
    /// # Errors
    /// Want of memory. No call may follow then.
    pub(crate) fn end_stretch(&mut self, alloc: Global) -> Result<(), Memory>
        requires ready { IsFoldReady self.old }
        ensures told { OnOk result ((written : List ℕ) (listed : List mending.Gap)
            (g : Gathering) (place : ℕ) → IsFolded written listed g self.old
            → g.place + length (joined g.pieces) ≤ place → IsFolded written listed
            (before_stretch (stretch_ended (finished g)) place (g.before ++ units_in g.pieces))
            self.new) }
        ensures ready { OnOk result (IsFoldReady self.new) }
    {
        self.end_span(alloc)?;
        self.mender.end_strand()?;
        self.waiting = 0;
        Ok(())
    }
}
