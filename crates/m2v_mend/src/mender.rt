//! What is kept of an input, span by span.
ghost use Rattle.std.specs.Prelude.{◌≡◌, ℕ, List, [], All, IfOk, OnOk, Option, None, Ok, false, length, if◌then◌else◌};
ghost use Rattle.m2v_model.specs.Units.{joined};
ghost use Rattle.m2v_law_seam.specs.Spans.{Span};
ghost use Rattle.m2v_law_seam.specs.Faults.{fault_of};
ghost use Rattle.m2v_law_seam.specs.Mending as mending;
ghost use Rattle.m2v_law_seam.specs.Mending.{Mending, nothing_yet, groups_behind, strands_of, frames_shown, low_of_span, goes_behind, with_gap, gaps_leading, strand_begun, left_out, with_span, strand_ended};
ghost use Rattle.m2v_mend.specs.Members.{IsMember, IsOfStretch, IsSpan};
ghost use Rattle.m2v_mend.specs.Putting.{BeginTold, IsLeading};
ghost use Rattle.m2v_mend.specs.Making.{StrandReady, IsMade, CanBeNext, fault_told, gap_told};
ghost use Rattle.m2v_mend.specs.Mender.{over, GivesBack, IsFirstGroup, WentOn, PutOrNot, BehindTold, IsWhyNot, IsLong, IsNotLong};
ghost use Rattle.m2v_mend.specs.Strand.{IsReady};

use crate::Memory;
use crate::alone::{begins_with_header, fault_at};
use crate::begin::{Begun, Leading, begin};
use crate::behind::put_behind;
use crate::edits::lowered_behind;
use crate::gap::{Gap, push_gap};
use crate::groups::groups_with;
use crate::parts::SpanParts;
use crate::strand::Strand;
use crate::sums::sum;
use m2v_decode::{Fault, Piece};
use m2v_model::{FaultKind, Sequence};
use std::alloc::Global;

/// What is made of the spans so far.
#[derive(Drop)]
pub struct Mender {
    /// The strand that is under way.
    pub strand: Option<Strand>,
    /// The first sequence header that was kept.
    pub first: Option<Sequence>,
    /// By how much temporal references are lowered.
    pub low: u32,
    /// How many groups were kept.
    pub groups: u64,
    /// How many frames the strands show that have ended, and how many bytes they have.
    pub frames: u64,
    pub bytes: u64,
    /// Pieces that were kept, and aren't handed out yet.
    pub out: Vec<Piece>,
    /// Gaps that aren't handed out yet. Another one may join the last one.
    pub gaps: Vec<Gap>,
    /// How many picture units were left out.
    pub left: u64,
    /// The fault of the first gap.
    pub fault: Option<Fault>,
}

/// How a span stands to the strand that was under way, and the span, where it wasn't put there.
#[derive(Drop)]
pub enum Behind {
    /// It was put behind it.
    Put,
    /// No strand is under way for it.
    NotUnderWay(SpanParts),
    /// It doesn't go there.
    Refused(Fault, SpanParts),
    /// It passes a limit.
    Long(Fault, SpanParts),
}

/// The first piece of a span has a group header.
fn begins_with_group(parts: &SpanParts) -> bool
    requires members { All IsMember parts.now.members.items }
    ensures { (s : Span) → IsSpan s parts.now → parts.now.long ≡ false
        → IsFirstGroup s.pieces result }
{
    match parts.members.first() {
        None => false,
        Some(member) => member.info.group,
    }
}

/// The first sequence header that was kept, with that of one more strand.
fn first_with(first: Option<Sequence>, own: Option<Sequence>) -> Option<Sequence>
    ensures { result ≡ mending.first_kept first own }
{
    match first {
        None => own,
        Some(first) => Some(first),
    }
}

/// The fault of the first gap, with one gap more: its own, where there is none before it.
fn first_fault(none: bool, before: Option<Fault>, own: Option<Fault>) -> Option<Fault>
    ensures { result ≡ (if none then own else before) }
{
    if none { own } else { before }
}

impl Mender {
    /// Before the first span.
    pub(crate) fn new(alloc: Global) -> Mender
        ensures made { IsMade [] [] nothing_yet result }
        ensures ready { StrandReady result.strand }
    {
        Mender {
            strand: Some(Strand::opening(alloc)),
            first: None,
            low: 0,
            groups: 0,
            frames: 0,
            bytes: 0,
            out: Vec::new(alloc),
            gaps: Vec::new(alloc),
            left: 0,
            fault: None,
        }
    }

    /// How many frames the strands show, that which is under way among them.
    fn frames_shown(&self) -> Result<u64, Memory>
        ensures { IfOk result (λ n. (written : List ℕ) (listed : List mending.Gap) (m : Mending)
            → IsMade written listed m self.now → n ≡ frames_shown (strands_of m)) }
    {
        match &self.strand {
            None => Ok(self.frames),
            Some(strand) => {
                if strand.bytes() == 0 {
                    return Ok(self.frames);
                }
                let frames = sum(self.frames, strand.frames())?;
                Ok(frames)
            }
        }
    }

    /// How many bytes they have.
    fn bytes_kept(&self) -> Result<u64, Memory>
        ensures { IfOk result (λ n. (written : List ℕ) (listed : List mending.Gap) (m : Mending)
            → IsMade written listed m self.now → n ≡ length (joined (strands_of m))) }
    {
        match &self.strand {
            None => Ok(self.bytes),
            Some(strand) => {
                let bytes = sum(self.bytes, strand.bytes())?;
                Ok(bytes)
            }
        }
    }

    /// No strand is under way; those that have ended show so many frames, and have so many bytes.
    fn end_with(&mut self, frames: u64, bytes: u64)
        ensures { self.new
            ≡ record self.old { strand = None; low = 0; frames = frames; bytes = bytes } }
    {
        self.strand = None;
        self.low = 0;
        self.frames = frames;
        self.bytes = bytes;
    }

    /// The strand that is under way ends, where it has a byte.
    ///
    /// # Errors
    /// Want of memory. No call may follow then.
    pub(crate) fn end_strand(&mut self) -> Result<(), Memory>
        requires ready { StrandReady self.old.strand }
        ensures told { OnOk result ((written : List ℕ) (listed : List mending.Gap) (m : Mending)
            → IsMade written listed m self.old → IsMade written listed (strand_ended m) self.new) }
        ensures ready { OnOk result (StrandReady self.new.strand) }
    {
        let frames = self.frames_shown()?;
        let bytes = self.bytes_kept()?;
        if bytes > self.bytes {
            self.end_with(frames, bytes);
        }
        Ok(())
    }

    /// One gap more.
    fn add_gap(&mut self, gap: Gap) -> Result<(), Memory>
        ensures told { OnOk result ((written : List ℕ) (listed : List mending.Gap) (m : Mending)
            → IsMade written listed m self.old → IsMade written listed
            (record m { gaps = with_gap m.gaps (gap_told gap) }) self.new) }
        ensures strand { OnOk result (self.new.strand ≡ self.old.strand) }
    {
        self.fault = first_fault(self.gaps.is_empty(), self.fault, gap.fault);
        self.left = sum(self.left, gap.pictures)?;
        push_gap(&mut self.gaps, gap)?;
        Ok(())
    }

    /// A span went behind a strand, which is under way with it; so many groups were kept then.
    fn go_on(&mut self, strand: Strand, low: u32, groups: u64)
        requires ready { IsReady strand }
        ensures told { (s : Span) → groups ≡ groups_behind self.old.groups s
            → WentOn s strand low self.old self.new }
        ensures ready { StrandReady self.new.strand }
    {
        self.first = first_with(self.first, strand.first());
        self.groups = groups;
        self.low = low;
        self.strand = Some(strand);
    }

    /// Puts a span behind the strand that is under way, where one is, and it is one with it. Else no strand is.
    fn put(&mut self, alloc: Global, parts: SpanParts) -> Result<Behind, Memory>
        requires ready { StrandReady self.old.strand }
        requires members { All IsMember parts.members.items }
        requires short { parts.long ≡ false }
        ensures told { IfOk result (λ b. (written : List ℕ) (listed : List mending.Gap)
            (m : Mending) (s : Span) → IsMade written listed m self.old → IsSpan s parts
            → IsOfStretch s → CanBeNext m.strand s.pieces
            → PutOrNot written listed m s b self.old self.new) }
        ensures ready { OnOk result (StrandReady self.new.strand) }
        ensures short { IfOk result IsNotLong }
        ensures parts { IfOk result (GivesBack parts) }
    {
        let Some(mut strand) = self.strand.take() else {
            return Ok(Behind::NotUnderWay(parts));
        };
        if strand.bytes() == 0 && !begins_with_header(&parts) {
            return Ok(Behind::NotUnderWay(parts));
        }
        let low = lowered_behind(self.low, begins_with_group(&parts));
        let groups = groups_with(self.groups, &parts)?;
        match put_behind(alloc, &mut strand, &self.first, low, parts, &mut self.out)? {
            Some(not) => Ok(Behind::Refused(not.fault, not.parts)),
            None => {
                self.go_on(strand, low, groups);
                Ok(Behind::Put)
            }
        }
    }

    /// The same, where the span is within the limits. Where it wasn't put there, the strand has ended.
    fn behind(&mut self, alloc: Global, parts: SpanParts) -> Result<Behind, Memory>
        requires ready { StrandReady self.old.strand }
        requires members { All IsMember parts.members.items }
        ensures told { IfOk result (λ b. (written : List ℕ) (listed : List mending.Gap)
            (m : Mending) (s : Span) → IsMade written listed m self.old → IsSpan s parts
            → IsOfStretch s → CanBeNext m.strand s.pieces
            → BehindTold written listed m s b self.new) }
        ensures ready { OnOk result (StrandReady self.new.strand) }
        ensures long { IfOk result (λ b. IsLong b parts.long) }
        ensures parts { IfOk result (GivesBack parts) }
    {
        let frames = self.frames_shown()?;
        let bytes = self.bytes_kept()?;
        if parts.long {
            let fault = fault_at(FaultKind::Unsupported, parts.place)?;
            self.end_with(frames, bytes);
            return Ok(Behind::Long(fault, parts));
        }
        match self.put(alloc, parts)? {
            Behind::Put => Ok(Behind::Put),
            behind => {
                self.end_with(frames, bytes);
                Ok(behind)
            }
        }
    }

    /// A span is left out; no strand is under way.
    fn leave_out(&mut self, parts: &SpanParts, fault: Fault) -> Result<(), Memory>
        ensures told { OnOk result ((written : List ℕ) (listed : List mending.Gap) (m : Mending)
            (s : Span) → IsMade written listed (over m) self.old → IsSpan s parts.now
            → fault_of m.strand (low_of_span m s) m.first s ≡ fault_told fault
            → IsMade written listed (left_out m s) self.new) }
        ensures strand { OnOk result (self.new.strand ≡ self.old.strand) }
    {
        self.add_gap(Gap {
            frames: self.frames,
            from: parts.place,
            bytes: parts.bytes,
            pictures: parts.pictures,
            fault: Some(fault),
        })?;
        Ok(())
    }

    /// The leading pieces of a span are left out, where there are some.
    fn leave_leading(&mut self, place: u64, leading: &Leading) -> Result<(), Memory>
        ensures told { OnOk result ((written : List ℕ) (listed : List mending.Gap) (m : Mending)
            (s : Span) → IsMade written listed m self.old → m.strand ≡ None
            → place ≡ s.place → IsLeading s leading.now → IsMade written listed
            (record m { gaps = gaps_leading m.gaps (frames_shown m.done) s }) self.new) }
        ensures strand { OnOk result (self.new.strand ≡ self.old.strand) }
    {
        if !leading.some {
            return Ok(());
        }
        self.add_gap(Gap {
            frames: self.frames,
            from: sum(place, leading.before)?,
            bytes: leading.bytes,
            pictures: leading.pictures,
            fault: None,
        })?;
        Ok(())
    }

    /// A strand has begun with a span, by these pieces.
    fn begun(
        &mut self,
        begun: Begun,
        pieces: &mut Vec<Piece>,
        parts: &SpanParts,
    ) -> Result<(), Memory>
        requires ready { IsReady begun.strand }
        ensures told { OnOk result ((written : List ℕ) (listed : List mending.Gap) (m : Mending)
            (s : Span) → IsMade written listed (over m) self.old → IsSpan s parts.now
            → BeginTold m.first s [] pieces.old.items (Ok begun)
            → IsMade written listed (strand_begun m s) self.new) }
        ensures ready { OnOk result (StrandReady self.new.strand) }
    {
        self.leave_leading(parts.place, &begun.leading)?;
        let groups = groups_with(self.groups, parts)?;
        self.go_on(begun.strand, begun.low, groups);
        self.out.append(pieces)?;
        Ok(())
    }

    /// Begins a strand with a span that wasn't put behind one, or leaves it out: `refused` is why it doesn't go behind the
    /// strand that was under way.
    fn elsewhere(
        &mut self,
        alloc: Global,
        parts: &SpanParts,
        refused: Option<Fault>,
    ) -> Result<(), Memory>
        requires ready { StrandReady self.old.strand }
        requires members { All IsMember parts.now.members.items }
        requires short { parts.now.long ≡ false }
        ensures told { OnOk result ((written : List ℕ) (listed : List mending.Gap) (m : Mending)
            (s : Span) → IsMade written listed (over m) self.old → IsSpan s parts.now
            → IsOfStretch s → goes_behind m s ≡ false → IsWhyNot m s refused
            → IsMade written listed (with_span m s) self.new) }
        ensures ready { OnOk result (StrandReady self.new.strand) }
    {
        let mut pieces = Vec::new(alloc);
        match begin(alloc, &self.first, parts, &mut pieces)? {
            Ok(begun) => self.begun(begun, &mut pieces, parts)?,
            Err(fault) => self.leave_out(parts, refused.unwrap_or(fault))?,
        }
        Ok(())
    }

    /// One span more: it goes behind the strand that is under way, or begins another one, or is left out.
    ///
    /// # Errors
    /// Want of memory. No call may follow then.
    pub(crate) fn span(&mut self, alloc: Global, parts: SpanParts) -> Result<(), Memory>
        requires ready { StrandReady self.old.strand }
        requires members { All IsMember parts.members.items }
        ensures told { OnOk result ((written : List ℕ) (listed : List mending.Gap) (m : Mending)
            (s : Span) → IsMade written listed m self.old → IsSpan s parts → IsOfStretch s
            → CanBeNext m.strand s.pieces → IsMade written listed (with_span m s) self.new) }
        ensures ready { OnOk result (StrandReady self.new.strand) }
    {
        match self.behind(alloc, parts)? {
            Behind::Put => {}
            Behind::Long(fault, parts) => self.leave_out(&parts, fault)?,
            Behind::Refused(fault, parts) => self.elsewhere(alloc, &parts, Some(fault))?,
            Behind::NotUnderWay(parts) => self.elsewhere(alloc, &parts, None)?,
        }
        Ok(())
    }
}
