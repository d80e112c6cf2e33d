//! The head of what follows: the last sequence header that was met, with the extension units right behind it.
ghost use Rattle.std.specs.Prelude.{◌≡◌, ◌+◌, ◌^◌, ◌<◌, ◌≤◌, ◌⊎◌, ◌++◌, [], true, false, length, is_some, slice_index, OnOk, Some};
ghost use Rattle.m2v_model.specs.Units.{Units};
ghost use Rattle.m2v_decode.specs.Decoding.{whole_of};
ghost use Rattle.m2v_dec_unit.specs.Texts.{text_of, IsZeroEnded};
ghost use Rattle.m2v_law_group.specs.Groups.{from_last_sequence, is_sequence};
ghost use Rattle.m2v_law_seam.specs.Spans.{units_of, head_of, is_extension};
ghost use Rattle.m2v_mend.specs.Editing.{IsWhole};
ghost use Rattle.m2v_mend.specs.Heading.{IsHeads, IsOnce, IsBehind, IsAppended, IsLeftOut};
ghost use Rattle.m2v_mend.specs.Members.{IsMember};

use crate::Memory;
use crate::edits::unit_length;
use crate::info::PieceInfo;
use crate::member::Member;
use crate::walk::{EXTENSION, SEQUENCE, matrices_seen, zeros_of};
use m2v_dec_unit::Unit;
use std::alloc::Global;

/// The most bytes that a head has.
pub(crate) const MOST_HEAD: u64 = 4096;

/// The last sequence header among the units that were taken: whether there is one, its bytes with those of the extension
/// units right behind it, whether another extension unit would be one of these, and whether it can't be a head: it is too
/// long, or a quant matrix extension stands behind it.
#[derive(Drop)]
pub struct Heads {
    pub(crate) there: bool,
    pub(crate) bytes: Vec<u8>,
    pub(crate) follows: bool,
    pub(crate) lost: bool,
}

/// How many zero bytes are left out behind the first n bytes of so many.
fn zeros_behind(n: usize, left: usize, zeros: u64) -> u64
    ensures { IsLeftOut n left zeros result }
{
    if n == left {
        return zeros;
    }
    0
}

/// A sequence header is among units with one more, by its bytes that are kept.
fn met_with(met: bool, kept: &[u8]) -> bool
    requires { 4 ≤ length kept.now }
    ensures { result ≡ true → (met ≡ true) ⊎ (slice_index kept.now 3 ≡ 0xB3) }
{
    met || kept[3] == SEQUENCE
}

/// Nothing changes the head any more: its header was met, no other one follows, and what belongs to it has ended.
fn is_over(once: bool, met: bool, follows: bool) -> bool
    ensures { result ≡ true → (once ≡ true) × (met ≡ true) × (follows ≡ false) }
{
    once && met && !follows
}

/// One sequence header is among the units of a piece at most, and no quant matrix extension.
fn is_once(info: &PieceInfo) -> bool
    ensures { result ≡ true → (info.now.again ≡ false) × (info.now.matrices ≡ false) }
{
    !info.again && !info.matrices
}

impl Heads {
    /// Before any unit.
    pub fn new(alloc: Global) -> Heads
        ensures { IsHeads [] result }
    {
        Heads {
            there: false,
            bytes: Vec::new(alloc),
            follows: false,
            lost: false,
        }
    }

    /// Appends a unit, by its bytes that are kept and the zero bytes behind them; a header that is too long is lost.
    fn append(&mut self, kept: &[u8], zeros: u64) -> Result<(), Memory>
        requires most { length kept.now + zeros ≤ 2 ^ 36 }
        ensures { OnOk result (IsAppended self.old (text_of kept.now zeros) self.new) }
    {
        if self.lost {
            return Ok(());
        }
        if self.bytes.len() as u64 + kept.len() as u64 + zeros > MOST_HEAD {
            self.lost = true;
            return Ok(());
        }
        let end = self.bytes.len() + kept.len() + zeros as usize;
        self.bytes.extend_from_slice(kept)?;
        self.bytes.resize(end, 0)?;
        Ok(())
    }

    /// A sequence header.
    fn begin(&mut self, kept: &[u8], zeros: u64) -> Result<(), Memory>
        requires most { length kept.now + zeros ≤ 2 ^ 36 }
        requires header { is_sequence (text_of kept.now zeros) ≡ true }
        ensures { OnOk result (IsBehind self.old (text_of kept.now zeros) self.new) }
    {
        self.there = true;
        self.follows = true;
        self.lost = false;
        self.bytes.truncate(0);
        self.append(kept, zeros)
    }

    /// A unit that doesn't belong to the header.
    fn pass(&mut self, kept: &[u8], zeros: u64)
        requires code { 4 ≤ length kept.now }
        requires most { length kept.now + zeros ≤ 2 ^ 36 }
        requires other { is_sequence (text_of kept.now zeros) ≡ false }
        requires end { (self.old.follows ≡ false) ⊎ (is_extension (text_of kept.now zeros) ≡ false) }
        ensures { IsBehind self.old (text_of kept.now zeros) self.new }
    {
        self.follows = false;
        self.lost = matrices_seen(self.lost, &Unit::new(kept, zeros));
    }

    /// A unit that isn't a sequence header.
    fn other(&mut self, kept: &[u8], zeros: u64) -> Result<(), Memory>
        requires code { 4 ≤ length kept.now }
        requires most { length kept.now + zeros ≤ 2 ^ 36 }
        requires other { is_sequence (text_of kept.now zeros) ≡ false }
        ensures { OnOk result (IsBehind self.old (text_of kept.now zeros) self.new) }
    {
        if !self.follows {
            self.pass(kept, zeros);
            return Ok(());
        }
        if kept[3] == EXTENSION {
            return self.append(kept, zeros);
        }
        self.pass(kept, zeros);
        Ok(())
    }

    /// One unit more.
    fn unit(&mut self, kept: &[u8], zeros: u64) -> Result<(), Memory>
        requires code { 4 ≤ length kept.now }
        requires most { length kept.now + zeros ≤ 2 ^ 36 }
        ensures { OnOk result (IsBehind self.old (text_of kept.now zeros) self.new) }
    {
        if kept[3] == SEQUENCE {
            return self.begin(kept, zeros);
        }
        self.other(kept, zeros)
    }

    /// The units of bytes and of the zero bytes behind them. Where one sequence header is among them at most, and no quant
    /// matrix extension, those behind what belongs to the header aren't looked at.
    fn take_all(&mut self, bytes: &[u8], zeros: u64, once: bool) -> Result<(), Memory>
        requires most { length bytes.now + zeros ≤ 2 ^ 36 }
        requires ended { IsZeroEnded bytes.now zeros }
        requires units { IsWhole (text_of bytes.now zeros) }
        requires once { once ≡ true → IsOnce (units_of (text_of bytes.now zeros)) }
        ensures { OnOk result ((before : Units) → IsHeads before self.old
            → IsHeads (before ++ units_of (text_of bytes.now zeros)) self.new) }
    {
        let mut at = 0;
        let mut met = false;
        while at < bytes.len() {
            let n = unit_length(&bytes[at..], zeros);
            let behind = zeros_behind(n, bytes.len() - at, zeros);
            self.unit(&bytes[at..at + n], behind)?;
            met = met_with(met, &bytes[at..at + n]);
            at += n;
            if is_over(once, met, self.follows) {
                return Ok(());
            }
        }
        Ok(())
    }

    /// The units of a piece. Behind the header they change nothing but by a sequence header or a quant matrix extension, and
    /// are looked at where one is among them alone.
    pub fn take(&mut self, member: &Member) -> Result<(), Memory>
        requires { IsMember member.now }
        ensures { OnOk result ((before : Units) → IsHeads before self.old
            → IsHeads (before ++ units_of (whole_of member.now.piece)) self.new) }
    {
        if self.follows || member.info.sequence || member.info.matrices {
            let once = is_once(&member.info);
            return self.take_all(&member.piece.bytes, zeros_of(&member.piece), once);
        }
        Ok(())
    }

    /// Whether there is a head.
    pub fn is_there(&self) -> bool
        ensures { (before : Units) → IsHeads before self.now
            → result ≡ is_some (head_of (from_last_sequence before)) }
    {
        self.there && !self.lost
    }

    /// Its bytes, where there is one.
    pub fn bytes(&self) -> &[u8]
        ensures { (before : Units) → IsHeads before self.now
            → is_some (head_of (from_last_sequence before)) ≡ true
            → head_of (from_last_sequence before) ≡ Some result.now }
    {
        &self.bytes
    }
}
