//! A strand as it is read.
ghost use Rattle.std.specs.Prelude.{◌≡◌, ◌+◌, ◌≤◌, ◌<◌, ◌^◌, true, false, List, [], ℕ, All, Some, None, IfOk, length, map};
ghost use Rattle.m2v_law_seam.specs.Strands.{read_of, first_in, frames_in};
ghost use Rattle.m2v_law_seam.specs.Reading.{CanGoBehind};
ghost use Rattle.m2v_decode.specs.m2v_dec_piece.Sound.{IsSoundPiece};
ghost use Rattle.m2v_decode.specs.Decoding.{Decoding};
ghost use Rattle.m2v_decode.specs.Reading.{Follows};
ghost use Rattle.m2v_mend.specs.Strand.{nothing_of, IsReady, StepTold, WalkTold, bytes_in, wholes_of, refusal_of, IsAt, Told};

use crate::agreeing::agrees;
use crate::member::HasPiece;
use crate::refusal::Refusal;
use crate::standing::Standing;
use crate::tail::is_open;
use m2v_decode::{DecodeError, Fault, Memory, Piece, Reader};
use m2v_model::{FaultKind, Sequence};
use std::alloc::{AllocError, Global};
use std::marker::Model;

/// A strand, as far as it was read: spans of an input, one behind another, that are kept.
///
/// Contracts see it as what its reader has read, whether it is the opening strand, how many bytes it has, and how its
/// pictures stand. Which bytes it stands for is said by `IsAt`.
#[derive(Drop)]
pub struct Strand {
    reader: Reader,
    opening: bool,
    bytes: u64,
    standing: Standing,
}

impl Model for Strand {
    ghost use Rattle.m2v_mend.specs.Strand.{StrandState};

    ghost Value = { StrandState };

    ghost view = { λ s. record {
      reading = s.reader;
      opening = s.opening;
      bytes = s.bytes;
      standing = s.standing;
    } };
}

impl Strand {
    /// A strand without a byte.
    fn nothing(alloc: Global, opening: bool) -> Strand
        ensures { result ≡ nothing_of opening }
    {
        let standing = Standing {
            anchors: 0,
            broken: None,
        };
        Strand {
            reader: Reader::new(alloc),
            opening,
            bytes: 0,
            standing,
        }
    }

    /// The opening strand, which has no byte yet.
    pub fn opening(alloc: Global) -> Strand
        ensures value { result ≡ nothing_of true }
        ensures ready { IsReady result }
        ensures is { IsAt result [] }
    {
        Strand::nothing(alloc, true)
    }

    /// Another strand, which has no byte yet. It has to keep the rule of a strand.
    pub fn another(alloc: Global) -> Strand
        ensures value { result ≡ nothing_of false }
        ensures ready { IsReady result }
        ensures is { IsAt result [] }
    {
        Strand::nothing(alloc, false)
    }

    /// How many bytes it has.
    pub fn bytes(&self) -> u64
        ensures value { result ≡ self.now.bytes }
        ensures is { (bytes : List ℕ) → IsAt self.now bytes → result ≡ length bytes }
    {
        self.bytes
    }

    /// How many frames it shows.
    pub fn frames(&self) -> u64
        ensures { (bytes : List ℕ) → IsAt self.now bytes → 1 ≤ length bytes
            → result ≡ frames_in (read_of bytes) }
    {
        self.reader.frames()
    }

    /// Its first sequence header, once there is one.
    pub fn first(&self) -> Option<Sequence>
        ensures { (bytes : List ℕ) → IsAt self.now bytes → 1 ≤ length bytes
            → result ≡ first_in (read_of bytes) }
    {
        self.reader.first()
    }

    /// Reads a piece behind what was read, or tells its first fault.
    fn piece(&mut self, alloc: Global, piece: &Piece) -> Result<Option<Fault>, Memory>
        requires ready { IsReady self.old }
        requires piece { IsSoundPiece piece.now }
        requires counted { self.old.bytes + piece.now.length ≤ 2 ^ 60 }
        ensures told { IfOk result (λ o. (d : Decoding) → Follows self.old.reading d
            → StepTold d self.old piece.now o self.new) }
        ensures ready { IfOk result (λ o. o ≡ None → IsReady self.new) }
        ensures bytes { IfOk result (λ o. o ≡ None
            → self.new.bytes ≡ self.old.bytes + piece.now.length) }
        ensures opening { IfOk result (λ o. o ≡ None → self.new.opening ≡ self.old.opening) }
    {
        match self.reader.piece(alloc, piece) {
            Ok(notes) => {
                self.standing = self.standing.with(&notes.picture);
                self.bytes += piece.length;
                Ok(None)
            }
            Err(DecodeError::Stream(fault)) => Ok(Some(fault)),
            Err(_) => Err(AllocError),
        }
    }

    /// Reads pieces behind what was read, up to the first fault.
    fn pieces<P: HasPiece>(&mut self, alloc: Global, pieces: &[P]) -> Result<Option<Fault>, Memory>
        requires ready { IsReady self.old }
        requires pieces { All IsSoundPiece (map P.own_piece pieces.now) }
        requires counted { self.old.bytes + bytes_in (map P.own_piece pieces.now) ≤ 2 ^ 60 }
        ensures told { IfOk result (λ o. (d : Decoding) → Follows self.old.reading d
            → WalkTold d self.old (map P.own_piece pieces.now) o self.new) }
        ensures ready { IfOk result (λ o. o ≡ None → IsReady self.new) }
        ensures opening { IfOk result (λ o. o ≡ None → self.new.opening ≡ self.old.opening) }
    {
        for piece in pieces {
            if let Some(fault) = self.piece(alloc, piece.as_piece())? {
                return Ok(Some(fault));
            }
        }
        Ok(None)
    }

    /// Why what was read is no strand, where the text that was read ends at a byte of the input.
    fn refusal(&self, first: &Option<Sequence>, end: u64) -> Option<Refusal>
        requires { end ≤ 2 ^ 36 }
        ensures { result ≡ refusal_of self.now first.now end }
    {
        if self.reader.waits() {
            return Some(Refusal::Fault(Fault {
                kind: FaultKind::FieldPair,
                place: 8 * end,
            }));
        }
        if !self.opening {
            if let Some(place) = self.standing.broken {
                return Some(Refusal::Rule(place));
            }
        }
        if agrees(first, &self.reader.first()) {
            None
        } else {
            Some(Refusal::Other)
        }
    }

    /// Reads the pieces of a span behind what was read, where `first` is the first sequence header that was kept. None: with
    /// them it is a strand. Else no call may follow.
    ///
    /// Said of all bytes for which the strand stands, and pieces that can be put behind them.
    ///
    /// # Errors
    /// Want of memory. No call may follow then.
    pub(crate) fn read<P: HasPiece>(
        &mut self,
        alloc: Global,
        first: &Option<Sequence>,
        pieces: &[P],
    ) -> Result<Option<Refusal>, Memory>
        requires ready { IsReady self.old }
        requires pieces { All IsSoundPiece (map P.own_piece pieces.now) }
        requires counted { self.old.bytes + bytes_in (map P.own_piece pieces.now) ≤ 2 ^ 60 }
        ensures told { IfOk result (λ o. (bytes : List ℕ) → (at : IsAt self.old bytes)
            → CanGoBehind bytes (wholes_of (map P.own_piece pieces.now)) → Told at.decoder
            self.old first.now bytes (map P.own_piece pieces.now) o self.new) }
        ensures ready { IfOk result (λ o. o ≡ None → IsReady self.new) }
        ensures opening { IfOk result (λ o. o ≡ None → self.new.opening ≡ self.old.opening) }
    {
        let Some(last) = pieces.last() else {
            return Ok(None);
        };
        let last = last.as_piece();
        if is_open(last) {
            return Ok(Some(Refusal::Open));
        }
        match self.pieces(alloc, pieces)? {
            Some(fault) => Ok(Some(Refusal::Fault(fault))),
            None => Ok(self.refusal(first, last.place + last.length)),
        }
    }
}
