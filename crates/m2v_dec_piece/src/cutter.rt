ghost use Rattle.std.specs.Prelude.{◌≡◌, ℕ, ◌+◌, ◌≤◌, ◌<◌, ◌^◌, ◌++◌, List, [], length, IfOk, IfSome, IfErr, OnOk, IsErrOf, Ok, Err, Some, None, true, false, IfNone};
ghost use Rattle.m2v_port.specs.Port.{Rose};
ghost use Rattle.m2v_dec_piece.specs.Cutting.{Fits, AtPiece, PieceStops, IsReading, pieces_behind, start_behind, taken_by};
ghost use Rattle.m2v_dec_piece.specs.Sound.{IsSoundPiece, GoesOnward};
ghost use Rattle.m2v_dec_piece.specs.Stepping.{Reaches, Turned, Rounded, Looked, Fails, Handed, Stopped, LastOf, Spends, Keeps};

use crate::chunk::Chunk;
use crate::cut_piece::CutPiece;
use crate::hand::Hand;
use crate::taking::{Byte, take};
use crate::{DecodeError, Memory, Piece};
use m2v_model::Phase;
use m2v_port::Source;
use std::alloc::Global;
use std::marker::Model;

/// Where the bytes stop that are looked at for one piece.
#[derive(Clone, Copy, Debug, PartialEq, Eq)]
pub enum Stand {
    /// The next piece begins.
    Boundary,
    /// The sequence end code ends the last piece.
    Ending,
    /// The input has ended.
    Over,
}

/// Uses the first byte of a chunk. Answers where the bytes stop, if they do.
fn turn(hand: &mut Hand, chunk: &mut Chunk) -> Result<Option<Stand>, DecodeError>
    requires some { 0 < length chunk.old }
    requires fits { Fits hand.old }
    ensures ok { IfOk result (λ stand. Turned stand hand.old chunk.old hand.new chunk.new) }
    ensures err { IfErr result (λ e. (rest : List ℕ)
        → PieceStops (start_behind hand.old (chunk.old ++ rest))
        (pieces_behind hand.old (chunk.old ++ rest)) e) }
    ensures kind { IfErr result IsReading }
    ensures taken { OnOk result (taken_by hand.new + length chunk.new ≤ taken_by hand.old
        + length chunk.old) }
{
    let b = chunk.first();
    let _held = hand.ahead();
    match take(hand, b) {
        Err(e) => Err(e),
        Ok(Byte::First) => {
            let _held = hand.ahead();
            Ok(None)
        }
        Ok(Byte::Whole) => Ok(Some(Stand::Boundary)),
        Ok(Byte::Last) => {
            chunk.skip();
            Ok(Some(Stand::Ending))
        }
        Ok(Byte::Used) => {
            chunk.skip();
            let _held = hand.ahead();
            Ok(None)
        }
    }
}

/// Uses the bytes of a chunk before the first two zeros, where they can be taken at once. Answers whether there were
/// some.
fn skim(hand: &mut Hand, chunk: &mut Chunk) -> Result<bool, DecodeError>
    requires fits { Fits hand.old }
    ensures some { result ≡ Ok true → Reaches hand.old chunk.old hand.new chunk.new }
    ensures taken { OnOk result (taken_by hand.new + length chunk.new ≤ taken_by hand.old
        + length chunk.old) }
    ensures none { result ≡ Ok false → (hand.new ≡ hand.old) × (chunk.new ≡ chunk.old) }
    ensures err { IfErr result (λ e. e ≡ DecodeError.Memory) }
{
    let n = hand.run(chunk.bytes())?;
    if n == 0 {
        return Ok(false);
    }
    chunk.pass(n);
    let _held = hand.ahead();
    Ok(true)
}

/// Uses the first bytes of a chunk: those before the first two zeros at once, or one. Answers where the bytes stop, if
/// they do.
fn advance(hand: &mut Hand, chunk: &mut Chunk) -> Result<Option<Stand>, DecodeError>
    requires some { 0 < length chunk.old }
    requires fits { Fits hand.old }
    ensures ok { IfOk result (λ stand. Turned stand hand.old chunk.old hand.new chunk.new) }
    ensures err { IfErr result (λ e. (rest : List ℕ)
        → PieceStops (start_behind hand.old (chunk.old ++ rest))
        (pieces_behind hand.old (chunk.old ++ rest)) e) }
    ensures kind { IfErr result IsReading }
    ensures taken { OnOk result (taken_by hand.new + length chunk.new ≤ taken_by hand.old
        + length chunk.old) }
{
    match skim(hand, chunk) {
        Err(e) => Err(e),
        Ok(true) => Ok(None),
        Ok(false) => turn(hand, chunk),
    }
}

/// Looks at the next bytes, reading where none is left.
fn round<S: Source>(
    hand: &mut Hand,
    chunk: &mut Chunk,
    input: &mut S,
) -> Result<Option<Stand>, DecodeError>
    requires fits { Fits hand.old }
    ensures ok { IfOk result (λ stand. Rounded stand hand.old chunk.old (S.left input.old) hand.new
        chunk.new (S.left input.new)) }
    ensures err { IfErr result (Fails hand.old chunk.old (S.left input.old) (S.left input.new)) }
    ensures kind { IfErr result IsReading }
    ensures failed { IsErrOf result DecodeError.Read
        → Rose (S.faults input.old) (S.faults input.new) }
    ensures faults { S.faults input.old ≤ S.faults input.new }
    ensures taken { OnOk result (Spends hand.old chunk.old (S.left input.old) hand.new chunk.new
        (S.left input.new)) }
{
    match chunk.fill(input) {
        Err(e) => Err(e),
        Ok(false) => match hand.finish() {
            Ok(()) => Ok(Some(Stand::Over)),
            Err(e) => Err(e),
        },
        Ok(true) => advance(hand, chunk),
    }
}

/// Looks at bytes until they stop.
fn look_on<S: Source>(
    hand: &mut Hand,
    chunk: &mut Chunk,
    input: &mut S,
) -> Result<Stand, DecodeError>
    requires fits { Fits hand.old }
    ensures ok { IfOk result (λ stand. Looked stand hand.old chunk.old (S.left input.old) hand.new
        chunk.new (S.left input.new)) }
    ensures err { IfErr result (Fails hand.old chunk.old (S.left input.old) (S.left input.new)) }
    ensures kind { IfErr result IsReading }
    ensures failed { IsErrOf result DecodeError.Read
        → Rose (S.faults input.old) (S.faults input.new) }
    ensures faults { S.faults input.old ≤ S.faults input.new }
    ensures taken { OnOk result (Spends hand.old chunk.old (S.left input.old) hand.new chunk.new
        (S.left input.new)) }
{
    loop {
        match round(hand, chunk, input) {
            Ok(None) => {}
            Ok(Some(stand)) => return Ok(stand),
            Err(e) => return Err(e),
        }
    }
}

/// The last piece of a text that has ended, where there is one.
fn last(hand: &mut Hand, alloc: Global) -> Result<Option<CutPiece>, Memory>
    requires fits { Fits hand.old }
    ensures last { IfOk result (λ piece. LastOf piece hand.old hand.new) }
    ensures sound { IfOk result (λ piece. IfSome piece IsSoundPiece) }
    ensures most { OnOk result (hand.new.place ≤ 2 ^ 36) }
    ensures begun { IfOk result (λ piece. IfSome piece (λ p. hand.new.phase ≡ Phase.Headers)) }
    ensures taken { OnOk result (taken_by hand.new ≡ taken_by hand.old) }
    ensures at { OnOk result (AtPiece hand.new) }
    ensures ahead { OnOk result (hand.new.ahead ≡ hand.old.ahead) }
    ensures few { OnOk result (hand.new.ahead ≤ 3) }
{
    let _place = hand.place();
    let _held = hand.ahead();
    if hand.is_empty() {
        return Ok(None);
    }
    let piece = hand.hand_out(alloc)?;
    Ok(Some(piece))
}

/// Cuts the text of a source into pieces.
///
/// Contracts see it as the bytes that were read and not handed out with their place, and whether the first sequence
/// header was seen, the end, and an error.
#[derive(Drop)]
pub struct Cutter {
    hand: Hand,
    chunk: Chunk,
    ended: bool,
    failed: bool,
}

impl Model for Cutter {
    ghost use Rattle.std.specs.Prelude.{◌≡◌, ◌++◌, false};
    ghost use Rattle.m2v_dec_piece.specs.Cutting.{Cutting, AtPiece, prefix, is_begun};

    ghost Value = { Cutting };

    ghost view = { λ c. record {
      place = c.hand.place;
      unread = prefix c.hand.ahead ++ c.chunk;
      begun = is_begun c.hand.phase;
      ended = c.ended;
      failed = c.failed;
    } };

    ghost invariant = { λ c. c.failed ≡ false → AtPiece c.hand };
}

impl Cutter {
    /// A cutter that has read nothing.
    pub fn new(alloc: Global) -> Result<Cutter, Memory>
        ensures { IfOk result (λ c. c ≡ record {
          place = 0;
          unread = [];
          begun = false;
          ended = false;
          failed = false;
        }) }
    {
        Ok(Cutter {
            hand: Hand::new(alloc),
            chunk: Chunk::new(alloc)?,
            ended: false,
            failed: false,
        })
    }

    /// The next piece of the text, with how many of its bytes stand before all that is slices; None where none is left.
    /// After an error no call may follow.
    ///
    /// It answers TooLong where the piece, or the bytes before the first one, pass the first 2^36 bytes of the input, and
    /// PictureTooLarge where the piece passes 2,097,152 bytes up to its last byte that isn't zero: what comes first in
    /// the input counts.
    pub fn next_cut<S: Source>(
        &mut self,
        alloc: Global,
        input: &mut S,
    ) -> Result<Option<CutPiece>, DecodeError>
        requires { self.old.failed ≡ false }
        ensures ok { IfOk result (Handed self.old (S.left input.old) self.new (S.left input.new)) }
        ensures going { OnOk result (self.new.failed ≡ false) }
        ensures err { IfErr result (Stopped self.old (S.left input.old) (S.left input.new)) }
        ensures kind { IfErr result IsReading }
        ensures failed { IsErrOf result DecodeError.Read
            → Rose (S.faults input.old) (S.faults input.new) }
        ensures faults { S.faults input.old ≤ S.faults input.new }
        ensures sound { IfOk result (λ piece. IfSome piece IsSoundPiece) }
        ensures onward { IfOk result (λ piece. GoesOnward piece self.old.place self.new.place) }
        ensures begun { IfOk result (λ piece. IfSome piece (λ p. self.new.begun ≡ true)) }
        ensures taken { OnOk result
            (Keeps self.old (S.left input.old) self.new (S.left input.new)) }
        ensures over { IfOk result (λ piece. IfNone piece (self.new.ended ≡ true)) }
        ensures most { self.old.place ≤ 2 ^ 36 }
    {
        // places are bounded, and what is held of a prefix
        let _place = self.place();
        let _held = self.hand.ahead();
        if self.ended {
            return Ok(None);
        }
        self.failed = true;
        match look_on(&mut self.hand, &mut self.chunk, input) {
            Err(e) => Err(e),
            Ok(Stand::Boundary) => {
                let piece = self.hand.hand_out(alloc)?;
                self.failed = false;
                Ok(Some(piece))
            }
            Ok(Stand::Ending) => {
                let piece = self.hand.hand_out(alloc)?;
                self.ended = true;
                self.failed = false;
                Ok(Some(piece))
            }
            Ok(Stand::Over) => {
                let piece = last(&mut self.hand, alloc)?;
                self.ended = true;
                self.failed = false;
                Ok(piece)
            }
        }
    }

    /// The next piece alone, as `next_cut` hands it out. After an error no call may follow.
    pub fn next_piece<S: Source>(
        &mut self,
        alloc: Global,
        input: &mut S,
    ) -> Result<Option<Piece>, DecodeError>
        requires { self.old.failed ≡ false }
        ensures ok { IfOk result (Handed self.old (S.left input.old) self.new (S.left input.new)) }
        ensures going { OnOk result (self.new.failed ≡ false) }
        ensures err { IfErr result (Stopped self.old (S.left input.old) (S.left input.new)) }
        ensures kind { IfErr result IsReading }
        ensures failed { IsErrOf result DecodeError.Read
            → Rose (S.faults input.old) (S.faults input.new) }
        ensures faults { S.faults input.old ≤ S.faults input.new }
        ensures sound { IfOk result (λ piece. IfSome piece IsSoundPiece) }
        ensures onward { IfOk result (λ piece. GoesOnward piece self.old.place self.new.place) }
        ensures begun { IfOk result (λ piece. IfSome piece (λ p. self.new.begun ≡ true)) }
        ensures taken { OnOk result
            (Keeps self.old (S.left input.old) self.new (S.left input.new)) }
        ensures over { IfOk result (λ piece. IfNone piece (self.new.ended ≡ true)) }
        ensures most { self.old.place ≤ 2 ^ 36 }
    {
        match self.next_cut(alloc, input) {
            Err(e) => Err(e),
            Ok(None) => Ok(None),
            Ok(Some(cut)) => Ok(Some(cut.into_piece())),
        }
    }

    /// Goes on with the text that follows the sequence, once no piece of that is left: the next piece is the first one of
    /// this text, from its own first sequence header on. Places and limits count on from the input's first byte.
    pub fn go_on(&mut self)
        requires ended { self.old.ended ≡ true }
        requires going { self.old.failed ≡ false }
        ensures { self.new ≡ record self.old { begun = false; ended = false } }
    {
        self.begin_anew();
    }

    /// Takes what is left as a text of its own, before the end of the sequence too: the next piece is the first one of this
    /// text, from its own first sequence header on.
    pub fn begin_anew(&mut self)
        requires going { self.old.failed ≡ false }
        ensures { self.new ≡ record self.old { begun = false; ended = false } }
    {
        self.hand.go_on();
        self.ended = false;
    }

    /// Takes what is left as pieces from its first byte on, as if a sequence header stood before it: so nothing is passed
    /// over, and the first piece has what stands before the first start code. Places and limits count on.
    pub fn begin_within(&mut self)
        requires going { self.old.failed ≡ false }
        ensures { self.new ≡ record self.old { begun = true; ended = false } }
    {
        self.hand.go_within();
        self.ended = false;
    }

    /// The place of what was read and neither handed out nor passed over before the first piece.
    pub fn place(&self) -> u64
        ensures value { result ≡ self.now.place }
        ensures most { result ≤ 2 ^ 36 }
    {
        self.hand.place()
    }

    /// The place where the last piece ends, or the input's length where there was no piece; once `next_piece` answered
    /// that none is left.
    pub fn end(&self) -> u64
        requires { self.now.ended ≡ true }
        ensures { result ≡ self.now.place }
    {
        self.place()
    }
}
