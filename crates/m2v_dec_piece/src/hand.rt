ghost use Rattle.std.specs.Prelude.{◌≡◌, ◌↔◌, ◌+◌, ◌-◌, ◌≤◌, ◌<◌, ◌^◌, ◌++◌, ◌∷◌, [], length, take, replicate, min, IfOk, IfErr, OnOk, IsTrue, Ok, Err, None, false, nat_eq, true, if◌then◌else◌};
ghost use Rattle.m2v_model.specs.Pieces.{limit, phase_after};
ghost use Rattle.m2v_dec_piece.specs.Sound.{IsSoundPiece};
ghost use Rattle.m2v_dec_piece.specs.Slices.{is_slice, OnlySlices, whole_of};
ghost use Rattle.m2v_dec_piece.specs.Cutting.{Held, Fits, IsRun, TookAll, prefix, behind, limit_of, IsPiece, LimitErr, Took, StopsAt, PieceStops, pieces_behind, start_behind, code_of, phase_behind, GoesOn, Ends, FirstBegun, Finished, AtPiece};

use crate::cut_piece::CutPiece;
use crate::runs::{append_all, run_of};
use crate::{DecodeError, Memory, Piece};
use m2v_model::Phase;
use std::alloc::Global;
use std::marker::Model;
use std::mem;

/// The most bytes that a piece may have up to its last byte that isn't zero.
const MOST_BYTES: u64 = 2_097_152;

/// The most bytes that are read of an input without a sequence end code.
const MOST_INPUT: u64 = 1 << 36;

/// How many of the zero bytes that end a piece are handed on.
const ZEROS: u64 = 64;

/// More than the bytes of any piece: nothing stands behind so many.
const UNKNOWN: u64 = u64::MAX;

/// The prefix of a start code.
const PREFIX: [u8; 3] = [0, 0, 1];

/// The piece at hand. Contracts see its bytes; the zero bytes that stand last are only counted.
#[derive(Drop)]
pub struct Hand {
    phase: Phase,
    place: u64,
    bytes: Vec<u8>,
    zeros: u64,
    ahead: u8,
    /// How many bytes stand before all that is slices.
    slices: u64,
}

impl Model for Hand {
    ghost use Rattle.std.specs.Prelude.{◌+◌, ◌≤◌, ◌^◌, ◌++◌, ◌≡◌, [], length, replicate};
    ghost use Rattle.m2v_model.specs.declared.phase.Phase.TheVariants.{Before, Picture};
    ghost use Rattle.m2v_model.specs.Pieces.{zeros_last};
    ghost use Rattle.m2v_dec_piece.specs.Cutting.{Held, held_by};
    ghost use Rattle.m2v_dec_piece.specs.Slices.{IsSliced};

    ghost Value = { Held };

    ghost view = { λ h. held_by h.phase h.place h.bytes.items h.zeros h.ahead };

    ghost invariant = { λ h. (h.ahead ≤ 3) × (h.place + (length h.bytes.items + h.zeros) ≤ 2 ^ 36)
        × (zeros_last h.bytes.items ≡ 0) × (h.phase ≡ Before → length h.bytes.items + h.zeros ≡ 0)
        × (h.phase ≡ Picture → 1 ≤ length h.bytes.items + h.zeros)
        × IsSliced h.slices (h.bytes.items ++ replicate h.zeros 0) h.ahead };
}

/// Lets a piece go for which memory ran out: nothing of it is held.
fn let_go(bytes: &mut Vec<u8>, zeros: &mut u64, phase: &mut Phase)
    ensures bytes { bytes.new.items ≡ [] }
    ensures zeros { zeros.new ≡ 0 }
    ensures phase { phase.new ≡ Phase.Headers }
{
    bytes.truncate(0);
    *zeros = 0;
    *phase = Phase::Headers;
}

/// Appends so many zero bytes, and a byte.
fn append(bytes: &mut Vec<u8>, zeros: u64, b: u8) -> Result<(), Memory>
    requires { length bytes.old.items + zeros ≤ 2 ^ 36 }
    ensures { OnOk result (bytes.new.items ≡ (bytes.old.items ++ replicate zeros 0) ++ b ∷ []) }
{
    if zeros > 0 {
        let n = bytes.len() + zeros as usize;
        bytes.resize(n, 0)?;
    }
    bytes.push(b)?;
    Ok(())
}

/// Appends so many zero bytes, or the most that are kept.
fn pad(bytes: &mut Vec<u8>, zeros: u64) -> Result<(), Memory>
    requires { length bytes.old.items + zeros ≤ 2 ^ 36 }
    ensures { OnOk result (bytes.new.items ≡ bytes.old.items ++ replicate (min 64 zeros) 0) }
{
    let n = bytes.len() + zeros.min(ZEROS) as usize;
    bytes.resize(n, 0)?;
    Ok(())
}

/// The phase behind a unit.
#[tactic(auto, unfolding(m2v_model::specs::Pieces::phase_after))]
fn phase_of(phase: Phase, value: u8) -> Phase
    ensures { result ≡ phase_behind phase value }
{
    match phase {
        Phase::Before => Phase::Before,
        Phase::Picture => Phase::Picture,
        Phase::Headers => {
            if value == 0 {
                Phase::Picture
            } else {
                Phase::Headers
            }
        }
    }
}

/// How many bytes stand before all that is slices, behind a start code: as many as before it, or all.
fn slices_behind(value: u8, slices: u64, length: u64) -> u64
    ensures { result ≡ (if is_slice value then slices else length) }
{
    if value >= 0x01 && value <= 0xAF {
        slices
    } else {
        length
    }
}

impl Hand {
    /// Before the first piece.
    #[tactic(auto, unfolding(m2v_model::specs::Pieces::zeros_first))]
    pub fn new(alloc: Global) -> Hand
        ensures { result ≡ record { phase = Phase.Before; place = 0; sure = []; ahead = 0 } }
    {
        Hand {
            phase: Phase::Before,
            place: 0,
            bytes: Vec::new(alloc),
            zeros: 0,
            ahead: 0,
            slices: 0,
        }
    }

    /// How many bytes of a prefix stand behind the sure ones; and a bound on what is held.
    pub fn ahead(&self) -> u8
        ensures value { result ≡ self.now.ahead }
        ensures most { result ≤ 3 }
        ensures bound { self.now.place + (length self.now.sure + self.now.ahead) ≤ 2 ^ 36 + 3 }
        ensures picture { self.now.phase ≡ Phase.Picture → 1 ≤ length self.now.sure }
    {
        self.ahead
    }

    /// The phase of the units.
    pub fn phase(&self) -> Phase
        ensures { result ≡ self.now.phase }
    {
        self.phase
    }

    /// Whether no byte of the piece is sure.
    pub fn is_empty(&self) -> bool
        ensures value { IsTrue result ↔ (self.now.sure ≡ []) }
        ensures some { result ≡ false → 1 ≤ length self.now.sure }
        ensures at { result ≡ true → AtPiece self.now }
    {
        self.bytes.len() as u64 + self.zeros == 0
    }

    /// The place of the piece's first byte.
    pub fn place(&self) -> u64
        ensures value { result ≡ self.now.place }
        ensures most { result ≤ 2 ^ 36 }
    {
        self.place
    }

    /// One byte more is sure. Behind it slices aren't known: the caller, who knows the bytes around it, sets them anew.
    #[tactic(auto, using(crate::proofs::SliceLaws::unknown_sliced), unfolding(crate::specs::Cutting::limit_in, m2v_model::specs::Pieces::limit, m2v_model::specs::Pieces::zeros_first))]
    fn put(&mut self, b: u8) -> Result<(), DecodeError>
        ensures ok { OnOk result (self.new ≡ behind self.old (b ∷ [])) }
        ensures fits { OnOk result (limit_of self.old (b ∷ []) ≡ None) }
        ensures err { IfErr result (LimitErr (limit_of self.old (b ∷ []))) }
    {
        self.slices = UNKNOWN;
        let at = self.bytes.len() as u64 + self.zeros;
        if self.place + at >= MOST_INPUT {
            return Err(DecodeError::TooLong);
        }
        if let Phase::Before = self.phase {
            self.place += 1;
            return Ok(());
        }
        if b == 0 {
            self.zeros += 1;
            return Ok(());
        }
        if at >= MOST_BYTES {
            return Err(DecodeError::PictureTooLarge);
        }
        let Ok(()) = append(&mut self.bytes, self.zeros, b) else {
            let_go(&mut self.bytes, &mut self.zeros, &mut self.phase);
            return Err(DecodeError::Memory);
        };
        self.zeros = 0;
        Ok(())
    }

    /// So many bytes more are sure, one after another.
    fn put_all(&mut self, bytes: &[u8]) -> Result<(), DecodeError>
        ensures ok { OnOk result (self.new ≡ behind self.old bytes.now) }
        ensures fits { OnOk result (limit_of self.old bytes.now ≡ None) }
        ensures err { IfErr result (LimitErr (limit_of self.old bytes.now)) }
    {
        let _held = &self.phase;
        for b in bytes {
            self.put(*b)?;
        }
        Ok(())
    }

    /// How many bytes more are sure at once where no two zeros stand together: behind no byte of a prefix, in a piece
    /// that has begun, as many as pass no limit.
    fn room(&self) -> usize
        ensures ahead { 0 < result → self.now.ahead ≡ 0 }
        ensures begun { 0 < result → self.now.phase ≡ Phase.Before → ⊥ }
        ensures large { 0 < result → length self.now.sure + result ≤ 2097152 }
        ensures long { 0 < result → self.now.place + (length self.now.sure + result) ≤ 2 ^ 36 }
    {
        let at = self.bytes.len() as u64 + self.zeros;
        if self.ahead > 0 {
            return 0;
        }
        if let Phase::Before = self.phase {
            return 0;
        }
        let input = MOST_INPUT.saturating_sub(self.place + at);
        MOST_BYTES.saturating_sub(at).min(input) as usize
    }

    /// Bytes in which no two zeros stand together are sure, where they don't end in one.
    #[tactic(auto, unfolding(m2v_model::specs::Pieces::zeros_first))]
    fn put_run(&mut self, run: &[u8]) -> Result<(), DecodeError>
        requires ahead { self.old.ahead ≡ 0 }
        requires begun { self.old.phase ≡ Phase.Before → ⊥ }
        requires some { 0 < length run.now }
        requires run { IsRun run.now }
        requires long { self.old.place + (length self.old.sure + length run.now) ≤ 2 ^ 36 }
        ensures ok { OnOk result (self.new ≡ record self.old { sure = self.old.sure ++ run.now }) }
        ensures err { IfErr result (λ e. e ≡ DecodeError.Memory) }
    {
        let Ok(()) = append_all(&mut self.bytes, self.zeros, run) else {
            let_go(&mut self.bytes, &mut self.zeros, &mut self.phase);
            return Err(DecodeError::Memory);
        };
        self.zeros = 0;
        Ok(())
    }

    /// Takes the bytes before the first two zeros at once, where none of them can end the piece or pass a limit: most
    /// bytes are taken so. Answers how many.
    pub fn run(&mut self, bytes: &[u8]) -> Result<usize, DecodeError>
        requires fits { Fits self.old }
        ensures within { IfOk result (λ n. n ≤ length bytes.now) }
        ensures took { IfOk result (λ n. TookAll self.old (take n bytes.now) self.new) }
        ensures none { result ≡ Ok 0 → self.new ≡ self.old }
        ensures err { IfErr result (λ e. e ≡ DecodeError.Memory) }
    {
        let n = run_of(bytes, self.room());
        if n == 0 {
            return Ok(0);
        }
        self.put_run(&bytes[..n])?;
        Ok(n)
    }

    /// What stands of a prefix is sure, and a byte behind it.
    #[tactic(auto, using(crate::proofs::LimitLaws::settling))]
    fn put_behind(&mut self, b: u8) -> Result<(), DecodeError>
        requires ahead { self.old.ahead ≤ 2 }
        ensures ok { OnOk result (self.new ≡ behind self.old (prefix self.old.ahead ++ b ∷ [])) }
        ensures fits { OnOk result (limit_of self.old (prefix self.old.ahead ++ b ∷ []) ≡ None) }
        ensures err { IfErr result
            (LimitErr (limit_of self.old (prefix self.old.ahead ++ b ∷ []))) }
    {
        let ahead = self.ahead as usize;
        if ahead == 0 {
            // most bytes stand behind no zero byte
            return self.put(b);
        }
        let mut bytes = [0; 3];
        bytes[ahead] = b;
        self.put_all(&bytes[..ahead + 1])
    }

    /// A byte that isn't the next one of a prefix: the prefix before it is none, and all of it is sure.
    fn settle(&mut self, b: u8) -> Result<(), DecodeError>
        requires ahead { self.old.ahead ≤ 2 }
        requires some { nat_eq b 0 ≡ false }
        requires none { self.old.ahead ≡ 2 → nat_eq b 1 ≡ false }
        requires fits { Fits self.old }
        ensures ok { OnOk result
            (self.new ≡ record (behind self.old (prefix self.old.ahead ++ b ∷ [])) { ahead = 0 }) }
        ensures fits { OnOk result (limit_of self.old (prefix self.old.ahead ++ b ∷ []) ≡ None) }
        ensures err { IfErr result
            (LimitErr (limit_of self.old (prefix self.old.ahead ++ b ∷ []))) }
    {
        let slices = self.slices;
        self.put_behind(b)?;
        self.ahead = 0;
        self.slices = slices;
        Ok(())
    }

    /// A third zero byte: the first of them is sure.
    fn third_zero(&mut self) -> Result<(), DecodeError>
        requires ahead { self.old.ahead ≡ 2 }
        requires fits { Fits self.old }
        ensures ok { OnOk result (Took self.old 0 self.new) }
        ensures err { IfErr result (StopsAt self.old 0) }
    {
        let slices = self.slices;
        match self.put(0) {
            Ok(()) => {
                self.slices = slices;
                Ok(())
            }
            Err(e) => Err(e),
        }
    }

    /// A byte that shows that the prefix before it is none.
    fn other(&mut self, b: u8) -> Result<(), DecodeError>
        requires ahead { self.old.ahead ≤ 2 }
        requires some { nat_eq b 0 ≡ false }
        requires none { self.old.ahead ≡ 2 → nat_eq b 1 ≡ false }
        requires fits { Fits self.old }
        ensures ok { OnOk result (Took self.old b self.new) }
        ensures err { IfErr result (StopsAt self.old b) }
    {
        self.settle(b)
    }

    /// One byte more of a prefix.
    fn longer(&mut self, b: u8)
        requires next { prefix (self.old.ahead + 1) ≡ prefix self.old.ahead ++ b ∷ [] }
        requires ahead { self.old.ahead < 3 }
        requires fits { Fits self.old }
        ensures { Took self.old b self.new }
    {
        self.ahead += 1;
    }

    /// A byte behind fewer than the three bytes of a prefix.
    pub fn plain(&mut self, b: u8) -> Result<(), DecodeError>
        requires ahead { self.old.ahead < 3 }
        requires fits { Fits self.old }
        ensures ok { OnOk result (Took self.old b self.new) }
        ensures err { IfErr result (StopsAt self.old b) }
    {
        if b == 0 {
            if self.ahead < 2 {
                self.longer(b);
                return Ok(());
            }
            return self.third_zero();
        }
        if b == 1 {
            if self.ahead == 2 {
                self.longer(b);
                return Ok(());
            }
        }
        self.other(b)
    }

    /// A start code that belongs to the piece: its four bytes are sure.
    fn code(&mut self, value: u8) -> Result<(), DecodeError>
        requires fits { Fits self.old }
        ensures ok { OnOk result
            (self.new ≡ record (behind self.old (code_of value)) { ahead = 0 }) }
        ensures fits { OnOk result (limit_of self.old (code_of value) ≡ None) }
        ensures err { IfErr result (LimitErr (limit_of self.old (code_of value))) }
    {
        let slices = self.slices;
        self.put_all(&[0, 0, 1, value])?;
        self.ahead = 0;
        let length = self.bytes.len() as u64 + self.zeros;
        self.slices = slices_behind(value, slices, length);
        Ok(())
    }

    /// A unit of the piece, or one before the first piece, by the value behind a prefix.
    pub fn unit(&mut self, value: u8) -> Result<(), DecodeError>
        requires ahead { self.old.ahead ≡ 3 }
        requires goes_on { GoesOn self.old.phase value }
        requires fits { Fits self.old }
        ensures ok { OnOk result (Took self.old value self.new) }
        ensures err { IfErr result (StopsAt self.old value) }
    {
        match self.code(value) {
            Ok(()) => {
                self.phase = phase_of(self.phase, value);
                Ok(())
            }
            Err(e) => Err(e),
        }
    }

    /// The sequence end code, which ends the last piece.
    pub fn end(&mut self) -> Result<(), DecodeError>
        requires ahead { self.old.ahead ≡ 3 }
        requires phase { self.old.phase ≡ Phase.Headers }
        requires fits { Fits self.old }
        ensures ok { OnOk result (Ends self.old self.new) }
        ensures err { IfErr result (StopsAt self.old 0xB7) }
    {
        self.code(0xB7)
    }

    /// The first sequence header begins the first piece. Its value isn't taken.
    pub fn begin(&mut self)
        requires ahead { self.old.ahead ≡ 3 }
        requires phase { self.old.phase ≡ Phase.Before }
        requires fits { Fits self.old }
        ensures { FirstBegun self.old self.new }
    {
        self.phase = Phase::Headers;
    }

    /// The input ends: what could begin a start code is sure.
    #[tactic(auto, using(crate::proofs::SliceLaws::unknown_sliced))]
    pub fn finish(&mut self) -> Result<(), DecodeError>
        requires fits { Fits self.old }
        ensures ok { OnOk result (Finished self.old self.new) }
        ensures err { IfErr result
            (λ e. PieceStops (start_behind self.old []) (pieces_behind self.old []) e) }
    {
        let ahead = self.ahead as usize;
        if ahead > 0 {
            self.put_all(&PREFIX[..ahead])?;
            self.ahead = 0;
            // a prefix without a value may stand last
            self.slices = UNKNOWN;
        }
        Ok(())
    }

    /// Hands the piece out; the next one begins behind it.
    #[tactic(auto, unfolding(m2v_model::specs::Pieces::zeros_first))]
    pub fn hand_out(&mut self, alloc: Global) -> Result<CutPiece, Memory>
        requires fits { Fits self.old }
        ensures piece { IfOk result (λ p. IsPiece p self.old.place self.old.sure) }
        ensures next { OnOk result (self.new ≡ record {
          phase = Phase.Headers;
          place = self.old.place + length self.old.sure;
          sure = [];
          ahead = self.old.ahead;
        }) }
        ensures sound { IfOk result (λ p. 1 ≤ length self.old.sure → IsSoundPiece p) }
        ensures most { OnOk result (self.new.place ≤ 2 ^ 36) }
        ensures few { OnOk result (self.new.ahead ≤ 3) }
    {
        // the next piece is about as long
        let next = Vec::with_capacity(alloc, self.bytes.len())?;
        let (place, zeros) = (self.place, self.zeros);
        let length = self.bytes.len() as u64 + zeros;
        let slices = self.slices.min(length);
        self.slices = 0;
        self.phase = Phase::Headers;
        self.place = place + length;
        self.zeros = 0;
        let mut bytes = mem::replace(&mut self.bytes, next);
        pad(&mut bytes, zeros)?;
        let piece = Piece {
            bytes,
            place,
            length,
        };
        Ok(CutPiece::of(piece, slices))
    }

    /// Another text begins behind the last piece: again what stands before a sequence header is passed over.
    pub fn go_on(&mut self)
        requires none { self.old.sure ≡ [] }
        ensures { self.new ≡ record self.old { phase = Phase.Before } }
    {
        self.phase = Phase::Before;
    }

    /// Pieces follow from the next byte on, whether a sequence header stands there or not.
    pub fn go_within(&mut self)
        requires none { self.old.sure ≡ [] }
        ensures { self.new ≡ record self.old { phase = Phase.Headers } }
    {
        self.phase = Phase::Headers;
    }
}
