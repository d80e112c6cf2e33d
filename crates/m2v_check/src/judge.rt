// What the verifier keeps of a stream, piece by piece.
ghost use Rattle.std.specs.Prelude.{◌≡◌, ◌+◌, ◌*◌, ◌<◌, ◌≤◌, ◌^◌, IfSome, IfOk, OnOk, IsSome, Some, None, [], ◌∷◌};
ghost use Rattle.m2v_check.specs.Judging.{IsPlaced, total_of, FitsSetup, with_note, noted_rules, judged_rules, judgement_of, ended_by, HaveMore, BeginsBy, Accounts, AccountsBy, AccountsNote};
ghost use Rattle.m2v_model.specs.Lawful.{rate_of, buffer_of, sequence_breaches};
ghost use Rattle.m2v_check.specs.Breaking.{found};
ghost use Rattle.m2v_check.specs.Running.{no_rules, coded_next, broken_in};

use crate::broken::BrokenRule;
use crate::buffer::{Buffer, BufferFigures, Setup};
use crate::coded::CodedPicture;
use crate::header_rules::{buffer_of, rate_of, sequence_breach};
use crate::rules::Rules;
use crate::times::Times;
use m2v_model::{Notes, PictureNote, Sequence};
use m2v_vbv::AccountFault;
use std::alloc::{AllocError, Global};

/// What is said of a stream.
#[derive(Clone, Copy, Debug, PartialEq, Eq)]
pub enum Judgement {
    /// A rule is broken.
    Unlawful(BrokenRule),
    /// The rate is variable: the buffer isn't looked at.
    Variable,
    /// The account of the buffer fails.
    Unsafe(AccountFault),
    /// The buffer bears the stream.
    Lawful(BufferFigures),
}

/// The rules and the account of a stream that is handed to it piece by piece.
#[derive(Drop)]
pub struct Judge {
    pub rules: Rules,
    /// The account, from the first picture on; there is none where the first sequence header breaks a rule.
    pub buffer: Option<Buffer>,
    /// The bytes of the pieces.
    pub bytes: u64,
    ghost shown: { rules.places.shown ≤ rules.pictures },
    ghost within: { total_of buffer ≤ 8 * bytes },
}

/// The rate and the buffer of a sequence that breaks no rule.
fn setup_of(s: &Sequence) -> Option<Setup>
    ensures fits { IfSome result FitsSetup }
    ensures is { IfSome result (λ x. x ≡ record {
      rate = rate_of s.now;
      buffer = buffer_of s.now;
    }) }
    ensures some { IfSome result (λ x. found (sequence_breaches (s.now ∷ [])) ≡ None) }
    ensures none { result ≡ None → IsSome (found (sequence_breaches (s.now ∷ []))) }
{
    match sequence_breach(s) {
        Some(_) => None,
        None => Some(Setup {
            rate: rate_of(s),
            buffer: buffer_of(s),
        }),
    }
}

/// The rules behind sequence headers.
fn with_sequences(rules: &mut Rules, notes: &Notes)
    ensures value { rules.new ≡ noted_rules rules.old notes.now.sequences.items }
    ensures pictures { rules.new.pictures ≡ rules.old.pictures }
    ensures shown { rules.new.places.shown ≡ rules.old.places.shown }
{
    for pair in &notes.sequences {
        rules.sequence(&Sequence {
            info: pair.0,
            extension: pair.1,
        });
    }
}

/// The rules behind the headers of a piece.
fn with_headers(rules: &mut Rules, notes: &Notes)
    ensures value { rules.new ≡ judged_rules rules.old notes.now }
    ensures pictures { rules.new.pictures ≡ rules.old.pictures }
    ensures shown { rules.new.places.shown ≡ rules.old.places.shown }
{
    with_sequences(rules, notes);
    if notes.group {
        rules.group();
    }
}

/// The account of a stream, where its first sequence header breaks no rule, with its first picture.
fn opened(alloc: Global, rules: &Rules, p: &CodedPicture, bits: u64, code: u64) -> Option<Buffer>
    requires least { 32 ≤ code }
    requires code { code ≤ bits }
    requires most { bits < 2 ^ 40 }
    requires delay { p.now.note.info.vbv_delay < 2 ^ 16 }
    ensures total { IfSome result (λ b. b.course.total ≡ bits) }
    ensures begins { BeginsBy rules.now.first p.now bits code result }
{
    match &rules.first {
        Some(first) => match setup_of(first) {
            Some(setup) => {
                let times = Times {
                    low_delay: first.extension.low_delay,
                    code: first.info.frame_rate_code,
                    repeats: false,
                };
                Some(Buffer::start(alloc, &setup, times, p, bits, code))
            }
            None => None,
        },
        None => None,
    }
}

impl Judge {
    /// Nothing was read.
    pub fn new() -> Judge
        ensures rules { result.rules ≡ no_rules }
        ensures none { result.buffer ≡ None }
        ensures bytes { result.bytes ≡ 0 }
    {
        Judge {
            rules: Rules::new(),
            buffer: None,
            bytes: 0,
        }
    }

    /// Takes what is noted of the next piece, which begins at a byte of the input and has so many bytes.
    pub fn piece(
        &mut self,
        alloc: Global,
        notes: &Notes,
        place: u64,
        length: u64,
    ) -> Result<(), AllocError>
        requires end { place + length ≤ 2 ^ 36 }
        requires bytes { self.old.bytes + length ≤ 2 ^ 36 }
        requires picture { IfSome notes.now.picture (λ n. IsPlaced n place length) }
        requires few { self.old.rules.pictures < 2 ^ 60 }
        ensures rules { self.new.rules ≡ with_note (judged_rules self.old.rules notes.now)
            notes.now.picture }
        ensures bytes { self.new.bytes ≡ self.old.bytes + length }
        ensures account { OnOk result
            (AccountsNote (judged_rules self.old.rules notes.now) self.old.buffer notes.now.picture
            place length self.new.buffer) }
    {
        with_headers(&mut self.rules, notes);
        match &notes.picture {
            Some(note) => self.picture(alloc, note, place, length),
            None => {
                self.more(length);
                Ok(())
            }
        }
    }

    /// The piece has no picture.
    fn more(&mut self, length: u64)
        requires bytes { self.old.bytes + length ≤ 2 ^ 36 }
        ensures rules { self.new.rules ≡ self.old.rules }
        ensures bytes { self.new.bytes ≡ self.old.bytes + length }
        ensures more { HaveMore self.old.buffer (8 * length) self.new.buffer }
    {
        self.bytes += length;
        match &mut self.buffer {
            Some(buffer) => buffer.more(8 * length),
            None => {}
        }
    }

    /// The piece has a picture.
    fn picture(
        &mut self,
        alloc: Global,
        note: &PictureNote,
        place: u64,
        length: u64,
    ) -> Result<(), AllocError>
        requires end { place + length ≤ 2 ^ 36 }
        requires bytes { self.old.bytes + length ≤ 2 ^ 36 }
        requires picture { IsPlaced note.now place length }
        requires few { self.old.rules.pictures < 2 ^ 60 }
        ensures rules { self.new.rules ≡ with_note self.old.rules (Some note.now) }
        ensures bytes { self.new.bytes ≡ self.old.bytes + length }
        ensures account { OnOk result
            (AccountsBy self.old.rules.sequence self.old.rules self.old.buffer note.now place length
            self.new.buffer) }
    {
        match self.rules.coded(note) {
            None => {
                self.bytes += length;
                Ok(())
            }
            Some(p) => {
                self.rules.picture(&p);
                self.account(alloc, &p, length, note.code_end - 8 * place)
            }
        }
    }

    /// The account goes on with a picture, or begins with the first one.
    fn account(
        &mut self,
        alloc: Global,
        p: &CodedPicture,
        length: u64,
        code: u64,
    ) -> Result<(), AllocError>
        requires bytes { self.old.bytes + length ≤ 2 ^ 36 }
        requires least { 32 ≤ code }
        requires code { code ≤ 8 * length }
        requires delay { p.now.note.info.vbv_delay < 2 ^ 16 }
        ensures rules { self.new.rules ≡ self.old.rules }
        ensures bytes { self.new.bytes ≡ self.old.bytes + length }
        ensures account { OnOk result
            (Accounts self.old.rules.first self.old.buffer p.now (8 * length) code
            self.new.buffer) }
    {
        self.bytes += length;
        match &mut self.buffer {
            Some(buffer) => buffer.picture(p, 8 * length, code)?,
            None => {
                if p.number == 0 {
                    self.buffer = opened(alloc, &self.rules, p, 8 * length, code);
                }
            }
        }
        Ok(())
    }

    /// What is said of the stream, where it ends here.
    pub fn finish(&mut self) -> Result<Judgement, AllocError>
        requires few { self.old.rules.pictures < 2 ^ 60 }
        ensures value { IfOk result
            (λ v. v ≡ judgement_of (broken_in self.old.rules) self.old.rules.constant
            (ended_by self.old.buffer)) }
    {
        match self.rules.broken() {
            Some(broken) => return Ok(Judgement::Unlawful(broken)),
            None => {}
        }
        if !self.rules.constant {
            return Ok(Judgement::Variable);
        }
        match &mut self.buffer {
            Some(buffer) => match buffer.finish()? {
                Ok(figures) => Ok(Judgement::Lawful(figures)),
                Err(fault) => Ok(Judgement::Unsafe(fault)),
            },
            None => Ok(Judgement::Lawful(BufferFigures {
                low: 0,
                high: 0,
                delays: 0,
            })),
        }
    }
}
