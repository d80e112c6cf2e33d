// How the account goes on, piece by piece.
ghost use Rattle.std.specs.Prelude.{◌≡◌, ◌+◌, ◌*◌, ◌<◌, ◌≤◌, ◌^◌};
ghost use Rattle.std.specs.Prelude.{ℕ, OnOk, IfOk, false};
ghost use Rattle.m2v_check.specs.Holding.{amount_by, is_over, stepped, repeats_behind, with_more};
ghost use Rattle.m2v_check.specs.Breaking.{numbered_of};
ghost use Rattle.m2v_check.specs.Judging.{next_of, opening_of, most_noted, most_in, buffer_ended};

use crate::amounts::{Amount, Amounts};
use crate::buffer::{Buffer, BufferFigures, Setup};
use crate::coded::CodedPicture;
use crate::course::{Course, Next};
use crate::times::Times;
use m2v_vbv::{Account, AccountFault};
use std::alloc::{AllocError, Global};

impl Buffer {
    /// The account of a stream with its first picture, which has so many bits so far, `code` of them up to the end of its
    /// start code.
    pub fn start(
        alloc: Global,
        setup: &Setup,
        mut times: Times,
        p: &CodedPicture,
        bits: u64,
        code: u64,
    ) -> Buffer
        requires rate { 1 ≤ setup.now.rate }
        requires rates { setup.now.rate < 2 ^ 30 }
        requires buffer { setup.now.buffer ≤ 2 ^ 19 }
        requires least { 32 ≤ code }
        requires code { code ≤ bits }
        requires most { bits < 2 ^ 40 }
        requires delay { p.now.note.info.vbv_delay < 2 ^ 16 }
        ensures total { result.course.total ≡ bits }
        ensures course { result.course ≡ opening_of setup.now times p.now bits code }
        ensures times { result.times
            ≡ record times { repeats = repeats_behind times (numbered_of p.now) } }
        ensures most { (t : ℕ) → most_in t result ≡ 0 }
    {
        let delay = u64::from(p.note.info.vbv_delay);
        let units = times.next(p);
        Buffer {
            times,
            course: Course {
                size: 1800 * 16_384 * u128::from(setup.buffer),
                account: Account::start(setup.rate, 16_384 * setup.buffer, code, delay),
                pictures: 0,
                removed: 0,
                total: bits,
                next: Next {
                    bits,
                    code,
                    units,
                    delay,
                },
                delays: 0,
                full: None,
                under: None,
            },
            amounts: Amounts::new(alloc),
        }
    }

    /// The next piece has a picture, and so many bits, `code` of them up to the end of its start code.
    pub fn picture(&mut self, p: &CodedPicture, bits: u64, code: u64) -> Result<(), AllocError>
        requires least { 32 ≤ code }
        requires code { code ≤ bits }
        requires most { self.old.course.total + bits ≤ 2 ^ 40 }
        ensures total { self.new.course.total ≡ self.old.course.total + bits }
        ensures course { self.new.course
            ≡ stepped self.old.course (next_of self.old.times p.now bits code) }
        ensures times { self.new.times
            ≡ record self.old.times {
              repeats = repeats_behind self.old.times
                  (numbered_of p.now);
            } }
        ensures most { OnOk result (is_over self.new.course ≡ false
            → (t : ℕ) → self.new.course.total ≤ t → most_in t self.new
            ≡ most_noted t (most_in t self.old) (amount_by self.old.course.under self.old.course)) }
    {
        let units = self.times.next(p);
        let next = Next {
            bits,
            code,
            units,
            delay: u64::from(p.note.info.vbv_delay),
        };
        let amount = self.course.step(&next);
        match self.course.over() {
            // the account fails, whatever follows: no figure will be asked for
            Some(_) => Ok(()),
            None => {
                self.note(amount)?;
                self.amounts.settle(self.course.total);
                Ok(())
            }
        }
    }

    /// Notes what was held when a picture was removed.
    fn note(&mut self, amount: Option<Amount>) -> Result<(), AllocError>
        ensures same { self.new.course ≡ self.old.course }
        ensures times { self.new.times ≡ self.old.times }
        ensures most { OnOk result ((t : ℕ) → most_in t self.new
            ≡ most_noted t (most_in t self.old) amount) }
    {
        match amount {
            Some(amount) => self.amounts.add(amount),
            None => Ok(()),
        }
    }

    /// The last piece has no picture: its bits are those of the last picture.
    pub fn more(&mut self, bits: u64)
        requires most { self.old.course.total + bits ≤ 2 ^ 40 }
        ensures total { self.new.course.total ≡ self.old.course.total + bits }
        ensures course { self.new.course ≡ with_more self.old.course bits }
        ensures times { self.new.times ≡ self.old.times }
        ensures amounts { self.new.amounts ≡ self.old.amounts }
    {
        self.course.more(bits);
    }

    /// Ends the stream, behind the last picture. Answers the figures, or how the account fails first.
    pub fn finish(&mut self) -> Result<Result<BufferFigures, AccountFault>, AllocError>
        ensures same { self.new.course ≡ self.old.course }
        ensures value { IfOk result (λ r. r ≡ buffer_ended self.old) }
    {
        let mut course = self.course;
        let amount = course.remove();
        self.note(amount)?;
        match (course.over(), course.under) {
            (Some(fault), _) => Ok(Err(fault)),
            (None, Some(fault)) => Ok(Err(fault)),
            (None, None) => Ok(Ok(BufferFigures {
                // the last picture takes all that is left of the stream
                low: 0,
                high: self.amounts.finish(course.total) / 1800,
                delays: course.delays,
            })),
        }
    }
}
