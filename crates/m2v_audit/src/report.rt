// The report of a sequence as it grows.
ghost use Rattle.std.specs.Prelude.{◌≡◌, ◌<◌, ◌≤◌, [], OnOk};
ghost use Rattle.m2v_audit.specs.Report.{no_tally, finding_of, with_breach, with_warning, with_finding, held_of, under_of, over_of, with_failure, with_held, with_under, with_over, is_near, is_far, with_far, with_removal, with_begin, with_group_line, with_picture_line, with_count, with_counts, end_of, with_end};

use crate::account::Due;
use crate::lines::Lines;
use crate::records::{
    CountRecord, EndRecord, FailureRecord, Finding, GroupRecord, HeldRecord, PictureRecord,
    SequenceRecord,
};
use crate::tally::{Tally, after_of, before_of};
use crate::words::FailureKind;
use m2v_strict::{Element, is_warning};
use m2v_vbv::Removed;
use std::alloc::{AllocError, Global};
use std::marker::Model;

/// The delay that is told at variable rate (vbv_delay, clause 6.3.9).
const VARIABLE: u128 = 65_535;

/// A rule that is broken at a picture, or a warning.
#[derive(Clone, Copy)]
pub struct Broken {
    /// Its number in the sequence, in coding order.
    pub picture: u64,
    /// The place in the input, in bits.
    pub bit: u64,
    /// The number of the rule or of the warning (`m2v_strict::is_warning`), 1 to 95.
    pub rule: u8,
    /// The element that breaks it, where its rule isn't named by itself.
    pub element: Option<Element>,
    /// What stands there.
    pub have: u128,
    /// What the rule wants.
    pub need: u128,
}

/// How the buffer of a sequence is filled.
#[derive(Clone, Copy)]
pub struct Rate {
    /// The rate is constant.
    pub constant: bool,
    /// The sequence is of low delay, so that the decoder waits for a picture that isn't whole.
    pub low_delay: bool,
    /// What the buffer takes, in units of 1/1800 bit.
    pub size: u64,
}

/// What there was in a sequence, beside what the report counts.
#[derive(Clone, Copy)]
pub struct SequenceTotals {
    pub pictures: u64,
    /// The frames that are shown.
    pub frames: u64,
    pub groups: u64,
    pub bytes: u64,
}

/// The report of a sequence. Each method appends the lines of what it is told, and counts it; where memory runs out, the
/// lines may end in a piece of one.
///
/// Contracts see it as the bytes of its lines, what is counted, the sequence's number, and whether each picture is told.
#[derive(Drop)]
pub struct Report {
    lines: Lines,
    tally: Tally,
    sequence: u64,
    pictures: bool,
}

impl Model for Report {
    ghost use Rattle.m2v_audit.specs.Report.{Report as State};

    ghost Value = { State };

    ghost view = { λ r. record {
      text = r.lines.text.items;
      tally = r.tally;
      sequence = r.sequence;
      pictures = r.pictures;
    } };
}

impl Report {
    /// The report of the sequence of this number, of which nothing is told yet. `pictures` says whether what is held is
    /// told of each picture.
    pub fn new(alloc: Global, sequence: u64, pictures: bool) -> Report
        ensures { result ≡ record {
          text = [];
          tally = no_tally;
          sequence = sequence;
          pictures = pictures;
        } }
    {
        Report {
            lines: Lines::new(alloc),
            tally: Tally::new(),
            sequence,
            pictures,
        }
    }

    /// The bytes of its lines.
    pub fn bytes(&self) -> &[u8]
        ensures { result.now ≡ self.now.text }
    {
        self.lines.bytes()
    }

    /// Takes the lines away; what is counted stays.
    pub fn clear(&mut self)
        ensures { self.new ≡ record self.old { text = [] } }
    {
        self.lines.clear();
    }

    /// What is counted.
    pub fn tally(&self) -> Tally
        ensures { result ≡ self.now.tally }
    {
        self.tally
    }

    /// The sequence begins, by its first header, behind so many bytes that are no part of a sequence, the first of them
    /// at the byte `start`.
    pub fn begin(&mut self, skipped: u64, start: u64, s: &SequenceRecord) -> Result<(), AllocError>
        ensures { OnOk result (self.new ≡ with_begin self.old skipped start s.now) }
    {
        self.lines.skipped(self.sequence, start, skipped)?;
        self.lines.sequence(s)
    }

    /// The number of the sequence.
    pub fn number(&self) -> u64
        ensures { result ≡ self.now.sequence }
    {
        self.sequence
    }

    /// A group header, where each picture is told.
    pub fn group(&mut self, g: &GroupRecord) -> Result<(), AllocError>
        ensures { OnOk result (self.new ≡ with_group_line self.old g.now) }
    {
        if !self.pictures {
            return Ok(());
        }
        self.lines.group(g)
    }

    /// A picture, where each is told.
    pub fn picture(&mut self, p: &PictureRecord) -> Result<(), AllocError>
        ensures { OnOk result (self.new ≡ with_picture_line self.old p.now) }
    {
        if !self.pictures {
            return Ok(());
        }
        self.lines.picture(p)
    }

    /// A rule is broken.
    pub fn breach(&mut self, b: &Broken) -> Result<(), AllocError>
        ensures { OnOk result (self.new ≡ with_breach self.old b.now) }
    {
        self.lines.breach(&finding_of(self.sequence, b))?;
        self.tally.breach(b.rule, b.picture);
        Ok(())
    }

    /// A warning.
    fn warning(&mut self, b: &Broken) -> Result<(), AllocError>
        ensures { OnOk result (self.new ≡ with_warning self.old b.now) }
    {
        self.lines.warning(&finding_of(self.sequence, b))?;
        self.tally.warning(b.rule, b.picture);
        Ok(())
    }

    /// A rule is broken, or a warning comes, by its number.
    pub fn finding(&mut self, b: &Broken) -> Result<(), AllocError>
        ensures { OnOk result (self.new ≡ with_finding self.old b.now) }
    {
        if is_warning(b.rule) {
            return self.warning(b);
        }
        self.breach(b)
    }

    /// A picture is removed from the buffer.
    pub fn removal(&mut self, rate: &Rate, due: &Due, told: &Removed) -> Result<(), AllocError>
        ensures { OnOk result (self.new ≡ with_removal self.old rate.now due.now told.now) }
    {
        self.held(rate, due, told)?;
        self.under(rate, due, told)?;
        self.over(rate, due, told)?;
        self.far(rate, due, told)?;
        self.tally.removal(rate.constant, due, told);
        Ok(())
    }

    /// The sequence ends: how often each rule was broken, and what there was in all.
    pub fn finish(&mut self, totals: &SequenceTotals) -> Result<(), AllocError>
        ensures { OnOk result (self.new ≡ with_end self.old totals.now) }
    {
        let end = self.end(totals);
        self.counts()?;
        self.lines.end(&end)
    }

    /// What the buffer holds, where each picture is told.
    fn held(&mut self, rate: &Rate, due: &Due, told: &Removed) -> Result<(), AllocError>
        ensures { OnOk result (self.new ≡ with_held self.old rate.now due.now told.now) }
    {
        if !self.pictures {
            return Ok(());
        }
        self.lines.held(&HeldRecord {
            sequence: self.sequence,
            picture: due.number,
            time: told.time,
            before: before_of(told),
            taken: due.bits,
            after: after_of(told),
            delay: if rate.constant { told.delay } else { VARIABLE },
            wait: told.wait,
        })
    }

    /// The picture isn't whole when it is due, where that is so.
    fn under(&mut self, rate: &Rate, due: &Due, told: &Removed) -> Result<(), AllocError>
        ensures { OnOk result (self.new ≡ with_under self.old rate.now due.now told.now) }
    {
        if !told.is_under {
            return Ok(());
        }
        self.failure(&under_of(self.sequence, rate, due, told))
    }

    /// More is held than the buffer takes, where that is so.
    fn over(&mut self, rate: &Rate, due: &Due, told: &Removed) -> Result<(), AllocError>
        ensures { OnOk result (self.new ≡ with_over self.old rate.now due.now told.now) }
    {
        if !told.is_over {
            return Ok(());
        }
        self.failure(&over_of(self.sequence, rate, due, told))
    }

    /// The delay is far from that which the removal implies, where that is so.
    fn far(&mut self, rate: &Rate, due: &Due, told: &Removed) -> Result<(), AllocError>
        ensures { OnOk result (self.new ≡ with_far self.old rate.now due.now told.now) }
    {
        if !is_far(rate.constant, due, told) {
            return Ok(());
        }
        self.warning(&Broken {
            picture: due.number,
            bit: due.bit,
            rule: 54,
            element: Some(Element::VbvDelay),
            have: u128::from(due.delay),
            need: told.delay,
        })
    }

    /// The buffer fails.
    fn failure(&mut self, f: &FailureRecord) -> Result<(), AllocError>
        ensures { OnOk result (self.new ≡ with_failure self.old f.now) }
    {
        self.lines.failure(f)?;
        self.tally.failure();
        Ok(())
    }

    /// How often each rule was broken that was.
    fn counts(&mut self) -> Result<(), AllocError>
        ensures { OnOk result (self.new ≡ with_counts 95 self.old) }
    {
        for rule in 1..96 {
            self.count(rule)?;
        }
        Ok(())
    }

    /// How often a rule was broken, where it was.
    fn count(&mut self, rule: u8) -> Result<(), AllocError>
        requires { rule < 96 }
        ensures { OnOk result (self.new ≡ with_count self.old rule) }
    {
        let count = self.tally.count(rule);
        if count.how_often == 0 {
            return Ok(());
        }
        self.lines.count(&CountRecord {
            sequence: self.sequence,
            rule,
            how_often: count.how_often,
            picture: count.picture,
        })
    }

    /// What there was in the sequence.
    fn end(&self, totals: &SequenceTotals) -> EndRecord
        ensures { result ≡ end_of self.now totals.now }
    {
        EndRecord {
            sequence: self.sequence,
            pictures: totals.pictures,
            frames: totals.frames,
            groups: totals.groups,
            bytes: totals.bytes,
            breaches: self.tally.breaches,
            failures: self.tally.failures,
            warnings: self.tally.warnings,
            low: self.tally.low.unwrap_or(0),
            high: self.tally.high,
            delays: self.tally.delays,
            time: self.tally.time,
        }
    }
}

/// Two delays are at most a tick apart.
fn is_near(a: u128, b: u128) -> bool
    ensures { result ≡ is_near a b }
{
    a.abs_diff(b) <= 1
}

/// A delay is far from that which the removal implies.
fn is_far(constant: bool, due: &Due, told: &Removed) -> bool
    ensures { result ≡ is_far constant due.now told.now }
{
    let delay = u128::from(due.delay);
    constant && due.number != 0 && delay != VARIABLE && !is_near(delay, told.delay)
}

/// What is told of a breach, and of a warning.
fn finding_of(sequence: u64, b: &Broken) -> Finding
    ensures { result ≡ finding_of sequence b.now }
{
    Finding {
        sequence,
        picture: b.picture,
        bit: b.bit,
        rule: b.rule,
        element: b.element,
        have: b.have,
        need: b.need,
    }
}

/// A picture isn't whole when it is due.
fn under_of(sequence: u64, rate: &Rate, due: &Due, told: &Removed) -> FailureRecord
    ensures { result ≡ under_of sequence rate.now due.now told.now }
{
    FailureRecord {
        sequence,
        picture: due.number,
        bit: due.bit,
        kind: if rate.low_delay {
            FailureKind::Big
        } else {
            FailureKind::Under
        },
        time: told.time,
        have: u128::from(told.have),
        need: u128::from(told.need),
        wait: told.wait,
    }
}

/// More is held than the buffer takes.
fn over_of(sequence: u64, rate: &Rate, due: &Due, told: &Removed) -> FailureRecord
    ensures { result ≡ over_of sequence rate.now due.now told.now }
{
    FailureRecord {
        kind: FailureKind::Over,
        need: u128::from(rate.size),
        wait: 0,
        ..under_of(sequence, rate, due, told)
    }
}
