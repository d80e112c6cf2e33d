//! The texts of an input, each with the report of its sequence.
ghost use Rattle.std.specs.Prelude.{◌≡◌, ◌-◌, ◌≤◌, ◌^◌, ◌++◌, ℕ, length, IsTrue, IfOk, IfErr, OnOk, None, false};
ghost use Rattle.m2v_port.specs.Ends.{change, SinkStays};
ghost use Rattle.m2v_port.specs.Port.{Grows};
ghost use Rattle.m2v_strict.specs.m2v_check.m2v_decode.Progress.{Cuts, before_all};
ghost use Rattle.m2v_audit.specs.Auditing.{stopped, ended};
ghost use Rattle.m2v_audit.specs.Audited.{asked_behind, counted_with, none_told, stopping_line as line_of_stop, stopping_text};
ghost use Rattle.m2v_audit.specs.Feeding.{cutting_of, IsFed};
ghost use Rattle.m2v_audit.specs.Lines.{skipped_text};
ghost use Rattle.m2v_audit.specs.Leading.{as_ending, is_fault, texts_from, total_from, IsEnough, LeadsTo, Stops, TextTold};

use crate::asked::Asked;
use crate::auditor::Auditor;
use crate::feed::Feed;
use crate::lines::Lines;
use crate::outcome::{Ending, Outcome};
use crate::pieces::{put, read_text};
use crate::records::TotalRecord;
use crate::words::LimitKind;
use m2v_port::{Sink, Source};
use m2v_strict::check::decode::{DecodeError, fault_word};
use std::alloc::{AllocError, Global};

/// How a sequence stops by an error of its text; Read, Write and Memory are errors of the audit.
#[tactic(auto, unfolding(crate::specs::Leading::as_ending))]
fn ending_of(e: DecodeError) -> Result<Ending, DecodeError>
    ensures { result ≡ as_ending e }
{
    match e {
        DecodeError::Stream(f) => Ok(Ending::Fault(f)),
        DecodeError::TooLong => Ok(Ending::Limit(LimitKind::TooLong)),
        DecodeError::PictureTooLarge => Ok(Ending::Limit(LimitKind::TooLarge)),
        DecodeError::Read => Err(DecodeError::Read),
        DecodeError::Write => Err(DecodeError::Write),
        DecodeError::Memory => Err(DecodeError::Memory),
    }
}

/// A sequence stops by a fault, behind which the report goes on.
fn is_fault(ending: Ending) -> bool
    ensures { result ≡ is_fault ending }
{
    match ending {
        Ending::Fault(_) => true,
        _ => false,
    }
}

/// The line that says why a sequence stops.
#[tactic(auto, unfolding(crate::specs::Audited::stopping_line))]
fn stopping_line(lines: &mut Lines, sequence: u64, ending: Ending) -> Result<(), AllocError>
    ensures { OnOk result (lines.new.text.items
        ≡ lines.old.text.items ++ line_of_stop sequence ending) }
{
    match ending {
        Ending::Whole => Ok(()),
        Ending::Fault(f) => lines.fault(sequence, f.place, fault_word(f.kind)),
        Ending::Limit(kind) => lines.limit(sequence, kind),
    }
}

/// A text that needs no sequence and has none is skipped.
fn skip<K: Sink>(
    alloc: Global,
    sequence: u64,
    start: u64,
    end: u64,
    output: &mut K,
) -> Result<(), DecodeError>
    requires output { IsTrue (K.ready output.old) }
    ensures grown { OnOk result (Grows (K.held output.old)
        (skipped_text sequence start (end - start)) (K.held output.new)) }
    ensures err { IfErr result (Cuts (skipped_text sequence start (end - start))
        (change K.held K.faults output.old output.new)) }
    ensures output { SinkStays K.ready K.name K.faults output.old output.new }
{
    let mut lines = Lines::new(alloc);
    lines.skipped(sequence, start, end.saturating_sub(start))?;
    put(lines.bytes(), output)
}

/// A sequence is counted, and more is asked behind it.
fn count(asked: &mut Asked, totals: &mut TotalRecord, auditor: &Auditor)
    ensures totals { totals.new ≡ counted_with totals.old auditor.now }
    ensures asked { asked.new ≡ asked_behind asked.old auditor.now }
{
    *totals = totals.with(auditor);
    *asked = asked.behind(auditor);
}

/// A sequence ends with its text.
fn finish<K: Sink>(auditor: &mut Auditor, output: &mut K) -> Result<(), DecodeError>
    requires output { IsTrue (K.ready output.old) }
    ensures grown { OnOk result (Grows (K.held output.old) (ended auditor.old).report.text
        (K.held output.new)) }
    ensures auditor { OnOk result (auditor.new ≡ ended auditor.old) }
    ensures err { IfErr result (Cuts (ended auditor.old).report.text
        (change K.held K.faults output.old output.new)) }
    ensures output { SinkStays K.ready K.name K.faults output.old output.new }
{
    auditor.finish()?;
    put(auditor.bytes(), output)
}

/// A sequence stops by a fault or a limit.
fn stop<K: Sink>(
    alloc: Global,
    ending: Ending,
    totals: &TotalRecord,
    auditor: &mut Auditor,
    output: &mut K,
) -> Result<(), DecodeError>
    requires output { IsTrue (K.ready output.old) }
    ensures grown { OnOk result (Grows (K.held output.old)
        (stopping_text totals.now auditor.old ending) (K.held output.new)) }
    ensures auditor { OnOk result (auditor.new ≡ stopped auditor.old) }
    ensures err { IfErr result (Cuts (stopping_text totals.now auditor.old ending)
        (change K.held K.faults output.old output.new)) }
    ensures output { SinkStays K.ready K.name K.faults output.old output.new }
{
    let mut lines = Lines::new(alloc);
    stopping_line(&mut lines, totals.sequences, ending)?;
    auditor.stop()?;
    put(lines.bytes(), output)?;
    put(auditor.bytes(), output)
}

/// Reads a text, and writes the report of its sequence. `later`: the text needs no sequence. Answers whether another text
/// follows: behind the end of the sequence, and behind a fault; `asked` is then what is asked of that.
fn tell_text<S: Source, K: Sink>(
    alloc: Global,
    asked: &mut Asked,
    later: bool,
    so_far: &mut Outcome,
    feed: &mut Feed,
    input: &mut S,
    output: &mut K,
) -> Result<bool, DecodeError>
    requires going { (cutting_of feed.old).failed ≡ false }
    requires begun { (cutting_of feed.old).begun ≡ false }
    requires ended { (cutting_of feed.old).ended ≡ false }
    requires waits { IsFed feed.old (S.left input.old) }
    requires output { IsTrue (K.ready output.old) }
    ensures ok { IfOk result (λ follows. (n : ℕ)
        → IsEnough later n (length (cutting_of feed.old).unread) → TextTold
        (change S.left S.faults input.old input.new)
        (change K.held K.faults output.old output.new)
        (texts_from n asked.old later so_far.old (cutting_of feed.old)) asked.new later so_far.new
        (cutting_of feed.old) (cutting_of feed.new) follows) }
    ensures most { (cutting_of feed.old).place ≤ 2 ^ 36 }
    ensures err { IfErr result (λ e. (n : ℕ)
        → IsEnough later n (length (cutting_of feed.old).unread) → Stops
        (change S.left S.faults input.old input.new)
        (change K.held K.faults output.old output.new)
        (texts_from n asked.old later so_far.old (cutting_of feed.old)) e) }
    ensures waits { IsFed feed.new (S.left input.new) }
    ensures output { SinkStays K.ready K.name K.faults output.old output.new }
    ensures input { S.faults input.old ≤ S.faults input.new }
{
    let start = feed.place();
    let mut auditor = Auditor::new(alloc, so_far.totals.sequences, *asked, start);
    match read_text(alloc, later, feed, &mut auditor, input, output) {
        Ok(true) => {
            skip(alloc, so_far.totals.sequences, start, feed.place(), output)?;
            Ok(false)
        }
        Ok(false) => {
            finish(&mut auditor, output)?;
            count(asked, &mut so_far.totals, &auditor);
            Ok(true)
        }
        Err(e) => {
            let ending = ending_of(e)?;
            stop(alloc, ending, &so_far.totals, &mut auditor, output)?;
            count(asked, &mut so_far.totals, &auditor);
            so_far.ending = so_far.ending.or(ending);
            Ok(is_fault(ending))
        }
    }
}

/// Reads text after text, and writes the report of each.
pub(crate) fn tell_texts<S: Source, K: Sink>(
    alloc: Global,
    asked: Asked,
    so_far: &mut Outcome,
    feed: &mut Feed,
    input: &mut S,
    output: &mut K,
) -> Result<(), DecodeError>
    requires cutter { feed.old.cutter ≡ before_all }
    requires again { feed.old.again ≡ None }
    requires so_far { so_far.old ≡ none_told }
    requires output { IsTrue (K.ready output.old) }
    ensures ok { OnOk result (LeadsTo
        (change S.left S.faults input.old input.new)
        (change K.held K.faults output.old output.new)
        (texts_from 2 asked false none_told before_all) (total_from so_far.new)) }
    ensures err { IfErr result (Stops
        (change S.left S.faults input.old input.new)
        (change K.held K.faults output.old output.new)
        (texts_from 2 asked false none_told before_all)) }
    ensures output { SinkStays K.ready K.name K.faults output.old output.new }
    ensures input { S.faults input.old ≤ S.faults input.new }
{
    let mut later = false;
    let mut next = asked;
    loop {
        if !tell_text(alloc, &mut next, later, so_far, feed, input, output)? {
            return Ok(());
        }
        feed.go_on();
        later = true;
    }
}
