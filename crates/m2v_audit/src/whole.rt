//! The audit of a whole input.
ghost use Rattle.std.specs.Prelude.{◌≡◌, ◌≤◌, ◌++◌, IsTrue, IfOk, IfErr, OnOk};
ghost use Rattle.m2v_port.specs.Ends.{change, SinkStays};
ghost use Rattle.m2v_port.specs.Port.{Grows};
ghost use Rattle.m2v_strict.specs.m2v_check.m2v_decode.Answers.{OfText};
ghost use Rattle.m2v_strict.specs.m2v_check.m2v_decode.Progress.{Cuts};
ghost use Rattle.m2v_strict.specs.RuleSets.{name_of};
ghost use Rattle.m2v_audit.specs.Lines.{audit_line, columns_lines, total_line};
ghost use Rattle.m2v_audit.specs.Leading.{IsAudited, Fails};

use crate::asked::Asked;
use crate::feed::Feed;
use crate::lines::Lines;
use crate::outcome::Outcome;
use crate::pieces::put;
use crate::records::TotalRecord;
use crate::texts::tell_texts;
use m2v_port::{Sink, Source};
use m2v_strict::RuleSet;
use m2v_strict::check::decode::DecodeError;
use std::alloc::Global;

/// Writes the first lines of a report: its format and the name of its rule set, and the names of the columns.
fn begin_named<K: Sink>(alloc: Global, name: &str, output: &mut K) -> Result<(), DecodeError>
    requires output { IsTrue (K.ready output.old) }
    ensures grown { OnOk result (Grows (K.held output.old)
        (audit_line name.now ++ columns_lines) (K.held output.new)) }
    ensures err { IfErr result (Cuts (audit_line name.now ++ columns_lines)
        (change K.held K.faults output.old output.new)) }
    ensures output { SinkStays K.ready K.name K.faults output.old output.new }
{
    let mut lines = Lines::new(alloc);
    lines.audit(name)?;
    lines.columns()?;
    put(lines.bytes(), output)
}

/// The same by the rule set.
fn begin<K: Sink>(alloc: Global, rules: RuleSet, output: &mut K) -> Result<(), DecodeError>
    requires output { IsTrue (K.ready output.old) }
    ensures grown { OnOk result (Grows (K.held output.old)
        (audit_line (name_of rules) ++ columns_lines) (K.held output.new)) }
    ensures err { IfErr result (Cuts (audit_line (name_of rules) ++ columns_lines)
        (change K.held K.faults output.old output.new)) }
    ensures output { SinkStays K.ready K.name K.faults output.old output.new }
{
    begin_named(alloc, rules.name(), output)
}

/// Writes the last line of a report.
fn end<K: Sink>(alloc: Global, totals: &TotalRecord, output: &mut K) -> Result<(), DecodeError>
    requires output { IsTrue (K.ready output.old) }
    ensures grown { OnOk result
        (Grows (K.held output.old) (total_line totals.now) (K.held output.new)) }
    ensures err { IfErr result (Cuts (total_line totals.now)
        (change K.held K.faults output.old output.new)) }
    ensures output { SinkStays K.ready K.name K.faults output.old output.new }
{
    let mut lines = Lines::new(alloc);
    lines.total(totals)?;
    put(lines.bytes(), output)
}

/// Audits an input: reads it to its end, behind sequence end codes and behind faults too, or to the limit that it passes
/// before, and writes the report of its sequences, by what is asked for. Answers what is counted of all sequences, and how
/// the audit ends: by the first fault, or by a limit where none comes before.
///
/// # Errors
/// A failed input, a failed output and lack of memory, with a prefix of the report on output. A fault of a sequence and
/// a limit are no errors: they are told.
pub fn audit<S: Source, K: Sink>(
    alloc: Global,
    asked: Asked,
    input: &mut S,
    output: &mut K,
) -> Result<Outcome, DecodeError>
    requires output { IsTrue (K.ready output.old) }
    ensures ok { IfOk result (λ o. OfText
        (change S.left S.faults input.old input.new) (λ text. IsAudited asked text
        (change K.held K.faults output.old output.new) o)) }
    ensures err { IfErr result (Fails asked
        (change S.left S.faults input.old input.new)
        (change K.held K.faults output.old output.new)) }
    ensures output { SinkStays K.ready K.name K.faults output.old output.new }
    ensures input { S.faults input.old ≤ S.faults input.new }
{
    begin(alloc, asked.rules, output)?;
    let mut feed = Feed::new(alloc)?;
    let mut outcome = Outcome::none();
    tell_texts(alloc, asked, &mut outcome, &mut feed, input, output)?;
    end(alloc, &outcome.totals, output)?;
    Ok(outcome)
}
