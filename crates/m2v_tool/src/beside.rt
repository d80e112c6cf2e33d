// What the commands do that may write a file beside output.
ghost use Rattle.std.specs.Prelude.{◌≡◌, ◌≤◌, Some, None, length, IsTrue, IsFalse};
ghost use Rattle.m2v_port.specs.Ends.{change, SinkStays};
ghost use Rattle.m2v_y4m.specs.Rules.{IsHeader};
ghost use Rattle.m2v_y4m.specs.Sources.{most_ahead};
ghost use Rattle.m2v_tool.specs.Runs.{worked};
ghost use Rattle.m2v_tool.specs.Y4mWords.{with_header};
ghost use Rattle.m2v_tool.specs.Y4mCoding.{FramesCome, read_behind};
ghost use Rattle.m2v_tool.specs.Commands.{EncodeComes, MendComes, Y4mComes, list_named, words_of};

use crate::encode::{EncodeOutcome, EncodeWords};
use crate::encode_y4m::Y4mOutcome;
use crate::mend::{MendOutcome, MendWords};
use m2v_board::Gate;
use m2v_make::encode::{Crew, EncodeError, encode};
use m2v_mend::{mend, mend_listed};
use m2v_port::{NamedSink, Sink, Source, SureFile};
use m2v_set::{Passed, Settings};
use m2v_y4m::{Y4mHeader, Y4mSource, Y4mText};
use std::alloc::Global;
use std::sync::Wait;
use std::thread::Threads;

/// Codes the raw frames of the input, where no reconstructions are wanted.
fn encoded_alone<R: Threads + Wait + Sync, S: Source, K: Sink, N: NamedSink, G: Gate + Sync>(
    crew: &Crew<R, G>,
    passed: &Passed,
    input: &mut S,
    output: &mut K,
    _recon: &mut N,
) -> EncodeOutcome
    requires { IsTrue (K.ready output.old) }
    ensures comes { EncodeComes (record { settings = passed.now; recon = None })
        (worked S.left S.faults K.held K.faults N.held N.faults N.ready N.name
        input.old input.new output.old output.new _recon.old _recon.new) result }
    ensures recon { _recon.new ≡ _recon.old }
    ensures output { SinkStays K.ready K.name K.faults output.old output.new }
    ensures input { S.faults input.old ≤ S.faults input.new }
    ensures behind { S.behind input.old ≤ S.behind input.new }
    ensures lenders { S.lenders input.new ≡ S.lenders input.old }
{
    // it tells contracts that the settings pass
    let _passes = passed.settings();
    let Crew { rt, alloc, gate } = crew;
    match encode::<R, S, K, SureFile, G>(*rt, *alloc, passed, input, output, None, *gate) {
        Ok(summary) => EncodeOutcome::Coded(summary),
        Err(error) => EncodeOutcome::Stopped(error),
    }
}

/// Opens the place for reconstructions under this name, and codes the raw frames of the input.
fn encoded_beside<R: Threads + Wait + Sync, S: Source, K: Sink, N: NamedSink, G: Gate + Sync>(
    crew: &Crew<R, G>,
    passed: &Passed,
    name: &str,
    input: &mut S,
    output: &mut K,
    recon: &mut N,
) -> EncodeOutcome
    requires output { IsTrue (K.ready output.old) }
    requires recon { IsFalse (N.ready recon.old) }
    ensures comes { EncodeComes (record { settings = passed.now; recon = Some name.now })
        (worked S.left S.faults K.held K.faults N.held N.faults N.ready N.name
        input.old input.new output.old output.new recon.old recon.new) result }
    ensures recon { N.faults recon.old ≤ N.faults recon.new }
    ensures output { SinkStays K.ready K.name K.faults output.old output.new }
    ensures input { S.faults input.old ≤ S.faults input.new }
    ensures behind { S.behind input.old ≤ S.behind input.new }
    ensures lenders { S.lenders input.new ≡ S.lenders input.old }
{
    // it tells contracts that the settings pass
    let _passes = passed.settings();
    match recon.open(name) {
        Ok(()) => {}
        Err(error) => return EncodeOutcome::Unopened(error),
    }
    let Crew { rt, alloc, gate } = crew;
    match encode(*rt, *alloc, passed, input, output, Some(recon), *gate) {
        Ok(summary) => EncodeOutcome::Coded(summary),
        Err(error) => EncodeOutcome::Stopped(error),
    }
}

/// Codes the raw frames of the input.
pub(crate) fn encoded<R: Threads + Wait + Sync, S: Source, K: Sink, N: NamedSink, G: Gate + Sync>(
    crew: &Crew<R, G>,
    meant: &EncodeWords,
    input: &mut S,
    output: &mut K,
    recon: &mut N,
) -> EncodeOutcome
    requires output { IsTrue (K.ready output.old) }
    requires recon { IsFalse (N.ready recon.old) }
    ensures comes { EncodeComes (words_of meant.now)
        (worked S.left S.faults K.held K.faults N.held N.faults N.ready N.name
        input.old input.new output.old output.new recon.old recon.new) result }
    ensures recon { N.faults recon.old ≤ N.faults recon.new }
    ensures output { SinkStays K.ready K.name K.faults output.old output.new }
    ensures input { S.faults input.old ≤ S.faults input.new }
    ensures behind { S.behind input.old ≤ S.behind input.new }
    ensures lenders { S.lenders input.new ≡ S.lenders input.old }
{
    let passed = match meant.settings.test() {
        Ok(passed) => passed,
        Err(first) => return EncodeOutcome::Unfit(first),
    };
    match &meant.recon {
        Some(name) => encoded_beside(crew, &passed, name.as_str(), input, output, recon),
        None => encoded_alone(crew, &passed, input, output, recon),
    }
}

/// The words with the sizes and the rate of a header.
fn with_header(meant: EncodeWords, header: &Y4mHeader) -> EncodeWords
    ensures { words_of result ≡ with_header header.now (words_of meant) }
{
    let EncodeWords { settings, recon } = meant;
    EncodeWords {
        settings: Settings {
            width: header.width,
            height: header.height,
            rate_code: header.rate_code,
            ..settings
        },
        recon,
    }
}

/// Whether coding stopped since a read failed.
fn stopped_reading(outcome: &EncodeOutcome) -> bool
    ensures yes { IsTrue result → outcome.now ≡ EncodeOutcome.Stopped EncodeError.Read }
    ensures no { IsFalse result → outcome.now ≡ EncodeOutcome.Stopped EncodeError.Read → ⊥ }
{
    match outcome {
        EncodeOutcome::Stopped(error) => match error {
            EncodeError::Read => true,
            EncodeError::Write
            | EncodeError::ShortFrame { .. }
            | EncodeError::NoFrames
            | EncodeError::TooManyFrames
            | EncodeError::Memory => false,
        },
        EncodeOutcome::Coded(_) | EncodeOutcome::Unfit(_) | EncodeOutcome::Unopened(_) => false,
    }
}

/// Codes the frames behind the header line. A read that fails at the text's first fault ends it as that fault.
fn coded_behind<R: Threads + Wait + Sync, S: Source, K: Sink, N: NamedSink, G: Gate + Sync>(
    crew: &Crew<R, G>,
    meant: &EncodeWords,
    source: &mut Y4mSource<S>,
    output: &mut K,
    recon: &mut N,
) -> Y4mOutcome
    requires output { IsTrue (K.ready output.old) }
    requires recon { IsFalse (N.ready recon.old) }
    requires unfailed { source.old.text.failed ≡ 0 }
    ensures comes { FramesCome (words_of meant.now) (record {
      input = read_behind S.left S.faults source.old.text.at source.old.inner
          source.new.text.at source.new.inner;
      output = change K.held K.faults output.old output.new;
      recon = change N.held N.faults recon.old recon.new;
      place = record { ready = N.ready recon.new; name = N.name recon.new };
    }) result }
    ensures recon { N.faults recon.old ≤ N.faults recon.new }
    ensures output { SinkStays K.ready K.name K.faults output.old output.new }
    ensures input { S.faults source.old.inner ≤ S.faults source.new.inner }
    ensures lenders { S.lenders source.new.inner ≡ S.lenders source.old.inner }
    ensures header { IsHeader source.new.text.at.header }
    ensures ahead { length source.new.text.at.unread ≤ most_ahead }
{
    let outcome = encoded(crew, meant, source, output, recon);
    // it tells contracts how much was read ahead at most
    let _header = source.header();
    if !stopped_reading(&outcome) {
        return Y4mOutcome::Encoded(outcome);
    }
    match source.fault() {
        Some(fault) => Y4mOutcome::Broken(fault),
        None => Y4mOutcome::Encoded(outcome),
    }
}

/// Codes the frames of the text of the input.
pub(crate) fn encoded_text<
    R: Threads + Wait + Sync,
    S: Source,
    K: Sink,
    N: NamedSink,
    G: Gate + Sync,
>(crew: &Crew<R, G>, meant: EncodeWords, input: &mut S, output: &mut K, recon: &mut N) -> Y4mOutcome
    requires output { IsTrue (K.ready output.old) }
    requires recon { IsFalse (N.ready recon.old) }
    ensures comes { Y4mComes (words_of meant)
        (worked S.left S.faults K.held K.faults N.held N.faults N.ready N.name
        input.old input.new output.old output.new recon.old recon.new) result }
    ensures recon { N.faults recon.old ≤ N.faults recon.new }
    ensures output { SinkStays K.ready K.name K.faults output.old output.new }
    ensures input { S.faults input.old ≤ S.faults input.new }
{
    let text = match Y4mText::open(crew.alloc, input) {
        Ok(text) => text,
        Err(error) => return Y4mOutcome::Unread(error),
    };
    let meant = with_header(meant, text.header());
    let mut source = Y4mSource {
        text,
        inner: &mut *input,
    };
    let outcome = coded_behind(crew, &meant, &mut source, output, recon);
    // taken apart here, which tells what the input is that was lent
    let Y4mSource {
        text: _text,
        inner: _inner,
    } = source;
    outcome
}

/// Copies what decodes of the input, where no list is wanted.
fn mended_alone<S: Source, K: Sink, N: NamedSink>(
    alloc: Global,
    input: &mut S,
    output: &mut K,
    _recon: &mut N,
) -> MendOutcome
    requires { IsTrue (K.ready output.old) }
    ensures comes { MendComes None
        (worked S.left S.faults K.held K.faults N.held N.faults N.ready N.name
        input.old input.new output.old output.new _recon.old _recon.new) result }
    ensures recon { _recon.new ≡ _recon.old }
    ensures output { SinkStays K.ready K.name K.faults output.old output.new }
    ensures input { S.faults input.old ≤ S.faults input.new }
{
    match mend(alloc, input, output) {
        Ok(answer) => MendOutcome::Mended(answer),
        Err(error) => MendOutcome::Stopped(error),
    }
}

/// Opens the place for the list under this name, and copies what decodes of the input.
fn mended_beside<S: Source, K: Sink, N: NamedSink>(
    alloc: Global,
    name: &str,
    input: &mut S,
    output: &mut K,
    recon: &mut N,
) -> MendOutcome
    requires output { IsTrue (K.ready output.old) }
    requires recon { IsFalse (N.ready recon.old) }
    ensures comes { MendComes (Some name.now)
        (worked S.left S.faults K.held K.faults N.held N.faults N.ready N.name
        input.old input.new output.old output.new recon.old recon.new) result }
    ensures recon { N.faults recon.old ≤ N.faults recon.new }
    ensures output { SinkStays K.ready K.name K.faults output.old output.new }
    ensures input { S.faults input.old ≤ S.faults input.new }
{
    match recon.open(name) {
        Ok(()) => {}
        Err(error) => return MendOutcome::Unopened(error),
    }
    match mend_listed(alloc, input, output, recon) {
        Ok(answer) => MendOutcome::Mended(answer),
        Err(error) => MendOutcome::Stopped(error),
    }
}

/// Copies what decodes of the input.
pub(crate) fn mended<S: Source, K: Sink, N: NamedSink>(
    alloc: Global,
    meant: &MendWords,
    input: &mut S,
    output: &mut K,
    recon: &mut N,
) -> MendOutcome
    requires output { IsTrue (K.ready output.old) }
    requires recon { IsFalse (N.ready recon.old) }
    ensures comes { MendComes (list_named meant.now)
        (worked S.left S.faults K.held K.faults N.held N.faults N.ready N.name
        input.old input.new output.old output.new recon.old recon.new) result }
    ensures recon { N.faults recon.old ≤ N.faults recon.new }
    ensures output { SinkStays K.ready K.name K.faults output.old output.new }
    ensures input { S.faults input.old ≤ S.faults input.new }
{
    match &meant.list {
        Some(name) => mended_beside(alloc, name.as_str(), input, output, recon),
        None => mended_alone(alloc, input, output, recon),
    }
}
