//! A stream of a seed.
ghost use Rattle.std.specs.Prelude.{◌≡◌, [], IsTrue, IfOk, IfErr, OnOk};
ghost use Rattle.m2v_port.specs.Port.{Grows};
ghost use Rattle.m2v_port.specs.Ends.{change, SinkStays};
ghost use Rattle.m2v_check.specs.m2v_model.Buffering.{HasFigures};
ghost use Rattle.m2v_check.specs.Meaning.{buffer_figures};
ghost use Rattle.m2v_encode.specs.Answers.{numbers_of};
ghost use Rattle.m2v_make.specs.Frames.{generated};
ghost use Rattle.m2v_make.specs.Making.{make_settings, stream_of, Makes, MakeStops};

use crate::answer::{Made, MakeError};
use crate::ends::Lent;
use crate::generated::Generated;
use m2v_board::Gate;
use m2v_check::decode::decode;
use m2v_check::{DecodeError, Figures, Verdict, check};
use m2v_encode::{EncodeError, Summary, encode};
use m2v_port::{Nowhere, PortError, Sink, SureFile, SureSink};
use m2v_set::{Level, Planning, Scan, Settings};
use std::alloc::{AllocError, Global};
use std::sync::Wait;
use std::thread::Threads;

/// The settings by which the frames are coded.
#[tactic(auto, unfolding(crate::specs::Making::make_settings))]
fn make_settings() -> Settings
    ensures { result ≡ make_settings }
{
    Settings {
        width: 176,
        height: 144,
        rate_code: 3,
        bits: 1000,
        buffer: 15,
        delay: None,
        group: 12,
        step: 3,
        closed: false,
        scan: Scan::Frames,
        search: 7,
        aspect: 2,
        workers: 4,
        pulldown: false,
        level: Level::Main,
        planning: Planning::Weights,
    }
}

/// Want of memory: no other error of the encoder can come.
fn coding_memory(e: EncodeError) -> AllocError
    requires { e ≡ EncodeError.Memory }
{
    match e {
        EncodeError::Memory => AllocError,
        _ => unreachable!(),
    }
}

/// Codes the frames of a seed into a sink in memory, and tells the numbers of the stream. The settings pass, all frames are
/// whole and few, and neither their source nor the sink fails: so nothing but want of memory stops it.
fn coded<R: Threads + Wait + Sync, G: Gate + Sync>(
    rt: &R,
    alloc: Global,
    seed: u64,
    stream: &mut SureSink,
    gate: &G,
) -> Result<Summary, AllocError>
    requires none { stream.old ≡ [] }
    ensures text { OnOk result (stream.new ≡ stream_of seed) }
    ensures numbers { IfOk result (λ n. n ≡ numbers_of make_settings (generated seed)) }
{
    let Ok(settings) = make_settings().test() else {
        unreachable!();
    };
    let mut frames = Generated::new(seed);
    match encode::<R, Generated, SureSink, SureFile, G>(
        rt,
        alloc,
        &settings,
        &mut frames,
        stream,
        None,
        gate,
    ) {
        Ok(summary) => Ok(summary),
        Err(e) => Err(coding_memory(e)),
    }
}

/// Want of memory: no other error of a decoder can come.
fn decoding_memory(e: DecodeError) -> AllocError
    requires { e ≡ DecodeError.Memory }
{
    match e {
        DecodeError::Memory => AllocError,
        _ => unreachable!(),
    }
}

/// Decodes the stream of a seed, and drops its frames. The stream has no fault and passes no limit, and neither its source nor
/// the sink fails: so nothing but want of memory stops it.
fn decoded(alloc: Global, stream: &[u8], seed: u64) -> Result<(), AllocError>
    requires { stream.now ≡ stream_of seed }
{
    let mut input = Lent::new(stream);
    let mut unwanted = Nowhere;
    match decode(alloc, &mut input, &mut unwanted) {
        Ok(_) => Ok(()),
        Err(e) => Err(decoding_memory(e)),
    }
}

/// The figures of a verdict, which is lawful.
fn figures_of(verdict: Verdict, seed: u64) -> Figures
    requires { (f : Figures) × (verdict ≡ Verdict.Lawful f)
        × HasFigures (stream_of seed) (buffer_figures f) }
    ensures { HasFigures (stream_of seed) (buffer_figures result) }
{
    match verdict {
        Verdict::Lawful(figures) => figures,
        _ => unreachable!(),
    }
}

/// Checks the stream of a seed, and tells its figures. The stream is lawful and passes no limit, and its source doesn't fail:
/// so nothing but want of memory stops it.
fn checked(alloc: Global, stream: &[u8], seed: u64) -> Result<Figures, AllocError>
    requires { stream.now ≡ stream_of seed }
    ensures { IfOk result (λ f. HasFigures (stream_of seed) (buffer_figures f)) }
{
    let mut input = Lent::new(stream);
    match check(alloc, &mut input) {
        Ok(verdict) => Ok(figures_of(verdict, seed)),
        Err(e) => Err(decoding_memory(e)),
    }
}

/// Puts the stream on output.
fn put_stream<K: Sink>(stream: &[u8], output: &mut K, seed: u64) -> Result<(), MakeError>
    requires output { IsTrue (K.ready output.old) }
    requires stream { stream.now ≡ stream_of seed }
    ensures ok { OnOk result (Grows (K.held output.old) (stream_of seed) (K.held output.new)) }
    ensures err { IfErr result (MakeStops seed (change K.held K.faults output.old output.new)) }
    ensures output { SinkStays K.ready K.name K.faults output.old output.new }
{
    match output.put(stream) {
        Ok(()) => Ok(()),
        Err(PortError::Failed) => Err(MakeError::Write),
        Err(PortError::Memory) => Err(MakeError::Memory),
    }
}

/// Makes a large lawful stream of a seed: 48 generated frames of 176 by 144 samples are coded in memory, the stream is
/// decoded and checked, and then put on output. The same seed gives the same stream, whatever the number of processors.
///
/// # Errors
/// Write where the output failed, with a prefix of the stream on it; want of memory, with nothing or a prefix on it, where a
/// call for memory failed, and nowhere else. No other error comes: the settings pass, the frames are whole, and the stream
/// decodes, passes no limit and is lawful.
pub fn make<R: Threads + Wait + Sync, K: Sink, G: Gate + Sync>(
    rt: &R,
    alloc: Global,
    seed: u64,
    output: &mut K,
    gate: &G,
) -> Result<Made, MakeError>
    requires output { IsTrue (K.ready output.old) }
    // Output has grown by the stream, which is lawful, and its numbers are told.
    ensures ok { IfOk result (Makes seed (change K.held K.faults output.old output.new)) }
    // When each error comes, and what stands then.
    ensures err { IfErr result (MakeStops seed (change K.held K.faults output.old output.new)) }
    ensures output { SinkStays K.ready K.name K.faults output.old output.new }
{
    let mut stream = SureSink::new(alloc);
    let summary = coded(rt, alloc, seed, &mut stream, gate)?;
    decoded(alloc, stream.held(), seed)?;
    let figures = checked(alloc, stream.held(), seed)?;
    put_stream(stream.held(), output, seed)?;
    Ok(Made {
        bytes: summary.bytes,
        stuffing: summary.stuffing,
        low: figures.low,
        high: figures.high,
        delays: figures.delays,
    })
}
