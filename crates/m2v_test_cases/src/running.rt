// The one place where the program's top call is made, over endpoints in memory.
ghost use Rattle.std.specs.Prelude.{IsFalse, is_some};

use crate::case::Failing;
use m2v_board::OpenGate;
use m2v_port::{MemoryFile, MemorySink, MemorySource};
use m2v_tool::run;
use std::alloc::{AllocError, Global};
use std::sync::Wait;
use std::thread::Threads;

/// What came of a run.
#[derive(Drop)]
pub(crate) struct Answer {
    pub(crate) status: u8,
    pub(crate) output: Vec<u8>,
    pub(crate) report: Vec<u8>,
    /// What the place for a file beside the output holds.
    pub(crate) recon: Vec<u8>,
    /// The name under which it is open.
    pub(crate) recon_name: Option<String>,
    /// Whether a call of an endpoint failed.
    pub(crate) failed: bool,
}

/// The endpoints of a run.
#[derive(Drop)]
struct Endpoints {
    input: MemorySource,
    output: MemorySink,
    recon: MemoryFile,
    report: MemorySink,
}

/// The status of words.
fn status_of<R: Threads + Wait + Sync>(
    rt: &R,
    alloc: Global,
    words: &[String],
    endpoints: &mut Endpoints,
) -> u8
    requires { IsFalse (is_some endpoints.old.recon.name) }
{
    let status = run(
        rt,
        alloc,
        words,
        &mut endpoints.input,
        &mut endpoints.output,
        &mut endpoints.recon,
        &mut endpoints.report,
        &OpenGate,
    );
    status.code
}

/// What stands in the endpoints.
fn answer_of(alloc: Global, status: u8, endpoints: &Endpoints) -> Result<Answer, AllocError> {
    let (output, report) = (endpoints.output.held(), endpoints.report.held());
    let recon_name = match endpoints.recon.name() {
        Some(name) => Some(String::from_str(alloc, name)?),
        None => None,
    };
    let input_failed = endpoints.input.faults() > 0;
    let output_failed = endpoints.output.faults() > 0;
    let recon_failed = endpoints.recon.faults() > 0;
    let report_failed = endpoints.report.faults() > 0;
    Ok(Answer {
        status,
        output: output.to_vec(alloc)?,
        report: report.to_vec(alloc)?,
        recon: endpoints.recon.held().to_vec(alloc)?,
        recon_name,
        failed: input_failed || output_failed || recon_failed || report_failed,
    })
}

/// Runs words on an input.
pub(crate) fn ran<R: Threads + Wait + Sync>(
    rt: &R,
    alloc: Global,
    words: &[String],
    input: &[u8],
    failing: &Failing,
) -> Result<Answer, AllocError> {
    let mut endpoints = Endpoints {
        input: MemorySource::new(input.to_vec(alloc)?, failing.input.to_vec(alloc)?),
        output: MemorySink::new(alloc, failing.output.to_vec(alloc)?),
        recon: MemoryFile::new(alloc, failing.recon.to_vec(alloc)?),
        report: MemorySink::new(alloc, failing.report.to_vec(alloc)?),
    };
    let status = status_of(rt, alloc, words, &mut endpoints);
    answer_of(alloc, status, &endpoints)
}
