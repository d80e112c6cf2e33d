//! Workers, held at a gate. Those of the encoder: two rows of a picture are made beside each other, and a row of a picture
//! before the last row of the picture that it refers to. A run on one thread, in whatever order, gives the gate up; and so
//! does one whose workers come to the gate before or behind the work. What the gate was told is held against the slices in
//! the output. Those of the decoder: two rows of a picture are decoded beside each other. Both by three, four and eight
//! workers: a gate that holds as many rows until all of them came. And two runs of `make` of one seed are held against each
//! other, and against runs in which a call of an endpoint fails.
#![tactic(auto)]

mod gate;
mod slices;

ghost use Rattle.std.specs.Prelude.{IsFalse, is_some};

use gate::{Gathering, Meeting};
use m2v_board::{Gate, OpenGate};
use m2v_port::{MemoryFile, MemorySink, MemorySource};
use m2v_tool::run;
use slices::slice_bits;
use std::alloc::{AllocError, Global};
use std::process::ExitCode;
use std::sync::Wait;
use std::thread::Threads;

/// The words of an encoder for pictures of one macroblock in a row; their height and the number of workers follow.
const WORDS: [&str; 9] = [
    "encode", "--width", "16", "--rate", "3", "--bits", "100", "--buffer", "1",
];

/// A picture with as many rows as there are workers.
struct Gathered {
    workers: &'static str,
    count: u32,
    height: &'static str,
    lines: u32,
    encoded: &'static str,
    decoded: &'static str,
}

/// More workers than two.
const GATHERED: [Gathered; 3] = [
    Gathered {
        workers: "3",
        count: 3,
        height: "48",
        lines: 48,
        encoded: "three workers code beside each other",
        decoded: "three workers decode beside each other",
    },
    Gathered {
        workers: "4",
        count: 4,
        height: "64",
        lines: 64,
        encoded: "four workers code beside each other",
        decoded: "four workers decode beside each other",
    },
    Gathered {
        workers: "8",
        count: 8,
        height: "128",
        lines: 128,
        encoded: "eight workers code beside each other",
        decoded: "eight workers decode beside each other",
    },
];

/// A run that is held at a gate.
struct Held {
    name: &'static str,
    height: &'static str,
    lines: u32,
    frames: u32,
    /// The job that is held in front of its work until the other one is done, with its picture and its row from 1.
    held: (u32, usize, u8),
    other: (u32, usize, u8),
    /// Whether the other one waits for it too.
    meet: bool,
}

/// Two frames of four rows, and one of two. A picture's first job is its plan, and its slices follow from the top.
const RUNS: [Held; 2] = [
    Held {
        name: "two rows of a picture are made beside each other",
        height: "32",
        lines: 32,
        frames: 1,
        held: (1, 0, 1),
        other: (2, 0, 2),
        meet: true,
    },
    Held {
        name: "a row is made before the last row of the picture before",
        height: "64",
        lines: 64,
        frames: 2,
        held: (4, 0, 4),
        other: (7, 1, 2),
        meet: false,
    },
];

/// Words, each by itself.
fn all_words(alloc: Global, words: &[&str]) -> Result<Vec<String>, AllocError> {
    let mut all = Vec::new(alloc);
    for word in words.iter() {
        all.push(String::from_str(alloc, word)?)?;
    }
    Ok(all)
}

/// The words of a run.
fn words_of(alloc: Global, height: &str, workers: &str) -> Result<Vec<String>, AllocError> {
    let mut words = all_words(alloc, &WORDS)?;
    for word in ["--height", height, "--workers", workers].iter() {
        words.push(String::from_str(alloc, word)?)?;
    }
    Ok(words)
}

/// A frame of 16 columns: luma 7 c + 11 y modulo 256 in column c of line y, chroma 128.
fn push_frame(input: &mut Vec<u8>, lines: u32) -> Result<(), AllocError> {
    for y in 0..lines {
        for c in 0..16u32 {
            let luma = c.wrapping_mul(7).wrapping_add(y.wrapping_mul(11));
            input.push((luma % 256) as u8)?;
        }
    }
    for _ in 0..lines.wrapping_mul(8) {
        input.push(128)?;
    }
    Ok(())
}

/// So many frames.
fn frames_of(alloc: Global, lines: u32, frames: u32) -> Result<Vec<u8>, AllocError> {
    let mut input = Vec::new(alloc);
    for _ in 0..frames {
        push_frame(&mut input, lines)?;
    }
    Ok(input)
}

/// The endpoints of a run.
#[derive(Drop)]
struct Endpoints {
    input: MemorySource,
    output: MemorySink,
    recon: MemoryFile,
    report: MemorySink,
}

/// Runs words, and gives the status.
fn status_of<R: Threads + Wait + Sync, G: Gate + Sync>(
    rt: &R,
    alloc: Global,
    words: &[String],
    endpoints: &mut Endpoints,
    gate: &G,
) -> u8
    requires { IsFalse (is_some endpoints.old.recon.name) }
{
    let status = run(
        rt,
        alloc,
        words,
        &mut endpoints.input,
        &mut endpoints.output,
        &mut endpoints.recon,
        &mut endpoints.report,
        gate,
    );
    status.code
}

/// Whether the gate was told the bits of the two slices, and not given up.
fn is_met(run: &Held, gate: &Meeting, stream: &[u8]) -> bool {
    let held = slice_bits(stream, run.held.1, run.held.2);
    let other = slice_bits(stream, run.other.1, run.other.2);
    !gate.is_given_up()
        && held > 0
        && other > 0
        && gate.held_told() == held
        && gate.other_told() == other
}

/// Runs the encoder held at the gate: whether it made the other job's slice meanwhile.
fn is_right<R: Threads + Wait + Sync>(
    rt: &R,
    alloc: Global,
    run: &Held,
) -> Result<bool, AllocError> {
    let words = words_of(alloc, run.height, "2")?;
    let mut endpoints = Endpoints {
        input: MemorySource::new(frames_of(alloc, run.lines, run.frames)?, Vec::new(alloc)),
        output: MemorySink::new(alloc, Vec::new(alloc)),
        recon: MemoryFile::new(alloc, Vec::new(alloc)),
        report: MemorySink::new(alloc, Vec::new(alloc)),
    };
    let gate = Meeting::new(run.held.0, run.other.0, run.meet);
    let status = status_of(rt, alloc, &words, &mut endpoints, &gate);
    Ok(status == 0 && is_met(run, &gate, endpoints.output.held()))
}

/// Runs words over an input: the status, and what stands on output.
fn run_over<R: Threads + Wait + Sync, G: Gate + Sync>(
    rt: &R,
    alloc: Global,
    words: &[&str],
    input: Vec<u8>,
    gate: &G,
) -> Result<(u8, Vec<u8>), AllocError> {
    let words = all_words(alloc, words)?;
    let mut endpoints = Endpoints {
        input: MemorySource::new(input, Vec::new(alloc)),
        output: MemorySink::new(alloc, Vec::new(alloc)),
        recon: MemoryFile::new(alloc, Vec::new(alloc)),
        report: MemorySink::new(alloc, Vec::new(alloc)),
    };
    let status = status_of(rt, alloc, &words, &mut endpoints, gate);
    let output = endpoints.output.held().to_vec(alloc)?;
    Ok((status, output))
}

/// Runs the decoder held at the gate over a grey frame of two rows: whether it decoded the other row meanwhile, and told the
/// samples of both.
fn is_decoded_beside<R: Threads + Wait + Sync>(rt: &R, alloc: Global) -> Result<bool, AllocError> {
    let grey = vec![in alloc; 128; 768]?;
    let flat = ["flat", "16", "32", "3", "1"];
    let (_, stream) = run_over(rt, alloc, &flat, grey.to_vec(alloc)?, &OpenGate)?;
    let gate = Meeting::new(0, 1, true);
    let decode = ["decode", "--workers", "2"];
    let (status, frame) = run_over(rt, alloc, &decode, stream, &gate)?;
    let told = gate.held_told() == 49152 && gate.other_told() == 49152;
    Ok(status == 0 && !gate.is_given_up() && told && frame.as_slice() == grey.as_slice())
}

/// Runs the encoder over a frame held at a gate that only as many workers open: whether they did. A picture's first job is
/// its plan.
fn is_gathered<R: Threads + Wait + Sync>(
    rt: &R,
    alloc: Global,
    run: &Gathered,
) -> Result<bool, AllocError> {
    let words = words_of(alloc, run.height, run.workers)?;
    let mut endpoints = Endpoints {
        input: MemorySource::new(frames_of(alloc, run.lines, 1)?, Vec::new(alloc)),
        output: MemorySink::new(alloc, Vec::new(alloc)),
        recon: MemoryFile::new(alloc, Vec::new(alloc)),
        report: MemorySink::new(alloc, Vec::new(alloc)),
    };
    let gate = Gathering::new(1, run.count);
    let status = status_of(rt, alloc, &words, &mut endpoints, &gate);
    Ok(status == 0 && gate.is_opened())
}

/// The same of the decoder, over a grey frame.
fn is_decoded_by<R: Threads + Wait + Sync>(
    rt: &R,
    alloc: Global,
    run: &Gathered,
) -> Result<bool, AllocError> {
    let grey = vec![in alloc; 128; run.lines.wrapping_mul(24) as usize]?;
    let flat = ["flat", "16", run.height, "3", "1"];
    let (_, stream) = run_over(rt, alloc, &flat, grey.to_vec(alloc)?, &OpenGate)?;
    let gate = Gathering::new(0, run.count);
    let decode = ["decode", "--workers", run.workers];
    let (status, frame) = run_over(rt, alloc, &decode, stream, &gate)?;
    Ok(status == 0 && gate.is_opened() && frame.as_slice() == grey.as_slice())
}

/// What a run of `make` comes to: its status, and what stands on output and on report.
#[derive(Drop)]
struct Written {
    status: u8,
    output: Vec<u8>,
    report: Vec<u8>,
}

/// Runs `make 1` on an output and a report whose calls with these numbers fail.
fn made<R: Threads + Wait + Sync>(
    rt: &R,
    alloc: Global,
    output: Vec<u64>,
    report: Vec<u64>,
) -> Result<Written, AllocError> {
    let mut words = Vec::new(alloc);
    words.push(String::from_str(alloc, "make")?)?;
    words.push(String::from_str(alloc, "1")?)?;
    let mut endpoints = Endpoints {
        input: MemorySource::new(Vec::new(alloc), Vec::new(alloc)),
        output: MemorySink::new(alloc, output),
        recon: MemoryFile::new(alloc, Vec::new(alloc)),
        report: MemorySink::new(alloc, report),
    };
    let status = status_of(rt, alloc, &words, &mut endpoints, &OpenGate);
    Ok(Written {
        status,
        output: endpoints.output.held().to_vec(alloc)?,
        report: endpoints.report.held().to_vec(alloc)?,
    })
}

/// Whether two runs give one stream and one line, with status 0.
fn are_equal(first: &Written, second: &Written) -> bool {
    first.status == 0
        && second.status == 0
        && first.output.as_slice() == second.output.as_slice()
        && first.report.as_slice() == second.report.as_slice()
}

/// Whether two runs of `make 1` give one stream and one line.
fn is_made_twice<R: Threads + Wait + Sync>(rt: &R, alloc: Global) -> Result<bool, AllocError> {
    let first = made(rt, alloc, Vec::new(alloc), Vec::new(alloc))?;
    let second = made(rt, alloc, Vec::new(alloc), Vec::new(alloc))?;
    Ok(
        are_equal(&first, &second)
            && !first.output.is_empty()
            && first
                .report
                .as_slice()
                .starts_with(b"make seed 1 frames 48 bytes ".as_slice()),
    )
}

/// Whether each call of the output and of the report of `make 1` that fails in turn is told by status 8: behind one of the
/// output the stream's first bytes stand there, behind one of the report all of them. Each endpoint has one call, so the
/// second one isn't made.
fn is_told_failing<R: Threads + Wait + Sync>(rt: &R, alloc: Global) -> Result<bool, AllocError> {
    let whole = made(rt, alloc, Vec::new(alloc), Vec::new(alloc))?;
    let unwritten = made(rt, alloc, vec![in alloc; 1]?, Vec::new(alloc))?;
    let unreported = made(rt, alloc, Vec::new(alloc), vec![in alloc; 1]?)?;
    let behind = made(rt, alloc, vec![in alloc; 2]?, vec![in alloc; 2]?)?;
    Ok(
        unwritten.status == 8
            && whole
                .output
                .as_slice()
                .starts_with(unwritten.output.as_slice())
            && unwritten.output.len() < whole.output.len()
            && unreported.status == 8
            && unreported.output.as_slice() == whole.output.as_slice()
            && whole
                .report
                .as_slice()
                .starts_with(unreported.report.as_slice())
            && are_equal(&whole, &behind),
    )
}

/// Prints a line on a run, and answers whether it was right.
fn told<R: Print>(rt: &R, name: &str, right: bool) -> anyhow::Result<bool> {
    if right {
        println!(rt; "ok {name}")?;
    } else {
        println!(rt; "WRONG {name}")?;
    }
    Ok(right)
}

fn main(rt: HostRuntime) -> anyhow::Result<ExitCode> {
    let mut all = true;
    for run in RUNS.iter() {
        let right = is_right(&rt, rt.alloc(), run)?;
        all = told(&rt, run.name, right)? && all;
    }
    let right = is_decoded_beside(&rt, rt.alloc())?;
    all = told(
        &rt,
        "two rows of a picture are decoded beside each other",
        right,
    )? && all;
    for run in GATHERED.iter() {
        let right = is_gathered(&rt, rt.alloc(), run)?;
        all = told(&rt, run.encoded, right)? && all;
        let right = is_decoded_by(&rt, rt.alloc(), run)?;
        all = told(&rt, run.decoded, right)? && all;
    }
    let right = is_made_twice(&rt, rt.alloc())?;
    all = told(&rt, "two runs of make give one stream", right)? && all;
    let right = is_told_failing(&rt, rt.alloc())?;
    all = told(&rt, "each call that fails in a run of make is told", right)? && all;
    Ok(if all {
        ExitCode::SUCCESS
    } else {
        ExitCode::FAILURE
    })
}
