// Whether runs give what is wanted of them.
use crate::case::{Case, Endpoint, Extent, Failing, Wanted};
use crate::running::{Answer, ran};
use std::alloc::{AllocError, Global};
use std::fmt;
use std::sync::Wait;
use std::thread::Threads;

/// More calls than a run of a case makes.
const MANY_CALLS: u64 = 100_000;

/// The numbers of workers with which a case of `decode` without options is run again: it gives the same by each of them.
const WORKERS: [&str; 4] = ["1", "2", "8", "16"];

/// The number of them where each call of an endpoint fails in turn.
const FAILING_WORKERS: [&str; 1] = ["4"];

/// A run that didn't give what is wanted.
#[derive(Drop)]
pub(crate) struct Mistake {
    /// The number of workers that the case doesn't name, where it was run again with one.
    workers: Option<&'static str>,
    /// The endpoint and the call that was to fail, where each fails in turn.
    failing: Option<(Endpoint, u64)>,
    wanted_status: u8,
    wanted_bytes: usize,
    wanted_report: String,
    status: u8,
    bytes: usize,
    report: String,
    /// How many first bytes of the output are the wanted ones.
    same: usize,
}

impl fmt::Display for Mistake {
    fn fmt<W: fmt::Write>(&self, f: &mut fmt::Formatter<W>) -> fmt::Result {
        if let Some(workers) = self.workers {
            write!(f, "with --workers {workers}: ")?;
        }
        if let Some((endpoint, call)) = self.failing {
            write!(f, "call {call} of {endpoint:?} fails: ")?;
        }
        let (status, bytes, report) = (self.wanted_status, self.wanted_bytes, &self.wanted_report);
        write!(f, "wanted {status}, {report:?} and {bytes} bytes, ")?;
        let (status, bytes, report) = (self.status, self.bytes, &self.report);
        write!(f, "got {status}, {report:?} and {bytes} bytes, ")?;
        let same = self.same;
        write!(f, "the first {same} as wanted")
    }
}

/// How many first bytes of two texts are the same.
fn same_bytes(a: &[u8], b: &[u8]) -> usize {
    a.iter().zip(b).take_while(|(x, y)| *x == *y).count()
}

/// The number of a text: each byte is added to 31 times the number of those before, modulo 2^32.
fn sum_of(bytes: &[u8]) -> u32 {
    let mut sum = 0u32;
    for byte in bytes {
        sum = sum.wrapping_mul(31).wrapping_add(u32::from(*byte));
    }
    sum
}

/// Whether the output is the one that is wanted.
fn is_output(wanted: &Wanted, output: &[u8]) -> bool {
    let fits = match wanted.extent {
        Extent::Whole => output == wanted.output.as_slice(),
        Extent::Prefix { least } => {
            least <= output.len() && wanted.output.as_slice().starts_with(output)
        }
        Extent::Begun { length } => { output.len() == length && output.starts_with(&wanted.output) }
    };
    match wanted.sum {
        Some(sum) => fits && sum_of(output) == sum,
        None => fits,
    }
}

/// Whether a name is the one that is wanted.
fn is_name(wanted: Option<&str>, name: Option<&str>) -> bool {
    match (wanted, name) {
        (Some(a), Some(b)) => a == b,
        (None, None) => true,
        _ => false,
    }
}

/// A name, where there is one.
fn name_in(name: &Option<String>) -> Option<&str> {
    match name {
        Some(name) => Some(name.as_str()),
        None => None,
    }
}

/// Whether the place for a file beside the output is as it is wanted.
fn is_recon(wanted: &Wanted, answer: &Answer) -> bool {
    answer.recon.as_slice() == wanted.recon.as_slice()
        && is_name(name_in(&wanted.recon_name), name_in(&answer.recon_name))
}

/// Whether it holds the first ones of the wanted bytes, and is open as it is wanted; where its own first call failed it
/// isn't open.
fn is_recon_at_a_fault(wanted: &Wanted, endpoint: Endpoint, call: u64, answer: &Answer) -> bool {
    let shut = endpoint == Endpoint::Recon && call == 1;
    let name = if shut {
        None
    } else {
        name_in(&wanted.recon_name)
    };
    wanted.recon.as_slice().starts_with(&answer.recon) && is_name(name, name_in(&answer.recon_name))
}

/// Whether a run gave what is wanted.
fn is_wanted(wanted: &Wanted, answer: &Answer) -> bool {
    answer.status == wanted.status
        && answer.report.as_slice() == wanted.report.as_slice()
        && is_output(wanted, &answer.output)
        && is_recon(wanted, answer)
}

/// Whether a run of which a call failed gave what such a run may give: a read fault or a write fault with a prefix of the
/// wanted output and of the wanted file beside it. Where a report fails, the status is that of a refusal, or a write fault
/// after success, and a prefix of the line stands.
fn is_wanted_at_a_fault(wanted: &Wanted, endpoint: Endpoint, call: u64, answer: &Answer) -> bool {
    let begun = wanted.output.as_slice().starts_with(&answer.output)
        && is_recon_at_a_fault(wanted, endpoint, call, answer);
    let report = answer.report.as_slice();
    match endpoint {
        Endpoint::Input => answer.status == 7 && report == b"read fault\n".as_slice() && begun,
        Endpoint::Output | Endpoint::Recon => answer.status == 8
            && report == b"write fault\n".as_slice()
            && begun,
        Endpoint::Report => {
            let status = if wanted.status == 0 { 8 } else { wanted.status };
            answer.status == status
                && wanted.report.as_slice().starts_with(report)
                && is_output(wanted, &answer.output)
                && is_recon(wanted, answer)
        }
    }
}

/// What a run gave in place of what is wanted.
fn mistake_of(
    alloc: Global,
    wanted: &Wanted,
    answer: &Answer,
    failing: Option<(Endpoint, u64)>,
) -> Result<Mistake, AllocError> {
    Ok(Mistake {
        workers: None,
        failing,
        wanted_status: wanted.status,
        wanted_bytes: wanted.output.len(),
        wanted_report: String::from_utf8_lossy(alloc, &wanted.report)?,
        status: answer.status,
        bytes: answer.output.len(),
        report: String::from_utf8_lossy(alloc, &answer.report)?,
        same: same_bytes(&wanted.output, &answer.output),
    })
}

/// Runs a case by these words once for each call of an endpoint, which fails, and once more with a call that isn't made. A
/// case that makes as many calls as none should is a mistake too.
fn mistake_at_a_fault<R: Threads + Wait + Sync>(
    rt: &R,
    alloc: Global,
    case: &Case,
    words: &[String],
    endpoint: Endpoint,
) -> Result<Option<Mistake>, AllocError> {
    for call in 1..MANY_CALLS {
        let mut failing = Failing::none(alloc);
        failing.of(endpoint).push(call)?;
        let answer = ran(rt, alloc, words, &case.input, &failing)?;
        let right = if answer.failed {
            is_wanted_at_a_fault(&case.wanted, endpoint, call, &answer)
        } else {
            is_wanted(&case.wanted, &answer)
        };
        if !right {
            let failing = Some((endpoint, call));
            return Ok(Some(mistake_of(alloc, &case.wanted, &answer, failing)?));
        }
        if !answer.failed {
            return Ok(None);
        }
    }
    let answer = ran(rt, alloc, words, &case.input, &Failing::none(alloc))?;
    let failing = Some((endpoint, MANY_CALLS));
    Ok(Some(mistake_of(alloc, &case.wanted, &answer, failing)?))
}

/// Runs a case by these words: none where it gives what is wanted, else the first run that doesn't.
fn mistake_by<R: Threads + Wait + Sync>(
    rt: &R,
    alloc: Global,
    case: &Case,
    words: &[String],
) -> Result<Option<Mistake>, AllocError> {
    if let Some(endpoint) = case.each {
        return mistake_at_a_fault(rt, alloc, case, words, endpoint);
    }
    let answer = ran(rt, alloc, words, &case.input, &case.failing)?;
    if is_wanted(&case.wanted, &answer) {
        return Ok(None);
    }
    Ok(Some(mistake_of(alloc, &case.wanted, &answer, None)?))
}

/// The numbers of workers with which a case is run again.
fn workers_of(case: &Case) -> &'static [&'static str] {
    let (first, count) = (case.words.first(), case.words.len());
    match first {
        Some(word) if word.as_str() == "decode" && count == 1 => match case.each {
            Some(_) => &FAILING_WORKERS,
            None => &WORKERS,
        },
        _ => &[],
    }
}

/// Words with a number of workers behind them.
fn with_workers(alloc: Global, words: &[String], workers: &str) -> Result<Vec<String>, AllocError> {
    let mut all = Vec::new(alloc);
    for word in words.iter() {
        all.push(word.clone()?)?;
    }
    all.push(String::from_str(alloc, "--workers")?)?;
    all.push(String::from_str(alloc, workers)?)?;
    Ok(all)
}

/// Runs a case, of `decode` with several numbers of workers too: none where each run gives what is wanted, else the first
/// one that doesn't.
pub(crate) fn first_mistake<R: Threads + Wait + Sync>(
    rt: &R,
    alloc: Global,
    case: &Case,
) -> Result<Option<Mistake>, AllocError> {
    if let Some(mistake) = mistake_by(rt, alloc, case, &case.words)? {
        return Ok(Some(mistake));
    }
    for workers in workers_of(case).iter() {
        let words = with_workers(alloc, &case.words, *workers)?;
        if let Some(mut mistake) = mistake_by(rt, alloc, case, &words)? {
            mistake.workers = Some(*workers);
            return Ok(Some(mistake));
        }
    }
    Ok(None)
}
