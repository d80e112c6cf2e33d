// The lines of a table of cases.
use crate::bytes::{Stream, bytes_of, number_of};
use crate::case::{Case, Endpoint, Extent};
use std::alloc::{AllocError, AllocFailed, Global};
use std::error::Error;
use std::fmt;

/// What is wrong with a line.
#[derive(Clone, Copy, Debug, PartialEq, Eq)]
pub(crate) enum Problem {
    /// It says nothing that a table can say.
    NoKey,
    /// It stands before the first case or stream.
    NoCase,
    /// A stream of this name doesn't stand further up.
    NoStream,
    /// A word is no number.
    NoNumber,
    /// A word is no byte.
    NoPiece,
    /// A word is no endpoint.
    NoEndpoint,
    /// A change lies outside the bytes.
    NoPlace,
    /// A word is missing at its end.
    EndsEarly,
    /// Memory ran out.
    NoMemory,
}

impl From<AllocError> for Problem {
    fn from(_: AllocError) -> Problem {
        Problem::NoMemory
    }
}

impl<T: Drop> From<AllocFailed<T>> for Problem {
    fn from(_: AllocFailed<T>) -> Problem {
        Problem::NoMemory
    }
}

/// A line that isn't one of a table: its number, from 1, and what is wrong with it.
#[derive(Clone, Copy, Debug, PartialEq, Eq)]
pub(crate) struct TableError {
    line: usize,
    problem: Problem,
}

impl fmt::Display for TableError {
    fn fmt<W: fmt::Write>(&self, f: &mut fmt::Formatter<W>) -> fmt::Result {
        let (line, problem) = (self.line, self.problem);
        write!(f, "line {line} of the table: {problem:?}")
    }
}

impl Error for TableError {}

/// The lines so far.
#[derive(Drop)]
struct Table {
    streams: Vec<Stream>,
    cases: Vec<Case>,
}

/// An endpoint by its name.
fn endpoint_of(word: &str) -> Result<Endpoint, Problem> {
    match word {
        "input" => Ok(Endpoint::Input),
        "output" => Ok(Endpoint::Output),
        "recon" => Ok(Endpoint::Recon),
        "report" => Ok(Endpoint::Report),
        _ => Err(Problem::NoEndpoint),
    }
}

/// The words of a line.
fn words_of(alloc: Global, line: &str) -> Result<Vec<String>, AllocError> {
    let mut words = Vec::new(alloc);
    for word in line.split_whitespace() {
        words.push(String::from_str(alloc, word)?)?;
    }
    Ok(words)
}

impl Case {
    /// Takes what a line says of the run.
    fn take_run(&mut self, alloc: Global, key: &str, rest: &str) -> Result<(), Problem> {
        match key {
            "words" => self.words = words_of(alloc, rest)?,
            "each" => self.each = Some(endpoint_of(rest)?),
            "fail" => {
                let (endpoint, call) = rest.split_once(' ').ok_or(Problem::EndsEarly)?;
                let call = call.parse::<u64>().map_err(|_| Problem::NoNumber)?;
                self.failing.of(endpoint_of(endpoint)?).push(call)?;
            }
            "recon_name" => self.wanted.recon_name = Some(String::from_str(alloc, rest)?),
            _ => return self.take_wanted(key, rest),
        }
        Ok(())
    }

    /// Takes what a line says of what is wanted.
    fn take_wanted(&mut self, key: &str, rest: &str) -> Result<(), Problem> {
        let wanted = &mut self.wanted;
        match key {
            "status" => wanted.status = rest.parse::<u8>().map_err(|_| Problem::NoNumber)?,
            "report" => {
                wanted.report.extend_from_slice(rest.as_bytes())?;
                wanted.report.push(b'\n')?;
            }
            "prefix" => wanted.extent = Extent::Prefix {
                least: number_of(rest)?,
            },
            "length" => wanted.extent = Extent::Begun {
                length: number_of(rest)?,
            },
            "sum" => wanted.sum = Some(rest.parse::<u32>().map_err(|_| Problem::NoNumber)?),
            _ => return Err(Problem::NoKey),
        }
        Ok(())
    }
}

impl Table {
    /// Takes a line of bytes: more of the last stream, or of what the last case says of input, output or the place for
    /// a file beside the output.
    fn take_bytes(&mut self, alloc: Global, key: &str, rest: &str) -> Result<(), Problem> {
        let bytes = bytes_of(alloc, &self.streams, rest)?;
        if key == "bytes" {
            let stream = self.streams.last_mut().ok_or(Problem::NoCase)?;
            stream.bytes.extend_from_slice(&bytes)?;
            return Ok(());
        }
        let case = self.cases.last_mut().ok_or(Problem::NoCase)?;
        let into = match key {
            "input" => &mut case.input,
            "recon" => &mut case.wanted.recon,
            _ => &mut case.wanted.output,
        };
        into.extend_from_slice(&bytes)?;
        Ok(())
    }

    /// Takes a line: its first word is the key to what the others are.
    fn take(&mut self, alloc: Global, line: &str) -> Result<(), Problem> {
        let (key, rest) = line.split_once(' ').unwrap_or((line, ""));
        let rest = rest.trim();
        match key {
            "stream" => self.streams.push(Stream {
                name: String::from_str(alloc, rest)?,
                bytes: Vec::new(alloc),
            })?,
            "case" => self
                .cases
                .push(Case::begin(alloc, String::from_str(alloc, rest)?))?,
            "bytes" | "input" | "output" | "recon" => self.take_bytes(alloc, key, rest)?,
            _ => {
                let case = self.cases.last_mut().ok_or(Problem::NoCase)?;
                case.take_run(alloc, key, rest)?;
            }
        }
        Ok(())
    }
}

/// The cases of a table.
pub(crate) fn read_cases(alloc: Global, text: &str) -> Result<Vec<Case>, TableError> {
    let mut table = Table {
        streams: Vec::new(alloc),
        cases: Vec::new(alloc),
    };
    let mut number = 0usize;
    for line in text.lines() {
        number = number.saturating_add(1);
        let line = line.trim();
        if line.is_empty() || line.starts_with('#') {
            continue;
        }
        if let Err(problem) = table.take(alloc, line) {
            return Err(TableError {
                line: number,
                problem,
            });
        }
    }
    Ok(table.cases)
}
