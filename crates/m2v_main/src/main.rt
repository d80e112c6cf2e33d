//! The program `puckerledge`: it makes the real endpoints, calls `run`, and ends with its status.
#![tactic(auto)]

use m2v_board::OpenGate;
use m2v_port::{FileSink, StdSink, StdSource};
use m2v_tool::run;
use std::alloc::Global;
use std::env::Env;
use std::process::ExitCode;
use std::{env, io};

/// The words behind the program's name; none where one of them isn't UTF-8, since such words mean as little.
fn words(rt: &(impl Env + Alloc<A = Global>)) -> io::Result<Vec<String>> {
    let mut words = Vec::new(rt.alloc());
    match env::args(rt) {
        Ok(all) => {
            for word in all.skip(1) {
                words.push(word)?;
            }
        }
        Err(e) => {
            if e.kind() != io::ErrorKind::InvalidData {
                return Err(e);
            }
        }
    }
    Ok(words)
}

fn main(rt: HostRuntime) -> ExitCode {
    let Ok(words) = words(&rt) else {
        return ExitCode::from(12);
    };
    let mut input = StdSource::new(rt.stdin());
    let mut output = StdSink::new(rt.stdout());
    let mut recon = FileSink::new(rt);
    let mut report = StdSink::new(rt.stderr());
    let status = run(
        &rt,
        rt.alloc(),
        &words,
        &mut input,
        &mut output,
        &mut recon,
        &mut report,
        &OpenGate,
    );
    ExitCode::from(status.code)
}
