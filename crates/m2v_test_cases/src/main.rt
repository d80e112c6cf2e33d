//! The program's whole work on small inputs in memory, held against a table of cases: from words and an input to status,
//! output and report. The table stands in the file `stdin`, which says how it is written.
#![tactic(auto)]

mod bytes;
mod case;
mod running;
mod table;
mod verdict;

use case::Case;
use std::alloc::Global;
use std::io;
use std::process::ExitCode;
use std::sync::Wait;
use std::thread::Threads;
use table::read_cases;
use verdict::first_mistake;

/// Runs a case and prints a line on it. Answers whether it gave what is wanted.
fn told<R: Threads + Wait + Sync + Print + Alloc<A = Global>>(
    rt: &R,
    case: &Case,
) -> anyhow::Result<bool> {
    let name = case.name.as_str();
    match first_mistake(rt, rt.alloc(), case)? {
        None => {
            println!(rt; "ok {name}")?;
            Ok(true)
        }
        Some(mistake) => {
            println!(rt; "WRONG {name}: {mistake}")?;
            Ok(false)
        }
    }
}

fn main(rt: HostRuntime) -> anyhow::Result<ExitCode> {
    let text = io::read_to_string(rt.alloc(), rt.stdin())?;
    let cases = read_cases(rt.alloc(), text.as_str())?;
    let mut right = 0usize;
    for case in cases.iter() {
        if told(&rt, case)? {
            right = right.saturating_add(1);
        }
    }
    let count = cases.len();
    println!(rt; "{right} of {count} cases are right")?;
    Ok(if right == count {
        ExitCode::SUCCESS
    } else {
        ExitCode::FAILURE
    })
}
