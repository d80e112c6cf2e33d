// The standard streams: a trusted edge. No clause can say which bytes the system gives or takes, so these tell
// nothing of them, and a body that moves none would meet the contracts too. The tests look at that.
ghost use Rattle.std.specs.Prelude.{◌≡◌, ◌≤◌, [], length, IfOk, true, None};
ghost use Rattle.m2v_port.specs.Port.{Rose};

use crate::{PortError, Sink, Source};
use std::io;
use std::io::{ErrorKind, Print, Read};
use std::marker::Model;

/// Counts a fault and answers that the call failed. The count stays at the last value of a `u64`.
pub(crate) fn fault(faults: &mut u64) -> PortError
    ensures failed { result ≡ PortError.Failed }
    ensures rose { Rose faults.old faults.new }
    ensures later { faults.old ≤ faults.new }
{
    *faults = faults.saturating_add(1);
    PortError::Failed
}

/// Standard input, or any other reader.
#[derive(Drop)]
pub struct StdSource<I> {
    input: I,
    faults: u64,
}

// How often a read failed.
impl<I> Model for StdSource<I> {
    ghost use Rattle.std.specs.Prelude.{ℕ};

    ghost Value = { ℕ };

    ghost view = { λ s. s.faults };
}

impl<I> StdSource<I> {
    /// The source of this reader, as of `rt.stdin()`.
    pub fn new(input: I) -> Self
        ensures { result ≡ 0 }
    {
        StdSource { input, faults: 0 }
    }
}

impl<I: Read> Source for StdSource<I> {
    ghost left = { λ _. None };

    ghost faults = { λ s. s };

    ghost behind = { λ s. s };

    ghost lenders = { λ _. [] };

    fn read(&mut self, buf: &mut [u8]) -> Result<usize, PortError> {
        match read_retrying(&mut self.input, buf) {
            Ok(n) => Ok(n),
            Err(_) => Err(fault(&mut self.faults)),
        }
    }
}

// One read, tried again where a signal interrupts it.
fn read_retrying<I: Read>(input: &mut I, buf: &mut [u8]) -> io::Result<usize>
    ensures { IfOk result (λ n. n ≤ length buf.old) }
{
    for _ in 0..u64::MAX {
        match input.read(buf) {
            Err(e) if e.kind() == ErrorKind::Interrupted => {}
            answer => return answer,
        }
    }
    Err(io::Error::from(ErrorKind::Interrupted))
}

/// Standard output or error, or anything else that prints.
#[derive(Drop)]
pub struct StdSink<P> {
    output: P,
    faults: u64,
}

// How often a put failed.
impl<P> Model for StdSink<P> {
    ghost use Rattle.std.specs.Prelude.{ℕ};

    ghost Value = { ℕ };

    ghost view = { λ s. s.faults };
}

impl<P> StdSink<P> {
    /// The sink of this stream, as of `rt.stdout()` or `rt.stderr()`.
    pub fn new(output: P) -> Self
        ensures { result ≡ 0 }
    {
        StdSink { output, faults: 0 }
    }
}

impl<P: Print> Sink for StdSink<P> {
    ghost held = { λ _. None };

    ghost faults = { λ s. s };

    ghost ready = { λ _. true };

    ghost name = { λ _. None };

    // The whole piece is with the system where this answers `Ok`.
    fn put(&mut self, piece: &[u8]) -> Result<(), PortError> {
        match self.output.write_all(piece) {
            Ok(()) => Ok(()),
            Err(_) => Err(fault(&mut self.faults)),
        }
    }
}
