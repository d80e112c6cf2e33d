// Endpoints in memory of which some calls fail: those whose numbers, from 1, were given.
ghost use Rattle.std.specs.Prelude.{◌≡◌, ◌↔◌, ◌<◌, ◌^◌, List, [], ℕ, length, take, drop, min, true, ◌++◌, if◌then◌else◌, IfOk, OnOk, OnErr, IsErrOf, IsNone, IsTrue, IsFalse, Ok, Err, Some, None, is_some, is_ok};
ghost use Rattle.std.specs.Option.{option_copied};
ghost use Rattle.m2v_port.specs.Memory.{no_calls, next_fails, after_call};

use crate::calls::CallList;
use crate::{NamedSink, PortError, Sink, Source, SureFile, SureSink, SureSource};
use std::alloc::Global;
use std::marker::Model;

/// A source of bytes in memory of which some reads fail.
#[derive(Drop)]
pub struct MemorySource {
    bytes: SureSource,
    reads: CallList,
}

impl Model for MemorySource {
    ghost use Rattle.m2v_port.specs.Memory.{Feed};

    ghost Value = { Feed };

    ghost view = { λ s. record { left = s.bytes; calls = s.reads } };
}

impl MemorySource {
    /// A source of which all of these bytes are left. The reads whose numbers, from 1, stand in `fail` fail.
    pub fn new(bytes: Vec<u8>, fail: Vec<u64>) -> Self
        ensures { result ≡ record { left = bytes.items; calls = no_calls fail.items } }
    {
        MemorySource {
            bytes: SureSource::new(bytes),
            reads: CallList::new(fail),
        }
    }

    /// How many reads failed. A caller learns here that the count is far from the last value of a counter, so
    /// that a count that rose is greater than it was.
    pub fn faults(&self) -> u64
        ensures value { result ≡ self.now.calls.failed }
        ensures below { self.now.calls.failed < 2 ^ 63 }
    {
        self.reads.failed()
    }
}

impl Source for MemorySource {
    ghost left = { λ s. Some s.left };

    ghost faults = { λ s. s.calls.failed };

    ghost behind = { λ s. s.calls.failed };

    ghost lenders = { λ _. [] };

    // As many bytes as are left and fit. The rest of the buffer stays, and all of it after an error.
    fn read(&mut self, buf: &mut [u8]) -> Result<usize, PortError>
        ensures value { result ≡ (if next_fails self.old.calls then Err PortError.Failed
            else Ok (min (length buf.old) (length self.old.left))) }
        ensures moved { IfOk result (λ n. self.old.left ≡ take n buf.new ++ self.new.left) }
        ensures rest { IfOk result (λ n. drop n buf.new ≡ drop n buf.old) }
        ensures err { OnErr result (self.new.left ≡ self.old.left) }
        ensures same { OnErr result (buf.new ≡ buf.old) }
        ensures calls { self.new.calls ≡ after_call self.old.calls }
    {
        if self.reads.next_fails() {
            return Err(PortError::Failed);
        }
        self.bytes.read(buf)
    }
}

/// A sink in memory of which some puts fail.
#[derive(Drop)]
pub struct MemorySink {
    bytes: SureSink,
    puts: CallList,
}

impl Model for MemorySink {
    ghost use Rattle.m2v_port.specs.Memory.{Store};

    ghost Value = { Store };

    ghost view = { λ s. record { held = s.bytes; calls = s.puts } };
}

impl MemorySink {
    /// A sink that holds nothing. The puts whose numbers, from 1, stand in `fail` fail.
    pub fn new(alloc: Global, fail: Vec<u64>) -> Self
        ensures { result ≡ record { held = []; calls = no_calls fail.items } }
    {
        MemorySink {
            bytes: SureSink::new(alloc),
            puts: CallList::new(fail),
        }
    }

    /// The bytes that it holds.
    pub fn held(&self) -> &[u8]
        ensures { result.now ≡ self.now.held }
    {
        self.bytes.held()
    }

    /// How many puts failed: far fewer than the last value of a counter.
    pub fn faults(&self) -> u64
        ensures value { result ≡ self.now.calls.failed }
        ensures below { self.now.calls.failed < 2 ^ 63 }
    {
        self.puts.failed()
    }
}

impl Sink for MemorySink {
    ghost held = { λ s. Some s.held };

    ghost faults = { λ s. s.calls.failed };

    ghost ready = { λ _. true };

    ghost name = { λ _. None };

    // A put that fails, or has no memory, appends nothing.
    fn put(&mut self, piece: &[u8]) -> Result<(), PortError>
        ensures held { self.new.held
            ≡ (if is_ok result then self.old.held ++ piece.now else self.old.held) }
        ensures failed { IsErrOf result PortError.Failed ↔ IsTrue (next_fails self.old.calls) }
        ensures calls { self.new.calls ≡ after_call self.old.calls }
    {
        if self.puts.next_fails() {
            return Err(PortError::Failed);
        }
        self.bytes.put(piece)
    }
}

/// A named sink in memory of which some calls fail.
#[derive(Drop)]
pub struct MemoryFile {
    file: SureFile,
    calls: CallList,
}

impl Model for MemoryFile {
    ghost use Rattle.m2v_port.specs.Memory.{NamedStore};

    ghost Value = { NamedStore };

    ghost view = { λ s. record { held = s.file.held; name = s.file.name; calls = s.calls } };
}

impl MemoryFile {
    /// A sink that has no name yet and holds nothing. The calls of `open` and `put` whose numbers, from 1, stand
    /// in `fail` fail.
    pub fn new(alloc: Global, fail: Vec<u64>) -> Self
        ensures { result ≡ record { held = []; name = None; calls = no_calls fail.items } }
    {
        MemoryFile {
            file: SureFile::new(alloc),
            calls: CallList::new(fail),
        }
    }

    /// The bytes that it holds.
    pub fn held(&self) -> &[u8]
        ensures { result.now ≡ self.now.held }
    {
        self.file.held()
    }

    /// The name that it was given: none exactly where it isn't ready.
    pub fn name(&self) -> Option<&str>
        ensures value { option_copied result ≡ self.now.name }
        ensures none { IsNone result ↔ IsFalse (is_some self.now.name) }
    {
        self.file.name()
    }

    /// How many calls failed: far fewer than the last value of a counter.
    pub fn faults(&self) -> u64
        ensures value { result ≡ self.now.calls.failed }
        ensures below { self.now.calls.failed < 2 ^ 63 }
    {
        self.calls.failed()
    }
}

impl Sink for MemoryFile {
    ghost held = { λ s. Some s.held };

    ghost faults = { λ s. s.calls.failed };

    ghost ready = { λ s. is_some s.name };

    ghost name = { λ s. s.name };

    // A put that fails, or has no memory, appends nothing.
    fn put(&mut self, piece: &[u8]) -> Result<(), PortError>
        requires { IsTrue (is_some self.old.name) }
        ensures held { self.new.held
            ≡ (if is_ok result then self.old.held ++ piece.now else self.old.held) }
        ensures name { self.new.name ≡ self.old.name }
        ensures failed { IsErrOf result PortError.Failed ↔ IsTrue (next_fails self.old.calls) }
        ensures calls { self.new.calls ≡ after_call self.old.calls }
    {
        if self.calls.next_fails() {
            return Err(PortError::Failed);
        }
        self.file.put(piece)
    }
}

impl NamedSink for MemoryFile {
    fn open(&mut self, name: &str) -> Result<(), PortError>
        requires { IsFalse (is_some self.old.name) }
        ensures name { self.new.name ≡ (if is_ok result then Some name.now else None) }
        ensures held { self.new.held ≡ self.old.held }
        ensures failed { IsErrOf result PortError.Failed ↔ IsTrue (next_fails self.old.calls) }
        ensures calls { self.new.calls ≡ after_call self.old.calls }
    {
        if self.calls.next_fails() {
            return Err(PortError::Failed);
        }
        self.file.open(name)
    }
}
