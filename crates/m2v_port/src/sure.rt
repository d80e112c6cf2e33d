// Endpoints in memory that never fail: their count of faults is the constant 0.
ghost use Rattle.std.specs.Prelude.{◌≡◌, ◌↔◌, List, [], ℕ, length, take, drop, min, true, ◌++◌, if◌then◌else◌, IfOk, OnOk, OnErr, IsOkUnless, IsNone, IsTrue, IsFalse, Ok, Some, None, is_some, is_ok};
ghost use Rattle.std.specs.Option.{option_copied};

use crate::{NamedSink, PortError, Sink, Source};
use std::alloc::Global;
use std::marker::Model;

/// A source of bytes in memory. No read of it fails.
#[derive(Drop)]
pub struct SureSource {
    bytes: Vec<u8>,
    from: usize,
}

// The bytes that are left.
impl Model for SureSource {
    ghost use Rattle.std.specs.Prelude.{◌≤◌, List, ℕ, drop, vec_len};

    ghost Value = { List ℕ };

    ghost view = { λ s. drop s.from s.bytes.items };

    ghost invariant = { λ s. s.from ≤ vec_len s.bytes };
}

impl SureSource {
    /// A source of which all of these bytes are left.
    pub fn new(bytes: Vec<u8>) -> Self
        ensures { result ≡ bytes.items }
    {
        SureSource { bytes, from: 0 }
    }
}

impl Source for SureSource {
    ghost left = { λ s. Some s };

    ghost faults = { λ _. 0 };

    ghost behind = { λ _. 0 };

    ghost lenders = { λ _. [] };

    // As many bytes as are left and fit. The rest of the buffer stays.
    fn read(&mut self, buf: &mut [u8]) -> Result<usize, PortError>
        ensures value { result ≡ Ok (min (length buf.old) (length self.old)) }
        ensures moved { IfOk result (λ n. self.old ≡ take n buf.new ++ self.new) }
        ensures rest { IfOk result (λ n. drop n buf.new ≡ drop n buf.old) }
    {
        let n = buf.len().min(self.bytes.len() - self.from);
        let end = self.from + n;
        buf[..n].copy_from_slice(&self.bytes[self.from..end]);
        self.from = end;
        Ok(n)
    }
}

/// A sink in memory. No put fails, unless memory runs out.
#[derive(Drop)]
pub struct SureSink {
    bytes: Vec<u8>,
}

// The bytes that it holds.
impl Model for SureSink {
    ghost use Rattle.std.specs.Prelude.{List, ℕ};

    ghost Value = { List ℕ };

    ghost view = { λ s. s.bytes.items };
}

impl SureSink {
    /// A sink that holds nothing.
    pub fn new(alloc: Global) -> Self
        ensures { result ≡ [] }
    {
        SureSink {
            bytes: Vec::new(alloc),
        }
    }

    /// The bytes that it holds.
    pub fn held(&self) -> &[u8]
        ensures { result.now ≡ self.now }
    {
        &self.bytes
    }
}

impl Sink for SureSink {
    ghost held = { λ s. Some s };

    ghost faults = { λ _. 0 };

    ghost ready = { λ _. true };

    ghost name = { λ _. None };

    fn put(&mut self, piece: &[u8]) -> Result<(), PortError>
        ensures held { self.new ≡ (if is_ok result then self.old ++ piece.now else self.old) }
        ensures memory { IsOkUnless result PortError.Memory }
    {
        self.bytes.extend_from_slice(piece)?;
        Ok(())
    }
}

/// A named sink in memory. No call of it fails, unless memory runs out.
#[derive(Drop)]
pub struct SureFile {
    alloc: Global,
    bytes: SureSink,
    name: Option<String>,
}

impl Model for SureFile {
    ghost use Rattle.std.specs.Prelude.{string_bytes};
    ghost use Rattle.std.specs.Option.{option_map};
    ghost use Rattle.m2v_port.specs.Memory.{Named};

    ghost Value = { Named };

    ghost view = { λ s. record { held = s.bytes; name = option_map string_bytes s.name } };
}

impl SureFile {
    /// A sink that has no name yet and holds nothing.
    pub fn new(alloc: Global) -> Self
        ensures { result ≡ record { held = []; name = None } }
    {
        SureFile {
            alloc,
            bytes: SureSink::new(alloc),
            name: None,
        }
    }

    /// The bytes that it holds.
    pub fn held(&self) -> &[u8]
        ensures { result.now ≡ self.now.held }
    {
        self.bytes.held()
    }

    /// The name that it was given: none exactly where it isn't ready.
    pub fn name(&self) -> Option<&str>
        ensures value { option_copied result ≡ self.now.name }
        ensures none { IsNone result ↔ IsFalse (is_some self.now.name) }
    {
        match &self.name {
            Some(name) => Some(name.as_str()),
            None => None,
        }
    }
}

impl Sink for SureFile {
    ghost held = { λ s. Some s.held };

    ghost faults = { λ _. 0 };

    ghost ready = { λ s. is_some s.name };

    ghost name = { λ s. s.name };

    fn put(&mut self, piece: &[u8]) -> Result<(), PortError>
        requires { IsTrue (is_some self.old.name) }
        ensures held { self.new.held
            ≡ (if is_ok result then self.old.held ++ piece.now else self.old.held) }
        ensures name { self.new.name ≡ self.old.name }
        ensures memory { IsOkUnless result PortError.Memory }
    {
        self.bytes.put(piece)
    }
}

impl NamedSink for SureFile {
    fn open(&mut self, name: &str) -> Result<(), PortError>
        requires { IsFalse (is_some self.old.name) }
        ensures name { self.new.name ≡ (if is_ok result then Some name.now else None) }
        ensures held { self.new.held ≡ self.old.held }
        ensures memory { IsOkUnless result PortError.Memory }
    {
        self.name = Some(String::from_str(self.alloc, name)?);
        Ok(())
    }
}
