ghost use Rattle.std.specs.Prelude.{◌≡◌, ◌+◌, ◌-◌, ◌<◌, ◌≤◌, ◌++◌, [], length, take, drop, IfOk, OnErr, IsErrOf, Ok};
ghost use Rattle.m2v_port.specs.Port.{Rose, Moves, IsAtEnd};
ghost use Rattle.m2v_y4m.specs.Sources.{most_ahead};
ghost use Rattle.m2v_y4m.specs.Reading.{Refilled};

use m2v_port::{Memory, PortError, Source};
use std::alloc::Global;
use std::marker::Model;

/// How many bytes are held at most: more than a line.
const CHUNK: usize = 4096;

/// Bytes of a source that were read ahead and not given yet. Contracts see these.
#[derive(Drop)]
pub(crate) struct Chunk {
    bytes: Vec<u8>,
    at: usize,
    filled: usize,
}

impl Model for Chunk {
    ghost use Rattle.std.specs.Prelude.{◌≡◌, List, ℕ, ◌≤◌, length, drop, take};
    ghost use Rattle.m2v_y4m.specs.Sources.{most_ahead};

    ghost Value = { List ℕ };

    ghost view = { λ c. drop c.at (take c.filled c.bytes.items) };

    ghost invariant = { λ c. (c.at ≤ c.filled) × (c.filled ≤ length c.bytes.items)
        × (length c.bytes.items ≡ most_ahead) };
}

/// Moves the bytes from one place up to another to the front.
fn move_to_front(bytes: &mut [u8], at: usize, end: usize)
    requires order { at ≤ end }
    requires within { end ≤ length bytes.old }
    ensures front { take (end - at) bytes.new ≡ drop at (take end bytes.old) }
    ensures same { length bytes.new ≡ length bytes.old }
{
    bytes.copy_within(at..end, 0);
}

/// Moves the bytes from one place up to another to the front, and reads behind them. Answers how many bytes were read: 0 at
/// the end.
fn read_on<S: Source>(
    inner: &mut S,
    bytes: &mut [u8],
    at: usize,
    end: usize,
) -> Result<usize, PortError>
    requires order { at ≤ end }
    requires within { end ≤ length bytes.old }
    requires room { end - at < length bytes.old }
    ensures within { IfOk result (λ n. end - at + n ≤ length bytes.old) }
    ensures same { length bytes.new ≡ length bytes.old }
    ensures front { take (end - at) bytes.new ≡ drop at (take end bytes.old) }
    ensures moved { IfOk result (λ n. Moves (S.left inner.old) (take n (drop (end - at) bytes.new))
        (S.left inner.new)) }
    ensures end { result ≡ Ok 0 → IsAtEnd (S.left inner.new) }
    ensures err { OnErr result (S.left inner.new ≡ S.left inner.old) }
    ensures failed { IsErrOf result PortError.Failed
        → Rose (S.faults inner.old) (S.faults inner.new) }
    ensures faults { S.faults inner.old ≤ S.faults inner.new }
    ensures lenders { S.lenders inner.new ≡ S.lenders inner.old }
{
    move_to_front(bytes, at, end);
    inner.read(&mut bytes[end - at..])
}

impl Chunk {
    /// No byte yet.
    pub(crate) fn new(alloc: Global) -> Result<Chunk, Memory>
        ensures value { IfOk result (λ c. c ≡ []) }
    {
        Ok(Chunk {
            bytes: vec![in alloc; 0u8; CHUNK]?,
            at: 0,
            filled: 0,
        })
    }

    /// How many bytes there are.
    pub(crate) fn len(&self) -> usize
        ensures value { result ≡ length self.now }
        ensures within { result ≤ most_ahead }
    {
        self.filled - self.at
    }

    /// The bytes.
    pub(crate) fn bytes(&self) -> &[u8]
        ensures value { result.now ≡ self.now }
    {
        &self.bytes[self.at..self.filled]
    }

    /// Passes over so many bytes.
    pub(crate) fn pass(&mut self, n: usize)
        requires within { n ≤ length self.old }
        ensures value { self.new ≡ drop n self.old }
    {
        self.at += n;
    }

    /// Reads more bytes behind those that there are, where there is room. Answers how many: 0 at the end.
    pub(crate) fn more<S: Source>(&mut self, inner: &mut S) -> Result<usize, PortError>
        requires room { length self.old < most_ahead }
        ensures read { IfOk result (λ n. Refilled n self.old (S.left inner.old) self.new
            (S.left inner.new)) }
        ensures end { result ≡ Ok 0 → IsAtEnd (S.left inner.new) }
        ensures err { OnErr result (S.left inner.new ≡ S.left inner.old) }
        ensures same { OnErr result (self.new ≡ self.old) }
        ensures most { length self.new ≤ most_ahead }
        ensures failed { IsErrOf result PortError.Failed
            → Rose (S.faults inner.old) (S.faults inner.new) }
        ensures faults { S.faults inner.old ≤ S.faults inner.new }
        ensures lenders { S.lenders inner.new ≡ S.lenders inner.old }
    {
        let held = self.filled - self.at;
        let answer = read_on(inner, &mut self.bytes, self.at, self.filled);
        self.at = 0;
        self.filled = held;
        let n = answer?;
        self.filled = held + n;
        Ok(n)
    }
}
