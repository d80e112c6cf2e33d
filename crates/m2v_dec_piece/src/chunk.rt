ghost use Rattle.std.specs.Prelude.{◌≡◌, ◌⊎◌, ℕ, ◌+◌, ◌≤◌, ◌<◌, [], List, length, drop, take, slice_index, IfOk, IfErr, OnErr, IsErrOf, Ok, Err, true, false};
ghost use Rattle.m2v_port.specs.Port.{Rose, Moves, IsAtEnd};
ghost use Rattle.m2v_dec_piece.specs.Reads.{Refilled};

use crate::{DecodeError, Memory};
use m2v_port::{PortError, Source};
use std::alloc::Global;
use std::marker::Model;

/// How many bytes are asked of a source at once.
const CHUNK: usize = 65536;

/// Bytes that were read of a source and not looked at yet. Contracts see these.
#[derive(Drop)]
pub struct Chunk {
    bytes: Vec<u8>,
    at: usize,
    filled: usize,
}

impl Model for Chunk {
    ghost use Rattle.std.specs.Prelude.{List, ℕ, ◌≤◌, ◌<◌, length, drop, take};

    ghost Value = { List ℕ };

    ghost view = { λ c. drop c.at (take c.filled c.bytes.items) };

    ghost invariant = { λ c. (c.at ≤ c.filled) × (c.filled ≤ length c.bytes.items)
        × (0 < length c.bytes.items) };
}

impl Chunk {
    /// No byte yet.
    pub fn new(alloc: Global) -> Result<Chunk, Memory>
        ensures { IfOk result (λ c. c ≡ []) }
    {
        Ok(Chunk {
            bytes: vec![in alloc; 0u8; CHUNK]?,
            at: 0,
            filled: 0,
        })
    }

    /// How many bytes there are.
    fn len(&self) -> usize
        ensures { result ≡ length self.now }
    {
        self.filled - self.at
    }

    /// The first byte.
    pub fn first(&self) -> u8
        requires { 0 < length self.now }
        ensures { result ≡ slice_index self.now 0 }
    {
        self.bytes[self.at]
    }

    /// All of the bytes.
    pub fn bytes(&self) -> &[u8]
        ensures { result.now ≡ self.now }
    {
        &self.bytes[self.at..self.filled]
    }

    /// Passes over so many bytes.
    pub fn pass(&mut self, n: usize)
        requires { n ≤ length self.old }
        ensures { self.new ≡ drop n self.old }
    {
        self.at += n;
    }

    /// Reads on where nothing is left. Answers how many bytes there are then, 0 at the end.
    #[tactic(auto, using(m2v_port::proofs::Runs::runs))]
    fn refill<S: Source>(&mut self, input: &mut S) -> Result<usize, DecodeError>
        requires { self.old ≡ [] }
        ensures length { IfOk result (λ n. n ≡ length self.new) }
        ensures moved { IfOk result (λ n. Moves (S.left input.old) self.new (S.left input.new)) }
        ensures end { result ≡ Ok 0 → IsAtEnd (S.left input.new) }
        ensures err { OnErr result (S.left input.new ≡ S.left input.old) }
        ensures failed { IsErrOf result DecodeError.Read
            → Rose (S.faults input.old) (S.faults input.new) }
        ensures only { IfErr result (λ e. (e ≡ DecodeError.Read) ⊎ (e ≡ DecodeError.Memory)) }
        ensures faults { S.faults input.old ≤ S.faults input.new }
    {
        self.at = 0;
        self.filled = 0;
        match input.read(&mut self.bytes) {
            Ok(n) => {
                self.filled = n;
                Ok(n)
            }
            Err(PortError::Failed) => Err(DecodeError::Read),
            Err(PortError::Memory) => Err(DecodeError::Memory),
        }
    }

    /// Reads on where no byte is left. Answers whether there is one.
    pub fn fill<S: Source>(&mut self, input: &mut S) -> Result<bool, DecodeError>
        ensures read { IfOk result (λ some. Refilled self.old (S.left input.old) self.new
            (S.left input.new)) }
        ensures some { result ≡ Ok true → 0 < length self.new }
        ensures end { result ≡ Ok false → (self.new ≡ []) × IsAtEnd (S.left input.new) }
        ensures err { OnErr result (S.left input.new ≡ S.left input.old) }
        ensures failed { IsErrOf result DecodeError.Read
            → Rose (S.faults input.old) (S.faults input.new) }
        ensures only { IfErr result (λ e. (e ≡ DecodeError.Read) ⊎ (e ≡ DecodeError.Memory)) }
        ensures faults { S.faults input.old ≤ S.faults input.new }
    {
        if self.len() > 0 {
            return Ok(true);
        }
        let n = self.refill(input)?;
        Ok(n > 0)
    }

    /// Passes over a byte.
    pub fn skip(&mut self)
        requires { 0 < length self.old }
        ensures { self.new ≡ drop 1 self.old }
    {
        self.at += 1;
    }
}
