//! Bytes on output, and why their writing ends early.
ghost use Rattle.std.specs.Prelude.{◌≡◌, replicate, IsTrue, IfErr, OnOk};
ghost use Rattle.m2v_port.specs.Ends.{change, SinkStays};
ghost use Rattle.m2v_port.specs.Port.{Grows};
ghost use Rattle.m2v_dec_piece.specs.Putting.{PutStops, named};
ghost use Rattle.m2v_dec_piece.specs.declared.answer.DecodeError.TheVariants as errors;

use crate::DecodeError;
use m2v_port::{PortError, Sink};

/// How many zero bytes are written at once.
const MOST: usize = 4096;

/// An error of an output, by one's own errors for its failure and for want of memory.
pub fn named<E: Copy>(e: PortError, failed: E, memory: E) -> E
    ensures { result ≡ named e failed memory }
{
    match e {
        PortError::Failed => failed,
        PortError::Memory => memory,
    }
}

impl From<PortError> for DecodeError {
    ghost from_gives = { λ e f. f ≡ named e errors.Write errors.Memory };

    fn from(e: PortError) -> DecodeError {
        named(e, DecodeError::Write, DecodeError::Memory)
    }
}

/// Writes bytes.
pub fn put<K: Sink>(bytes: &[u8], output: &mut K) -> Result<(), PortError>
    requires output { IsTrue (K.ready output.old) }
    ensures grown { OnOk result (Grows (K.held output.old) bytes.now (K.held output.new)) }
    ensures err { IfErr result (PutStops bytes.now (change K.held K.faults output.old output.new)) }
    ensures output { SinkStays K.ready K.name K.faults output.old output.new }
{
    output.put(bytes)
}

/// Writes zero bytes, by way of a buffer.
#[inline(never)]
fn put_buffered<K: Sink>(zeros: u64, output: &mut K) -> Result<(), PortError>
    requires output { IsTrue (K.ready output.old) }
    ensures grown { OnOk result (Grows (K.held output.old) (replicate zeros 0)
        (K.held output.new)) }
    ensures err { IfErr result (PutStops (replicate zeros 0)
        (change K.held K.faults output.old output.new)) }
    ensures output { SinkStays K.ready K.name K.faults output.old output.new }
{
    let buffer = [0u8; MOST];
    let mut left = zeros;
    while left > 0 {
        let n = left.min(MOST as u64);
        put(&buffer[..n as usize], output)?;
        left -= n;
    }
    Ok(())
}

/// Writes zero bytes. Most pieces have none that aren't kept, and want no buffer.
pub fn put_zeros<K: Sink>(zeros: u64, output: &mut K) -> Result<(), PortError>
    requires output { IsTrue (K.ready output.old) }
    ensures grown { OnOk result (Grows (K.held output.old) (replicate zeros 0)
        (K.held output.new)) }
    ensures err { IfErr result (PutStops (replicate zeros 0)
        (change K.held K.faults output.old output.new)) }
    ensures output { SinkStays K.ready K.name K.faults output.old output.new }
{
    if zeros == 0 {
        return Ok(());
    }
    put_buffered(zeros, output)
}
