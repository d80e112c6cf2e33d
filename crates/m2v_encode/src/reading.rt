//! Raw frames, read one by one.
ghost use Rattle.std.specs.Prelude.{◌≡◌, ℕ, ◌<◌, ◌≤◌, [], ◌∷◌, true, false, length, take, All, IfOk, IfErr, Ok};
ghost use Rattle.m2v_port.specs.Ends.{change};
ghost use Rattle.m2v_port.specs.Port.{Moves, IsAtEnd};
ghost use Rattle.m2v_encode.specs.Steps.{ReadStops};

use crate::answer::EncodeError;
use m2v_port::{PortError, Source, fill};

/// What stands in a slice of bytes is bytes, which no list says of itself.
fn are_bytes(bytes: &[u8])
    ensures { All (λ b. b < 256) bytes.now }
{}

/// Reads bytes of the next frame until they are all there or the input ends, and says how many there are.
pub(crate) fn read_bytes<S: Source>(input: &mut S, raw: &mut [u8]) -> Result<usize, EncodeError>
    ensures within { IfOk result (λ n. n ≤ length raw.old) }
    ensures moved { IfOk result
        (λ n. Moves (S.left input.old) (take n raw.new) (S.left input.new)) }
    ensures bytes { IfOk result (λ n. All (λ b. b < 256) raw.new) }
    ensures end { IfOk result (λ n. n < length raw.old → IsAtEnd (S.left input.new)) }
    ensures err { IfErr result (ReadStops (length raw.old)
        (change S.left S.faults input.old input.new)) }
    ensures input { S.faults input.old ≤ S.faults input.new }
    ensures behind { S.behind input.old ≤ S.behind input.new }
    ensures lenders { S.lenders input.new ≡ S.lenders input.old }
{
    match fill(input, raw) {
        Ok(read) => {
            are_bytes(raw);
            Ok(read)
        }
        Err(PortError::Failed) => Err(EncodeError::Read),
        Err(PortError::Memory) => Err(EncodeError::Memory),
    }
}

/// Whether a byte is left; it is read.
pub(crate) fn goes_on<S: Source>(input: &mut S) -> Result<bool, EncodeError>
    ensures more { result ≡ Ok true → (byte : ℕ) × (byte < 256)
        × Moves (S.left input.old) (byte ∷ []) (S.left input.new) }
    ensures none { result ≡ Ok false → Moves (S.left input.old) [] (S.left input.new)
        × IsAtEnd (S.left input.new) }
    ensures err { IfErr result (ReadStops 1 (change S.left S.faults input.old input.new)) }
    ensures input { S.faults input.old ≤ S.faults input.new }
    ensures behind { S.behind input.old ≤ S.behind input.new }
    ensures lenders { S.lenders input.new ≡ S.lenders input.old }
{
    let mut byte = [0u8];
    match fill(input, &mut byte) {
        Ok(read) => {
            are_bytes(&byte);
            Ok(read > 0)
        }
        Err(PortError::Failed) => Err(EncodeError::Read),
        Err(PortError::Memory) => Err(EncodeError::Memory),
    }
}
