// Reading in wholes: a source gives as few bytes in a call as it likes.
ghost use Rattle.std.specs.Prelude.{◌≡◌, ◌<◌, ◌≤◌, length, take, IfOk, OnErr, IsErrOf};
ghost use Rattle.m2v_port.specs.Port.{Rose, Moves, MovesFewer, IsAtEnd};

use crate::{PortError, Source};

/// Reads until the buffer is full or the input ends, and answers how many bytes it has then. It stands here since
/// every crate that reads frames needs it. After an error the bytes read in this call are lost.
#[tactic(auto, using(crate::proofs::Runs::runs))]
pub fn fill<S: Source>(input: &mut S, buf: &mut [u8]) -> Result<usize, PortError>
    ensures within { IfOk result (λ n. n ≤ length buf.old) }
    ensures moved { IfOk result
        (λ n. Moves (S.left input.old) (take n buf.new) (S.left input.new)) }
    ensures end { IfOk result (λ n. n < length buf.old → IsAtEnd (S.left input.new)) }
    ensures err { OnErr result (MovesFewer (S.left input.old) (length buf.old) (S.left input.new)) }
    ensures failed { IsErrOf result PortError.Failed
        → Rose (S.faults input.old) (S.faults input.new) }
    ensures faults { S.faults input.old ≤ S.faults input.new }
    ensures behind { S.behind input.old ≤ S.behind input.new }
    ensures lenders { S.lenders input.new ≡ S.lenders input.old }
{
    let mut filled = 0;
    while filled < buf.len() {
        let n = input.read(&mut buf[filled..])?;
        if n == 0 {
            break;
        }
        filled += n;
    }
    Ok(filled)
}
