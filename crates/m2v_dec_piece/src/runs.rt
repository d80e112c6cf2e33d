//! Bytes that are taken at once.
ghost use Rattle.std.specs.Prelude.{◌≡◌, ◌+◌, ◌≤◌, ◌^◌, ◌++◌, length, take, replicate, OnOk};
ghost use Rattle.m2v_dec_piece.specs.Cutting.{IsRun};

use crate::Memory;
use m2v_model::bits::before_pair;

/// How many bytes stand before the first pair of zeros, at most so many, without a zero that ends them.
pub fn run_of(bytes: &[u8], most: usize) -> usize
    ensures within { result ≤ length bytes.now }
    ensures most { result ≤ most }
    ensures run { IsRun (take result bytes.now) }
{
    let end = bytes.len().min(most);
    if end == 0 {
        return 0;
    }
    let n = before_pair(bytes, end - 1);
    if bytes[n] == 0 {
        return n;
    }
    n + 1
}

/// Appends so many zero bytes, and others.
pub fn append_all(bytes: &mut Vec<u8>, zeros: u64, others: &[u8]) -> Result<(), Memory>
    requires { length bytes.old.items + zeros ≤ 2 ^ 36 }
    ensures { OnOk result (bytes.new.items ≡ (bytes.old.items ++ replicate zeros 0) ++ others.now) }
{
    if zeros > 0 {
        let n = bytes.len() + zeros as usize;
        bytes.resize(n, 0)?;
    }
    bytes.extend_from_slice(others)?;
    Ok(())
}
