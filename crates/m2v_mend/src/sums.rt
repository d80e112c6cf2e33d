//! Sums of counts.
ghost use Rattle.std.specs.Prelude.{◌≡◌, ◌≤◌, ◌+◌, ◌^◌, IfOk};

use crate::Memory;
use std::alloc::AllocError;

/// The most that is counted where it is told in bits, far more than an input has.
const MOST: u64 = 1 << 60;

/// A sum of counts of what an input has. These are bounded by its length, so that it can't overflow; if it did, want of memory
/// would be told.
pub(crate) fn sum(a: u64, b: u64) -> Result<u64, Memory>
    ensures { IfOk result (λ s. s ≡ a + b) }
{
    match a.checked_add(b) {
        Some(s) => Ok(s),
        None => Err(AllocError),
    }
}

/// A sum of counts of bytes, which can be told in bits.
pub(crate) fn counted(a: u64, b: u64) -> Result<u64, Memory>
    ensures value { IfOk result (λ s. s ≡ a + b) }
    ensures most { IfOk result (λ s. s ≤ 2 ^ 60) }
{
    let both = sum(a, b)?;
    if both > MOST {
        return Err(AllocError);
    }
    Ok(both)
}
