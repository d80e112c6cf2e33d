ghost use Rattle.std.specs.Prelude.{◌≡◌, ℕ, ◌+◌, ◌<◌, ◌≤◌, IfSome, IsNone, MatchOption, length};
ghost use Rattle.m2v_bits.specs.Bits.{IsStartCode};

use crate::pairs::before_pair;

/// The least place from `from` on where two zeros stand together, or that of the last byte.
#[inline(always)]
fn next_pair(bytes: &[u8], from: usize) -> usize
    requires { from ≤ length bytes.now }
    ensures onward { from ≤ result }
    ensures none { (k : ℕ) → from ≤ k → k < result → IsStartCode bytes.now k → ⊥ }
{
    let rest = &bytes[from..];
    if rest.len() == 0 {
        return from;
    }
    from + before_pair(rest, rest.len() - 1)
}

/// The least place at or after `from` where the prefix 00 00 01 of a start code stands (clause 5.2.3),
/// in bytes, or nothing where none stands there.
pub fn next_start_code(bytes: &[u8], from: usize) -> Option<usize>
    ensures found { IfSome result (λ i. (from ≤ i) × IsStartCode bytes.now i) }
    ensures least { IfSome result (λ i. (k : ℕ) → from ≤ k → k < i → IsStartCode bytes.now k → ⊥) }
    ensures none { IsNone result → (k : ℕ) → from ≤ k → IsStartCode bytes.now k → ⊥ }
{
    let mut i = from;
    while i < bytes.len() && bytes.len() - i > 2 {
        let third = bytes[i + 2];
        if third == 1 && bytes[i] == 0 && bytes[i + 1] == 0 {
            return Some(i);
        }
        // Where the third byte isn't 0, no prefix begins at it or at the place before it either.
        i = if third == 0 {
            i + 1
        } else {
            next_pair(bytes, i + 3)
        };
    }
    None
}
