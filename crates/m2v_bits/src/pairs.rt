//! Pairs of zeros. Few bytes of a stream begin one, so most are passed over 16 at once.
ghost use Rattle.std.specs.Prelude.{◌≡◌, ◌+◌, ◌<◌, ◌≤◌, length, slice_index};
ghost use Rattle.m2v_bits.specs.Bits.{HasNoPair};

/// The least of 16 numbers: each the greater one of a byte and the next.
#[inline(always)]
fn least_of(group: &[u8]) -> u8
    requires { length group.now ≡ 17 }
    ensures { 0 < result → HasNoPair 16 group.now }
{
    let mut least = 255;
    for j in 0..16 {
        least = group[j].max(group[j + 1]).min(least);
    }
    least
}

/// How many bytes stand in groups of 16 in which no pair of zeros begins, from the first on, at most so many.
#[inline(always)]
fn in_groups(bytes: &[u8], end: usize) -> usize
    requires { end < length bytes.now }
    ensures within { result ≤ end }
    ensures none { HasNoPair result bytes.now }
{
    for group in 0..end / 16 {
        if least_of(&bytes[16 * group..16 * group + 17]) == 0 {
            return 16 * group;
        }
    }
    end / 16 * 16
}

/// How many bytes stand before the first pair of zeros, at most so many.
#[inline(always)]
pub fn before_pair(bytes: &[u8], end: usize) -> usize
    requires { end < length bytes.now }
    ensures within { result ≤ end }
    ensures none { HasNoPair result bytes.now }
    ensures pair { result < end
        → slice_index bytes.now result + slice_index bytes.now (result + 1) ≡ 0 }
{
    let from = in_groups(bytes, end);
    for n in from..end {
        if bytes[n].max(bytes[n + 1]) == 0 {
            return n;
        }
    }
    end
}
