//! Sums of differences of two blocks.
ghost use Rattle.std.specs.Prelude.{◌≡◌, ◌≤◌, ◌<◌, ◌+◌, ◌*◌, ◌↔◌, length, IsNone, IfSome};
ghost use Rattle.m2v_kernel.specs.Sums.{apart, sad};

use crate::lanes::{far_lanes, plus, total};

/// How far two samples lie apart.
#[inline(always)]
fn far(x: u8, y: u8) -> u32
    ensures value { result ≡ apart x y }
    ensures most { result ≤ 255 }
{
    (x as i32 - y as i32).unsigned_abs()
}

/// Four lines of sixteen samples at once.
#[inline(always)]
fn sad_four(a: &[u8], b: &[u8]) -> u32
    requires one { length a.now ≡ 64 }
    requires other { length b.now ≡ 64 }
    ensures sum { result ≡ sad a.now b.now }
    ensures most { result ≤ 16320 }
{
    let first = far_lanes(&a[0..16], &b[0..16]);
    let second = far_lanes(&a[16..32], &b[16..32]);
    let third = far_lanes(&a[32..48], &b[32..48]);
    let fourth = far_lanes(&a[48..64], &b[48..64]);
    total(plus(plus(first, second), plus(third, fourth)))
}

/// The sum of the absolute differences of two blocks of equally many samples, at most 256.
pub fn sad16(a: &[u8], b: &[u8]) -> u32
    requires same { length a.now ≡ length b.now }
    requires few { length a.now ≤ 256 }
    ensures value { result ≡ sad a.now b.now }
{
    let mut sum = 0;
    let mut at = 0;
    while at + 64 <= a.len() {
        sum += sad_four(&a[at..at + 64], &b[at..at + 64]);
        at += 64;
    }
    for i in at..a.len() {
        sum += far(a[i], b[i]);
    }
    sum
}

/// The same sum, or None where it is at least `limit`: a search that knows a better place needs no more.
pub fn sad16_until(a: &[u8], b: &[u8], limit: u32) -> Option<u32>
    requires same { length a.now ≡ length b.now }
    requires few { length a.now ≤ 256 }
    ensures none { IsNone result ↔ (limit ≤ sad a.now b.now) }
    ensures some { IfSome result (λ s. s ≡ sad a.now b.now) }
{
    let mut sum = 0;
    let mut at = 0;
    while at + 64 <= a.len() {
        sum += sad_four(&a[at..at + 64], &b[at..at + 64]);
        if sum >= limit {
            return None;
        }
        at += 64;
    }
    for i in at..a.len() {
        sum += far(a[i], b[i]);
    }
    if sum >= limit { None } else { Some(sum) }
}
