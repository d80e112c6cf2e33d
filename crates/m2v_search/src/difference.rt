//! The difference of a block at a place of the window.
ghost use Rattle.std.specs.Prelude.{◌≡◌, ◌+◌, ◌*◌, ◌%◌, ◌≤◌, ◌⊎◌, ◌↔◌, IsNone, IfSome, length};
ghost use Rattle.m2v_search.specs.Spots.{spot_sad, IsSought};

use crate::half::half_sad;
use crate::spot::Spot;
use m2v_kernel::sad_at_until;

/// The sum of differences at a place, or None where it is at least `limit`.
#[inline(always)]
pub fn spot_sad_until(
    block: &[u8],
    count: usize,
    window: &[u8],
    spot: Spot,
    limit: u32,
) -> Option<u32>
    requires sought { IsSought count block.now window.now }
    requires y { spot.y + 2 * count ≤ 96 }
    requires x { spot.x ≤ 64 }
    ensures none { IsNone result ↔ (limit ≤ spot_sad block.now count window.now spot) }
    ensures some { IfSome result (λ s. s ≡ spot_sad block.now count window.now spot) }
{
    if spot.y % 2 + spot.x % 2 == 0 {
        let place = (spot.y / 2 * 48 + spot.x / 2) as usize;
        sad_at_until(block, count, window, place, 48, limit)
    } else {
        half_sad_until(block, count, window, spot, limit)
    }
}

/// The same between samples.
#[inline(never)]
fn half_sad_until(block: &[u8], count: usize, window: &[u8], spot: Spot, limit: u32) -> Option<u32>
    requires sought { IsSought count block.now window.now }
    requires y { spot.y + 2 * count ≤ 96 }
    requires x { spot.x ≤ 64 }
    requires half { 1 ≤ spot.y % 2 + spot.x % 2 }
    ensures none { IsNone result ↔ (limit ≤ spot_sad block.now count window.now spot) }
    ensures some { IfSome result (λ s. s ≡ spot_sad block.now count window.now spot) }
{
    let sad = half_sad(block, count, window, spot);
    if sad >= limit { None } else { Some(sad) }
}

/// The sum of differences at whole samples.
pub fn sad_of(block: &[u8], count: usize, window: &[u8], spot: Spot) -> u32
    requires sought { IsSought count block.now window.now }
    requires y { spot.y + 2 * count ≤ 96 }
    requires x { spot.x ≤ 64 }
    requires line { spot.y % 2 ≡ 0 }
    requires column { spot.x % 2 ≡ 0 }
    ensures value { result ≡ spot_sad block.now count window.now spot }
{
    // no sum is as large as this limit
    match spot_sad_until(block, count, window, spot, u32::MAX) {
        Some(sad) => sad,
        None => u32::MAX,
    }
}
