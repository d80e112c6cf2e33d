//! The best place among some lines and columns of a window, in half samples.
ghost use Rattle.std.specs.Prelude.{ℕ, ◌≡◌, ◌+◌, ◌-◌, ◌*◌, ◌≤◌, ◌⊎◌, length, map};
ghost use Rattle.std.specs.List.{range_with_len};
ghost use Rattle.m2v_search.specs.Least.{better, least};
ghost use Rattle.m2v_search.specs.Spots.{spot_sad, spots, IsSought};

use crate::difference::spot_sad_until;
use crate::spot::{Best, Span, Spot};

/// The better of the best so far and one place more.
#[inline(always)]
fn tried(block: &[u8], count: usize, window: &[u8], best: Best, spot: Spot) -> Best
    requires sought { IsSought count block.now window.now }
    requires y { spot.y + 2 * count ≤ 96 }
    requires x { spot.x ≤ 64 }
    requires known { best.sad ≡ spot_sad block.now count window.now best.spot }
    ensures spot { result.spot ≡ better (spot_sad block.now count window.now) best.spot spot }
    ensures sad { result.sad ≡ spot_sad block.now count window.now result.spot }
{
    match spot_sad_until(block, count, window, spot, best.sad) {
        Some(sad) => Best { spot, sad },
        None => best,
    }
}

/// The best of a place and of those in some columns of a line.
#[inline(always)]
fn scan_line(block: &[u8], count: usize, window: &[u8], y: u32, columns: Span, best: Best) -> Best
    requires sought { IsSought count block.now window.now }
    requires y { y + 2 * count ≤ 96 }
    requires some { columns.first ≤ columns.end }
    requires x { columns.end ≤ 65 }
    requires known { best.sad ≡ spot_sad block.now count window.now best.spot }
    ensures spot { result.spot ≡ least (spot_sad block.now count window.now) best.spot
        (map (λ x. record { y = 1 * y; x = 1 * x })
        (range_with_len columns.first (columns.end - columns.first))) }
    ensures sad { result.sad ≡ spot_sad block.now count window.now result.spot }
{
    let mut best = best;
    for x in columns.first..columns.end {
        let spot = Spot { y, x };
        best = tried(block, count, window, best, spot);
    }
    best
}

/// The best of a place and of those in some lines and columns, line by line and from left to right.
pub fn best_of(
    block: &[u8],
    count: usize,
    window: &[u8],
    lines: Span,
    columns: Span,
    best: Best,
) -> Best
    requires sought { IsSought count block.now window.now }
    requires lines { lines.first ≤ lines.end }
    requires columns { columns.first ≤ columns.end }
    requires y { lines.end + 2 * count ≤ 97 }
    requires x { columns.end ≤ 65 }
    requires known { best.sad ≡ spot_sad block.now count window.now best.spot }
    ensures spot { result.spot ≡ least (spot_sad block.now count window.now) best.spot
        (spots 1 lines columns) }
    ensures sad { result.sad ≡ spot_sad block.now count window.now result.spot }
{
    let mut best = best;
    for y in lines.first..lines.end {
        best = scan_line(block, count, window, y, columns, best);
    }
    best
}
