//! The best place of a window: in whole samples first, and then half a sample around it.
ghost use Rattle.std.specs.Prelude.{◌≡◌, ◌+◌, ◌-◌, ◌*◌, ◌≤◌, ◌⊎◌, length, slice_index};
ghost use Rattle.m2v_search.specs.Bounds.{AreSumsFor};
ghost use Rattle.m2v_search.specs.Spots.{spot_sad, span_of, whole_spot, half_spot, IsNear, IsSought};

use crate::difference::sad_of;
use crate::passing::best_by_bounds;
use crate::scan::best_of;
use crate::scratch::{Likely, Surroundings, with_found};
use crate::spot::{Area, Best, Places, Spot, within_reach};

/// The best place of the window: of all in whole samples, the middle first, and then of those half a sample around it. The
/// one in whole samples is a likely place for later searches.
pub fn best_spot(
    block: &[u8],
    count: u32,
    around: &Surroundings,
    area: Area,
    across: u32,
    down: u32,
    likely: &mut Likely,
) -> Best
    requires sought { IsSought count block.now around.now.window }
    requires sums { let lines = span_of count down area.top area.bottom count in
        AreSumsFor count (slice_index around.now.window) lines.first (lines.end + count - 8)
        (slice_index around.now.sums) }
    requires across { across ≤ 15 }
    requires down { down + 1 ≤ count }
    requires top { area.top ≤ count }
    requires bottom { 2 * count ≤ area.bottom }
    requires left { area.left ≤ 16 }
    requires right { 32 ≤ area.right }
    requires high { area.bottom ≤ 3 * count }
    requires wide { area.right ≤ 48 }
    ensures spot { result.spot ≡ half_spot (spot_sad block.now count around.now.window) count area
        (whole_spot (spot_sad block.now count around.now.window) count area across down) }
    ensures sad { result.sad ≡ spot_sad block.now count around.now.window result.spot }
    ensures near { IsNear count area (2 * across + 1) (2 * down + 1) result.spot }
{
    let spot = Spot {
        y: 2 * count,
        x: 32,
    };
    let middle = Best {
        spot,
        sad: sad_of(block, count as usize, &around.window, spot),
    };
    let lines = within_reach(count, down, area.top, area.bottom, count);
    let columns = within_reach(16, across, area.left, area.right, 16);
    let places = Places { lines, columns };
    let best = best_by_bounds(block, count as usize, around, places, *likely, middle);
    *likely = with_found(*likely, best.spot);
    best_half(
        block,
        count,
        &around.window,
        area,
        2 * across,
        2 * down,
        best,
    )
}

/// The best place half a sample around one, that one first.
fn best_half(
    block: &[u8],
    count: u32,
    window: &[u8],
    area: Area,
    across: u32,
    down: u32,
    best: Best,
) -> Best
    requires sought { IsSought count block.now window.now }
    requires across { across ≤ 30 }
    requires down { down + 2 ≤ 2 * count }
    requires high { area.bottom ≤ 3 * count }
    requires wide { area.right ≤ 48 }
    requires near { IsNear count area across down best.spot }
    requires known { best.sad ≡ spot_sad block.now count window.now best.spot }
    ensures spot { result.spot ≡ half_spot (spot_sad block.now count window.now) count area
        best.spot }
    ensures sad { result.sad ≡ spot_sad block.now count window.now result.spot }
    ensures near { IsNear count area (across + 1) (down + 1) result.spot }
{
    let Spot { y, x } = best.spot;
    let lines = within_reach(y, 1, 2 * area.top, 2 * area.bottom, 2 * count);
    let columns = within_reach(x, 1, 2 * area.left, 2 * area.right, 32);
    best_of(block, count as usize, window, lines, columns, best)
}
