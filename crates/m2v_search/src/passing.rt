//! The search in whole samples. A place whose bound is no less than the best so far is passed over without a look at its
//! samples, and likely places are looked at first, so that a limit is low from the start.
ghost use Rattle.std.specs.Prelude.{ℕ, ◌≡◌, ◌+◌, ◌-◌, ◌*◌, ◌/◌, ◌≤◌, ◌<◌, ◌⊎◌, min, length, map, slice_index};
ghost use Rattle.std.specs.List.{range_with_len};
ghost use Rattle.m2v_search.specs.Least.{better, least};
ghost use Rattle.m2v_search.specs.Spots.{spot_sad, spots, IsSought, ArePlaces};
ghost use Rattle.m2v_search.specs.Bounds.{cut, AreSumsFor, IsEnough};

use crate::difference::spot_sad_until;
use crate::far::line_bounds;
use crate::marks::{bits_from, first_mark, without};
use crate::parts::block_parts;
use crate::scratch::{Likely, Surroundings};
use crate::spot::{Best, Places, Span, Spot};

/// The best place so far, and below what another one must lie to be better: its difference and a limit, the lower of both.
#[derive(Clone, Copy)]
struct SoFar {
    best: Best,
    below: u32,
}

/// Places of a line.
#[derive(Clone, Copy)]
struct Row {
    y: u32,
    columns: Span,
}

/// The best so far, where it is a place that was looked at just now. Few are, so this stays out of the loop.
#[cold]
#[inline(never)]
fn found_at(spot: Spot, sad: u32) -> SoFar
    ensures spot { result.best.spot ≡ spot }
    ensures sad { result.best.sad ≡ sad }
    ensures below { result.below ≡ sad }
{
    SoFar {
        best: Best { spot, sad },
        below: sad,
    }
}

/// The better of the best so far and one place more, as long as they lie below a limit.
#[inline(always)]
fn tried_below(
    block: &[u8],
    count: usize,
    window: &[u8],
    so_far: SoFar,
    spot: Spot,
    limit: u32,
) -> SoFar
    requires sought { IsSought count block.now window.now }
    requires y { spot.y + 2 * count ≤ 96 }
    requires x { spot.x ≤ 64 }
    requires known { so_far.best.sad ≡ spot_sad block.now count window.now so_far.best.spot }
    requires below { so_far.below ≡ min so_far.best.sad limit }
    ensures spot { result.best.spot
        ≡ better (cut limit (spot_sad block.now count window.now)) so_far.best.spot spot }
    ensures sad { result.best.sad ≡ spot_sad block.now count window.now result.best.spot }
    ensures below { result.below ≡ min result.best.sad limit }
    ensures lower { result.below ≤ so_far.below }
{
    match spot_sad_until(block, count, window, spot, so_far.below) {
        Some(sad) => found_at(spot, sad),
        None => so_far,
    }
}

/// The lower of two numbers.
#[inline(always)]
fn lower(a: u32, b: u32) -> u32
    ensures { result ≡ min a b }
{
    if a < b { a } else { b }
}

/// The best so far and those in some columns of a line, as long as they lie below a limit. By lanes it is found at which
/// places the bound lies below the best so far: only these are looked at.
#[inline(always)]
fn passed_line(
    block: &[u8],
    count: usize,
    window: &[u8],
    row: Row,
    bounds: &[u16; 32],
    limit: u32,
    so_far: SoFar,
) -> SoFar
    requires sought { IsSought count block.now window.now }
    requires y { row.y + count ≤ 48 }
    requires some { row.columns.first ≤ row.columns.end }
    requires x { row.columns.end ≤ 32 }
    requires most { (k : ℕ) → k < 32 → slice_index bounds.now k ≤ 65280 }
    requires bounds { (x : ℕ) → row.columns.first ≤ x → x < row.columns.end
        → slice_index bounds.now x ≤ spot_sad block.now count window.now
        (record { y = 2 * row.y; x = 2 * x }) }
    requires known { so_far.best.sad ≡ spot_sad block.now count window.now so_far.best.spot }
    requires below { so_far.below ≡ min so_far.best.sad limit }
    ensures spot { result.best.spot
        ≡ least (cut limit (spot_sad block.now count window.now)) so_far.best.spot
        (map (λ x. record { y = 2 * row.y; x = 2 * x })
        (range_with_len row.columns.first (row.columns.end - row.columns.first))) }
    ensures sad { result.best.sad ≡ spot_sad block.now count window.now result.best.spot }
    ensures below { result.below ≡ min result.best.sad limit }
{
    let mut so_far = so_far;
    let mut left = bits_from(bounds, so_far.below, row.columns.first);
    let mut x = first_mark(left);
    while x < row.columns.end {
        let spot = Spot {
            y: 2 * row.y,
            x: 2 * x,
        };
        so_far = tried_below(block, count, window, so_far, spot, limit);
        left = without(left, x);
        x = first_mark(left);
    }
    so_far
}

/// The best of a place and of those in some lines and columns, line by line and from left to right, as long as they lie
/// below a limit. It stands in its caller once for each count, so that no loop in it asks for that.
#[inline(always)]
fn passed(
    block: &[u8],
    count: usize,
    window: &[u8],
    sums: &[u16; 1920],
    places: Places,
    limit: u32,
    best: Best,
) -> Best
    requires sought { IsSought count block.now window.now }
    requires known_sums { AreSumsFor count (slice_index window.now) places.lines.first
        (places.lines.end + count - 8) (slice_index sums.now) }
    requires lines { places.lines.first ≤ places.lines.end }
    requires columns { places.columns.first ≤ places.columns.end }
    requires y { places.lines.end ≤ 2 * count }
    requires x { places.columns.end ≤ 32 }
    requires known { best.sad ≡ spot_sad block.now count window.now best.spot }
    ensures spot { result.spot ≡ least (cut limit (spot_sad block.now count window.now)) best.spot
        (spots 2 places.lines places.columns) }
    ensures sad { result.sad ≡ spot_sad block.now count window.now result.spot }
{
    let parts = block_parts(block, count);
    let below = lower(best.sad, limit);
    let mut so_far = SoFar { best, below };
    for y in places.lines.first..places.lines.end {
        let bounds = line_bounds(window, sums, count, y as usize, parts);
        let row = Row {
            y,
            columns: places.columns,
        };
        so_far = passed_line(block, count, window, row, &bounds, limit, so_far);
    }
    so_far.best
}

/// The one of some lines or columns that is the nearest to a number.
#[inline(always)]
fn nearest(span: Span, at: u32) -> u32
    requires some { span.first < span.end }
    ensures first { span.first ≤ result }
    ensures end { result < span.end }
{
    at.max(span.first).min(span.end - 1)
}

/// A limit as another one, lower if a place or the one that is the nearest to it lies below that.
#[inline(always)]
fn limit_by(
    block: &[u8],
    count: usize,
    window: &[u8],
    places: Places,
    place: Spot,
    best: Best,
    limit: u32,
) -> u32
    requires sought { IsSought count block.now window.now }
    requires places { ArePlaces count places }
    requires enough { IsEnough (spot_sad block.now count window.now) best.spot
        (spots 2 places.lines places.columns) limit }
    ensures enough { IsEnough (spot_sad block.now count window.now) best.spot
        (spots 2 places.lines places.columns) result }
{
    let _best = best;
    let spot = Spot {
        y: 2 * nearest(places.lines, place.y),
        x: 2 * nearest(places.columns, place.x),
    };
    match spot_sad_until(block, count, window, spot, limit) {
        Some(sad) => sad + 1,
        None => limit,
    }
}

/// A limit below which the best place lies, or which is the difference at the one that is known, by the likely places.
fn limit_for(
    block: &[u8],
    count: usize,
    window: &[u8],
    places: Places,
    likely: Likely,
    best: Best,
) -> u32
    requires sought { IsSought count block.now window.now }
    requires places { ArePlaces count places }
    requires known { best.sad ≡ spot_sad block.now count window.now best.spot }
    ensures enough { IsEnough (spot_sad block.now count window.now) best.spot
        (spots 2 places.lines places.columns) result }
{
    let Likely { last, before } = likely;
    let limit = limit_by(block, count, window, places, last, best, best.sad);
    if last.y == before.y && last.x == before.x {
        return limit;
    }
    limit_by(block, count, window, places, before, best, limit)
}

/// The best of a place and of those in some lines and columns in whole samples, line by line and from left to right.
pub fn best_by_bounds(
    block: &[u8],
    count: usize,
    around: &Surroundings,
    places: Places,
    likely: Likely,
    best: Best,
) -> Best
    requires sought { IsSought count block.now around.now.window }
    requires sums { AreSumsFor count (slice_index around.now.window) places.lines.first
        (places.lines.end + count - 8) (slice_index around.now.sums) }
    requires places { ArePlaces count places }
    requires known { best.sad ≡ spot_sad block.now count around.now.window best.spot }
    ensures spot { result.spot ≡ least (spot_sad block.now count around.now.window) best.spot
        (spots 2 places.lines places.columns) }
    ensures sad { result.sad ≡ spot_sad block.now count around.now.window result.spot }
{
    let Surroundings { window, sums } = around;
    let limit = limit_for(block, count, window, places, likely, best);
    if count == 16 {
        passed(block, 16, window, sums, places, limit, best)
    } else {
        passed(block, 8, window, sums, places, limit, best)
    }
}
