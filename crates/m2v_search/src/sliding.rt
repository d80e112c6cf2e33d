//! The sums over parts at each place of the window, line by line: those of eight lines slide down by one line.
ghost use Rattle.std.specs.Prelude.{ℕ, ◌≡◌, ◌+◌, ◌-◌, ◌*◌, ◌≤◌, ◌<◌, ◌⊎◌, length, slice_index};
ghost use Rattle.m2v_search.specs.Bounds.{AreSums, AreWideSums, AreSumsFor};
ghost use Rattle.m2v_search.specs.Spots.{span_of};

use crate::parts::{columns_at, next_columns, put_line_sums, put_wide_line};
use crate::scratch::Surroundings;
use crate::spot::{Area, within_reach};

/// Puts the sums over parts at 44 places of each of some lines of the window.
#[inline(always)]
fn put_narrow_sums(window: &[u8], first: usize, end: usize, sums: &mut [u16; 1920])
    requires window { length window.now ≡ 2304 }
    requires some { first < end }
    requires end { end ≤ 40 }
    ensures value { AreSums (slice_index window.now) first end (slice_index sums.new) }
{
    let mut columns = columns_at(window, first);
    for line in first..end {
        put_line_sums(sums, line, &columns);
        next_columns(window, line, &mut columns);
    }
}

/// Puts the sums over two parts side by side at 40 places of each of some lines of the window.
#[inline(always)]
fn put_wide_sums(window: &[u8], first: usize, end: usize, sums: &mut [u16; 1920])
    requires window { length window.now ≡ 2304 }
    requires some { first < end }
    requires end { end ≤ 40 }
    ensures value { AreWideSums (slice_index window.now) first end (slice_index sums.new) }
{
    let mut columns = columns_at(window, first);
    for line in first..end {
        put_wide_line(sums, line, &columns);
        next_columns(window, line, &mut columns);
    }
}

/// Puts the sums that bounds of a block of so many lines are made of, of some lines of the window.
fn put_sums(window: &[u8], count: usize, first: usize, end: usize, sums: &mut [u16; 1920])
    requires count { (count ≡ 8) ⊎ (count ≡ 16) }
    requires window { length window.now ≡ 2304 }
    requires some { first < end }
    requires end { end ≤ 40 }
    ensures value { AreSumsFor count (slice_index window.now) first end (slice_index sums.new) }
{
    if count == 16 {
        put_wide_sums(window, first, end, sums);
    } else {
        put_narrow_sums(window, first, end, sums);
    }
}

/// Puts the sums that a search of a block of so many lines looks at: those at the places that lie so many lines away at most.
pub fn put_near_sums(count: u32, area: Area, down: u32, around: &mut Surroundings)
    requires count { (count ≡ 8) ⊎ (count ≡ 16) }
    requires window { length around.old.window ≡ 2304 }
    requires down { down + 1 ≤ count }
    requires top { area.top ≤ count }
    requires bottom { 2 * count ≤ area.bottom }
    requires high { area.bottom ≤ 3 * count }
    ensures window { around.new.window ≡ around.old.window }
    ensures sums { let lines = span_of count down area.top area.bottom count in
        AreSumsFor count (slice_index around.new.window) lines.first (lines.end + count - 8)
        (slice_index around.new.sums) }
{
    let Surroundings { window, sums } = around;
    let lines = within_reach(count, down, area.top, area.bottom, count);
    let end = lines.end + count - 8;
    put_sums(
        window,
        count as usize,
        lines.first as usize,
        end as usize,
        sums,
    );
}
