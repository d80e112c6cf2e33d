//! The best vector.
ghost use Rattle.std.specs.Prelude.{pos, ◌-ℤ◌, ◌≡◌, ◌*◌, ◌≤◌, true};
ghost use Rattle.m2v_plane.specs.declared.planes.Plane.TheVariants.{Y};
ghost use Rattle.m2v_plane.specs.declared.planes.Lines.TheVariants.{Top, Bottom};
ghost use Rattle.m2v_pred.specs.Vectors.{IsPlace};
ghost use Rattle.m2v_search.specs.Search.{block_lines, reach, vector_sad, vector_inside, vector_of};
ghost use Rattle.m2v_search.specs.declared.form.SearchForm.TheVariants.{FieldLines};
ghost use Rattle.m2v_search.specs.Surveys.{IsSurvey, IsBestOf};
ghost use Rattle.m2v_search.specs.Near.{IsFormIn, HasNear, Reaches};

use crate::best::best_spot;
use crate::form::{SearchForm, block_lines, kind, reach};
use crate::scratch::{Likely, SearchScratch, Surroundings};
use crate::sliding::put_near_sums;
use crate::spot::Best;
use crate::window::{area_of, own_lines, samples_around};
use m2v_plane::{Lines, RefView};
use m2v_pred::{Block16, MbPlace};

/// A vector in half samples, and the sum of luma differences by it.
#[derive(Clone, Copy, Debug, PartialEq, Eq)]
pub struct Found {
    /// To the right.
    pub x: i32,
    /// Down.
    pub y: i32,
    /// The sum of absolute differences.
    pub sad: u32,
}

/// The vector of the best place.
#[inline(always)]
fn vector_found(best: Best, count: u32) -> Found
    requires count { count ≤ 16 }
    requires y { best.spot.y ≤ 96 }
    requires x { best.spot.x ≤ 96 }
    ensures x { result.x ≡ pos best.spot.x -ℤ pos 32 }
    ensures y { result.y ≡ pos best.spot.y -ℤ pos (2 * count) }
    ensures sad { result.sad ≡ best.sad }
{
    Found {
        x: best.spot.x as i32 - 32,
        y: best.spot.y as i32 - 2 * count as i32,
        sad: best.sad,
    }
}

/// The vector of a macroblock by which the reference lies nearest: the first of least luma difference among all whole
/// vectors within `search` that stay inside, zero first and then line by line; and then the first among it and its
/// neighbours at half samples. The view holds the macroblock rows before, at and after the macroblock's.
pub fn best_vector<V: RefView>(
    source: &Block16,
    view: &V,
    at: MbPlace,
    form: SearchForm,
    search: u32,
) -> Found
    requires search { search ≤ 15 }
    requires place { IsPlace at (V.size view.now) }
    requires form { IsFormIn at.structure form }
    requires near { HasNear (V.Holds view.now) (V.size view.now) at
        (block_lines form at.row).lines }
    ensures value { record { x = result.x; y = result.y }
        ≡ vector_of (V.size view.now) (V.at view.now Y) source.now.at at.row at.column form search }
    ensures sad { result.sad ≡ vector_sad (V.at view.now Y) source.now.at (block_lines form at.row)
        at.column
        (record { x = result.x; y = result.y }) }
    ensures inside { vector_inside (V.size view.now) (block_lines form at.row) at.column
        (record { x = result.x; y = result.y }) ≡ true }
    ensures within { Reaches form search result.x result.y }
{
    let mut scratch = SearchScratch::new();
    best_vector_in(source, view, at, form, search, &mut scratch)
}

/// What searches of this form look at around a macroblock: its samples and sums.
fn survey<V: RefView>(view: &V, at: MbPlace, form: SearchForm, search: u32, out: &mut Surroundings)
    requires search { search ≤ 15 }
    requires place { IsPlace at (V.size view.now) }
    requires form { IsFormIn at.structure form }
    requires near { HasNear (V.Holds view.now) (V.size view.now) at
        (block_lines form at.row).lines }
    ensures value { IsSurvey (V.size view.now) (V.at view.now Y) (block_lines form at.row)
        at.column (reach form search) out.new }
{
    let dims = view.dims();
    let lines = block_lines(form, at.row);
    let area = area_of(dims, &lines, at.column);
    samples_around(view, &lines, at.column, area, &mut out.window);
    put_near_sums(lines.count, area, reach(form, search), out);
}

/// The best vector of a form by what was surveyed. The place where it lies is a likely one for later searches.
fn found_in<V: RefView>(
    source: &Block16,
    view: &V,
    at: MbPlace,
    form: SearchForm,
    search: u32,
    around: &Surroundings,
    likely: &mut Likely,
) -> Found
    requires search { search ≤ 15 }
    requires place { IsPlace at (V.size view.now) }
    requires form { IsFormIn at.structure form }
    requires survey { IsSurvey (V.size view.now) (V.at view.now Y) (block_lines form at.row)
        at.column (reach form search) around.now }
    ensures best { IsBestOf (V.size view.now) (V.at view.now Y) source.now.at at form search
        result }
{
    let dims = view.dims();
    let lines = block_lines(form, at.row);
    let area = area_of(dims, &lines, at.column);
    let own = own_lines(source, &lines);
    let block = &own[..16 * lines.count as usize];
    let best = best_spot(
        block,
        lines.count,
        around,
        area,
        search,
        reach(form, search),
        likely,
    );
    vector_found(best, lines.count)
}

/// The vector that `best_vector` finds, in room that is lent: whatever stands in it before.
pub fn best_vector_in<V: RefView>(
    source: &Block16,
    view: &V,
    at: MbPlace,
    form: SearchForm,
    search: u32,
    scratch: &mut SearchScratch,
) -> Found
    requires search { search ≤ 15 }
    requires place { IsPlace at (V.size view.now) }
    requires form { IsFormIn at.structure form }
    requires near { HasNear (V.Holds view.now) (V.size view.now) at
        (block_lines form at.row).lines }
    ensures value { record { x = result.x; y = result.y }
        ≡ vector_of (V.size view.now) (V.at view.now Y) source.now.at at.row at.column form search }
    ensures sad { result.sad ≡ vector_sad (V.at view.now Y) source.now.at (block_lines form at.row)
        at.column
        (record { x = result.x; y = result.y }) }
    ensures inside { vector_inside (V.size view.now) (block_lines form at.row) at.column
        (record { x = result.x; y = result.y }) ≡ true }
    ensures within { Reaches form search result.x result.y }
{
    let SearchScratch { around, likely } = scratch;
    survey(view, at, form, search, around);
    found_in(
        source,
        view,
        at,
        form,
        search,
        around,
        &mut likely[kind(form)],
    )
}

/// The vectors of the lines of both fields of a macroblock of a frame, in each reference field.
#[derive(Clone, Copy, Debug, PartialEq, Eq)]
pub struct FieldsFound {
    /// Of the top lines, in the top field.
    pub top_in_top: Found,
    /// Of the top lines, in the bottom field.
    pub top_in_bottom: Found,
    /// Of the bottom lines, in the top field.
    pub bottom_in_top: Found,
    /// Of the bottom lines, in the bottom field.
    pub bottom_in_bottom: Found,
}

const TOP_IN_TOP: SearchForm = SearchForm::FieldLines {
    target: Lines::Top,
    reference: Lines::Top,
};

const TOP_IN_BOTTOM: SearchForm = SearchForm::FieldLines {
    target: Lines::Top,
    reference: Lines::Bottom,
};

const BOTTOM_IN_TOP: SearchForm = SearchForm::FieldLines {
    target: Lines::Bottom,
    reference: Lines::Top,
};

const BOTTOM_IN_BOTTOM: SearchForm = SearchForm::FieldLines {
    target: Lines::Bottom,
    reference: Lines::Bottom,
};

/// The vectors that [`best_vector`] finds for the lines of both fields of a macroblock of a frame, in each reference field.
/// What is around the macroblock in a reference field is read once, and both are searched in it before the other field is
/// read.
pub fn best_field_vectors_in<V: RefView>(
    source: &Block16,
    view: &V,
    at: MbPlace,
    search: u32,
    scratch: &mut SearchScratch,
) -> FieldsFound
    requires search { search ≤ 15 }
    requires place { IsPlace at (V.size view.now) }
    requires structure { at.structure ≡ 3 }
    requires near_top { HasNear (V.Holds view.now) (V.size view.now) at Top }
    requires near_bottom { HasNear (V.Holds view.now) (V.size view.now) at Bottom }
    ensures top_in_top { IsBestOf (V.size view.now) (V.at view.now Y) source.now.at at
        (FieldLines Top Top) search result.top_in_top }
    ensures top_in_bottom { IsBestOf (V.size view.now) (V.at view.now Y) source.now.at at
        (FieldLines Top Bottom) search result.top_in_bottom }
    ensures bottom_in_top { IsBestOf (V.size view.now) (V.at view.now Y) source.now.at at
        (FieldLines Bottom Top) search result.bottom_in_top }
    ensures bottom_in_bottom { IsBestOf (V.size view.now) (V.at view.now Y) source.now.at at
        (FieldLines Bottom Bottom) search result.bottom_in_bottom }
{
    let SearchScratch { around, likely } = scratch;
    survey(view, at, TOP_IN_TOP, search, around);
    let top_in_top = found_in(
        source,
        view,
        at,
        TOP_IN_TOP,
        search,
        around,
        &mut likely[kind(TOP_IN_TOP)],
    );
    let bottom_in_top = found_in(
        source,
        view,
        at,
        BOTTOM_IN_TOP,
        search,
        around,
        &mut likely[kind(BOTTOM_IN_TOP)],
    );
    survey(view, at, TOP_IN_BOTTOM, search, around);
    let top_in_bottom = found_in(
        source,
        view,
        at,
        TOP_IN_BOTTOM,
        search,
        around,
        &mut likely[kind(TOP_IN_BOTTOM)],
    );
    let bottom_in_bottom = found_in(
        source,
        view,
        at,
        BOTTOM_IN_BOTTOM,
        search,
        around,
        &mut likely[kind(BOTTOM_IN_BOTTOM)],
    );
    FieldsFound {
        top_in_top,
        top_in_bottom,
        bottom_in_top,
        bottom_in_bottom,
    }
}
