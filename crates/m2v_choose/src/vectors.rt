//! The vectors of a direction.
ghost use Rattle.std.specs.Prelude.{◌≡◌, ◌≢◌, nat_lt, not, if◌then◌else◌, [], ◌∷◌, false, pos};
ghost use Rattle.m2v_pred.specs.Motion.{field_lines};
ghost use Rattle.m2v_search.specs.Near.{IsFormIn};
ghost use Rattle.m2v_search.specs.declared.form.SearchForm.TheVariants.{FieldPicture};
ghost use Rattle.m2v_choose.specs.Candidates.{vector_for, sad_for, from_field, plain_direction as plain_direction_of, field_direction as field_direction_of};
ghost use Rattle.m2v_choose.specs.Trials.{References, decided, IsTask, IsRead, place_for, selected_by, direction_by};

use crate::task::Task;
use m2v_plane::{Lines, RefView};
use m2v_pred::MbPlace;
use m2v_search::{Found, SearchForm, SearchScratch, best_field_vectors_in, best_vector_in};

/// A vector, and whether it is that of the bottom field of its reference.
#[derive(Clone, Copy)]
pub struct FieldVector {
    /// It is that of the bottom field.
    pub bottom: bool,
    /// The vector, in half samples to the right and down.
    pub vector: [i32; 2],
}

/// The vectors of a direction: one, or one for the top lines and one for the bottom lines.
#[derive(Clone, Copy)]
pub struct Vectors {
    /// The only vector, or that of the top lines.
    pub first: FieldVector,
    /// That of the bottom lines, or 0.
    pub second: FieldVector,
}

/// No vector.
#[inline(always)]
pub fn no_vector() -> FieldVector
    ensures { result ≡ record { bottom = false; vector = pos 0 ∷ pos 0 ∷ [] } }
{
    FieldVector {
        bottom: false,
        vector: [0, 0],
    }
}

/// Where the macroblock lies.
#[inline(always)]
pub fn place_of(task: &Task) -> MbPlace
    ensures { result ≡ place_for task.now }
{
    MbPlace {
        row: task.limits.row,
        column: task.limits.column,
        structure: task.context.extension.structure,
    }
}

/// The vector of a form of search in a reference.
fn search<V: RefView>(task: &Task, view: &V, form: SearchForm, scratch: &mut SearchScratch) -> Found
    requires task { IsTask task.now }
    requires view { IsRead (V.size view.now) (V.Holds view.now) (place_for task.now) }
    requires form { IsFormIn task.now.context.now.extension.structure form }
    ensures value { (r : References) → r.dims ≡ V.size view.now
        → record { x = result.x; y = result.y }
        ≡ vector_for (decided r task.now) (V.at view.now) form }
    ensures sad { (r : References) → r.dims ≡ V.size view.now
        → result.sad ≡ sad_for (decided r task.now) (V.at view.now) form }
{
    let at = place_of(task);
    best_vector_in(task.source, view, at, form, task.limits.search, scratch)
}

/// The vector that was found, as one of the whole frame or of a field.
#[inline(always)]
fn found_vector(found: &Found, bottom: bool) -> FieldVector
    ensures { result ≡ record { bottom = bottom; vector = found.now.x ∷ found.now.y ∷ [] } }
{
    FieldVector {
        bottom,
        vector: [found.x, found.y],
    }
}

/// The better one of the vectors of two fields: of the same parity, or the other one where it is better.
#[inline(always)]
fn better(same: &Found, other: &Found, bottom: bool) -> FieldVector
    ensures { result ≡ (if nat_lt other.now.sad same.now.sad
        then record { bottom = not bottom; vector = other.now.x ∷ other.now.y ∷ [] }
        else record { bottom = bottom; vector = same.now.x ∷ same.now.y ∷ [] }) }
{
    if other.sad < same.sad {
        found_vector(other, !bottom)
    } else {
        found_vector(same, bottom)
    }
}

/// The field of the other parity.
#[inline(always)]
fn other_field(bottom: bool) -> Lines
    ensures { result ≡ field_lines (not bottom) }
{
    field(!bottom)
}

/// A field.
#[inline(always)]
fn field(bottom: bool) -> Lines
    ensures { result ≡ field_lines bottom }
{
    if bottom { Lines::Bottom } else { Lines::Top }
}

/// The vector of a field picture, in the one or the other reference field.
fn field_picture<V: RefView>(
    task: &Task,
    view: &V,
    bottom: bool,
    scratch: &mut SearchScratch,
) -> FieldVector
    requires task { IsTask task.now }
    requires view { IsRead (V.size view.now) (V.Holds view.now) (place_for task.now) }
    requires structure { task.now.context.now.extension.structure ≢ 3 }
    ensures value { (r : References) → r.dims ≡ V.size view.now
        → selected_by result ≡ from_field (decided r task.now) (V.at view.now) FieldPicture
        (field_lines bottom) }
{
    let same = search(
        task,
        view,
        SearchForm::FieldPicture {
            reference: field(bottom),
        },
        scratch,
    );
    let other = search(
        task,
        view,
        SearchForm::FieldPicture {
            reference: other_field(bottom),
        },
        scratch,
    );
    better(&same, &other, bottom)
}

/// One vector: of the whole frame in a frame picture, of a reference field in a field picture.
#[tactic(auto, unfolding(crate::specs::Candidates::plain_direction))]
pub fn plain_direction<V: RefView>(task: &Task, view: &V, scratch: &mut SearchScratch) -> Vectors
    requires task { IsTask task.now }
    requires view { IsRead (V.size view.now) (V.Holds view.now) (place_for task.now) }
    ensures value { (r : References) → r.dims ≡ V.size view.now
        → direction_by result ≡ plain_direction_of (decided r task.now) (V.at view.now) }
{
    if task.context.extension.structure == 3 {
        let whole = search(task, view, SearchForm::Whole, scratch);
        return Vectors {
            first: found_vector(&whole, false),
            second: no_vector(),
        };
    }
    Vectors {
        first: field_picture(task, view, task.context.extension.structure == 2, scratch),
        second: no_vector(),
    }
}

/// Two vectors in a frame picture: for the top lines, and then for the bottom lines.
#[tactic(auto, unfolding(crate::specs::Candidates::field_direction))]
pub fn field_direction<V: RefView>(task: &Task, view: &V, scratch: &mut SearchScratch) -> Vectors
    requires task { IsTask task.now }
    requires view { IsRead (V.size view.now) (V.Holds view.now) (place_for task.now) }
    requires structure { task.now.context.now.extension.structure ≡ 3 }
    ensures value { (r : References) → r.dims ≡ V.size view.now
        → direction_by result ≡ field_direction_of (decided r task.now) (V.at view.now) }
{
    let found = best_field_vectors_in(
        task.source,
        view,
        place_of(task),
        task.limits.search,
        scratch,
    );
    Vectors {
        first: better(&found.top_in_top, &found.top_in_bottom, false),
        second: better(&found.bottom_in_bottom, &found.bottom_in_top, true),
    }
}
