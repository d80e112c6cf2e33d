//! A quick test that vectors stay inside: none is longer than the way from the macroblock to the nearest edge.
ghost use Rattle.std.specs.Prelude.{ℕ, pos, ◌≡◌, ◌≢◌, ◌+◌, ◌*◌, ◌/◌, ◌≤◌, ◌<◌, IsTrue, slice_index_or, unsigned_abs};
ghost use Rattle.m2v_plane.specs.Sizes.{IsSize};
ghost use Rattle.m2v_pred.specs.Motion.{component};
ghost use Rattle.m2v_pred.specs.Vectors.{IsPlace};
ghost use Rattle.m2v_pred.specs.Inside.{direction_inside, is_inside};

use crate::mode::{Form, MbPlace, Mode};
use m2v_plane::Dims;

/// The longer component of a vector, by its size.
#[inline(always)]
fn longer(vector: &[i32; 2]) -> u32
    ensures across { unsigned_abs (slice_index_or vector.now 0 (pos 0)) ≤ result }
    ensures down { unsigned_abs (slice_index_or vector.now 1 (pos 0)) ≤ result }
{
    vector[0].unsigned_abs().max(vector[1].unsigned_abs())
}

/// The longest component of a direction's two vectors.
#[inline(always)]
fn longest(mode: &Mode, direction: usize) -> u32
    requires direction { direction < 2 }
    ensures first_across { unsigned_abs (component mode.now 0 direction 0) ≤ result }
    ensures first_down { unsigned_abs (component mode.now 0 direction 1) ≤ result }
    ensures second_across { unsigned_abs (component mode.now 1 direction 0) ≤ result }
    ensures second_down { unsigned_abs (component mode.now 1 direction 1) ≤ result }
{
    longer(&mode.vectors[0][direction]).max(longer(&mode.vectors[1][direction]))
}

/// The macroblock rows of the picture: of a frame, or of one of its fields.
#[inline(always)]
fn rows_of(structure: u8, dims: Dims) -> u32
    ensures frame { structure ≡ 3 → result ≡ dims.mb_rows }
    ensures field { structure ≢ 3 → result ≡ dims.mb_rows / 2 }
{
    if structure == 3 {
        dims.mb_rows
    } else {
        dims.mb_rows / 2
    }
}

/// How far the nearest edge is from one that lies so far behind the first of `count` and is one of them.
#[inline(always)]
fn to_edge(at: u32, count: u32) -> u32
    requires { at < count }
    ensures first { result ≤ at }
    ensures last { result + at + 1 ≤ count }
{
    at.min(count - 1 - at)
}

/// A length by which every vector may move the macroblock, in half samples, of its fields too.
#[inline(always)]
fn room(at: MbPlace, rows: u32, columns: u32) -> u32
    requires row { at.row < rows }
    requires column { at.column < columns }
    requires rows { rows ≤ 72 }
    requires columns { columns ≤ 120 }
    ensures above { result ≤ 16 * at.row }
    ensures below { result + 16 * at.row + 16 ≤ 16 * rows }
    ensures left { result ≤ 32 * at.column }
    ensures right { result + 32 * at.column + 32 ≤ 32 * columns }
{
    16 * to_edge(at.row, rows).min(2 * to_edge(at.column, columns))
}

/// Whether a direction's vectors are too short to leave the picture from where the macroblock lies, in frame or field
/// prediction.
#[inline(always)]
fn is_near(mode: &Mode, direction: usize, at: MbPlace, dims: Dims) -> bool
    requires direction { direction < 2 }
    requires size { IsSize dims }
    requires place { IsPlace at dims }
    ensures near { IsTrue result → IsTrue (direction_inside mode.now direction at dims) }
{
    match mode.form {
        Form::Frame | Form::Field => {
            let rows = rows_of(at.structure, dims);
            longest(mode, direction) <= room(at, rows, dims.mb_width)
        }
        Form::Half | Form::Dual => false,
    }
}

/// The same of each direction that is read. Most vectors are as short.
#[inline(always)]
#[tactic(auto, unfolding(crate::specs::Inside::is_inside))]
pub fn are_near(mode: &Mode, at: MbPlace, dims: Dims) -> bool
    requires size { IsSize dims }
    requires place { IsPlace at dims }
    ensures near { IsTrue result → IsTrue (is_inside mode.now at dims) }
{
    (!mode.forward || is_near(mode, 0, at, dims)) && (!mode.backward || is_near(mode, 1, at, dims))
}
