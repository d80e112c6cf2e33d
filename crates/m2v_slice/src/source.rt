//! The macroblocks of the source.
ghost use Rattle.std.specs.Prelude.{◌≡◌, ◌+◌, ◌*◌, ◌≤◌, ◌<◌};
ghost use Rattle.m2v_plane.specs.declared.planes.Plane.TheVariants.{Y};
ghost use Rattle.m2v_plane.specs.Sizes.{lines_of};
ghost use Rattle.m2v_pred.specs.Motion.{own_lines as own_lines_of};
ghost use Rattle.m2v_slice.specs.Slices.{source_block};

use m2v_enc_activity::copy_plane;
use m2v_plane::{Frame, Plane};
use m2v_pred::{Block16, own_lines};

/// Copies the samples of a macroblock of the picture out of the frame.
pub fn copy_block(source: &Frame, structure: u8, row: u32, column: u32, out: &mut Block16)
    requires row { 16 * row + 16 ≤ lines_of source.now.dims Y (own_lines_of structure) }
    requires column { column < source.now.dims.mb_width }
    ensures value { out.new.at ≡ source_block source.now structure row column }
{
    let lines = own_lines(structure);
    let (luma, chroma) = out.at.split_at_mut(256);
    let (cb, cr) = chroma.split_at_mut(64);
    copy_plane(source, Plane::Y, lines, row, column, luma);
    copy_plane(source, Plane::Cb, lines, row, column, cb);
    copy_plane(source, Plane::Cr, lines, row, column, cr);
}
