//! The samples of the source.
ghost use Rattle.std.specs.Prelude.{◌≡◌, ◌+◌, ◌*◌, ◌≤◌, ◌<◌, length};
ghost use Rattle.m2v_pred.specs.m2v_plane.declared.planes.Plane.TheVariants.{Y};
ghost use Rattle.m2v_pred.specs.m2v_plane.Sizes.{side, lines_of};
ghost use Rattle.m2v_pred.specs.m2v_plane.Samples.{plane_by, sample_in};
ghost use Rattle.m2v_pred.specs.Motion.{own_lines as own_lines_of};
ghost use Rattle.m2v_enc_activity.specs.Activity.{luma_at};

use m2v_pred::own_lines;
use m2v_pred::plane::{Frame, Lines, Plane, RefView};

/// Copies a macroblock's samples of a plane out of a frame or one of its fields, line by line: 256 of luma, 64 of chroma.
#[inline(always)]
pub fn copy_plane(source: &Frame, plane: Plane, lines: Lines, row: u32, column: u32, out: &mut [u8])
    requires row { side plane * row + side plane ≤ lines_of source.now.dims plane lines }
    requires column { column < source.now.dims.mb_width }
    requires out { length out.old ≡ side plane * side plane }
    ensures value { out.new ≡ plane_by (side plane) (side plane)
        (λ line c. sample_in source.now plane lines (side plane * row + line)
        (side plane * column + c)) }
{
    // the size of the frame bounds the places
    let _size = source.dims();
    let side = plane.side();
    for line in 0..side {
        let from = (line * side) as usize;
        source.copy_line(
            plane,
            lines,
            side * row + line,
            side * column,
            &mut out[from..from + side as usize],
        );
    }
}

/// Copies the luma of a macroblock of a picture of this structure out of its frame.
pub(crate) fn copy_luma(source: &Frame, structure: u8, row: u32, column: u32, out: &mut [u8])
    requires row { 16 * row + 16 ≤ lines_of source.now.dims Y (own_lines_of structure) }
    requires column { column < source.now.dims.mb_width }
    requires out { length out.old ≡ 256 }
    ensures value { out.new ≡ luma_at source.now structure row column }
{
    copy_plane(source, Plane::Y, own_lines(structure), row, column, out);
}
