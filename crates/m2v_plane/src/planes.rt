ghost use Rattle.std.specs.Prelude.{◌≡◌, ◌≤◌, ◌*◌, ◌+◌};
ghost use Rattle.m2v_plane.specs.declared.planes.Plane.TheVariants.{Y};
ghost use Rattle.m2v_plane.specs.Sizes.{IsSize, frame_line, lines_of};

use crate::dims::Dims;

/// A plane of samples (clause 6.1.1).
#[derive(Clone, Copy, Debug, PartialEq, Eq)]
pub enum Plane {
    /// Luma.
    Y,
    /// The blue colour difference.
    Cb,
    /// The red colour difference.
    Cr,
}

/// Lines of a frame: all of them, or those of one field.
#[derive(Clone, Copy, Debug, PartialEq, Eq)]
pub enum Lines {
    /// All lines of the frame.
    Whole,
    /// The lines of the top field: 0, 2, 4 ..
    Top,
    /// The lines of the bottom field: 1, 3, 5 ..
    Bottom,
}

impl Plane {
    ghost use Rattle.std.specs.Prelude.{◌≡◌, ◌≤◌};
    ghost use Rattle.m2v_plane.specs.Sizes.{side};

    /// The side of a macroblock in the plane: 16 samples of luma, 8 of a colour difference (clause 6.1.3, 4:2:0).
    #[inline(always)]
    pub fn side(self) -> u32
        ensures value { result ≡ side self }
        ensures least { 8 ≤ result }
        ensures most { result ≤ 16 }
    {
        match self {
            Plane::Y => 16,
            Plane::Cb | Plane::Cr => 8,
        }
    }
}

/// The luma lines of the whole frame or of one field.
#[inline(always)]
pub fn luma_lines(dims: Dims, lines: Lines) -> u32
    requires size { IsSize dims }
    ensures value { result ≡ lines_of dims Y lines }
    ensures most { result ≤ 1152 }
{
    match lines {
        Lines::Whole => 16 * dims.mb_rows,
        Lines::Top | Lines::Bottom => 8 * dims.mb_rows,
    }
}

/// The line of the frame that a line of the whole frame or of one field is.
#[inline(always)]
pub(crate) fn place_of(lines: Lines, line: usize) -> usize
    requires { line ≤ 4096 }
    ensures value { result ≡ frame_line lines line }
    ensures most { result ≤ 2 * line + 1 }
{
    match lines {
        Lines::Whole => line,
        Lines::Top => 2 * line,
        Lines::Bottom => 2 * line + 1,
    }
}
