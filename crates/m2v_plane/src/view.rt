//! Views of reference samples.
ghost use Rattle.std.specs.Prelude.{◌≡◌, ℕ, ◌+◌, ◌-◌, ◌*◌, ◌≤◌, ◌<◌, IfSome, drop, length, take};
ghost use Rattle.m2v_plane.specs.declared.dims.Dims.{Dims};
ghost use Rattle.m2v_plane.specs.declared.planes.Plane.{Plane};
ghost use Rattle.m2v_plane.specs.declared.planes.Lines.{Lines};
ghost use Rattle.m2v_plane.specs.Sizes.{IsSize, columns_of, lines_of};
ghost use Rattle.m2v_plane.specs.Samples.{line_part};

use crate::dims::Dims;
use crate::planes::{Lines, Plane};

/// Lines of a reference that stand in one slice, one behind another. The first begins where the slice does.
#[derive(Clone, Copy)]
pub struct Window<'a> {
    /// The samples, from the first line's on.
    pub samples: &'a [u8],
    /// How far each line begins behind the one before.
    pub stride: usize,
}

/// Parts of lines one after another, all of one length and from one column on.
#[derive(Clone, Copy)]
pub struct LineParts {
    /// The first line.
    pub line: u32,
    /// How many lines there are.
    pub count: u32,
    /// The column of the first sample of each part.
    pub column: u32,
    /// How many samples each part has.
    pub len: u32,
}

/// Samples of a reference picture, as prediction reads them. What is read is the view's sample at that place, so two
/// reads of one place agree.
pub trait RefView {
    /// The size of the whole frame.
    ghost size: { Self → Dims };

    /// The sample by plane, lines, line and column.
    ghost at: { Self → Plane → Lines → ℕ → ℕ → ℕ };

    /// The lines that the view holds, each over its whole width.
    ghost Holds: { Self → Plane → Lines → ℕ → Type 0 };

    /// The size of the whole frame.
    fn dims(&self) -> Dims
        ensures value { result ≡ size self.now }
        ensures size { IsSize result };

    /// A part of a line, lent: `len` samples from `column` on. The line is one that the view holds, and the part lies
    /// within the macroblocks of a row.
    fn line(&self, plane: Plane, lines: Lines, line: u32, column: u32, len: u32) -> &[u8]
        requires held { Holds self.now plane lines line }
        requires within { column + len ≤ columns_of (size self.now) plane }
        ensures value { result.now ≡ line_part (at self.now plane lines line) column len };

    /// Parts of lines one after another, lent at once. Or None, of a view whose lines don't stand in one slice: then each is
    /// lent by [`RefView::line`]. The last part ends within the slice, so each does.
    #[inline(always)]
    fn window(&self, plane: Plane, lines: Lines, parts: LineParts) -> Option<Window<'_>>
        requires some { 1 ≤ parts.count }
        requires held { (k : ℕ) → k < parts.count
            → Holds self.now plane lines (parts.line + k) }
        requires within { parts.column + parts.len ≤ columns_of (size self.now) plane }
        ensures fits { IfSome result (λ w. (parts.count - 1) * w.stride + parts.len
            ≤ length w.samples.now) }
        ensures value { IfSome result (λ w. (k : ℕ) → k < parts.count
            → take parts.len (drop (k * w.stride) w.samples.now)
            ≡ line_part (at self.now plane lines (parts.line + k)) parts.column parts.len) }
    {
        None
    }

    /// One sample, of a line that the view holds. Loops read by [`RefView::line`] or [`RefView::copy_line`].
    #[inline(always)]
    fn sample(&self, plane: Plane, lines: Lines, line: u32, column: u32) -> u8
        requires held { Holds self.now plane lines line }
        requires within { column < columns_of (size self.now) plane }
        ensures value { result ≡ at self.now plane lines line column }
    {
        self.line(plane, lines, line, column, 1)[0]
    }

    /// A part of a line, copied: as many samples as `out` has, from `column` on.
    #[inline(always)]
    fn copy_line(&self, plane: Plane, lines: Lines, line: u32, column: u32, out: &mut [u8])
        requires held { Holds self.now plane lines line }
        requires within { column + length out.old ≤ columns_of (size self.now) plane }
        ensures value { out.new ≡ line_part (at self.now plane lines line) column (length out.old) }
    {
        // a line is short enough for its columns to be counted
        let _size = self.dims();
        for i in 0..out.len() {
            out[i] = self.sample(plane, lines, line, column + i as u32);
        }
    }
}
