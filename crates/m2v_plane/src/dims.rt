ghost use Rattle.std.specs.Prelude.{◌≡◌};
ghost use Rattle.m2v_plane.specs.Sizes.{IsSize};
ghost use Rattle.m2v_plane.specs.Raw.{frame_bytes};

/// The size of a picture. The width and the height are those that are shown, in luma samples, 1 to 1920 and 1 to 1152.
#[derive(Clone, Copy, Debug, PartialEq, Eq)]
pub struct Dims {
    /// Luma samples in a line that is shown.
    pub width: u32,
    /// Lines that are shown.
    pub height: u32,
    /// Macroblocks in a row: as many as cover the width.
    pub mb_width: u32,
    /// Macroblock rows of a whole frame, at most 72. They cover the height; where a frame can be split into fields, they
    /// are even.
    pub mb_rows: u32,
}

/// The bytes of a raw frame of this size: those of the planes as they are shown, the lines and columns of a colour
/// difference rounded up.
pub fn bytes_of(dims: Dims) -> usize
    requires size { IsSize dims }
    ensures value { result ≡ frame_bytes dims }
{
    let (width, height) = (dims.width as usize, dims.height as usize);
    let (wide, high) = ((width + 1) / 2, (height + 1) / 2);
    width * height + 2 * (wide * high)
}
