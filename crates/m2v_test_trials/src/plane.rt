ghost use Rattle.std.specs.Prelude.{◌<◌};
ghost use Rattle.m2v_plane.specs.Sizes.{lines_of};
ghost use Rattle.m2v_plane.specs.Samples.{sample_in};

use m2v_plane::{Dims, Frame, Lines, Plane, RefView, RowSamples};
use std::test::Fail;

/// Five samples by three, so that every plane is cut inside a macroblock and chroma is rounded up.
const SMALL: Dims = Dims {
    width: 5,
    height: 3,
    mb_width: 1,
    mb_rows: 2,
};

/// The samples of a raw frame of that size: Y of 5 by 3, Cb and Cr of 3 by 2.
const RAW: [u8; 27] = [
    1, 2, 3, 4, 5, 11, 12, 13, 14, 15, 21, 22, 23, 24, 25, 31, 32, 33, 41, 42, 43, 51, 52, 53, 61,
    62, 63,
];

#[test]
fn edges_are_repeated(rt: HostRuntime) -> Result<(), Fail> {
    let mut frame = Frame::blank(rt.alloc(), SMALL)?;
    frame.pad_from_raw(&RAW);
    assert_eq!(rt; frame.sample(Plane::Y, Lines::Whole, 31, 15), 25);
    assert_eq!(rt; frame.sample(Plane::Cb, Lines::Whole, 15, 0), 41);
    let mut raw = [0; 27];
    frame.crop_into(&mut raw);
    assert_eq!(rt; raw, RAW);
    Ok(())
}

/// A view that lends lines and nothing else.
#[derive(Drop)]
struct Lender(Frame);

impl RefView for Lender {
    ghost size = { λ v. v.0.dims };

    ghost at = { λ v. sample_in v.0 };

    ghost Holds = { λ v plane lines line. line < lines_of v.0.dims plane lines };

    fn dims(&self) -> Dims {
        self.0.dims()
    }

    fn line(&self, plane: Plane, lines: Lines, line: u32, column: u32, len: u32) -> &[u8] {
        self.0.line(plane, lines, line, column, len)
    }
}

#[test]
fn a_row_of_a_field(rt: HostRuntime) -> Result<(), Fail> {
    let mut row = RowSamples::blank(rt.alloc(), SMALL)?;
    row.set_sample(Plane::Y, 2, 3, 7);
    let mut frame = Frame::blank(rt.alloc(), SMALL)?;
    frame.pad_from_raw(&RAW);
    frame.set_row(Lines::Bottom, 0, &row);
    let view = Lender(frame);
    assert_eq!(rt; view.sample(Plane::Y, Lines::Bottom, 2, 3), 7);
    let mut part = [0; 3];
    view.copy_line(Plane::Y, Lines::Top, 0, 2, &mut part);
    assert_eq!(rt; part, [3, 4, 5]);
    Ok(())
}
