ghost use Rattle.std.specs.Prelude.{◌≡◌, ◌<◌, ◌≤◌, ◌+◌, ◌*◌, IsTrue, length};
ghost use Rattle.m2v_plane.specs.Sizes.{IsSize, side};
ghost use Rattle.m2v_pred.specs.Vectors.{IsPlace};

use m2v_plane::{Dims, Frame, Plane, RefView};
use m2v_pred::{Block16, Form, MbPlace, Mode, inside, predict};
use std::alloc::{AllocError, Global};
use std::test::Fail;

/// Two macroblocks by two.
const SMALL: Dims = Dims {
    width: 32,
    height: 32,
    mb_width: 2,
    mb_rows: 2,
};

/// A frame whose samples rise evenly: in line l and column c, Y is 5 l + 2 c, Cb is 3 l + c and Cr is 100 + l + 7 c.
fn slope(alloc: Global) -> Result<Frame, AllocError> {
    let mut raw = [0u8; 1536];
    for l in 0..32 {
        for c in 0..32 {
            raw[32 * l + c] = (5 * l + 2 * c) as u8;
        }
    }
    for l in 0..16 {
        for c in 0..16 {
            raw[1024 + 16 * l + c] = (3 * l + c) as u8;
            raw[1280 + 16 * l + c] = (100 + l + 7 * c) as u8;
        }
    }
    frame(alloc, &raw)
}

fn frame(alloc: Global, raw: &[u8]) -> Result<Frame, AllocError>
    requires { length raw.now ≡ 1536 }
{
    let mut frame = Frame::blank(alloc, SMALL)?;
    frame.pad_from_raw(raw);
    Ok(frame)
}

/// Whether a macroblock lies in a picture.
fn is_place(at: MbPlace, dims: Dims) -> bool
    requires { IsSize dims }
    ensures { IsTrue result → IsPlace at dims }
{
    let rows = if at.structure == 3 {
        dims.mb_rows
    } else {
        dims.mb_rows / 2
    };
    1 <= at.structure && at.structure <= 3 && at.row < rows && at.column < dims.mb_width
}

/// What is predicted, where that can be asked for and stays inside.
fn shown(forward: &Frame, backward: &Frame, mode: &Mode, at: MbPlace) -> Option<Block16> {
    let (dims, other) = (forward.dims(), backward.dims());
    if !is_place(at, dims) || other != dims || !inside(mode, at, dims) {
        return None;
    }
    if !mode.forward && !mode.backward {
        return None;
    }
    let mut out = Block16 { at: [0; 384] };
    predict(forward, backward, mode, at, &mut out);
    Some(out)
}

/// A forward mode with two vectors, and with the top field as reference of both.
fn towards(form: Form, first: [i32; 2], second: [i32; 2]) -> Mode {
    let mut mode = Mode::none();
    mode.form = form;
    mode.forward = true;
    mode.vectors[0][0] = first;
    mode.vectors[1][0] = second;
    mode
}

/// The same with these reference fields.
fn from_fields(mut mode: Mode, first: bool, second: bool) -> Mode {
    mode.bottom[0][0] = first;
    mode.bottom[1][0] = second;
    mode
}

/// The same with these opposite vectors.
fn against(mut mode: Mode, first: [i32; 2], second: [i32; 2]) -> Mode {
    mode.opposite[0] = first;
    mode.opposite[1] = second;
    mode
}

fn place(row: u32, column: u32, structure: u8) -> MbPlace
    ensures { result ≡ record { row = row; column = column; structure = structure } }
{
    MbPlace {
        row,
        column,
        structure,
    }
}

/// The predicted samples Y in lines 2 and 3 of column 4, Y in line 9 of column 1, Cb in line 2 and Cr in line 5 of column 5.
fn spots(forward: &Frame, backward: &Frame, mode: &Mode, at: MbPlace) -> Option<[u8; 5]> {
    let block = shown(forward, backward, mode, at)?;
    let samples = block.at;
    Some([
        samples[36],
        samples[52],
        samples[145],
        samples[256 + 21],
        samples[320 + 45],
    ])
}

#[test]
fn predicts_frames_by_half_samples(rt: HostRuntime) -> Result<(), Fail> {
    let frame = slope(rt.alloc())?;
    let mode = towards(Form::Frame, [-3, -3], [0, 0]);
    let got = spots(&frame, &frame, &mode, place(1, 1, 3));
    assert_eq!(rt; got, Some([120, 125, 149, 41, 200]));
    Ok(())
}

#[test]
fn predicts_from_fields(rt: HostRuntime) -> Result<(), Fail> {
    let frame = slope(rt.alloc())?;
    let moved = from_fields(towards(Form::Field, [2, -2], [0, -16]), false, true);
    let got = spots(&frame, &frame, &moved, place(1, 0, 3));
    assert_eq!(rt; got, Some([90, 23, 47, 33, 140]));
    let half = from_fields(towards(Form::Half, [0, 0], [2, -2]), false, true);
    let got = spots(&frame, &frame, &half, place(0, 0, 2));
    assert_eq!(rt; got, Some([28, 38, 89, 17, 149]));
    let dual = against(towards(Form::Dual, [0, 0], [0, 0]), [0, 0], [2, 2]);
    let got = spots(&frame, &frame, &dual, place(0, 0, 3));
    assert_eq!(rt; got, Some([21, 27, 51, 13, 142]));
    Ok(())
}
