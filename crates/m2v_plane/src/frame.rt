ghost use Rattle.std.specs.Prelude.{◌≡◌, ◌+◌, ◌*◌, ◌/◌, ◌≤◌, ◌<◌, IfOk, length, replicate, vec_len, vec_capacity};
ghost use Rattle.m2v_plane.specs.Sizes.{IsSize, side, frame_line, lines_of, columns_of, part_of};
ghost use Rattle.m2v_plane.specs.Samples.{Samples, plane_of, HasRows, sample_in, blank, square_of, with_field, with_row, with_square};
ghost use Rattle.m2v_plane.specs.Raw.{frame_bytes, pad, crop};

use crate::Memory;
use crate::dims::Dims;
use crate::moves::{self, Square, line_start, stride_of};
use crate::planes::{Lines, Plane};
use crate::row::RowSamples;
use crate::view::{LineParts, RefView, Window};
use std::alloc::Global;
use std::marker::Model;

/// A frame: its size and its samples, which cover whole macroblocks.
#[derive(Drop)]
pub struct Frame {
    dims: Dims,
    luma: Vec<u8>,
    cb: Vec<u8>,
    cr: Vec<u8>,
}

impl Model for Frame {
    ghost use Rattle.std.specs.Prelude.{◌≡◌, ◌*◌};
    ghost use Rattle.m2v_plane.specs.Sizes.{IsSize};
    ghost use Rattle.m2v_plane.specs.Samples.{Samples, HasRows};

    ghost Value = { Samples };

    ghost view = { λ f. record {
      dims = f.dims;
      luma = f.luma.items;
      cb = f.cb.items;
      cr = f.cr.items;
    } };

    ghost invariant = { λ f. IsSize f.dims × HasRows (record {
      dims = f.dims;
      luma = f.luma.items;
      cb = f.cb.items;
      cr = f.cr.items;
    }) f.dims.mb_rows };
}

/// Room for a frame: its memory is taken, and nothing is written yet. Contracts see the size of the frame.
#[derive(Drop)]
pub struct FrameRoom {
    dims: Dims,
    luma: Vec<u8>,
    cb: Vec<u8>,
    cr: Vec<u8>,
}

impl Model for FrameRoom {
    ghost use Rattle.std.specs.Prelude.{◌≡◌, ◌*◌, ◌≤◌, vec_len, vec_capacity};
    ghost use Rattle.m2v_plane.specs.declared.dims.Dims.{Dims};
    ghost use Rattle.m2v_plane.specs.Sizes.{IsSize};

    ghost Value = { Dims };

    ghost view = { λ r. r.dims };

    ghost invariant = { λ r. IsSize r.dims
        × (vec_len r.luma ≡ 0) × (256 * (r.dims.mb_rows * r.dims.mb_width) ≤ vec_capacity r.luma)
        × (vec_len r.cb ≡ 0) × (64 * (r.dims.mb_rows * r.dims.mb_width) ≤ vec_capacity r.cb)
        × (vec_len r.cr ≡ 0) × (64 * (r.dims.mb_rows * r.dims.mb_width) ≤ vec_capacity r.cr) };
}

/// So many samples 0, in room that was taken for them.
fn filled(mut room: Vec<u8>, count: usize) -> Vec<u8>
    requires empty { vec_len room ≡ 0 }
    requires taken { count ≤ vec_capacity room }
    ensures value { result.items ≡ replicate count 0 }
{
    match room.resize(count, 0) {
        Ok(()) => room,
        // the room was taken
        Err(_) => unreachable!(),
    }
}

impl FrameRoom {
    /// Room for a frame of this size. Fails only for want of memory.
    pub fn for_frame(alloc: Global, dims: Dims) -> Result<FrameRoom, Memory>
        requires size { IsSize dims }
        ensures value { IfOk result (λ r. r ≡ dims) }
    {
        let macroblocks = dims.mb_rows as usize * dims.mb_width as usize;
        Ok(FrameRoom {
            dims,
            luma: Vec::with_capacity(alloc, 256 * macroblocks)?,
            cb: Vec::with_capacity(alloc, 64 * macroblocks)?,
            cr: Vec::with_capacity(alloc, 64 * macroblocks)?,
        })
    }

    /// A frame of samples 0 in this room.
    pub fn blank(self) -> Frame
        ensures value { result ≡ blank self self.mb_rows }
    {
        let FrameRoom { dims, luma, cb, cr } = self;
        let macroblocks = dims.mb_rows as usize * dims.mb_width as usize;
        Frame {
            dims,
            luma: filled(luma, 256 * macroblocks),
            cb: filled(cb, 64 * macroblocks),
            cr: filled(cr, 64 * macroblocks),
        }
    }
}

impl Frame {
    /// A frame of samples 0.
    pub fn blank(alloc: Global, dims: Dims) -> Result<Frame, Memory>
        requires size { IsSize dims }
        ensures value { IfOk result (λ f. f ≡ blank dims dims.mb_rows) }
    {
        Ok(FrameRoom::for_frame(alloc, dims)?.blank())
    }

    /// The same frame once more.
    pub fn clone_in(&self, alloc: Global) -> Result<Frame, Memory>
        ensures value { IfOk result (λ f. f ≡ self.now) }
    {
        Ok(Frame {
            dims: self.dims,
            luma: self.luma.to_vec(alloc)?,
            cb: self.cb.to_vec(alloc)?,
            cr: self.cr.to_vec(alloc)?,
        })
    }

    /// The size of the frame.
    #[inline(always)]
    pub fn dims(&self) -> Dims
        ensures value { result ≡ self.now.dims }
        ensures size { IsSize result }
    {
        self.dims
    }

    /// Takes the samples of a raw frame, and repeats the right and the lower edge up to whole macroblocks.
    pub fn pad_from_raw(&mut self, raw: &[u8])
        requires whole { length raw.now ≡ frame_bytes self.old.dims }
        ensures value { self.new ≡ pad self.old.dims raw.now }
    {
        let (height, width) = (self.dims.height as usize, self.dims.width as usize);
        let (lines, columns) = (self.dims.mb_rows as usize, self.dims.mb_width as usize);
        let (high, wide) = ((height + 1) / 2, (width + 1) / 2);
        let (luma, chroma) = (width * height, wide * high);
        moves::pad_plane(
            &mut self.luma,
            16 * lines,
            16 * columns,
            &raw[..luma],
            height,
            width,
        );
        moves::pad_plane(
            &mut self.cb,
            8 * lines,
            8 * columns,
            &raw[luma..luma + chroma],
            high,
            wide,
        );
        moves::pad_plane(
            &mut self.cr,
            8 * lines,
            8 * columns,
            &raw[luma + chroma..],
            high,
            wide,
        );
    }

    /// Writes the displayed part as a raw frame.
    pub fn crop_into(&self, raw: &mut [u8])
        requires whole { length raw.old ≡ frame_bytes self.now.dims }
        ensures value { raw.new ≡ crop self.now }
    {
        let (height, width) = (self.dims.height as usize, self.dims.width as usize);
        let columns = self.dims.mb_width as usize;
        let (wide, high) = ((width + 1) / 2, (height + 1) / 2);
        let (luma, chroma) = raw.split_at_mut(width * height);
        let (cb, cr) = chroma.split_at_mut(wide * high);
        moves::crop_plane(luma, height, width, &self.luma, 16 * columns);
        moves::crop_plane(cb, high, wide, &self.cb, 8 * columns);
        moves::crop_plane(cr, high, wide, &self.cr, 8 * columns);
    }

    /// Replaces one macroblock row of the whole frame or of one field, and nothing else. The row is one of these lines'
    /// macroblock rows, and the samples were made for this frame's size.
    pub fn set_row(&mut self, lines: Lines, row: u32, samples: &RowSamples)
        requires row { 16 * row + 16 ≤ part_of lines (16 * self.old.dims.mb_rows) }
        requires same { samples.now.dims ≡ self.old.dims }
        ensures value { self.new ≡ with_row self.old lines row samples.now }
    {
        let (total, columns) = (self.dims.mb_rows as usize, self.dims.mb_width as usize);
        let row = row as usize;
        let luma = samples.plane(Plane::Y);
        moves::set_rows(
            &mut self.luma,
            16 * total,
            16 * columns,
            16,
            lines,
            row,
            luma,
        );
        let cb = samples.plane(Plane::Cb);
        moves::set_rows(&mut self.cb, 8 * total, 8 * columns, 8, lines, row, cb);
        let cr = samples.plane(Plane::Cr);
        moves::set_rows(&mut self.cr, 8 * total, 8 * columns, 8, lines, row, cr);
    }

    /// Makes all samples 0.
    pub fn clear(&mut self)
        ensures value { self.new ≡ blank self.old.dims self.old.dims.mb_rows }
    {
        let (total, columns) = (self.dims.mb_rows as usize, self.dims.mb_width as usize);
        moves::clear_lines(&mut self.luma, 16 * total, 16 * columns);
        moves::clear_lines(&mut self.cb, 8 * total, 8 * columns);
        moves::clear_lines(&mut self.cr, 8 * total, 8 * columns);
    }

    /// Takes the samples of another frame of the same size.
    pub fn copy_from(&mut self, other: &Frame)
        requires same { other.now.dims ≡ self.old.dims }
        ensures value { self.new ≡ other.now }
    {
        self.luma.copy_from_slice(&other.luma);
        self.cb.copy_from_slice(&other.cb);
        self.cr.copy_from_slice(&other.cr);
    }

    /// Takes the lines of one field, or all lines, from another frame of the same size, and leaves the others.
    pub fn set_field(&mut self, lines: Lines, other: &Frame)
        requires same { other.now.dims ≡ self.old.dims }
        ensures value { self.new ≡ with_field self.old lines other.now }
    {
        let (total, columns) = (self.dims.mb_rows as usize, self.dims.mb_width as usize);
        moves::set_lines(&mut self.luma, 16 * total, 16 * columns, lines, &other.luma);
        moves::set_lines(&mut self.cb, 8 * total, 8 * columns, lines, &other.cb);
        moves::set_lines(&mut self.cr, 8 * total, 8 * columns, lines, &other.cr);
    }

    /// Replaces the square of one macroblock of the whole frame or of one field in one plane, line by line: 16 lines of
    /// 16 samples of luma, 8 lines of 8 of a colour difference. Of a field only its own lines are replaced.
    #[inline(always)]
    pub fn set_square(&mut self, plane: Plane, lines: Lines, row: u32, column: u32, samples: &[u8])
        requires row { 16 * row + 16 ≤ part_of lines (16 * self.old.dims.mb_rows) }
        requires column { column < self.old.dims.mb_width }
        requires samples { length samples.now ≡ side plane * side plane }
        ensures value { self.new
            ≡ with_square self.old.dims.mb_rows self.old plane lines row column
            (square_of (side plane) samples.now) }
    {
        let (total, columns) = (self.dims.mb_rows as usize, self.dims.mb_width as usize);
        let (row, column) = (row as usize, column as usize);
        match plane {
            Plane::Y => {
                let side = 16;
                let square = Square { side, row, column };
                moves::set_square(
                    &mut self.luma,
                    16 * total,
                    16 * columns,
                    lines,
                    square,
                    samples,
                );
            }
            Plane::Cb => {
                let side = 8;
                let square = Square { side, row, column };
                moves::set_square(&mut self.cb, 8 * total, 8 * columns, lines, square, samples);
            }
            Plane::Cr => {
                let side = 8;
                let square = Square { side, row, column };
                moves::set_square(&mut self.cr, 8 * total, 8 * columns, lines, square, samples);
            }
        }
    }

    /// The samples of a plane, line by line.
    #[inline(always)]
    fn plane(&self, plane: Plane) -> &[u8]
        ensures value { result.now ≡ plane_of self.now plane }
        ensures whole { length result.now ≡ side plane * self.now.dims.mb_rows * columns_of
            self.now.dims plane }
    {
        match plane {
            Plane::Y => &self.luma,
            Plane::Cb => &self.cb,
            Plane::Cr => &self.cr,
        }
    }
}

/// A frame holds every sample.
impl RefView for Frame {
    ghost size = { λ f. f.dims };

    ghost at = { sample_in };

    ghost Holds = { λ f plane lines line. line < lines_of f.dims plane lines };

    #[inline(always)]
    fn dims(&self) -> Dims {
        self.dims
    }

    #[inline(always)]
    fn line(&self, plane: Plane, lines: Lines, line: u32, column: u32, len: u32) -> &[u8] {
        let side = plane.side() as usize;
        let (total, columns) = (self.dims.mb_rows as usize, self.dims.mb_width as usize);
        let from = line_start(lines, line as usize, side * total, side * columns) + column as usize;
        &self.plane(plane)[from..from + len as usize]
    }

    #[inline(always)]
    fn window(&self, plane: Plane, lines: Lines, parts: LineParts) -> Option<Window<'_>> {
        let side = plane.side() as usize;
        let (total, columns) = (self.dims.mb_rows as usize, self.dims.mb_width as usize);
        let (line, column) = (parts.line as usize, parts.column as usize);
        let from = line_start(lines, line, side * total, side * columns) + column;
        Some(Window {
            samples: &self.plane(plane)[from..],
            stride: stride_of(lines, side * columns),
        })
    }

    #[inline(always)]
    fn sample(&self, plane: Plane, lines: Lines, line: u32, column: u32) -> u8 {
        let side = plane.side() as usize;
        let (total, columns) = (self.dims.mb_rows as usize, self.dims.mb_width as usize);
        let from = line_start(lines, line as usize, side * total, side * columns);
        self.plane(plane)[from + column as usize]
    }

    #[inline(always)]
    fn copy_line(&self, plane: Plane, lines: Lines, line: u32, column: u32, out: &mut [u8]) {
        // a line is short enough for its samples to be counted
        let _size = self.dims();
        out.copy_from_slice(self.line(plane, lines, line, column, out.len() as u32));
    }
}
