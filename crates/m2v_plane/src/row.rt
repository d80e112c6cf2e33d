ghost use Rattle.std.specs.Prelude.{◌≡◌, ◌+◌, ◌*◌, ◌≤◌, ◌<◌, IfOk, length};
ghost use Rattle.m2v_plane.specs.Sizes.{IsSize, side, columns_of};
ghost use Rattle.m2v_plane.specs.Samples.{Samples, plane_of, HasRows, sample_of, blank, line_part, square_of, with_part, with_sample, with_square};
ghost use Rattle.m2v_plane.specs.declared.planes.Lines.TheVariants.{Whole};

use crate::Memory;
use crate::dims::Dims;
use crate::moves::{self, Square, put_part};
use crate::planes::{Lines, Plane};
use std::alloc::Global;
use std::marker::Model;

/// The samples of one macroblock row, of a frame or of a field.
#[derive(Drop)]
pub struct RowSamples {
    dims: Dims,
    // the three planes one after another: 256 samples of luma a macroblock, then 64 of each colour difference
    samples: Vec<u8>,
}

impl Model for RowSamples {
    ghost use Rattle.std.specs.Prelude.{◌≡◌, ◌*◌, length};
    ghost use Rattle.m2v_plane.specs.Sizes.{IsSize};
    ghost use Rattle.m2v_plane.specs.Samples.{Samples, row_of};

    ghost Value = { Samples };

    ghost view = { λ r. row_of r.dims r.samples.items };

    ghost invariant = { λ r. IsSize r.dims × (length r.samples.items ≡ 384 * r.dims.mb_width) };
}

/// Room for the samples of one macroblock row: its memory is taken, and nothing is written yet. Contracts see the size
/// of the frames that the row is for.
#[derive(Drop)]
pub struct RowRoom {
    dims: Dims,
    samples: Vec<u8>,
}

impl Model for RowRoom {
    ghost use Rattle.std.specs.Prelude.{◌≡◌, ◌*◌, ◌≤◌, vec_len, vec_capacity};
    ghost use Rattle.m2v_plane.specs.declared.dims.Dims.{Dims};
    ghost use Rattle.m2v_plane.specs.Sizes.{IsSize};

    ghost Value = { Dims };

    ghost view = { λ r. r.dims };

    ghost invariant = { λ r. IsSize r.dims × (vec_len r.samples ≡ 0)
        × (384 * r.dims.mb_width ≤ vec_capacity r.samples) };
}

impl RowRoom {
    /// Room for a row of frames of this size. Fails only for want of memory.
    pub fn for_row(alloc: Global, dims: Dims) -> Result<RowRoom, Memory>
        requires size { IsSize dims }
        ensures value { IfOk result (λ r. r ≡ dims) }
    {
        let samples = Vec::with_capacity(alloc, 384 * dims.mb_width as usize)?;
        Ok(RowRoom { dims, samples })
    }

    /// The size of the frames that the row is for.
    #[inline(always)]
    pub fn dims(&self) -> Dims
        ensures value { result ≡ self.now }
        ensures size { IsSize result }
    {
        self.dims
    }

    /// A row of samples 0 in this room.
    pub fn blank(self) -> RowSamples
        ensures value { result ≡ blank self 1 }
    {
        let dims = self.dims;
        let mut samples = self.samples;
        match samples.resize(384 * dims.mb_width as usize, 0) {
            Ok(()) => RowSamples { dims, samples },
            // the room was taken
            Err(_) => unreachable!(),
        }
    }

    /// Another row once more, in this room.
    pub fn copy_of(self, other: &RowSamples) -> RowSamples
        requires same { other.now.dims ≡ self }
        ensures value { result ≡ other.now }
    {
        let dims = self.dims;
        let mut samples = self.samples;
        match samples.extend_from_slice(&other.samples) {
            Ok(()) => RowSamples { dims, samples },
            // the room was taken
            Err(_) => unreachable!(),
        }
    }
}

impl RowSamples {
    /// A row of samples 0, for frames of this size.
    pub fn blank(alloc: Global, dims: Dims) -> Result<RowSamples, Memory>
        requires size { IsSize dims }
        ensures value { IfOk result (λ r. r ≡ blank dims 1) }
    {
        Ok(RowRoom::for_row(alloc, dims)?.blank())
    }

    /// The size of the frames that the row is for. The row holds whole macroblocks of that size.
    #[inline(always)]
    pub fn dims(&self) -> Dims
        ensures value { result ≡ self.now.dims }
        ensures size { IsSize result }
        ensures whole { HasRows self.now 1 }
    {
        self.dims
    }

    /// The samples of a plane, line by line.
    #[inline(always)]
    pub(crate) fn plane(&self, plane: Plane) -> &[u8]
        ensures value { result.now ≡ plane_of self.now plane }
        ensures whole { length result.now ≡ side plane * columns_of self.now.dims plane }
    {
        let columns = self.dims.mb_width as usize;
        match plane {
            Plane::Y => &self.samples[..256 * columns],
            Plane::Cb => &self.samples[256 * columns..320 * columns],
            Plane::Cr => &self.samples[320 * columns..],
        }
    }

    /// The sample of a line and a column, both inside the row.
    #[inline(always)]
    pub fn sample(&self, plane: Plane, line: u32, column: u32) -> u8
        requires line { line < side plane }
        requires column { column < columns_of self.now.dims plane }
        ensures value { result ≡ sample_of self.now plane line column }
    {
        let columns = plane.side() as usize * self.dims.mb_width as usize;
        self.plane(plane)[line as usize * columns + column as usize]
    }

    /// Replaces the sample of a line and a column, both inside the row.
    #[inline(always)]
    pub fn set_sample(&mut self, plane: Plane, line: u32, column: u32, value: u8)
        requires line { line < side plane }
        requires column { column < columns_of self.old.dims plane }
        ensures value { self.new ≡ with_sample self.old plane line column value }
    {
        let columns = self.dims.mb_width as usize;
        let (line, column) = (line as usize, column as usize);
        let (luma, chroma) = self.samples.split_at_mut(256 * columns);
        let (cb, cr) = chroma.split_at_mut(64 * columns);
        match plane {
            Plane::Y => luma[line * (16 * columns) + column] = value,
            Plane::Cb => cb[line * (8 * columns) + column] = value,
            Plane::Cr => cr[line * (8 * columns) + column] = value,
        }
    }

    /// A part of a line, lent: `len` samples from a column on, all inside the row. A cache of rows lends its lines so.
    #[inline(always)]
    pub fn line(&self, plane: Plane, line: u32, column: u32, len: u32) -> &[u8]
        requires line { line < side plane }
        requires within { column + len ≤ columns_of self.now.dims plane }
        ensures value { result.now ≡ line_part (sample_of self.now plane line) column len }
    {
        let columns = plane.side() as usize * self.dims.mb_width as usize;
        let from = line as usize * columns + column as usize;
        &self.plane(plane)[from..from + len as usize]
    }

    /// Replaces a part of a line, from a column on, all inside the row. Reconstruction writes its lines so.
    #[inline(always)]
    pub fn set_part(&mut self, plane: Plane, line: u32, column: u32, samples: &[u8])
        requires line { line < side plane }
        requires within { column + length samples.now ≤ columns_of self.old.dims plane }
        ensures value { self.new ≡ with_part self.old plane line column samples.now }
    {
        let columns = self.dims.mb_width as usize;
        let (line, column) = (line as usize, column as usize);
        let (luma, chroma) = self.samples.split_at_mut(256 * columns);
        let (cb, cr) = chroma.split_at_mut(64 * columns);
        match plane {
            Plane::Y => put_part(luma, line * (16 * columns) + column, samples),
            Plane::Cb => put_part(cb, line * (8 * columns) + column, samples),
            Plane::Cr => put_part(cr, line * (8 * columns) + column, samples),
        }
    }

    /// Replaces the square of one macroblock in one plane, line by line: 16 lines of 16 samples of luma, 8 lines of 8 of
    /// a colour difference.
    #[inline(always)]
    pub fn set_square(&mut self, plane: Plane, column: u32, samples: &[u8])
        requires column { column < self.old.dims.mb_width }
        requires samples { length samples.now ≡ side plane * side plane }
        ensures value { self.new ≡ with_square 1 self.old plane Whole 0 column
            (square_of (side plane) samples.now) }
    {
        let columns = self.dims.mb_width as usize;
        let (luma, chroma) = self.samples.split_at_mut(256 * columns);
        let (cb, cr) = chroma.split_at_mut(64 * columns);
        let (lines, row, column) = (Lines::Whole, 0, column as usize);
        match plane {
            Plane::Y => {
                let side = 16;
                let square = Square { side, row, column };
                moves::set_square(luma, 16, 16 * columns, lines, square, samples);
            }
            Plane::Cb => {
                let side = 8;
                let square = Square { side, row, column };
                moves::set_square(cb, 8, 8 * columns, lines, square, samples);
            }
            Plane::Cr => {
                let side = 8;
                let square = Square { side, row, column };
                moves::set_square(cr, 8, 8 * columns, lines, square, samples);
            }
        }
    }

    /// Takes the samples of another row for frames of the same size.
    pub fn copy_from(&mut self, other: &RowSamples)
        requires same { other.now.dims ≡ self.old.dims }
        ensures value { self.new ≡ other.now }
    {
        self.samples.copy_from_slice(&other.samples);
    }
}
