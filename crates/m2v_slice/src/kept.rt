//! Rows of reference pictures that are kept one behind another.
ghost use Rattle.std.specs.Prelude.{ℕ, ◌≡◌, ◌≢◌, ◌+◌, ◌-◌, ◌*◌, ◌/◌, ◌%◌, ◌<◌, ◌≤◌, All, IfOk, drop, length, slice_index, slice_index_or, slice_set, take};
ghost use Rattle.m2v_plane.specs.Sizes.{IsSize, side, columns_of};
ghost use Rattle.m2v_plane.specs.Samples.{Samples, HasRows, line_part, sample_of};
ghost use Rattle.m2v_plane.specs.Fields.{no_samples};
ghost use Rattle.m2v_slice.specs.Kept.{AreLines, kept_at};

use m2v_core::Memory;
use m2v_plane::{Dims, Plane, RowSamples, Window};
use std::alloc::Global;
use std::marker::Model;

/// Twelve macroblock rows for frames of one size, one behind another in each plane, so that the lines of rows that follow
/// each other are lent at once. Contracts see the rows.
#[derive(Drop)]
pub struct KeptRows {
    dims: Dims,
    luma: Vec<u8>,
    cb: Vec<u8>,
    cr: Vec<u8>,
}

impl Model for KeptRows {
    ghost use Rattle.std.specs.Prelude.{◌≡◌, ◌*◌, List, length};
    ghost use Rattle.m2v_plane.specs.Sizes.{IsSize};
    ghost use Rattle.m2v_plane.specs.Samples.{Samples};
    ghost use Rattle.m2v_slice.specs.Kept.{kept_rows};

    ghost Value = { List Samples };

    ghost view = { λ k. kept_rows k.dims k.luma.items k.cb.items k.cr.items };

    ghost invariant = { λ k. IsSize k.dims × (length k.luma.items ≡ 192 * (16 * k.dims.mb_width))
        × (length k.cb.items ≡ 96 * (8 * k.dims.mb_width))
        × (length k.cr.items ≡ 96 * (8 * k.dims.mb_width)) };
}

/// Puts the lines of a row into a plane of rows, in place k.
fn put_row(out: &mut [u8], columns: usize, k: u32, row: &RowSamples, plane: Plane)
    requires columns { columns ≡ columns_of row.now.dims plane }
    requires most { columns ≤ 1920 }
    requires place { k < 12 }
    requires whole { length out.old ≡ 12 * side plane * columns }
    ensures len { length out.new ≡ length out.old }
    ensures there { (line column : ℕ) → line < side plane → column < columns
        → slice_index out.new ((side plane * k + line) * columns + column)
        ≡ sample_of row.now plane line column }
    ensures others { (other line column : ℕ) → other ≢ k → other < 12 → line < side plane
        → column < columns
        → slice_index out.new ((side plane * other + line) * columns + column)
        ≡ slice_index out.old ((side plane * other + line) * columns + column) }
{
    let side = plane.side();
    for line in 0..side {
        let from = (side * k + line) as usize * columns;
        let samples = row.line(plane, line, 0, columns as u32);
        out[from..from + columns].copy_from_slice(samples);
    }
}

/// Where a column of a line stands among all lines of a plane.
#[inline(always)]
fn place_of(all: &Window, line: u32, column: u32) -> usize
    requires fits { line * all.now.stride + column ≤ length all.now.samples.now }
    ensures value { result ≡ line * all.now.stride + column }
    ensures within { result ≤ length all.now.samples.now }
{
    line as usize * all.stride + column as usize
}

impl KeptRows {
    /// Rows of samples 0, for frames of this size.
    pub fn blank(alloc: Global, dims: Dims) -> Result<KeptRows, Memory>
        requires size { IsSize dims }
        ensures count { IfOk result (λ v. length v ≡ 12) }
        ensures size { IfOk result (λ v. All (λ (row : Samples). row.dims ≡ dims) v) }
    {
        let columns = dims.mb_width as usize;
        Ok(KeptRows {
            dims,
            luma: vec![in alloc; 0; 192 * (16 * columns)]?,
            cb: vec![in alloc; 0; 96 * (8 * columns)]?,
            cr: vec![in alloc; 0; 96 * (8 * columns)]?,
        })
    }

    /// How many rows there are.
    pub fn count(&self) -> u32
        ensures value { result ≡ length self.now }
        ensures most { result ≡ 12 }
    {
        // what is known of the rows
        let _rows = self.dims;
        12
    }

    /// Takes a row in its place.
    pub fn set(&mut self, k: u32, row: &RowSamples)
        requires place { k < length self.old }
        requires same { row.now.dims ≡ (slice_index_or self.old k no_samples).dims }
        ensures value { self.new ≡ slice_set self.old k row.now }
    {
        // a row holds whole macroblocks
        let _whole = row.dims();
        let columns = self.dims.mb_width as usize;
        put_row(&mut self.luma, 16 * columns, k, row, Plane::Y);
        put_row(&mut self.cb, 8 * columns, k, row, Plane::Cb);
        put_row(&mut self.cr, 8 * columns, k, row, Plane::Cr);
    }

    /// All lines of a plane.
    #[inline(always)]
    fn all(&self, plane: Plane) -> Window<'_>
        ensures lines { AreLines self.now plane result.samples.now result.stride }
    {
        let columns = self.dims.mb_width as usize;
        match plane {
            Plane::Y => Window {
                samples: &self.luma,
                stride: 16 * columns,
            },
            Plane::Cb => Window {
                samples: &self.cb,
                stride: 8 * columns,
            },
            Plane::Cr => Window {
                samples: &self.cr,
                stride: 8 * columns,
            },
        }
    }

    /// Parts of lines, lent at once: of `count` lines from one on, each `step` lines behind the one before. Lines are
    /// counted through all rows.
    #[inline(always)]
    pub fn window(
        &self,
        plane: Plane,
        line: u32,
        step: u32,
        count: u32,
        column: u32,
        len: u32,
    ) -> Window<'_>
        requires some { 1 ≤ count }
        requires step { step ≤ 2 }
        requires held { (k : ℕ) → k < count → (line + k * step) / side plane < length self.now }
        requires within { column + len ≤ columns_of
            (slice_index_or self.now (line / side plane) no_samples).dims plane }
        ensures fits { (count - 1) * result.stride + len ≤ length result.samples.now }
        ensures value { (k : ℕ) → k < count → take len (drop (k * result.stride) result.samples.now)
            ≡ line_part (kept_at self.now plane (line + k * step)) column len }
    {
        let all = self.all(plane);
        let from = place_of(&all, line, column);
        Window {
            samples: &all.samples[from..],
            stride: step as usize * all.stride,
        }
    }

    /// A part of a line, lent. Lines are counted through all rows.
    #[inline(always)]
    pub fn line(&self, plane: Plane, line: u32, column: u32, len: u32) -> &[u8]
        requires held { line / side plane < length self.now }
        requires within { column + len ≤ columns_of
            (slice_index_or self.now (line / side plane) no_samples).dims plane }
        ensures value { result.now ≡ line_part (kept_at self.now plane line) column len }
    {
        &self.window(plane, line, 0, 1, column, len).samples[..len as usize]
    }
}
