ghost use Rattle.std.specs.Prelude.{◌≡◌, ◌+◌, ◌*◌, ◌≤◌, ◌<◌, ◌^◌, IfOk, IfErr, length};
ghost use Rattle.m2v_dec_picture.specs.Conditions.{IsSetup, rows_in};
ghost use Rattle.m2v_dec_picture.specs.Reads.{PassesSlice};

use crate::basis::PictureBasis;
use crate::scratch::Scratch;
use crate::slices::{SliceEnd, read_slice};
use crate::target::NoSamples;
use crate::zeros::Zeros;
use m2v_bits::BitReader;
use m2v_model::{SliceSetup, Stop};

/// Reads slices and puts nothing: of a slice that [`read_slice`] reads, what it tells depends on no sample.
#[derive(Drop)]
pub struct SlicePass {
    scratch: Scratch,
}

impl SlicePass {
    /// A reader of slices.
    pub fn new() -> SlicePass {
        SlicePass {
            scratch: Scratch::new(),
        }
    }

    /// Reads a slice of a picture, without its start code, as [`read_slice`] does, and puts nothing. `covered` is the
    /// address of the picture's next uncovered macroblock, the row counts from 0.
    ///
    /// # Errors
    /// The first fault in reading order, with the bits that are left at its place, as [`read_slice`] tells it.
    pub fn slice(
        &mut self,
        input: &mut BitReader,
        s: &SliceSetup,
        covered: u32,
        row: u32,
    ) -> Result<SliceEnd, Stop>
        requires setup { IsSetup s.now }
        requires covered { covered ≤ 2 ^ 16 }
        requires row { row < rows_in s.now }
        ensures exact { PassesSlice s.now covered row input.old.rest result input.new.rest }
        ensures left { IfErr result (λ e. e.left ≤ length input.old.text + 32) }
        ensures covered { IfOk result (λ end. end.covered ≤ (row + 1) * s.now.context.columns) }
        ensures large { IfOk result (λ end. covered + end.large ≤ end.covered) }
    {
        let reference = Zeros::new(s.dims);
        let basis = PictureBasis {
            setup: s,
            forward: &reference,
            backward: &reference,
        };
        let mut nothing = NoSamples;
        read_slice(input, &basis, covered, row, &mut self.scratch, &mut nothing)
    }
}
