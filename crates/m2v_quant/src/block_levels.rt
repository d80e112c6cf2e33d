ghost use Rattle.std.specs.Prelude.{◌≡◌, List, All, ℤ};
ghost use Rattle.m2v_quant.specs.Kinds.{IsKind, IsLevel, IsCoefficient};
ghost use Rattle.m2v_quant.specs.Coefficients.{coefficients_of};
ghost use Rattle.m2v_quant.specs.Prefix.{AreInRows};

use crate::inverse::dequantise_rows;
use crate::kind::{BlockKind, Levels};

/// The levels of a block, however they are kept, so that one body rebuilds the samples of [`Levels`] and of others.
pub trait BlockLevels {
    /// The 64 levels in scan order.
    ghost list: { Self → List ℤ };

    /// The 64 coefficients of the block in raster order, each from -2048 to 2047, as [`dequantise`](crate::dequantise)
    /// tells them, and which of its rows hold one other than 0: bit y is 0 where row y holds none.
    fn coefficients(&self, kind: &BlockKind, out: &mut [i32; 64]) -> u32
        requires kind { IsKind kind.now }
        requires levels { All IsLevel (list self.now) }
        ensures value { out.new ≡ coefficients_of (list self.now) kind.now }
        ensures rows { AreInRows result out.new }
        ensures coefficients { All IsCoefficient out.new };
}

impl BlockLevels for Levels {
    ghost list = { λ l. l.at };

    #[inline(always)]
    fn coefficients(&self, kind: &BlockKind, out: &mut [i32; 64]) -> u32 {
        dequantise_rows(self, kind, out)
    }
}
