//! The size of a sequence's frames.
ghost use Rattle.std.specs.Prelude.{◌≡◌, ◌<◌, ◌^◌};
ghost use Rattle.m2v_order.specs.m2v_plane.Sizes.{IsSize};
ghost use Rattle.m2v_model.specs.Headers.{size_of};

use crate::Sequence;
use m2v_order::plane::Dims;

// twelve bits of the header, and those of the extension above
fn joined(low: u32, high: u8) -> u64
    ensures value { result ≡ size_of low high }
    ensures below { result < 2 ^ 33 }
{
    u64::from(high) * 4096 + u64::from(low)
}

impl Sequence {
    ghost use Rattle.m2v_model.specs.States.{width_of, height_of, columns_of, rows_of, dims_of};

    /// The width of its frames in samples (clause 6.3.3).
    pub fn width(&self) -> u64
        ensures value { result ≡ width_of self.now }
        ensures below { result < 2 ^ 33 }
    {
        joined(self.info.horizontal_size, self.extension.horizontal_ext)
    }

    /// The height of its frames in samples (clause 6.3.3).
    pub fn height(&self) -> u64
        ensures value { result ≡ height_of self.now }
        ensures below { result < 2 ^ 33 }
    {
        joined(self.info.vertical_size, self.extension.vertical_ext)
    }

    /// How many macroblocks stand in a row of a frame (clause 6.3.3).
    pub fn columns(&self) -> u64
        ensures value { result ≡ columns_of self.now }
        ensures below { result < 2 ^ 30 }
    {
        (self.width() + 15) / 16
    }

    /// How many macroblock rows a frame has (clause 6.3.3): one that isn't progressive has two fields of equal size.
    pub fn rows(&self) -> u64
        ensures value { result ≡ rows_of self.now }
        ensures below { result < 2 ^ 30 }
    {
        if self.extension.progressive_sequence {
            (self.height() + 15) / 16
        } else {
            2 * ((self.height() + 31) / 32)
        }
    }

    /// The size of its frames, in samples and in macroblocks, where it is one that frames can have.
    pub fn dims(&self) -> Dims
        requires { IsSize (dims_of self.now) }
        ensures { result ≡ dims_of self.now }
    {
        Dims {
            width: self.width() as u32,
            height: self.height() as u32,
            mb_width: self.columns() as u32,
            mb_rows: self.rows() as u32,
        }
    }
}
