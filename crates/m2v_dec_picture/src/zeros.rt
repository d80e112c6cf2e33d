ghost use Rattle.std.specs.Prelude.{◌≡◌, ◌≤◌, replicate};
ghost use Rattle.m2v_plane.specs.Sizes.{IsSize, lines_of};

use m2v_plane::{Dims, Lines, Plane, RefView};
use std::marker::Model;

/// The samples of the widest line.
static WIDEST: [u8; 1920] = [0; 1920];

/// A reference of a size, whose samples are all 0.
#[derive(Drop)]
pub struct Zeros {
    dims: Dims,
}

impl Model for Zeros {
    ghost use Rattle.m2v_plane.specs.declared.dims.Dims.{Dims};
    ghost use Rattle.m2v_plane.specs.Sizes.{IsSize};

    ghost Value = { Dims };

    ghost view = { λ z. z.dims };

    ghost invariant = { λ z. IsSize z.dims };
}

impl Zeros {
    /// A reference of this size.
    pub fn new(dims: Dims) -> Zeros
        requires { IsSize dims }
        ensures { result ≡ dims }
    {
        Zeros { dims }
    }
}

/// So many samples 0.
fn zero_part(len: u32) -> &'static [u8]
    requires { len ≤ 1920 }
    ensures { result.now ≡ replicate len 0 }
{
    &WIDEST[..len as usize]
}

impl RefView for Zeros {
    ghost use Rattle.std.specs.Prelude.{◌<◌};

    ghost size = { λ z. z };

    ghost at = { λ z plane lines line column. 0 };

    ghost Holds = { λ z plane lines line. line < lines_of z plane lines };

    #[inline(always)]
    fn dims(&self) -> Dims {
        self.dims
    }

    #[inline(always)]
    fn line(&self, plane: Plane, lines: Lines, line: u32, column: u32, len: u32) -> &[u8] {
        // a line is no longer than the widest
        let _size = self.dims();
        zero_part(len)
    }
}
