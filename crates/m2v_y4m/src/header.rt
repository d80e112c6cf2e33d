ghost use Rattle.std.specs.Prelude.{◌≡◌, ◌≤◌, OnOk};
ghost use Rattle.m2v_set.specs.Rules.{judged};
ghost use Rattle.m2v_y4m.specs.Rules.{header_rules, IsHeader};
ghost use Rattle.m2v_y4m.specs.Frames.{size_of};

use m2v_plane::{Dims, bytes_of};
use m2v_set::{Unfit, at_least, at_most};

/// What the header line of a YUV4MPEG2 text says.
#[derive(Clone, Copy, Debug, PartialEq, Eq)]
pub struct Y4mHeader {
    /// Luma samples in a line.
    pub width: u32,
    /// Lines of a frame.
    pub height: u32,
    /// The frame_rate_code of the rate, 1 to 8.
    pub rate_code: u32,
    /// Whether the top field is said to come first; else the frames are progressive, or nothing is said.
    pub top: bool,
}

impl Y4mHeader {
    /// Rule 8, which a header that is written keeps: a width of 1 to 1920, a height of 1 to 1152, and a rate code of 1
    /// to 8. The first condition that fails is told.
    #[tactic(auto, unfolding(crate::specs::Rules::header_rules, m2v_set::specs::Rules::judged, m2v_set::specs::Rules::and_then))]
    pub fn test(&self) -> Result<(), Unfit>
        ensures value { result ≡ judged (header_rules self.now) }
        ensures holds { OnOk result (IsHeader self.now) }
    {
        at_least(8, u128::from(self.width), 1)?;
        at_most(8, u128::from(self.width), 1920)?;
        at_least(8, u128::from(self.height), 1)?;
        at_most(8, u128::from(self.height), 1152)?;
        at_least(8, u128::from(self.rate_code), 1)?;
        at_most(8, u128::from(self.rate_code), 8)
    }
}

/// The bytes of a raw frame.
#[tactic(auto, using(crate::proofs::SizeLaws::size_some))]
pub(crate) fn frame_size(header: &Y4mHeader) -> usize
    requires header { IsHeader header.now }
    ensures some { 1 ≤ result }
    ensures most { result ≤ 3317760 }
    ensures value { result ≡ size_of header.now }
{
    bytes_of(Dims {
        width: header.width,
        height: header.height,
        mb_width: (header.width + 15) / 16,
        mb_rows: (header.height + 15) / 16,
    })
}
