ghost use Rattle.std.specs.Prelude.{◌≡◌};
ghost use Rattle.m2v_dec_unit.specs.Among.{goes_on as units_follow};

use m2v_head::{GroupInfo, MatrixInfo, PictureExtension, PictureInfo};
use m2v_model::Sequence;

/// What stands in a unit that isn't a slice, or in a header and the extension behind it.
#[derive(Clone, Copy, Debug, PartialEq, Eq)]
pub enum Header {
    /// A sequence header with its extension.
    Sequence(Sequence),
    Group(GroupInfo),
    /// A picture header with its picture coding extension.
    Picture(PictureInfo, PictureExtension),
    /// A quant matrix extension.
    Matrices(MatrixInfo),
    /// A unit in which anything may stand.
    Skipped,
    /// The sequence end code.
    Ending,
}

impl Header {
    /// Whether units may follow: behind the sequence end code none does.
    pub fn goes_on(&self) -> bool
        ensures { result ≡ units_follow self.now }
    {
        match self {
            Header::Ending => false,
            _ => true,
        }
    }
}
