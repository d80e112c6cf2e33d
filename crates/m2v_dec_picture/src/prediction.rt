ghost use Rattle.std.specs.Prelude.{◌≡◌};
ghost use Rattle.m2v_pred.specs.Predicted.{block_by, predicted};
ghost use Rattle.m2v_dec_picture.specs.Conditions.{HoldReferences, CanPredict, place_in};

use crate::basis::PictureBasis;
use m2v_model::SliceSetup;
use m2v_plane::RefView;
use m2v_pred::{Block16, MbPlace, Mode, predict_in};

/// The place of a macroblock of the picture.
#[inline(always)]
pub fn place(s: &SliceSetup, row: u32, column: u32) -> MbPlace
    ensures { result ≡ place_in s.now row column }
{
    MbPlace {
        row,
        column,
        structure: s.context.extension.structure,
    }
}

/// Predicts a macroblock (clauses 7.6.4 to 7.6.7). `second` is room for the second of two predictions whose mean is taken.
pub fn predict<V: RefView>(
    basis: &PictureBasis<V>,
    mode: &Mode,
    at: MbPlace,
    second: &mut Block16,
    block: &mut Block16,
)
    requires can { CanPredict basis.now.setup.now mode.now at }
    requires references { HoldReferences V.size V.Holds basis.now }
    ensures value { block.new.at
        ≡ block_by (predicted (V.at basis.now.forward.now) (V.at basis.now.backward.now)
        mode.now at) }
{
    predict_in(basis.forward, basis.backward, mode, at, second, block);
}
