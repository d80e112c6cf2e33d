ghost use Rattle.std.specs.Prelude.{◌≡◌, ◌<◌, ◌≤◌, ◌*◌, ◌+◌, pos};
ghost use Rattle.m2v_macro.specs.Conditions.{IsStep};
ghost use Rattle.m2v_dec_picture.specs.Conditions.{LiesInRow, IsBefore, IsGap};

use m2v_macro::{MacroSyntax, PictureContext, SliceState};

/// The macroblocks of a row that are skipped before one that was read.
#[derive(Clone, Copy, Debug, PartialEq, Eq)]
pub struct Gap {
    /// The column of the first of them.
    pub column: u32,
    /// How many there are.
    pub count: u32,
}

/// The column of the last macroblock that was read.
#[tactic(auto, using(crate::proofs::RowLaws::in_row_size))]
pub fn column(c: &PictureContext, row: u32, state: &SliceState) -> u32
    requires row { LiesInRow c.now row state.now.address }
    requires columns { c.now.columns ≤ 120 }
    ensures value { state.now.address ≡ pos (row * c.now.columns + result) }
    ensures below { result < c.now.columns }
{
    let first = u64::from(row) * u64::from(c.columns);
    (state.address.unsigned_abs() - first) as u32
}

/// The macroblocks that are skipped before one. `before` is the state behind the macroblock before it.
pub fn gap_before(c: &PictureContext, row: u32, before: &SliceState, m: &MacroSyntax) -> Gap
    requires columns { c.now.columns ≤ 120 }
    requires place { IsBefore c.now row before.now }
    requires step { IsStep c.now before.now m.now.increment }
    ensures { IsGap c.now row before.now m.now result }
{
    if before.first || m.increment == 1 {
        return Gap {
            column: 0,
            count: 0,
        };
    }
    Gap {
        column: column(c, row, before) + 1,
        count: m.increment - 1,
    }
}
