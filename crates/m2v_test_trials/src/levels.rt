// Levels and kinds of blocks from which tests begin.
ghost use Rattle.std.specs.Prelude.{◌≡◌, All};
ghost use Rattle.m2v_quant.specs.Kinds.{IsKind, IsLevel};

use m2v_quant::{BlockKind, Levels, default_matrix};

// A kind of block with a default matrix; the scale is kept to its range.
pub(crate) fn kind(intra: bool, scale: u32, alternate: bool) -> BlockKind
    ensures kind { IsKind result }
    ensures precision { result.precision ≡ 0 }
{
    BlockKind {
        intra,
        luma: true,
        precision: 0,
        scale: scale.clamp(1, 112),
        matrix: default_matrix(intra),
        alternate,
    }
}

// One level, kept to its range, among zeros.
pub(crate) fn one_level(position: usize, level: i32) -> Levels
    ensures { All IsLevel result.at }
{
    let mut at = [0; 64];
    at[position % 64] = level.clamp(-2047, 2047);
    Levels { at }
}
