//! The samples of a macroblock.
ghost use Rattle.std.specs.Prelude.{ℕ, ◌≡◌, ◌<◌, All, length, map, slice_index};
ghost use Rattle.m2v_quant.specs.Kinds.{IsKind, IsLevel};
ghost use Rattle.m2v_pred.specs.Predicted.{block_by};
ghost use Rattle.m2v_recon.specs.Macro.{is_coded, kind_at, macro_sample, with_macroblock};
ghost use Rattle.m2v_recon.specs.Steps.{own_list, rebuilt, AreRebuilt};

use crate::differences::{add_chroma, add_luma, is_coded};
use m2v_pred::Block16;
use m2v_pred::plane::{Plane, RowSamples};
use m2v_quant::{BlockKind, BlockLevels};

/// The samples of the three planes, written over their prediction.
#[inline(always)]
fn rebuild_planes<L: BlockLevels>(
    luma: &mut [u8],
    blue: &mut [u8],
    red: &mut [u8],
    levels: &[L; 6],
    pattern: u8,
    kinds: &[BlockKind; 2],
    dct_field: bool,
)
    requires luma { length luma.old ≡ 256 }
    requires blue { length blue.old ≡ 64 }
    requires red { length red.old ≡ 64 }
    requires kinds { All IsKind kinds.now }
    requires levels { All (λ l. All IsLevel (L.list l)) levels.now }
    ensures luma { AreRebuilt (map L.list levels.now) pattern kinds.now dct_field luma.old
        luma.new }
    ensures blue { (i : ℕ) → i < 64 → slice_index blue.new i
        ≡ rebuilt (is_coded pattern 4) (own_list (map L.list levels.now) 4) (kind_at kinds.now 1) i
        (slice_index blue.old i) }
    ensures red { (i : ℕ) → i < 64 → slice_index red.new i
        ≡ rebuilt (is_coded pattern 5) (own_list (map L.list levels.now) 5) (kind_at kinds.now 1) i
        (slice_index red.old i) }
{
    if pattern == 0 {
        return;
    }
    let mut room = [0; 64];
    add_luma(luma, levels, pattern, kinds, dct_field, &mut room);
    let coded = is_coded(pattern, 4);
    add_chroma(blue, coded, &levels[4], &kinds[1], &mut room);
    let coded = is_coded(pattern, 5);
    add_chroma(red, coded, &levels[5], &kinds[1], &mut room);
}

/// The samples of one macroblock (clause 7.6.8), written over its prediction: the prediction plus the inverse transform of
/// the coefficients of each block whose bit `32 >> i` of `pattern` is set, clamped to 0 to 255. A block of an intra
/// macroblock is its transform alone, whatever the prediction holds. The kinds are those of luma and of chroma blocks;
/// with `dct_field` luma blocks hold the lines of a field each. Takes no memory.
pub fn rebuild_block<L: BlockLevels>(
    block: &mut Block16,
    levels: &[L; 6],
    pattern: u8,
    kinds: &[BlockKind; 2],
    dct_field: bool,
)
    requires kinds { All IsKind kinds.now }
    requires levels { All (λ l. All IsLevel (L.list l)) levels.now }
    ensures value { block.new.at ≡ block_by
        (macro_sample block.old.at (map L.list levels.now) pattern (kind_at kinds.now 0)
        (kind_at kinds.now 1) dct_field) }
{
    let (luma, chroma) = block.at.split_at_mut(256);
    let (blue, red) = chroma.split_at_mut(64);
    rebuild_planes(luma, blue, red, levels, pattern, kinds, dct_field);
}

/// Writes the samples of one macroblock, those of [`rebuild_block`], at its column of a row, and nothing else of the row.
/// Takes no memory.
pub fn rebuild<L: BlockLevels>(
    pred: &Block16,
    levels: &[L; 6],
    pattern: u8,
    kinds: &[BlockKind; 2],
    dct_field: bool,
    column: u32,
    out: &mut RowSamples,
)
    requires kinds { All IsKind kinds.now }
    requires levels { All (λ l. All IsLevel (L.list l)) levels.now }
    requires column { column < out.old.dims.mb_width }
    ensures value { out.new ≡ with_macroblock 1 0 column
        (macro_sample pred.now.at (map L.list levels.now) pattern (kind_at kinds.now 0)
        (kind_at kinds.now 1) dct_field) out.old }
{
    let mut block = *pred;
    rebuild_block(&mut block, levels, pattern, kinds, dct_field);
    out.set_square(Plane::Y, column, &block.at[..256]);
    out.set_square(Plane::Cb, column, &block.at[256..320]);
    out.set_square(Plane::Cr, column, &block.at[320..384]);
}
