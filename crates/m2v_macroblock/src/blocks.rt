//! What the blocks of a macroblock are coded with, and their DC predictors.
ghost use Rattle.std.specs.Prelude.{◌≡◌, ◌<◌, ◌≤◌, All, true, false, [], ◌∷◌};
ghost use Rattle.m2v_block.specs.m2v_quant.Kinds.{IsKind};
ghost use Rattle.m2v_recon.specs.Steps.{levels_of};
ghost use Rattle.m2v_macroblock.specs.Macroblocks.{kind_for as kind_for_of, predictor as predictor_of, dc_after as dc_after_of};
ghost use Rattle.m2v_macroblock.specs.Conditions.{IsPicture};

use m2v_block::quant::{BlockKind, Levels, scale_of};
use m2v_macro::PictureContext;

/// What luma blocks or chroma blocks of a macroblock are coded with: by the picture's headers, whether the macroblock is
/// intra, and the quantiser code in force, from 1 to 31 (clauses 6.3.10, 6.3.11 and 7.4.2).
#[inline(always)]
#[tactic(auto, unfolding(crate::specs::Macroblocks::kind_for))]
pub fn kind_for(context: &PictureContext, intra: bool, luma: bool, quantiser: u8) -> BlockKind
    requires picture { IsPicture context.now }
    requires quantiser { (1 ≤ quantiser) × (quantiser ≤ 31) }
    ensures value { result ≡ kind_for_of context.now intra luma quantiser }
    ensures kind { IsKind result }
    ensures intra { result.intra ≡ intra }
    ensures precision { result.precision ≡ context.now.extension.dc_precision }
{
    BlockKind {
        intra,
        luma,
        precision: context.extension.dc_precision,
        scale: scale_of(context.extension.q_scale_type, quantiser),
        matrix: if intra {
            context.intra
        } else {
            context.non_intra
        },
        alternate: context.extension.alternate_scan,
    }
}

/// What the blocks of a macroblock are coded with: `kind_for` of luma, then of chroma.
#[inline(always)]
pub fn kinds(context: &PictureContext, intra: bool, quantiser: u8) -> [BlockKind; 2]
    requires picture { IsPicture context.now }
    requires quantiser { (1 ≤ quantiser) × (quantiser ≤ 31) }
    ensures value { result ≡ kind_for_of context.now intra true quantiser ∷ kind_for_of context.now
        intra false quantiser ∷ [] }
    ensures kinds { All IsKind result }
{
    let luma = kind_for(context, intra, true, quantiser);
    let chroma = kind_for(context, intra, false, quantiser);
    [luma, chroma]
}

/// The DC predictor of a block: that of its component, or the DC level of the luma block before it (clause 7.2.1).
#[inline(always)]
#[tactic(auto, unfolding(crate::specs::Macroblocks::predictor))]
pub fn predictor(dc: &[i32; 3], levels: &[Levels; 6], block: usize) -> i32
    requires { block < 6 }
    ensures { result ≡ predictor_of dc.now (levels_of levels.now) block }
{
    if block < 4 {
        if block == 0 {
            dc[0]
        } else {
            levels[block - 1].at[0]
        }
    } else {
        dc[block - 3]
    }
}

/// The DC predictors of Y, Cb and Cr behind a macroblock's blocks: in an intra macroblock the DC levels of the last
/// block of each, else those before (clause 7.2.1).
#[inline(always)]
#[tactic(auto, unfolding(crate::specs::Macroblocks::dc_after))]
pub fn dc_after(intra: bool, levels: &[Levels; 6], dc: [i32; 3]) -> [i32; 3]
    ensures { result ≡ dc_after_of intra (levels_of levels.now) dc }
{
    if intra {
        [levels[3].at[0], levels[4].at[0], levels[5].at[0]]
    } else {
        dc
    }
}
