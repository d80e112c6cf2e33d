ghost use Rattle.std.specs.Prelude.{◌≡◌, ◌≤◌, All, [], ◌∷◌, map, true, false};
ghost use Rattle.m2v_quant.specs.declared.kind.BlockKind.{BlockKind as BlockKindOf};
ghost use Rattle.m2v_quant.specs.Kinds.{IsKind};
ghost use Rattle.m2v_macroblock.specs.Macroblocks.{kind_for};
ghost use Rattle.m2v_dec_picture.specs.Conditions.{IsPicture, AreSliceKinds};

use m2v_macro::PictureContext;
use m2v_macroblock::kinds;
use m2v_quant::{BlockKind, scale_of};

/// What the blocks of a slice are coded with while one quantiser code is in force: luma, then chroma.
#[derive(Clone, Copy, Debug, PartialEq, Eq)]
pub struct SliceKinds {
    /// The quantiser code.
    quantiser: u8,
    /// Of intra macroblocks.
    intra: [BlockKind; 2],
    /// Of the others.
    other: [BlockKind; 2],
}

/// The same kinds with another scale.
#[inline(always)]
fn set_scale(kinds: &mut [BlockKind; 2], scale: u32)
    ensures { kinds.new ≡ map (λ (k : BlockKindOf). record k { scale = scale }) kinds.old }
{
    kinds[0].scale = scale;
    kinds[1].scale = scale;
}

impl SliceKinds {
    /// The kinds at a quantiser code, from 1 to 31.
    pub fn new(c: &PictureContext, quantiser: u8) -> SliceKinds
        requires picture { IsPicture c.now }
        requires quantiser { (1 ≤ quantiser) × (quantiser ≤ 31) }
        ensures { AreSliceKinds c.now result }
    {
        SliceKinds {
            quantiser,
            intra: kinds(c, true, quantiser),
            other: kinds(c, false, quantiser),
        }
    }

    /// Another quantiser code, or the same one again, is in force.
    #[inline(always)]
    pub fn set_quantiser(&mut self, c: &PictureContext, quantiser: u8)
        requires kinds { AreSliceKinds c.now self.old }
        requires quantiser { (1 ≤ quantiser) × (quantiser ≤ 31) }
        ensures kinds { AreSliceKinds c.now self.new }
        ensures quantiser { self.new.quantiser ≡ quantiser }
    {
        if self.quantiser == quantiser {
            return;
        }
        let scale = scale_of(c.extension.q_scale_type, quantiser);
        set_scale(&mut self.intra, scale);
        set_scale(&mut self.other, scale);
        self.quantiser = quantiser;
    }

    /// The kinds of a macroblock that is intra or isn't.
    #[inline(always)]
    #[tactic(auto, using(crate::proofs::BlockLaws::both_kinds))]
    pub fn of(&self, c: &PictureContext, intra: bool) -> &[BlockKind; 2]
        requires picture { IsPicture c.now }
        requires kinds { AreSliceKinds c.now self.now }
        ensures value { result.now ≡ kind_for c.now intra true self.now.quantiser ∷ kind_for c.now
            intra false self.now.quantiser ∷ [] }
        ensures kinds { All IsKind result.now }
    {
        if intra { &self.intra } else { &self.other }
    }
}
