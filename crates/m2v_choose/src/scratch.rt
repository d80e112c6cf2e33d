//! What a choice writes before it reads it.
use crate::trial::Best;
use crate::values::Choice;
use m2v_macro::MacroSyntax;
use m2v_pred::Block16;
use m2v_quant::Levels;
use m2v_search::SearchScratch;

/// The transforms of a macroblock's blocks, as far as they are made.
#[derive(Drop)]
pub struct FirstTransforms {
    /// Those of the first blocks are made.
    pub at: [[i32; 64]; 6],
    /// How many of them are.
    pub count: usize,
}

/// The same by both DCT types.
#[derive(Drop)]
pub struct BothTransforms {
    /// Those by DCT type 0.
    pub frame: FirstTransforms,
    /// Those by DCT type 1.
    pub field: FirstTransforms,
}

/// Room for the blocks of a candidate.
#[derive(Drop)]
pub struct CodingScratch {
    /// The transforms of its blocks.
    pub transforms: BothTransforms,
    /// Its levels.
    pub levels: [Levels; 6],
    /// Its samples, as they are rebuilt.
    pub rebuilt: Block16,
}

/// Room for a candidate.
#[derive(Drop)]
pub struct TrialScratch {
    /// The samples of its prediction.
    pub prediction: Block16,
    /// Those of the second of two predictions whose mean it is.
    pub second: Block16,
    /// Those of the forward prediction, while the prediction in both directions isn't made yet.
    pub ahead: Block16,
    /// Its blocks.
    pub coding: CodingScratch,
}

/// Room for the candidates that are searched for.
#[derive(Drop)]
pub struct SearchedScratch {
    /// Room for a search.
    pub search: SearchScratch,
    /// Room for a candidate.
    pub trial: TrialScratch,
}

/// Room for the choice of a macroblock. Whatever stands in it before, the choice is the same, so one serves any number of
/// choices, and none clears it.
#[derive(Drop)]
pub struct ChoiceScratch {
    /// The best candidate so far, which is never moved: it is large.
    pub best: Best,
    /// The samples of the prediction by vector zero.
    pub still: Block16,
    /// Room for the candidates.
    pub searched: SearchedScratch,
}

impl ChoiceScratch {
    /// Room for choices. In place, so that nothing of it is moved.
    #[inline(always)]
    pub fn new() -> ChoiceScratch {
        let none = Levels { at: [0; 64] };
        ChoiceScratch {
            best: Best {
                choice: Choice {
                    skip: true,
                    syntax: MacroSyntax::blank(),
                    levels: [none, none, none, none, none, none],
                    bits: 0,
                    samples: Block16 { at: [0; 384] },
                },
                below: 0,
            },
            still: Block16 { at: [0; 384] },
            searched: SearchedScratch {
                search: SearchScratch::new(),
                trial: TrialScratch {
                    prediction: Block16 { at: [0; 384] },
                    second: Block16 { at: [0; 384] },
                    ahead: Block16 { at: [0; 384] },
                    coding: CodingScratch {
                        transforms: BothTransforms {
                            frame: FirstTransforms {
                                at: [[0; 64]; 6],
                                count: 0,
                            },
                            field: FirstTransforms {
                                at: [[0; 64]; 6],
                                count: 0,
                            },
                        },
                        levels: [none, none, none, none, none, none],
                        rebuilt: Block16 { at: [0; 384] },
                    },
                },
            },
        }
    }
}
