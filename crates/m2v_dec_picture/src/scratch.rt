use crate::located::Located;
use m2v_pred::Block16;
use m2v_quant::SparseLevels;

/// What one macroblock after another is worked out in.
#[derive(Drop)]
pub struct Scratch {
    /// The samples of a macroblock.
    pub block: Block16,
    /// Room for the second of two predictions whose mean is taken, whatever it holds.
    pub second: Block16,
    /// The levels of its six blocks.
    pub levels: [SparseLevels; 6],
    /// What is read of it, and where it stands.
    pub found: Located,
}

impl Scratch {
    /// All 0.
    pub fn new() -> Scratch {
        Scratch {
            block: Block16 { at: [0; 384] },
            second: Block16 { at: [0; 384] },
            levels: [
                SparseLevels::new(),
                SparseLevels::new(),
                SparseLevels::new(),
                SparseLevels::new(),
                SparseLevels::new(),
                SparseLevels::new(),
            ],
            found: Located::blank(),
        }
    }
}
