ghost use Rattle.std.specs.Prelude.{◌≡◌, ◌++◌, Bool, true, List, length, ℤ, Ok};
ghost use Rattle.m2v_bits.specs.Laws.{Decided};
ghost use Rattle.m2v_quant.specs.declared.kind.BlockKind.{BlockKind};
ghost use Rattle.m2v_quant.specs.Kinds.{IsKind};
ghost use Rattle.m2v_block.specs.Blocks.{IsDc, block_at};
ghost use Rattle.m2v_block.specs.Texts.{IsBlock, block_text};

/// At each text exactly one of a block and a first fault stands, and it has one value: two spellings of one text give
/// the same levels.
pub fn law_one_reading()
    ensures { (kind : BlockKind) (table_one : Bool) (predictor : ℤ)
        → Decided (block_at kind table_one predictor) }
{}

/// What is written of a block is read back as it, whatever follows.
pub fn law_round_trip()
    ensures { (kind : BlockKind) (table_one : Bool) (predictor : ℤ) (levels : List ℤ)
        (rest : List Bool) → IsKind kind → IsBlock kind levels
        → (kind.intra ≡ true → IsDc kind.precision predictor) → length levels ≡ 64
        → (block_at kind table_one predictor).read (block_text kind table_one predictor levels
        ++ rest) ≡ Ok (levels, rest) }
{}
