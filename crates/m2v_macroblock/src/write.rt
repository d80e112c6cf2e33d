//! Macroblocks with their blocks, written and measured.
ghost use Rattle.std.specs.Prelude.{◌≡◌, ◌+◌, ◌≤◌, ◌<◌, ◌^◌, ◌++◌, length};
ghost use Rattle.m2v_bits.specs.Outputs.{Gains};
ghost use Rattle.m2v_macro.specs.Conditions.{IsReady, IsAddress, IsMacro};
ghost use Rattle.m2v_macroblock.specs.Macroblocks.{macroblock_of, after_macroblock};
ghost use Rattle.m2v_macroblock.specs.Texts.{block_in_text, blocks_text, text_written};
ghost use Rattle.m2v_macroblock.specs.Conditions.{IsPicture, AreDc, AreBlocks, AreWritable};

use crate::blocks::{dc_after, kind_for, predictor};
use m2v_bits::{BitOutput, BitWriter};
use m2v_block::put_block;
use m2v_block::quant::Levels;
use m2v_macro::{MacroSyntax, PictureContext, SliceState, put_macro};
use m2v_recon::is_coded;

/// Appends a block of a macroblock, where it is coded. The state is that behind the macroblock's elements.
#[tactic(auto, using(m2v_bits::proofs::Outputs::gains_none), unfolding(crate::specs::Texts::block_in_text))]
fn put_one<O: BitOutput>(
    x: &MacroSyntax,
    levels: &[Levels; 6],
    context: &PictureContext,
    state: &SliceState,
    block: usize,
    out: &mut O,
)
    requires block { block < 6 }
    requires picture { IsPicture context.now }
    requires blocks { AreWritable context.now state.now (macroblock_of x.now levels.now) }
    requires room { length (block_in_text context.now state.now (macroblock_of x.now levels.now)
        block) ≤ O.space out.old }
    ensures { Gains O.took O.space out.old
        (block_in_text context.now state.now (macroblock_of x.now levels.now) block) out.new }
{
    if is_coded(x.pattern, block as u32) {
        let kind = kind_for(context, x.kind.intra, block < 4, state.quantiser);
        let dc = predictor(&state.dc, levels, block);
        let table_one = context.extension.intra_vlc_format;
        put_block(&levels[block], &kind, table_one, dc, out);
    }
}

/// Appends the blocks of a macroblock. The state is that behind the macroblock's elements.
fn put_blocks<O: BitOutput>(
    x: &MacroSyntax,
    levels: &[Levels; 6],
    context: &PictureContext,
    state: &SliceState,
    out: &mut O,
)
    requires picture { IsPicture context.now }
    requires blocks { AreWritable context.now state.now (macroblock_of x.now levels.now) }
    requires room { length (blocks_text context.now state.now (macroblock_of x.now levels.now) 0 6)
        ≤ O.space out.old }
    ensures { Gains O.took O.space out.old
        (blocks_text context.now state.now (macroblock_of x.now levels.now) 0 6) out.new }
{
    for block in 0..6usize {
        put_one(x, levels, context, state, block, out);
    }
}

/// Appends a macroblock with its coded blocks (clauses 6.2.5 and 6.2.6), and leaves the state behind it. The levels are
/// those of the six blocks in scan order, four of luma, Cb and Cr; blocks that aren't coded aren't looked at, but for the
/// DC level that the next luma block of an intra macroblock goes by.
#[tactic(auto, using(m2v_bits::proofs::Cursor::lengths), unfolding(crate::specs::Macroblocks::after_macroblock, crate::specs::Texts::macroblock_text))]
pub fn write_macroblock(
    x: &MacroSyntax,
    levels: &[Levels; 6],
    context: &PictureContext,
    state: &mut SliceState,
    out: &mut BitWriter,
)
    requires picture { IsPicture context.now }
    requires state { IsReady context.now state.old }
    requires address { IsAddress state.old.address }
    requires dc { AreDc context.now.extension.dc_precision state.old.dc }
    requires fits { IsMacro context.now state.old x.now }
    requires blocks { AreBlocks context.now state.old (macroblock_of x.now levels.now) }
    requires room { length (text_written context.now state.old x.now levels.now) ≤ out.old.room }
    ensures written { out.new.written ≡ out.old.written ++ text_written context.now state.old x.now
        levels.now }
    ensures room { out.new.room + length (text_written context.now state.old x.now levels.now)
        ≡ out.old.room }
    ensures state { state.new ≡ after_macroblock context.now state.old
        (macroblock_of x.now levels.now) }
    ensures ready { IsReady context.now state.new }
    ensures dc { AreDc context.now.extension.dc_precision state.new.dc }
{
    let next = state.after(context, x);
    let behind = &next;
    put_macro(x, context, state, out);
    put_blocks(x, levels, context, behind, out);
    *state = next;
    state.dc = dc_after(x.kind.intra, levels, state.dc);
}
