ghost use Rattle.std.specs.Prelude.{◌≡◌, ◌<◌, ◌≤◌, ◌+◌, All, OnOk, IfErr, length, take, slice_index_or, replicate, pos, true, []};
ghost use Rattle.m2v_bits.specs.Syntax.{choose, done, renamed};
ghost use Rattle.m2v_quant.specs.Kinds.{IsKind, IsLevel};
ghost use Rattle.m2v_macroblock.specs.m2v_block.Blocks.{block_at, IsDc};
ghost use Rattle.m2v_recon.specs.Steps.{levels_of};
ghost use Rattle.m2v_macroblock.specs.Macroblocks.{predictor as predictor_of, dc_after as dc_after_of};
ghost use Rattle.m2v_model.specs.Faults as faults;
ghost use Rattle.m2v_model.specs.Slices.{block_in, blocks_from};
ghost use Rattle.m2v_dec_picture.specs.Conditions.{AreDc, AreKinds, AreFine, last_dc};
ghost use Rattle.m2v_dec_picture.specs.Reads.{TellsLevels, TellsBlock, TellsBlocks};

use m2v_bits::BitReader;
use m2v_macro::{MacroSyntax, PictureContext, SliceState};
use m2v_macroblock::block::read_block;
use m2v_model::{Stop, of_block, stopped};
use m2v_quant::{BlockKind, SparseLevels};
use m2v_recon::is_coded;

/// All levels become 0.
#[inline(always)]
fn clear(out: &mut SparseLevels)
    ensures value { out.new.at ≡ replicate 64 (pos 0) }
    ensures levels { All IsLevel out.new.at }
{
    out.open(0);
}

/// A block's levels, all 0 where it isn't coded.
#[tactic(auto, unfolding(m2v_bits::specs::Syntax::renamed, m2v_bits::specs::Syntax::choose, m2v_bits::specs::Syntax::done))]
fn block(
    input: &mut BitReader,
    kind: &BlockKind,
    table_one: bool,
    coded: bool,
    predictor: i32,
    out: &mut SparseLevels,
) -> Result<(), Stop>
    requires kind { IsKind kind.now }
    requires predictor { kind.now.intra ≡ true → IsDc kind.now.precision predictor }
    ensures exact { TellsLevels result out.new.at input.new.rest
        ((choose coded (renamed faults.of_block (block_at kind.now table_one predictor))
        (done (replicate 64 (pos 0)))).read input.old.rest) }
    ensures text { input.new.text ≡ input.old.text }
    ensures left { IfErr result (λ e. e.left ≤ length input.old.text) }
    ensures levels { All IsLevel out.new.at }
    ensures dc { OnOk result (kind.now.intra ≡ true
        → IsDc kind.now.precision (slice_index_or out.new.at 0 (pos 0))) }
{
    if coded {
        let mut dc = predictor;
        return match read_block(input, kind, table_one, &mut dc, out) {
            Ok(()) => Ok(()),
            Err(e) => Err(stopped(input, of_block(e))),
        };
    }
    clear(out);
    Ok(())
}

/// The DC predictor of a block: that of its component, or the DC level of the luma block before it (clause 7.2.1).
#[inline(always)]
#[tactic(auto, unfolding(m2v_macroblock::specs::Macroblocks::predictor))]
fn predictor(dc: &[i32; 3], levels: &[SparseLevels; 6], block: usize) -> i32
    requires { block < 6 }
    ensures { result ≡ predictor_of dc.now (levels_of levels.now) block }
{
    if block >= 4 {
        dc[block - 3]
    } else if block == 0 {
        dc[0]
    } else {
        levels[block - 1].first_level()
    }
}

/// The DC predictor of a block of an intra macroblock. Blocks of others have none, and 0 stands in its place.
#[inline(always)]
fn predictor_if(intra: bool, dc: &[i32; 3], levels: &[SparseLevels; 6], block: usize) -> i32
    requires { block < 6 }
    ensures { intra ≡ true → result ≡ predictor_of dc.now (levels_of levels.now) block }
{
    if intra {
        return predictor(dc, levels, block);
    }
    0
}

/// The DC predictors of Y, Cb and Cr behind a macroblock's blocks: in an intra macroblock the DC levels of the last
/// block of each, else those before (clause 7.2.1).
#[inline(always)]
#[tactic(auto, unfolding(m2v_macroblock::specs::Macroblocks::dc_after))]
pub fn dc_after(intra: bool, levels: &[SparseLevels; 6], dc: [i32; 3]) -> [i32; 3]
    ensures { result ≡ dc_after_of intra (levels_of levels.now) dc }
{
    if intra {
        [
            levels[3].first_level(),
            levels[4].first_level(),
            levels[5].first_level(),
        ]
    } else {
        dc
    }
}

/// The levels of a block of a macroblock, behind those before it. The kinds are those of luma and of chroma blocks.
fn next_block(
    input: &mut BitReader,
    c: &PictureContext,
    m: &MacroSyntax,
    state: &SliceState,
    kinds: &[BlockKind; 2],
    k: usize,
    out: &mut [SparseLevels; 6],
) -> Result<(), Stop>
    requires block { k < 6 }
    requires kinds { AreKinds c.now m.now state.now kinds.now }
    requires dc { AreDc c.now.extension.dc_precision state.now.dc }
    requires before { All (AreFine c.now m.now) (take k (levels_of out.old)) }
    ensures exact { TellsBlock result (take k (levels_of out.old))
        (take (k + 1) (levels_of out.new)) input.new.rest
        ((block_in c.now m.now state.now k (take k (levels_of out.old))).read input.old.rest) }
    ensures text { input.new.text ≡ input.old.text }
    ensures left { IfErr result (λ e. e.left ≤ length input.old.text) }
    ensures fine { OnOk result (All (AreFine c.now m.now) (take (k + 1) (levels_of out.new))) }
    ensures long { length out.new ≡ 6 }
{
    let dc = predictor_if(m.kind.intra, &state.dc, out, k);
    let one = c.extension.intra_vlc_format;
    let coded = is_coded(m.pattern, k as u32);
    block(input, &kinds[k / 4], one, coded, dc, &mut out[k])
}

/// The levels of a macroblock's six blocks (clause 6.2.6). The DC predictor of the first luma block and of each chroma
/// block is that of its component, that of another luma block the level of the block before it (clause 7.2.1). `state`
/// is that behind the macroblock's elements, the kinds are those of its luma and its chroma blocks.
pub fn blocks(
    input: &mut BitReader,
    c: &PictureContext,
    m: &MacroSyntax,
    state: &SliceState,
    kinds: &[BlockKind; 2],
    out: &mut [SparseLevels; 6],
) -> Result<(), Stop>
    requires kinds { AreKinds c.now m.now state.now kinds.now }
    requires dc { AreDc c.now.extension.dc_precision state.now.dc }
    ensures exact { TellsBlocks result out.new input.new.rest
        ((blocks_from c.now m.now state.now 0 6 []).read input.old.rest) }
    ensures text { input.new.text ≡ input.old.text }
    ensures left { IfErr result (λ e. e.left ≤ length input.old.text) }
    ensures levels { OnOk result (All (λ l. All IsLevel l.at) out.new) }
    ensures dc { OnOk result (m.now.kind.intra ≡ true
        → AreDc c.now.extension.dc_precision (last_dc out.new)) }
{
    for k in 0..6usize {
        next_block(input, c, m, state, kinds, k, out)?;
    }
    Ok(())
}
