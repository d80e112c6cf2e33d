//! How many bits macroblocks with their blocks take, without writing them.
ghost use Rattle.std.specs.Prelude.{◌≡◌, ◌*◌, ◌≤◌, ◌<◌, ◌^◌, true, false, length};
ghost use Rattle.m2v_macro.specs.States.{after};
ghost use Rattle.m2v_macro.specs.Conditions.{IsReady, IsAddress, IsMacro};
ghost use Rattle.m2v_macroblock.specs.Macroblocks.{macroblock_of};
ghost use Rattle.m2v_macroblock.specs.Texts.{block_in_text, blocks_text, text_written};
ghost use Rattle.m2v_macroblock.specs.Conditions.{IsPicture, AreDc, AreBlocks, AreWritable};

use crate::blocks::predictor;
use m2v_block::quant::Levels;
use m2v_block::{intra_bits, other_bits};
use m2v_macro::{MacroSyntax, PictureContext, SliceState, macro_bits};
use m2v_recon::is_coded;

/// How many bits a block of an intra macroblock takes, by the DC predictors behind the macroblock's elements.
#[inline(always)]
fn intra_one_bits(
    x: &MacroSyntax,
    levels: &[Levels; 6],
    context: &PictureContext,
    _state: &SliceState,
    dc: &[i32; 3],
    block: usize,
) -> u32
    requires block { block < 6 }
    requires picture { IsPicture context.now }
    requires intra { x.now.kind.intra ≡ true }
    requires coded { x.now.pattern ≡ 63 }
    requires dc { dc.now ≡ (after context.now _state.now x.now).dc }
    requires blocks { AreWritable context.now (after context.now _state.now x.now)
        (macroblock_of x.now levels.now) }
    ensures value { result ≡ length (block_in_text context.now
        (after context.now _state.now x.now) (macroblock_of x.now levels.now) block) }
    ensures most { result ≤ 1538 }
{
    let one = context.extension.intra_vlc_format;
    intra_bits(&levels[block], block < 4, one, predictor(dc, levels, block))
}

/// How many bits the blocks of an intra macroblock take.
#[inline(always)]
#[tactic(auto, unfolding(m2v_macro::specs::States::after))]
fn intra_blocks_bits(
    x: &MacroSyntax,
    levels: &[Levels; 6],
    context: &PictureContext,
    state: &SliceState,
) -> u32
    requires picture { IsPicture context.now }
    requires intra { x.now.kind.intra ≡ true }
    requires coded { x.now.pattern ≡ 63 }
    requires blocks { AreWritable context.now (after context.now state.now x.now)
        (macroblock_of x.now levels.now) }
    ensures value { result ≡ length (blocks_text context.now
        (after context.now state.now x.now) (macroblock_of x.now levels.now) 0 6) }
    ensures most { result ≤ 6 * 1538 }
{
    let dc = state.dc_behind(context, x);
    let mut bits = 0;
    for block in 0..6usize {
        bits += intra_one_bits(x, levels, context, state, &dc, block);
    }
    bits
}

/// How many bits a block takes of a macroblock that is not intra.
#[inline(always)]
fn other_one_bits(
    x: &MacroSyntax,
    levels: &[Levels; 6],
    _context: &PictureContext,
    _state: &SliceState,
    block: usize,
) -> u32
    requires block { block < 6 }
    requires other { x.now.kind.intra ≡ false }
    requires blocks { AreBlocks _context.now _state.now (macroblock_of x.now levels.now) }
    ensures value { result ≡ length (block_in_text _context.now
        (after _context.now _state.now x.now) (macroblock_of x.now levels.now) block) }
    ensures most { result ≤ 1538 }
{
    if is_coded(x.pattern, block as u32) {
        return other_bits(&levels[block]);
    }
    0
}

/// How many bits the blocks take of a macroblock that is not intra.
#[inline(always)]
fn other_blocks_bits(
    x: &MacroSyntax,
    levels: &[Levels; 6],
    context: &PictureContext,
    state: &SliceState,
) -> u32
    requires other { x.now.kind.intra ≡ false }
    requires blocks { AreBlocks context.now state.now (macroblock_of x.now levels.now) }
    ensures value { result ≡ length (blocks_text context.now
        (after context.now state.now x.now) (macroblock_of x.now levels.now) 0 6) }
    ensures most { result ≤ 6 * 1538 }
{
    let pattern = x.pattern;
    if pattern == 0 {
        return 0;
    }
    let mut bits = 0;
    for block in 0..6usize {
        bits += other_one_bits(x, levels, context, state, block);
    }
    bits
}

/// How many bits the blocks of a macroblock take.
#[inline(always)]
fn blocks_bits(
    x: &MacroSyntax,
    levels: &[Levels; 6],
    context: &PictureContext,
    state: &SliceState,
) -> u32
    requires picture { IsPicture context.now }
    requires fits { IsMacro context.now state.now x.now }
    requires levels { AreBlocks context.now state.now (macroblock_of x.now levels.now) }
    requires blocks { AreWritable context.now (after context.now state.now x.now)
        (macroblock_of x.now levels.now) }
    ensures value { result ≡ length (blocks_text context.now
        (after context.now state.now x.now) (macroblock_of x.now levels.now) 0 6) }
    ensures most { result ≤ 6 * 1538 }
{
    if x.kind.intra {
        return intra_blocks_bits(x, levels, context, state);
    }
    other_blocks_bits(x, levels, context, state)
}

/// How many bits `write_macroblock` takes for a macroblock. Nothing is written.
#[tactic(auto, unfolding(crate::specs::Texts::macroblock_text))]
pub fn macroblock_bits(
    x: &MacroSyntax,
    levels: &[Levels; 6],
    context: &PictureContext,
    state: &SliceState,
) -> u32
    requires picture { IsPicture context.now }
    requires state { IsReady context.now state.now }
    requires address { IsAddress state.now.address }
    requires dc { AreDc context.now.extension.dc_precision state.now.dc }
    requires fits { IsMacro context.now state.now x.now }
    requires blocks { AreBlocks context.now state.now (macroblock_of x.now levels.now) }
    ensures value { result ≡ length (text_written context.now state.now x.now levels.now) }
    ensures most { result ≤ 2 ^ 22 }
{
    macro_bits(x, context, state) + blocks_bits(x, levels, context, state)
}
