//! How many bits the codings of a prediction take: what stands before their patterns is counted once for all.
ghost use Rattle.std.specs.Prelude.{◌≡◌, ◌+◌, ◌*◌, ◌^◌, ◌≤◌, ◌<◌, ◌⊎◌, true, cond, length};
ghost use Rattle.m2v_vlc.specs.Lookups.{spelled};
ghost use Rattle.m2v_vlc.specs.Tables.{pattern_code};
ghost use Rattle.m2v_macro.specs.States.{after};
ghost use Rattle.m2v_recon.specs.Macro.{is_coded as is_coded_in};
ghost use Rattle.m2v_macroblock.specs.Macroblocks.{macroblock_of};
ghost use Rattle.m2v_macroblock.specs.Texts.{block_in_text, blocks_text};
ghost use Rattle.m2v_choose.specs.Trials.{IsTask, CanCode, IsHeader, AreHeaders, AreCoded, AreKinds, has_types, coded_kind as coded_kind_of, shared_length, four_each as four_each_of};

use crate::coding::{has_dct_type, with_blocks};
use crate::task::Task;
use crate::trial::bit_cost;
use m2v_macro::{MacroSyntax, macro_bits};
use m2v_macroblock::block::other_bits;
use m2v_quant::Levels;
use m2v_recon::is_coded;
use m2v_vlc::{Code, MbType, code_pattern, code_type_b, code_type_i, code_type_p};

/// How many bits stand before the pattern of a macroblock that has a prediction and coded blocks.
#[derive(Clone, Copy)]
pub struct Headers {
    /// Where the quantiser stays the last one that was sent.
    pub kept: u32,
    /// Where one is sent.
    pub sent: u32,
}

/// How many bits the type takes of a macroblock that has a prediction.
#[derive(Clone, Copy)]
pub struct KindBits {
    /// Without blocks.
    pub bare: u32,
    /// With coded blocks.
    pub kept: u32,
    /// With coded blocks and a quantiser.
    pub sent: u32,
}

/// How many bits a code has.
#[inline(always)]
#[tactic(auto, using(m2v_bits::proofs::Cursor::lengths))]
fn bits_in(code: Code) -> u32
    requires width { code.len ≤ 17 }
    ensures value { result ≡ length (spelled code) }
    ensures most { result ≤ 17 }
{
    code.len as u32
}

/// How many bits dct_type takes of a macroblock with blocks.
#[inline(always)]
fn dct_bits(task: &Task) -> u32
    ensures { result ≡ cond (has_types task.now.context.now) 1 0 }
{
    if has_dct_type(task.context) { 1 } else { 0 }
}

/// The same macroblock_type with coded blocks.
#[inline(always)]
fn coded_kind(v: MbType, send: bool) -> MbType
    ensures { result ≡ coded_kind_of v send }
{
    let mut kind = v;
    kind.quant = send;
    kind.pattern = true;
    kind
}

/// How many bits the type of a prediction takes, by the picture's type.
#[inline(always)]
pub fn kind_bits(task: &Task, bare: &MacroSyntax) -> KindBits
    ensures { AreKinds task.now bare.now result }
{
    let v = bare.kind;
    let (kept, sent) = (coded_kind(v, false), coded_kind(v, true));
    let kind = task.context.kind;
    if kind == 1 {
        return KindBits {
            bare: bits_in(code_type_i(v)),
            kept: bits_in(code_type_i(kept)),
            sent: bits_in(code_type_i(sent)),
        };
    }
    if kind == 2 {
        return KindBits {
            bare: bits_in(code_type_p(v)),
            kept: bits_in(code_type_p(kept)),
            sent: bits_in(code_type_p(sent)),
        };
    }
    KindBits {
        bare: bits_in(code_type_b(v)),
        kept: bits_in(code_type_b(kept)),
        sent: bits_in(code_type_b(sent)),
    }
}

/// How many bits of a prediction are the same with blocks and without: those of its address, its motion type and its
/// vectors.
#[inline(always)]
pub fn shared_bits(task: &Task, bare: &MacroSyntax, kinds: &KindBits) -> u32
    requires task { IsTask task.now }
    requires code { CanCode task.now bare.now }
    requires kinds { AreKinds task.now bare.now kinds.now }
    ensures value { result ≡ shared_length task.now.context.now task.now.state.now bare.now }
    ensures most { result ≤ 2 ^ 21 }
{
    let coded = with_blocks(bare, false, task.state.quantiser, false, 63);
    let all = macro_bits(&coded, task.context, &task.first);
    all - (kinds.kept + dct_bits(task) + 6)
}

/// How many bits stand before the patterns of the codings of a prediction, of which it shares so many.
#[inline(always)]
pub fn headers_of(task: &Task, bare: &MacroSyntax, kinds: &KindBits, shared: u32) -> Headers
    requires kinds { AreKinds task.now bare.now kinds.now }
    requires value { shared ≡ shared_length task.now.context.now task.now.state.now bare.now }
    requires most { shared ≤ 2 ^ 21 }
    ensures { AreHeaders task.now bare.now result }
{
    let before = shared + dct_bits(task);
    Headers {
        kept: before + kinds.kept,
        sent: before + kinds.sent + 5,
    }
}

/// At least so many bits stand before the blocks of a coding: a pattern has three.
#[inline(always)]
pub fn least_header(_task: &Task, _bare: &MacroSyntax, headers: &Headers) -> u32
    requires code { CanCode _task.now _bare.now }
    requires headers { AreHeaders _task.now _bare.now headers.now }
    ensures { IsHeader _task.now _bare.now result }
{
    headers.kept.min(headers.sent) + 3
}

/// How many bits stand before the pattern of a coding.
#[inline(always)]
fn before_pattern(headers: &Headers, send: bool) -> u32
    requires kept { headers.now.kept ≤ 2 ^ 22 }
    requires sent { headers.now.sent ≤ 2 ^ 22 }
    ensures value { result ≡ cond send headers.now.sent headers.now.kept }
    ensures most { result ≤ 2 ^ 22 }
{
    if send { headers.sent } else { headers.kept }
}

/// How many bits stand before the blocks of a coding.
#[inline(always)]
pub fn bits_before(headers: &Headers, send: bool, pattern: u8) -> u32
    requires kept { headers.now.kept ≤ 2 ^ 22 }
    requires sent { headers.now.sent ≤ 2 ^ 22 }
    ensures value { result
        ≡ cond send headers.now.sent headers.now.kept + length (pattern_code pattern) }
    ensures most { result ≤ 2 ^ 23 }
{
    before_pattern(headers, send) + bits_in(code_pattern(pattern))
}

/// At least so many bits the coded blocks of a pattern take: four each.
#[inline(always)]
fn four_each(pattern: u8) -> u32
    requires { pattern < 64 }
    ensures value { result ≡ four_each_of pattern }
    ensures most { result ≤ 24 }
{
    4 * pattern.count_ones()
}

/// How many bits are more than four.
#[inline(always)]
fn further(bits: u32) -> u32
    requires { 4 ≤ bits }
    ensures { result + 4 ≡ bits }
{
    bits - 4
}

/// How many bits a coded block takes more than four.
#[inline(always)]
fn past_four(_task: &Task, syntax: &MacroSyntax, levels: &[Levels; 6], block: usize) -> u32
    requires block { block < 6 }
    requires coded { AreCoded syntax.now levels.now }
    requires one { is_coded_in syntax.now.pattern block ≡ true }
    ensures value { result + 4 ≡ length (block_in_text _task.now.context.now
        (after _task.now.context.now _task.now.first syntax.now)
        (macroblock_of syntax.now levels.now) block) }
    ensures most { result ≤ 1538 }
{
    further(other_bits(&levels[block]))
}

/// How many bits a coding takes, counted block by block as long as they cost less than a limit: `header` stand before its
/// blocks, and a coded block that isn't reached has four at least.
pub fn bits_until(
    task: &Task,
    syntax: &MacroSyntax,
    levels: &[Levels; 6],
    header: u32,
    limit: u64,
) -> u32
    requires coded { AreCoded syntax.now levels.now }
    requires header { header ≤ 2 ^ 23 }
    ensures most { result ≤ header + length (blocks_text task.now.context.now
        (after task.now.context.now task.now.first syntax.now)
        (macroblock_of syntax.now levels.now) 0 6) }
    ensures enough { (result ≡ header + length (blocks_text task.now.context.now
        (after task.now.context.now task.now.first syntax.now)
        (macroblock_of syntax.now levels.now) 0 6))
        ⊎ (limit ≤ (2 * task.now.limits.now.q) ^ 2 * result) }
{
    let mut bits = header + four_each(syntax.pattern);
    for block in 0..6usize {
        if is_coded(syntax.pattern, block as u32) {
            if bit_cost(task.limits, bits) >= limit {
                return bits;
            }
            bits += past_four(task, syntax, levels, block);
        }
    }
    bits
}
