ghost use Rattle.std.specs.Prelude.{◌≡◌, ◌≢◌, ◌+◌, ◌<◌, ◌≤◌, Bool, List, drop, length, slice_index_or, slice_set, All, IfSome, IfOk, IfErr, IsErr, IsNone, Ok, pos, true, false};
ghost use Rattle.m2v_bits.specs.Bits.{number, ahead};
ghost use Rattle.m2v_quant.specs.Kinds.{IsLevel};
ghost use Rattle.m2v_quant.specs.Sparse.{IsClearFrom};
ghost use Rattle.m2v_block.specs.Blocks.{pair_at, pairs_at, EndsBy, Looked};
ghost use Rattle.m2v_block.specs.Reading.{IsFilled, LooksPair};

use m2v_bits::BitReader;
use m2v_quant::SparseLevels;
use m2v_vlc::{long_first, long_pair, short_first, short_pair};

/// Sets a level behind all that aren't 0.
#[inline(always)]
pub fn set(out: &mut SparseLevels, at: usize, level: i32)
    requires at { at < 64 }
    requires level { IsLevel level }
    requires some { level ≢ pos 0 }
    requires clear { IsClearFrom at out.old.at }
    requires levels { All IsLevel out.old.at }
    ensures value { out.new.at ≡ slice_set out.old.at at level }
    ensures clear { IsClearFrom (at + 1) out.new.at }
    ensures levels { All IsLevel out.new.at }
    ensures dc { 0 < at → slice_index_or out.new.at 0 (pos 0) ≡ slice_index_or out.old.at 0 (pos 0) }
{
    out.put(at, level);
}

/// The same, behind the first position.
#[inline(always)]
fn set_later(out: &mut SparseLevels, at: usize, level: i32)
    requires later { 1 ≤ at }
    requires at { at < 64 }
    requires level { IsLevel level }
    requires some { level ≢ pos 0 }
    requires clear { IsClearFrom at out.old.at }
    requires levels { All IsLevel out.old.at }
    ensures value { out.new.at ≡ slice_set out.old.at at level }
    ensures clear { IsClearFrom (at + 1) out.new.at }
    ensures levels { All IsLevel out.new.at }
    ensures dc { slice_index_or out.new.at 0 (pos 0) ≡ slice_index_or out.old.at 0 (pos 0) }
{
    out.put_later(at, level);
}

/// Reads a pair with a long code by one look, if one stands well before the end of the bits: that a pair was read, and how many
/// places are filled then.
#[inline(always)]
pub fn quick_long(
    input: &mut BitReader,
    one: bool,
    filled: usize,
    out: &mut SparseLevels,
) -> Option<(bool, usize)>
    requires filled { filled ≤ 64 }
    requires some { 0 < filled }
    requires clear { IsClearFrom filled out.old.at }
    requires levels { All IsLevel out.old.at }
    ensures read { IfSome result (λ x. (pair_at one (record {
      filled = filled;
      levels = out.old.at;
    })).read input.old.rest ≡ Ok (
      (x.0, record { filled = x.1; levels = out.new.at }),
      input.new.rest,
    )) }
    ensures none { IsNone result → out.new ≡ out.old }
    ensures here { IsNone result → input.new ≡ input.old }
    ensures text { input.new.text ≡ input.old.text }
    ensures within { IfSome result (λ x. (filled ≤ x.1) × (x.1 ≤ 64)) }
    ensures clear { IfSome result (λ x. IsClearFrom x.1 out.new.at) }
    ensures dc { slice_index_or out.new.at 0 (pos 0) ≡ slice_index_or out.old.at 0 (pos 0) }
    ensures levels { All IsLevel out.new.at }
{
    let seventeen = input.peek_inside(17)?;
    if seventeen >= 2048 {
        return None;
    }
    let pair = long_pair(one, seventeen);
    let at = filled + pair.1 as usize;
    if at >= 64 {
        return None;
    }
    set_later(out, at, i32::from(pair.0));
    input.skip(pair.2);
    Some((true, at + 1))
}

/// What a look told.
#[derive(Clone, Copy)]
struct Told {
    /// How many places are filled then.
    filled: usize,
    /// Where no short code of a pair stands behind the pairs: how many bits the end of the block has, 0 where it is not told.
    ended: Option<u8>,
}

/// Nine bits behind the first `used` of 32 bits.
#[inline(always)]
fn nine_at(bits: u32, used: u8) -> u32
    requires used { used ≤ 23 }
    ensures value { (rest : List Bool) → Looked bits used rest
        → result ≡ number (ahead 9 rest) }
    ensures below { result < 512 }
{
    (bits >> (23 - used)) % 512
}

/// Reads a pair whose short code nine bits begin with, well before the end of the bits: how many places are filled then, and how
/// many bits the code has. Where no such pair stands, how many bits the end of the block has, and 0 where it is not told.
#[inline(always)]
fn quick_pair(
    input: &mut BitReader,
    one: bool,
    nine: u32,
    filled: usize,
    out: &mut SparseLevels,
) -> Result<(usize, u8), u8>
    requires filled { filled ≤ 64 }
    requires some { 0 < filled }
    requires clear { IsClearFrom filled out.old.at }
    requires levels { All IsLevel out.old.at }
    requires nine { nine ≡ number (ahead 9 input.old.rest) }
    requires below { nine < 512 }
    requires left { 9 ≤ length input.old.rest }
    ensures read { IfOk result (λ x. (pair_at one (record {
      filled = filled;
      levels = out.old.at;
    })).read input.old.rest ≡ Ok (
      (true, record { filled = x.0; levels = out.new.at }),
      input.new.rest,
    )) }
    ensures moved { IfOk result (λ x. (x.1 ≤ 9) × (input.new.rest ≡ drop x.1 input.old.rest)) }
    ensures ended { IfErr result (λ n. 0 < n
        → EndsBy one (record { filled = filled; levels = out.new.at }) input.new.rest n) }
    ensures none { IsErr result → out.new ≡ out.old }
    ensures here { IsErr result → input.new ≡ input.old }
    ensures text { input.new.text ≡ input.old.text }
    ensures within { IfOk result (λ x. (filled < x.0) × (x.0 ≤ 64)) }
    ensures clear { IfOk result (λ x. IsClearFrom x.0 out.new.at) }
    ensures dc { slice_index_or out.new.at 0 (pos 0) ≡ slice_index_or out.old.at 0 (pos 0) }
    ensures levels { All IsLevel out.new.at }
{
    let pair = short_pair(one, nine);
    let at = filled + pair.1 as usize;
    if at >= 64 {
        return Err(if pair.1 == 128 { pair.2 } else { 0 });
    }
    set_later(out, at, i32::from(pair.0));
    input.skip(pair.2);
    Ok((at + 1, pair.2))
}

/// Reads the third pair of a look.
#[inline(always)]
fn third_pair(
    input: &mut BitReader,
    one: bool,
    bits: u32,
    used: u8,
    filled: usize,
    out: &mut SparseLevels,
) -> Told
    requires filled { filled ≤ 64 }
    requires some { 0 < filled }
    requires clear { IsClearFrom filled out.old.at }
    requires levels { All IsLevel out.old.at }
    requires used { used ≤ 18 }
    requires looked { Looked bits used input.old.rest }
    requires left { 9 ≤ length input.old.rest }
    ensures read { (pairs_at one (record {
      filled = result.filled;
      levels = out.new.at;
    })).read input.new.rest ≡ (pairs_at one (record {
      filled = filled;
      levels = out.old.at;
    })).read input.old.rest }
    ensures ended { IfSome result.ended (λ n. 0 < n → EndsBy one (record {
      filled = result.filled;
      levels = out.new.at;
    }) input.new.rest n) }
    ensures text { input.new.text ≡ input.old.text }
    ensures less { length input.new.rest ≤ length input.old.rest }
    ensures within { (filled ≤ result.filled) × (result.filled ≤ 64) }
    ensures clear { IsClearFrom result.filled out.new.at }
    ensures more { IsNone result.ended → filled < result.filled }
    ensures dc { slice_index_or out.new.at 0 (pos 0) ≡ slice_index_or out.old.at 0 (pos 0) }
    ensures levels { All IsLevel out.new.at }
{
    match quick_pair(input, one, nine_at(bits, used), filled, out) {
        Ok((next, _)) => Told {
            filled: next,
            ended: None,
        },
        Err(ended) => Told {
            filled,
            ended: Some(ended),
        },
    }
}

/// Reads the second pair of a look, and the third.
#[inline(always)]
fn second_pair(
    input: &mut BitReader,
    one: bool,
    bits: u32,
    used: u8,
    filled: usize,
    out: &mut SparseLevels,
) -> Told
    requires filled { filled ≤ 64 }
    requires some { 0 < filled }
    requires clear { IsClearFrom filled out.old.at }
    requires levels { All IsLevel out.old.at }
    requires used { used ≤ 9 }
    requires looked { Looked bits used input.old.rest }
    requires left { 18 ≤ length input.old.rest }
    ensures read { (pairs_at one (record {
      filled = result.filled;
      levels = out.new.at;
    })).read input.new.rest ≡ (pairs_at one (record {
      filled = filled;
      levels = out.old.at;
    })).read input.old.rest }
    ensures ended { IfSome result.ended (λ n. 0 < n → EndsBy one (record {
      filled = result.filled;
      levels = out.new.at;
    }) input.new.rest n) }
    ensures text { input.new.text ≡ input.old.text }
    ensures less { length input.new.rest ≤ length input.old.rest }
    ensures within { (filled ≤ result.filled) × (result.filled ≤ 64) }
    ensures clear { IsClearFrom result.filled out.new.at }
    ensures more { IsNone result.ended → filled < result.filled }
    ensures dc { slice_index_or out.new.at 0 (pos 0) ≡ slice_index_or out.old.at 0 (pos 0) }
    ensures levels { All IsLevel out.new.at }
{
    match quick_pair(input, one, nine_at(bits, used), filled, out) {
        Ok((next, len)) => third_pair(input, one, bits, used + len, next, out),
        Err(ended) => Told {
            filled,
            ended: Some(ended),
        },
    }
}

/// Reads up to three pairs with short codes by one look at 32 bits, well before the end of the bits.
#[inline(always)]
fn quick_three(input: &mut BitReader, one: bool, filled: usize, out: &mut SparseLevels) -> Told
    requires filled { filled ≤ 64 }
    requires some { 0 < filled }
    requires clear { IsClearFrom filled out.old.at }
    requires levels { All IsLevel out.old.at }
    ensures read { (pairs_at one (record {
      filled = result.filled;
      levels = out.new.at;
    })).read input.new.rest ≡ (pairs_at one (record {
      filled = filled;
      levels = out.old.at;
    })).read input.old.rest }
    ensures ended { IfSome result.ended (λ n. 0 < n → EndsBy one (record {
      filled = result.filled;
      levels = out.new.at;
    }) input.new.rest n) }
    ensures text { input.new.text ≡ input.old.text }
    ensures less { length input.new.rest ≤ length input.old.rest }
    ensures within { (filled ≤ result.filled) × (result.filled ≤ 64) }
    ensures clear { IsClearFrom result.filled out.new.at }
    ensures more { IsNone result.ended → filled < result.filled }
    ensures dc { slice_index_or out.new.at 0 (pos 0) ≡ slice_index_or out.old.at 0 (pos 0) }
    ensures levels { All IsLevel out.new.at }
{
    let Some(bits) = input.peek_inside(32) else {
        return Told {
            filled,
            ended: Some(0),
        };
    };
    match quick_pair(input, one, nine_at(bits, 0), filled, out) {
        Ok((next, len)) => second_pair(input, one, bits, len, next, out),
        Err(ended) => Told {
            filled,
            ended: Some(ended),
        },
    }
}

/// Reads pairs with short codes, as many as stand there: how many places are filled then, and how many bits the end of the block
/// has that stands behind them, 0 where it is not told.
#[inline(always)]
pub fn quick_pairs(
    input: &mut BitReader,
    one: bool,
    from: usize,
    out: &mut SparseLevels,
) -> (usize, u8)
    requires filled { from ≤ 64 }
    requires some { 0 < from }
    requires clear { IsClearFrom from out.old.at }
    requires levels { All IsLevel out.old.at }
    ensures read { (pairs_at one (record {
      filled = result.0;
      levels = out.new.at;
    })).read input.new.rest ≡ (pairs_at one (record {
      filled = from;
      levels = out.old.at;
    })).read input.old.rest }
    ensures ended { 0 < result.1
        → EndsBy one (record { filled = result.0; levels = out.new.at }) input.new.rest result.1 }
    ensures text { input.new.text ≡ input.old.text }
    ensures less { length input.new.rest ≤ length input.old.rest }
    ensures within { (from ≤ result.0) × (result.0 ≤ 64) }
    ensures clear { IsClearFrom result.0 out.new.at }
    ensures dc { slice_index_or out.new.at 0 (pos 0) ≡ slice_index_or out.old.at 0 (pos 0) }
    ensures levels { All IsLevel out.new.at }
{
    let mut filled = from;
    loop {
        let told = quick_three(input, one, filled, out);
        filled = told.filled;
        if let Some(ended) = told.ended {
            return (filled, ended);
        }
    }
}

/// Reads the first pair of a block that is not intra by one look, if it has a short code well before the end of the bits: how
/// many places are filled then.
#[inline(always)]
pub fn quick_first(input: &mut BitReader, out: &mut SparseLevels) -> Option<usize>
    requires { IsFilled 0 out.old.at }
    ensures look { LooksPair false 0 out.old.at out.new.at input.old input.new result }
    ensures none { IsNone result → out.new ≡ out.old }
{
    let nine = input.peek_inside(9)?;
    let pair = short_first(nine);
    let at = pair.1 as usize;
    if at >= 64 {
        return None;
    }
    set(out, at, i32::from(pair.0));
    input.skip(pair.2);
    Some(at + 1)
}

/// Reads the first pair of a block that is not intra by one look, if it has a long code well before the end of the bits: how
/// many places are filled then.
#[inline(always)]
pub fn quick_long_first(input: &mut BitReader, out: &mut SparseLevels) -> Option<usize>
    requires { IsFilled 0 out.old.at }
    ensures look { LooksPair false 0 out.old.at out.new.at input.old input.new result }
    ensures none { IsNone result → out.new ≡ out.old }
{
    let seventeen = input.peek_inside(17)?;
    if seventeen >= 2048 {
        return None;
    }
    let pair = long_first(seventeen);
    let at = pair.1 as usize;
    if at >= 64 {
        return None;
    }
    set(out, at, i32::from(pair.0));
    input.skip(pair.2);
    Some(at + 1)
}
