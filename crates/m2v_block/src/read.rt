ghost use Rattle.std.specs.Prelude.{◌≡◌, ◌≢◌, ◌+◌, ◌^◌, ◌<◌, ◌≤◌, ◌+ℤ◌, nat_eq, Bool, true, false, cond, ◌&&◌, ◌∷◌, length, replicate, slice_index_or, All, IfOk, IfSome, IsNone, OnErr, Ok, ℤ, pos};
ghost use Rattle.m2v_bits.specs.Syntax.{Gives};
ghost use Rattle.m2v_vlc.specs.Coefficients.{IsCoefficient};
ghost use Rattle.m2v_quant.specs.Kinds.{IsKind, IsLevel};
ghost use Rattle.m2v_quant.specs.Sparse.{IsClearFrom};
ghost use Rattle.m2v_block.specs.Blocks.{IsDc, placed, escaped, is_allowed, coefficient_at, code_from, opened, first_at, block_at, predictor_after, GivesScan, GivesLevels};
ghost use Rattle.m2v_block.specs.Reading.{IsFilled, LeavesPair, ReadsPair, ReadsPairs};

use crate::escape::{escaped, is_allowed, quick_escape};
use crate::fault::BlockFault;
use crate::fault::BlockFault::{Code, ForbiddenLevel, Overrun};
use crate::quick::{quick_first, quick_long, quick_long_first, quick_pairs, set};
use crate::read_dc::dc;
use m2v_bits::{BitReader, check, number};
use m2v_quant::{BlockKind, SparseLevels};
use m2v_vlc::CodeFault::Truncated;
use m2v_vlc::{Coefficient, read_coefficient_one, read_coefficient_zero, read_first_zero};

/// Whether a pair was read and not the end of the block, and how many places are filled then.
type Scanned = Result<(bool, usize), BlockFault>;

/// A run of zeros and a level behind it.
#[inline(always)]
#[tactic(auto, unfolding(crate::specs::Blocks::placed, m2v_bits::specs::Syntax::seq, m2v_bits::specs::Syntax::bind, m2v_bits::specs::Syntax::rule, m2v_bits::specs::Syntax::done))]
fn placed<'a>(
    input: &mut BitReader<'a>,
    start: &BitReader<'a>,
    filled: usize,
    run: u8,
    level: i32,
    out: &mut SparseLevels,
) -> Scanned
    requires filled { IsFilled filled out.old.at }
    requires run { run < 64 }
    requires level { IsLevel level }
    requires some { level ≢ pos 0 }
    requires text { start.now.text ≡ input.old.text }
    ensures exact { GivesScan result out.new.at input.new.rest
        ((placed (length start.now.rest) run level (record {
          filled = filled;
          levels = out.old.at;
        })).read input.old.rest) }
    ensures text { input.new.text ≡ input.old.text }
    ensures left { LeavesPair filled out.old.at out.new.at result }
{
    let at = filled + run as usize;
    check(input, start, at < 64, Overrun)?;
    set(out, at, level);
    Ok((true, at + 1))
}

/// A code of the table that holds at this place.
#[inline(always)]
#[tactic(auto, unfolding(crate::specs::Blocks::code_from, m2v_bits::specs::Syntax::choose, m2v_bits::specs::Syntax::renamed))]
fn code(input: &mut BitReader, first: bool, one: bool) -> Result<Coefficient, BlockFault>
    ensures exact { Gives result input.new.rest ((code_from first one).read input.old.rest) }
    ensures text { input.new.text ≡ input.old.text }
    ensures range { IfOk result (λ v. IsCoefficient v) }
{
    if first {
        Ok(read_first_zero(input)?)
    } else if one {
        Ok(read_coefficient_one(input)?)
    } else {
        Ok(read_coefficient_zero(input)?)
    }
}

/// What a code of a coefficient stands for: the end of the block, an escaped pair, or a pair.
#[inline(always)]
#[tactic(auto, unfolding(crate::specs::Blocks::coefficient_at, m2v_bits::specs::Syntax::seq, m2v_bits::specs::Syntax::bind, m2v_bits::specs::Syntax::here, m2v_bits::specs::Syntax::rule, m2v_bits::specs::Syntax::done))]
fn coefficient<'a>(
    input: &mut BitReader<'a>,
    start: &BitReader<'a>,
    filled: usize,
    c: Coefficient,
    out: &mut SparseLevels,
) -> Scanned
    requires filled { IsFilled filled out.old.at }
    requires range { IsCoefficient c }
    requires text { start.now.text ≡ input.old.text }
    ensures exact { GivesScan result out.new.at input.new.rest
        ((coefficient_at (length start.now.rest) (record { filled = filled; levels = out.old.at })
        c).read input.old.rest) }
    ensures text { input.new.text ≡ input.old.text }
    ensures left { LeavesPair filled out.old.at out.new.at result }
{
    if let Coefficient::Pair { run, level } = c {
        return placed(input, start, filled, run, i32::from(level), out);
    }
    if let Coefficient::End = c {
        return Ok((false, filled));
    }
    let run = number(input, 6, Code(Truncated))?;
    let at = input.fork();
    let level = number(input, 12, Code(Truncated))?;
    check(input, &at, is_allowed(level), ForbiddenLevel)?;
    placed(input, start, filled, run as u8, escaped(level), out)
}

/// Reads a pair or the end of the block: whether a pair was read, and how many places are filled then.
#[cold]
#[inline(never)]
#[tactic(auto, unfolding(crate::specs::Blocks::pair_at, m2v_bits::specs::Syntax::seq, m2v_bits::specs::Syntax::bind, m2v_bits::specs::Syntax::here))]
fn pair(input: &mut BitReader, one: bool, filled: usize, out: &mut SparseLevels) -> Scanned
    requires { IsFilled filled out.old.at }
    ensures { ReadsPair one filled out.old.at out.new.at input.old input.new result }
{
    let start = input.fork();
    let c = code(input, filled == 0, one)?;
    coefficient(input, &start, filled, c, out)
}

/// Reads a pair or the end of the block where one look doesn't tell it, by a reader of its own: the place of `input` can stay in
/// a register.
#[inline(always)]
fn far_pair(input: &mut BitReader, one: bool, filled: usize, out: &mut SparseLevels) -> Scanned
    requires { IsFilled filled out.old.at }
    ensures { ReadsPair one filled out.old.at out.new.at input.old input.new result }
{
    let mut far = input.fork();
    let read = pair(&mut far, one, filled, out);
    *input = far;
    read
}

/// Reads a pair or the end of the block where no short code stands: by one look in most cases.
#[inline(always)]
fn next_pair(input: &mut BitReader, one: bool, filled: usize, out: &mut SparseLevels) -> Scanned
    requires some { 0 < filled }
    requires filled { IsFilled filled out.old.at }
    ensures { ReadsPair one filled out.old.at out.new.at input.old input.new result }
{
    if let Some(x) = quick_long(input, one, filled, out) {
        return Ok(x);
    }
    if let Some(next) = quick_escape(input, one, filled, out) {
        return Ok((true, next));
    }
    far_pair(input, one, filled, out)
}

/// Reads pairs up to the end of the block.
#[inline(always)]
fn pairs(
    input: &mut BitReader,
    one: bool,
    from: usize,
    out: &mut SparseLevels,
) -> Result<(), BlockFault>
    requires some { 0 < from }
    requires filled { IsFilled from out.old.at }
    ensures { ReadsPairs one from out.old.at out.new.at input.old input.new result }
{
    let mut filled = from;
    loop {
        let (next, ended) = quick_pairs(input, one, filled, out);
        if ended > 0 {
            input.skip(ended);
            return Ok(());
        }
        let (more, next) = next_pair(input, one, next, out)?;
        filled = next;
        if !more {
            return Ok(());
        }
    }
}

/// Reads the pairs behind the DC level of an intra block: which table holds is asked once.
#[inline(always)]
fn pairs_by(input: &mut BitReader, one: bool, out: &mut SparseLevels) -> Result<(), BlockFault>
    requires { IsFilled 1 out.old.at }
    ensures { ReadsPairs one 1 out.old.at out.new.at input.old input.new result }
{
    if one {
        return pairs(input, true, 1, out);
    }
    pairs(input, false, 1, out)
}

/// Reads the pairs behind the DC level of an intra block, by a reader of its own, whose place stays in a register.
#[inline(always)]
fn intra_pairs(input: &mut BitReader, one: bool, out: &mut SparseLevels) -> Result<(), BlockFault>
    requires { IsFilled 1 out.old.at }
    ensures { ReadsPairs one 1 out.old.at out.new.at input.old input.new result }
{
    let mut ahead = input.fork();
    let read = pairs_by(&mut ahead, one, out);
    *input = ahead;
    read
}

/// Reads the first pair of a block that is not intra, where no block ends: by one look in most cases.
#[inline(always)]
fn first_pair(input: &mut BitReader, out: &mut SparseLevels) -> Scanned
    requires { IsFilled 0 out.old.at }
    ensures { ReadsPair false 0 out.old.at out.new.at input.old input.new result }
{
    if let Some(next) = quick_first(input, out) {
        return Ok((true, next));
    }
    if let Some(next) = quick_long_first(input, out) {
        return Ok((true, next));
    }
    if let Some(next) = quick_escape(input, false, 0, out) {
        return Ok((true, next));
    }
    far_pair(input, false, 0, out)
}

/// Reads all pairs of a block that is not intra. The first of them goes by itself: none behind it can be the first.
#[inline(always)]
fn first_and_pairs(input: &mut BitReader, out: &mut SparseLevels) -> Result<(), BlockFault>
    requires { IsFilled 0 out.old.at }
    ensures { ReadsPairs false 0 out.old.at out.new.at input.old input.new result }
{
    let (more, next) = first_pair(input, out)?;
    if !more {
        return Ok(());
    }
    pairs(input, false, next, out)
}

/// Reads all pairs of a block that is not intra, by a reader of its own, whose place stays in a register.
#[inline(always)]
fn all_pairs(input: &mut BitReader, out: &mut SparseLevels) -> Result<(), BlockFault>
    requires { IsFilled 0 out.old.at }
    ensures { ReadsPairs false 0 out.old.at out.new.at input.old input.new result }
{
    let mut ahead = input.fork();
    let read = first_and_pairs(&mut ahead, out);
    *input = ahead;
    read
}

/// The DC level of an intra block, and 0 for another.
#[inline(always)]
#[tactic(auto, unfolding(crate::specs::Blocks::first_at, m2v_bits::specs::Syntax::choose, m2v_bits::specs::Syntax::done))]
fn first(input: &mut BitReader, kind: &BlockKind, predictor: i32) -> Result<i32, BlockFault>
    requires kind { IsKind kind.now }
    requires predictor { kind.now.intra ≡ true → IsDc kind.now.precision predictor }
    ensures exact { Gives result input.new.rest
        ((first_at kind.now predictor).read input.old.rest) }
    ensures text { input.new.text ≡ input.old.text }
    ensures range { IfOk result (λ v. IsLevel v) }
    ensures dc { kind.now.intra ≡ true → IfOk result (λ v. IsDc kind.now.precision v) }
    ensures none { kind.now.intra ≡ false → IfOk result (λ v. v ≡ pos 0) }
{
    if kind.intra {
        dc(input, kind.luma, kind.precision, predictor)
    } else {
        Ok(0)
    }
}

/// All levels become 0.
#[inline(always)]
fn clear(out: &mut SparseLevels)
    ensures { out.new.at ≡ replicate 64 (pos 0) }
{
    out.open(0);
}

/// The DC level stands among zeros.
#[inline(always)]
fn open(dc: i32, out: &mut SparseLevels)
    requires range { IsLevel dc }
    ensures value { out.new.at ≡ dc ∷ replicate 63 (pos 0) }
    ensures clear { IsClearFrom 1 out.new.at }
    ensures none { dc ≡ pos 0 → IsClearFrom 0 out.new.at }
    ensures levels { All IsLevel out.new.at }
    ensures first { slice_index_or out.new.at 0 (pos 0) ≡ dc }
{
    out.open(dc);
}

/// Reads a block (clauses 6.2.6 and 7.2): its 64 levels in scan order, each from -2047 to 2047, with the DC level of an
/// intra block behind the predictor. `table_one` is intra_vlc_format; `dc_pred` becomes the DC level of an intra block,
/// and stays at any other.
///
/// # Errors
/// The first fault. The reader then stands at its place, the predictor stays, and the levels are some that are in range.
#[tactic(auto, unfolding(crate::specs::Blocks::block_at, crate::specs::Blocks::opened, m2v_bits::specs::Syntax::seq, m2v_bits::specs::Syntax::bind, m2v_bits::specs::Syntax::done))]
pub fn read_block(
    input: &mut BitReader,
    kind: &BlockKind,
    table_one: bool,
    dc_pred: &mut i32,
    out: &mut SparseLevels,
) -> Result<(), BlockFault>
    requires kind { IsKind kind.now }
    requires predictor { kind.now.intra ≡ true → IsDc kind.now.precision dc_pred.old }
    ensures exact { GivesLevels result out.new.at input.new.rest
        ((block_at kind.now table_one dc_pred.old).read input.old.rest) }
    ensures text { input.new.text ≡ input.old.text }
    ensures predictor { IfOk result (λ _. dc_pred.new ≡ predictor_after kind.now dc_pred.old
        out.new.at) }
    ensures same { OnErr result (dc_pred.new ≡ dc_pred.old) }
    ensures levels { All IsLevel out.new.at }
    ensures dc { kind.now.intra ≡ true → IsDc kind.now.precision dc_pred.new }
{
    clear(out);
    let dc = first(input, kind, *dc_pred)?;
    open(dc, out);
    if kind.intra {
        intra_pairs(input, table_one, out)?;
        *dc_pred = dc;
        return Ok(());
    }
    all_pairs(input, out)
}
