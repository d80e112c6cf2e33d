ghost use Rattle.std.specs.Prelude.{◌≡◌, ℕ, ◌+◌, ◌-◌, ◌≤◌, ◌<◌, ◌^◌, min, nat_lt, ◌&&◌, ◌||◌, not, IfOk, length, true, pos, ◌+ℤ◌, int_le};
ghost use Rattle.m2v_bits.specs.Syntax.{Gives};
ghost use Rattle.m2v_macro.specs.States.{address, column as column_of, not_past as not_past_of, in_order as in_order_of, skips as skips_of, may_skip as may_skip_of};
ghost use Rattle.m2v_macro.specs.Macros.{round_at, increment_at, begins_before as begins_before_of, allowed_at, step_at};
ghost use Rattle.m2v_macro.specs.Conditions.{IsAddress, IsBegun, IsStep};
ghost use Rattle.m2v_macro.specs.Reading.{kept, GivesRound, GivesSum};

use crate::fault::MacroFault;
use crate::values::{PictureContext, SliceState};
use m2v_bits::{BitReader, check};
use m2v_vlc::{Increment, read_increment};

/// An escape, or the increment: whether another follows, and the sum so far. Sums are kept up to 2^32 - 1, far past
/// each row's end.
#[inline(always)]
#[tactic(auto, unfolding(crate::specs::Macros::round_at, crate::specs::Macros::added, m2v_bits::specs::Syntax::seq, m2v_bits::specs::Syntax::bind, m2v_bits::specs::Syntax::renamed, m2v_bits::specs::Syntax::done))]
fn round(input: &mut BitReader, sum: u32) -> Result<(bool, u32), MacroFault>
    ensures exact { (n : ℕ) → sum ≡ kept n
        → GivesRound result input.new.rest ((round_at n).read input.old.rest) }
    ensures text { input.new.text ≡ input.old.text }
    ensures some { IfOk result (λ x. 0 < x.1) }
{
    let code = read_increment(input)?;
    match code {
        Increment::Step(n) => Ok((false, sum.saturating_add(u32::from(n)))),
        Increment::Escape => Ok((true, sum.saturating_add(33))),
    }
}

/// An increment with its escapes (clause 6.3.17), kept up to 2^32 - 1.
#[inline(always)]
#[tactic(auto, unfolding(crate::specs::Macros::increment_from))]
pub fn increment(input: &mut BitReader) -> Result<u32, MacroFault>
    ensures exact { GivesSum result input.new.rest (increment_at.read input.old.rest) }
    ensures text { input.new.text ≡ input.old.text }
    ensures some { IfOk result (λ v. 0 < v) }
{
    let mut sum = 0;
    loop {
        let (more, next) = round(input, sum)?;
        sum = next;
        if !more {
            return Ok(sum);
        }
    }
}

/// Whether the slice doesn't begin past the next uncovered macroblock.
#[inline(always)]
#[tactic(auto, unfolding(crate::specs::States::not_past))]
fn not_past(state: &SliceState, increment: u32) -> bool
    requires { IsAddress state.now.address }
    ensures { result ≡ not_past_of state.now increment }
{
    !state.first || state.address + i64::from(increment) <= i64::from(state.next)
}

/// The column of the macroblock in its row.
#[inline(always)]
#[tactic(auto, unfolding(crate::specs::States::column))]
pub fn column(context: &PictureContext, state: &SliceState, increment: u32) -> u64
    requires columns { 1 ≤ context.now.columns }
    requires address { IsAddress state.now.address }
    ensures { result ≡ column_of context.now state.now increment }
{
    if state.first {
        return u64::from(increment).saturating_sub(1);
    }
    state.address.unsigned_abs() % u64::from(context.columns) + u64::from(increment)
}

/// Whether a slice's first macroblock doesn't lie before the next uncovered one.
#[inline(always)]
fn not_before(state: &SliceState, increment: u32) -> bool
    requires { IsAddress state.now.address }
    ensures { result ≡ (not state.now.first || int_le (pos state.now.next)
        (address state.now increment)) }
{
    !state.first || i64::from(state.next) <= state.address + i64::from(increment)
}

/// Whether the macroblock lies in the row, and the slice doesn't begin before the next uncovered macroblock.
#[inline(always)]
#[tactic(auto, unfolding(crate::specs::States::in_order))]
fn in_order(context: &PictureContext, state: &SliceState, increment: u32) -> bool
    requires columns { 1 ≤ context.now.columns }
    requires address { IsAddress state.now.address }
    ensures { result ≡ in_order_of context.now state.now increment }
{
    let inside = column(context, state, increment) < u64::from(context.columns);
    inside && not_before(state, increment)
}

/// Whether macroblocks are skipped before this one.
#[inline(always)]
#[tactic(auto, unfolding(crate::specs::States::skips))]
pub fn skips(state: &SliceState, increment: u32) -> bool
    ensures { result ≡ skips_of state.now increment }
{
    !state.first && increment != 1
}

/// Whether macroblocks may be skipped, if any are.
#[inline(always)]
#[tactic(auto, unfolding(crate::specs::States::may_skip))]
fn may_skip(context: &PictureContext, state: &SliceState, increment: u32) -> bool
    ensures { result ≡ may_skip_of context.now state.now increment }
{
    !skips(state, increment) || context.kind == 2 || (context.kind == 3 && !state.intra)
}

/// The rules on an increment.
#[inline(always)]
#[tactic(auto, using(crate::proofs::Steps::order_small), unfolding(crate::specs::Macros::allowed_at, m2v_bits::specs::Syntax::seq, m2v_bits::specs::Syntax::bind, m2v_bits::specs::Syntax::done))]
fn allowed<'a>(
    input: &mut BitReader<'a>,
    start: &BitReader<'a>,
    context: &PictureContext,
    state: &SliceState,
    increment: u32,
) -> Result<u32, MacroFault>
    requires text { start.now.text ≡ input.old.text }
    requires some { 0 < increment }
    requires columns { (1 ≤ context.now.columns) × (context.now.columns ≤ 120) }
    requires address { IsAddress state.now.address }
    ensures exact { Gives result input.new.rest
        ((allowed_at context.now state.now (length start.now.rest) increment).read input.old.rest) }
    ensures text { input.new.text ≡ input.old.text }
    ensures step { IfOk result (λ v. IsStep context.now state.now v) }
    ensures small { IfOk result (λ v. v < 2 ^ 20) }
{
    let near = not_past(state, increment);
    check(input, start, near, MacroFault::MissingMacroblocks)?;
    let order = in_order(context, state, increment);
    check(input, start, order, MacroFault::SliceOrder)?;
    let skip = may_skip(context, state, increment);
    check(input, start, skip, MacroFault::SkipRule)?;
    Ok(increment)
}

/// An increment that may stand here (clause 6.3.17).
#[tactic(auto, unfolding(crate::specs::Macros::step_at, m2v_bits::specs::Syntax::seq, m2v_bits::specs::Syntax::bind, m2v_bits::specs::Syntax::here))]
pub fn step(
    input: &mut BitReader,
    context: &PictureContext,
    state: &SliceState,
) -> Result<u32, MacroFault>
    requires { IsBegun context.now state.now }
    ensures exact { Gives result input.new.rest
        ((step_at context.now state.now).read input.old.rest) }
    ensures text { input.new.text ≡ input.old.text }
    ensures step { IfOk result (λ v. IsStep context.now state.now v) }
    ensures small { IfOk result (λ v. v < 2 ^ 20) }
{
    let start = input.fork();
    let increment = increment(input)?;
    allowed(input, &start, context, state, increment)
}

/// Whether the increment that stands ahead is whole and begins a slice before the next uncovered macroblock. A decoder
/// tells such a slice by its unit, where `SliceOrder` of `read_macro` stands at the increment.
#[tactic(auto, unfolding(crate::specs::Macros::begins_before))]
pub fn begins_before(input: &BitReader, state: &SliceState) -> bool
    requires address { IsAddress state.now.address }
    requires next { state.now.next ≤ 2 ^ 16 }
    ensures { result ≡ begins_before_of state.now (increment_at.read input.now.rest) }
{
    let mut ahead = input.fork();
    match increment(&mut ahead) {
        Ok(n) => !not_before(state, n),
        Err(_) => false,
    }
}
