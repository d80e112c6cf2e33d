ghost use Rattle.std.specs.Prelude.{◌≡◌, ℕ, ◌+◌, ◌*◌, ◌≤◌, ◌<◌, ◌^◌, IfOk, IfErr, length, nat_abs, pos, ◌+ℤ◌};
ghost use Rattle.m2v_bits.specs.Syntax.{renamed};
ghost use Rattle.m2v_pred.specs.declared.mode.MbPlace.{MbPlace as MbPlaceOf};
ghost use Rattle.m2v_head.specs.Headers as head;
ghost use Rattle.m2v_head.specs.Fits.{SliceFits};
ghost use Rattle.m2v_model.specs.Faults as faults;
ghost use Rattle.m2v_model.specs.Stops.{Tells};
ghost use Rattle.m2v_dec_picture.specs.Conditions.{IsSetup, rows_in, place_in, HoldsForward, HoldsBackward};
ghost use Rattle.m2v_dec_picture.specs.Reads.{TellsSlice, seen_by};

use crate::basis::PictureBasis;
use crate::increments::{begins_late, increment_ahead};
use crate::macroblocks::macroblocks;
use crate::scratch::Scratch;
use crate::target::Target;
use m2v_bits::BitReader;
use m2v_head::SliceInfo;
use m2v_macro::SliceState;
use m2v_model::{FaultKind, Stop, of_head, stopped};
use m2v_plane::RefView;

/// What a slice that was read leaves.
#[derive(Clone, Copy, Debug, PartialEq, Eq)]
pub struct SliceEnd {
    /// The address behind its last macroblock: addresses count macroblocks in raster order, from 0.
    pub covered: u32,
    /// How many of its macroblocks have more than 4,608 bits.
    pub large: u32,
}

/// A slice header.
#[tactic(auto, unfolding(m2v_bits::specs::Syntax::renamed))]
fn header(input: &mut BitReader) -> Result<SliceInfo, Stop>
    ensures exact { Tells result input.new.rest
        ((renamed faults.of_head head.slice_at).read input.old.rest) }
    ensures text { input.new.text ≡ input.old.text }
    ensures left { IfErr result (λ e. e.left ≤ length input.old.text) }
    ensures fits { IfOk result SliceFits }
{
    match SliceInfo::read(input) {
        Ok(info) => Ok(info),
        Err(e) => Err(stopped(input, of_head(e))),
    }
}

/// How many bits are left at a unit's start code, which stands 32 bits before the unit's first bit.
fn unit_left(input: &BitReader) -> u64
    ensures value { result ≡ length input.now.rest + 32 }
    ensures within { result ≤ length input.now.text + 32 }
{
    // what is left is not more than the whole text
    let _place = input.place();
    input.left() + 32
}

/// The address behind the last macroblock.
fn address_behind(last: &SliceState) -> u32
    requires { (n : ℕ) × (n < 2 ^ 16) × (last.now.address ≡ pos n) }
    ensures { result ≡ nat_abs (last.now.address +ℤ pos 1) }
{
    last.address.unsigned_abs() as u32 + 1
}

/// Reads a slice of a picture, without its start code, and puts its macroblocks (clauses 6.2.4 and 7.6). `covered` is the
/// address of the picture's next uncovered macroblock, the row counts from 0. The views hold the fields that were decoded;
/// of the others nothing is read.
///
/// # Errors
/// The first fault in reading order, with the bits that are left at its place. A slice that begins before the next
/// uncovered macroblock is `SliceOrder` at the unit's start code, 32 bits before the first bit; the macroblocks before the
/// fault are put then.
pub fn read_slice<V: RefView, T: Target>(
    input: &mut BitReader,
    basis: &PictureBasis<V>,
    covered: u32,
    row: u32,
    scratch: &mut Scratch,
    out: &mut T,
) -> Result<SliceEnd, Stop>
    requires setup { IsSetup basis.now.setup.now }
    requires covered { covered ≤ 2 ^ 16 }
    requires row { row < rows_in basis.now.setup.now }
    requires forward { HoldsForward basis.now.setup.now (V.size basis.now.forward.now)
        (V.Holds basis.now.forward.now) }
    requires backward { HoldsBackward basis.now.setup.now (V.size basis.now.backward.now)
        (V.Holds basis.now.backward.now) }
    requires takes { (column : ℕ) → column < basis.now.setup.now.context.columns
        → T.Takes out.old (place_in basis.now.setup.now row column) }
    ensures exact { TellsSlice T.placed basis.now.setup.now
        (seen_by (V.at basis.now.forward.now) (V.at basis.now.backward.now))
        covered row input.old.rest (T.samples out.old)
        result input.new.rest (T.samples out.new) }
    ensures left { IfErr result (λ e. e.left ≤ length input.old.text + 32) }
    ensures covered { IfOk result (λ end. end.covered
        ≤ (row + 1) * basis.now.setup.now.context.columns) }
    ensures large { IfOk result (λ end. covered + end.large ≤ end.covered) }
    ensures takes { IfOk result (λ end. (p : MbPlaceOf) → T.Takes out.old p → T.Takes out.new p) }
{
    let context = &basis.setup.context;
    let unit = unit_left(input);
    let info = header(input)?;
    let increment = increment_ahead(input)?;
    if !begins_late(row, context.columns, increment, covered) {
        return Err(Stop {
            kind: FaultKind::SliceOrder,
            left: unit,
        });
    }
    let first = SliceState::at_start(context, row, info.quantiser, covered);
    let (last, large) = macroblocks(input, basis, row, first, scratch, out)?;
    Ok(SliceEnd {
        covered: address_behind(&last),
        large,
    })
}
