//! The macroblocks of a row, from left to right.
ghost use Rattle.std.specs.Prelude.{◌≡◌, ◌+◌, ◌-◌, ◌*◌, ◌^◌, ◌≤◌, ◌<◌, ◌++◌, ◌||◌, nat_eq, if◌then◌else◌, length, sum, slice_index};
ghost use Rattle.m2v_rate.specs.Sharing.{raised, IsSliceSoFar};
ghost use Rattle.m2v_choose.specs.Own.{IsCode};
ghost use Rattle.m2v_slice.specs.Slices.{begun, held_bits, slice_header_bits};
ghost use Rattle.m2v_slice.specs.Laws.{AreSliceActivities, IsSlice};
ghost use Rattle.m2v_slice.specs.Steps.{HasReferences, row_place, task_by};

use crate::macroblocks::{SliceBasis, SliceScratch, code_macroblock};
use m2v_bits::BitWriter;
use m2v_choose::Limits;
use m2v_macroblock::macro_library::{PictureContext, SliceState};
use m2v_plane::{Frame, RefView, RowSamples};
use m2v_rate::{SliceSoFar, raised};

/// What a slice keeps to.
#[derive(Clone, Copy)]
pub struct RowPlan<'a> {
    /// The macroblock row of the picture, from 0.
    pub row: u32,
    /// The quantiser code, 1 to 31.
    pub q: u8,
    /// The most bits that the slice may have.
    pub cap: u64,
    /// How far vectors are searched to each side, in whole samples, at most 15.
    pub search: u32,
    /// The activities of the row's macroblocks; none where each has the slice's quantiser.
    pub activities: &'a [u32],
}

/// A slice up to a macroblock: the work of those before it, and the sums of the activities of those before it and of those
/// from it on.
#[derive(Clone, Copy)]
struct Effort {
    work: u64,
    before: u64,
    ahead: u64,
}

impl Effort {
    /// No macroblock yet.
    fn start(activities: &[u32]) -> Effort
        requires few { length activities.now ≤ 120 }
        ensures work { result.work ≡ 0 }
        ensures before { result.before ≡ 0 }
        ensures ahead { result.ahead ≡ sum activities.now }
    {
        let mut ahead = 0;
        for i in 0..activities.len() {
            ahead += u64::from(activities[i]);
        }
        Effort {
            work: 0,
            before: 0,
            ahead,
        }
    }

    /// The quantiser of the macroblock of a column, for which so many bits are left beside those that hold the macroblocks
    /// from it on.
    #[inline(always)]
    fn quantiser(&self, plan: &RowPlan, column: u32, left: u64) -> u8
        requires q { IsCode plan.now.q }
        requires slice { 0 < column → 0 < length plan.now.activities.now
            → IsSliceSoFar (record {
              work = self.now.work;
              before = self.now.before;
              ahead = self.now.ahead;
              left = left;
            }) }
        ensures value { result ≡ (if nat_eq column 0 || nat_eq (length plan.now.activities.now) 0
            then plan.now.q else raised plan.now.q (record {
              work = self.now.work;
              before = self.now.before;
              ahead = self.now.ahead;
              left = left;
            })) }
        ensures code { IsCode result }
    {
        if column == 0 || plan.activities.len() == 0 {
            return plan.q;
        }
        raised(
            plan.q,
            SliceSoFar {
                work: self.work,
                before: self.before,
                ahead: self.ahead,
                left,
            },
        )
    }

    /// Behind the macroblock of a column, which had this quantiser and so many bits.
    #[inline(always)]
    fn add(&mut self, plan: &RowPlan, column: u32, q: u8, bits: u64)
        requires q { q ≤ 31 }
        requires bits { bits ≤ 4608 }
        requires work { self.old.work < 2 ^ 32 }
        requires before { self.old.before < 2 ^ 32 }
        requires ahead { slice_index plan.now.activities.now column ≤ self.old.ahead }
        ensures work { self.new.work ≡ self.old.work + q * bits }
        ensures before { self.new.before
            ≡ self.old.before + slice_index plan.now.activities.now column }
        ensures ahead { self.new.ahead
            ≡ self.old.ahead - slice_index plan.now.activities.now column }
    {
        self.work += u64::from(q) * bits;
        if (column as usize) < plan.activities.len() {
            let own = u64::from(plan.activities[column as usize]);
            self.before += own;
            self.ahead -= own;
        }
    }
}

/// The limits of a macroblock with this quantiser, behind so many bits of the slice: all later ones can still be held.
#[inline(always)]
fn limits_at(plan: &RowPlan, q: u8, columns: u32, bits: u64, column: u32) -> Limits
    requires columns { columns ≤ 120 }
    requires column { column < columns }
    requires held { bits + held_bits * (columns - 1 - column) ≤ plan.now.cap }
    ensures value { result ≡ record {
      q = q;
      search = plan.now.search;
      room = plan.now.cap - bits - held_bits * (columns - 1 - column);
      first = nat_eq column 0;
      last = nat_eq (column + 1) columns;
      column = column;
      row = plan.now.row;
    } }
{
    let later = u64::from(columns - 1 - column);
    Limits {
        q,
        search: plan.search,
        room: plan.cap - bits - 31 * later,
        first: column == 0,
        last: column + 1 == columns,
        column,
        row: plan.row,
    }
}

/// Codes the macroblocks of a row behind the slice's header, and tells their work.
pub fn code_row<V: RefView>(
    source: &Frame,
    forward: &V,
    backward: &V,
    context: &PictureContext,
    plan: &RowPlan,
    bits: &mut BitWriter,
    row: &mut RowSamples,
) -> u64
    requires slice { IsSlice (task_by source.now (V.at forward.now) (V.at backward.now) context.now
        plan.now) }
    requires activities { AreSliceActivities context.now.columns plan.now.activities.now }
    requires most { 0 < length plan.now.activities.now → plan.now.cap < 2 ^ 24 }
    requires references { HasReferences context.now.kind source.now.dims
        (row_place context.now plan.now.row)
        (V.size forward.now) (V.size backward.now) (V.Holds forward.now) (V.Holds backward.now) }
    requires header { length bits.old.written ≡ slice_header_bits }
    requires room { 4608 * context.now.columns ≤ bits.old.room }
    requires row { row.old.dims ≡ source.now.dims }
    ensures written { bits.new.written ≡ bits.old.written
        ++ (begun (task_by source.now (V.at forward.now) (V.at backward.now) context.now plan.now)
        row.old context.now.columns).text }
    ensures room { bits.new.room + length bits.new.written
        ≡ bits.old.room + length bits.old.written }
    ensures row { row.new
        ≡ (begun (task_by source.now (V.at forward.now) (V.at backward.now) context.now plan.now)
        row.old context.now.columns).row }
    ensures work { result
        ≡ (begun (task_by source.now (V.at forward.now) (V.at backward.now) context.now plan.now)
        row.old context.now.columns).work }
{
    let next = plan.row * context.columns;
    let mut state = SliceState::at_start(context, plan.row, plan.q, next);
    let mut effort = Effort::start(plan.activities);
    let basis = SliceBasis {
        source,
        forward,
        backward,
        context,
    };
    let mut scratch = SliceScratch::new();
    for column in 0..context.columns {
        let from = bits.bit_len();
        let left = plan.cap - from - 31 * u64::from(context.columns - column);
        let q = effort.quantiser(plan, column, left);
        let limits = limits_at(plan, q, context.columns, from, column);
        code_macroblock(&basis, &limits, &mut state, bits, row, &mut scratch);
        effort.add(plan, column, q, bits.bit_len() - from);
    }
    effort.work
}
