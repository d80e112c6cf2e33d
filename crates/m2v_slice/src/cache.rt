//! What a worker keeps of the jobs that it learned of.
ghost use Rattle.std.specs.Prelude.{◌≡◌, ◌+◌, ◌-◌, ◌^◌, ◌<◌, ◌≤◌, All, IfOk, length, min, slice_index_or, slice_set};
ghost use Rattle.m2v_plane.specs.Samples.{Samples};
ghost use Rattle.m2v_plane.specs.Fields.{no_samples};
ghost use Rattle.m2v_set.specs.Numbers.{dims_of};

use crate::kept::KeptRows;
use m2v_core::Memory;
use m2v_plane::RowSamples;
use m2v_rate::{Ledger, Plan};
use m2v_set::Passed;
use std::alloc::Global;
use std::marker::Model;

/// What a worker keeps of the jobs that it learned of: a plan and the ledger that knows it, the bits and the work of the
/// slices that it learned of behind the plan, and rows of reference pictures. [`EncodeBook`](crate::EncodeBook) makes it.
#[derive(Drop)]
pub struct EncodeCache {
    learned: Learned,
    rows: KeptRows,
}

/// A plan that was learned and the ledger that knows it, and the bits and the work of the slices that were learned behind it.
#[derive(Clone, Copy)]
pub struct Learned {
    pub plan: Plan,
    pub ledger: Ledger,
    pub bits: u64,
    pub work: u64,
}

impl Model for EncodeCache {
    ghost use Rattle.m2v_slice.specs.Cached.{Cached};

    ghost Value = { Cached };

    ghost view = { λ c. record { learned = c.learned; rows = c.rows } };
}

impl EncodeCache {
    /// A cache with rows of samples 0, which has learned nothing yet.
    pub(crate) fn blank(
        alloc: Global,
        settings: &Passed,
        ledger: &Ledger,
    ) -> Result<EncodeCache, Memory>
        ensures room { IfOk result (λ c. length c.rows ≡ 12) }
        ensures size { IfOk result
            (λ c. All (λ (row : Samples). row.dims ≡ dims_of settings.now) c.rows) }
    {
        let rows = KeptRows::blank(alloc, settings.dims())?;
        let learned = Learned {
            plan: Plan {
                q: 0,
                cap: 0,
                target: 0,
            },
            ledger: *ledger,
            bits: 0,
            work: 0,
        };
        Ok(EncodeCache { learned, rows })
    }

    /// The plan that it has learned, and what it has learned behind it.
    pub(crate) fn learned(&self) -> &Learned
        ensures value { result.now ≡ self.now.learned }
    {
        &self.learned
    }

    /// The rows of reference pictures.
    #[inline(always)]
    pub(crate) fn kept(&self) -> &KeptRows
        ensures value { result.now ≡ self.now.rows }
    {
        &self.rows
    }

    /// Takes a plan and the ledger that knows it, and begins to count bits and work.
    pub(crate) fn take_plan(&mut self, plan: &Plan, ledger: &Ledger)
        ensures value { self.new ≡ record self.old {
          learned = record { plan = plan.now; ledger = ledger.now; bits = 0; work = 0 };
        } }
    {
        self.learned = Learned {
            plan: *plan,
            ledger: *ledger,
            bits: 0,
            work: 0,
        };
    }

    /// Counts the bits and the work of a slice more.
    pub(crate) fn add_slice(&mut self, bits: u64, work: u64)
        ensures value { self.new ≡ record self.old {
          learned = record self.old.learned {
            bits = min (self.old.bits + bits) (2 ^ 64 - 1);
            work = min (self.old.work + work) (2 ^ 64 - 1);
          };
        } }
    {
        self.learned.bits = self.learned.bits.saturating_add(bits);
        self.learned.work = self.learned.work.saturating_add(work);
    }

    /// Takes a row in its place.
    pub(crate) fn set_row(&mut self, k: u32, row: &RowSamples)
        requires place { k < length self.old.rows }
        requires same { row.now.dims ≡ (slice_index_or self.old.rows k no_samples).dims }
        ensures value { self.new ≡ record self.old { rows = slice_set self.old.rows k row.now } }
    {
        self.rows.set(k, row);
    }

    /// How many rows of reference pictures it has room for, at most 12: three for each of at most four pictures.
    pub fn rows(&self) -> u32
        ensures value { result ≡ length self.now.rows }
        ensures most { result ≤ 12 }
    {
        self.rows.count()
    }
}
