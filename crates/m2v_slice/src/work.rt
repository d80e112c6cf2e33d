//! What a job makes, of a cache that has learned its needs.
ghost use Rattle.std.specs.Prelude.{◌≡◌, ◌+◌, ◌<◌, ◌≤◌, length};
ghost use Rattle.m2v_set.specs.Numbers.{dims_of, mb_width_of};
ghost use Rattle.m2v_rate.specs.Plans.{first_open};
ghost use Rattle.m2v_slice.specs.Slices.{most_bits_of};
ghost use Rattle.m2v_slice.specs.Books.{rows, forward_number, coded, picture_at, slice_at, ledger_with};
ghost use Rattle.m2v_slice.specs.Works.{HasLearnedPlan, HasLearnedSlice};

use crate::book::EncodeBook;
use crate::cache::EncodeCache;
use crate::row::RowPlan;
use crate::slice::code_row_slice;
use crate::window::ReferenceWindow;
use crate::{SliceOut, header_bits, picture_context};
use m2v_rate::{Ledger, Plan, plan, slice_cap};

/// Which anchor a picture of a type refers forward to: a B picture to the one before the last.
fn forward_number(kind: u8) -> u32
    ensures value { result ≡ forward_number kind }
{
    if kind == 3 { 1 } else { 0 }
}

impl EncodeBook {
    /// The ledger as the plan of picture p sees it, of a cache that has learned the plan before it and the slices of the
    /// picture four before.
    fn ledger_for(&self, p: u32, cache: &EncodeCache) -> Ledger
        requires picture { p < length self.now.pictures }
        requires learned { HasLearnedPlan self.now p cache.now }
        ensures value { result
            ≡ ledger_with self.now (coded self.now p) (first_open p) (coded self.now p) }
    {
        // what is known of a book
        let _book = self.pictures();
        if p == 0 {
            return *self.ledger();
        }
        let learned = cache.learned();
        let mut ledger = learned.ledger;
        if p >= 4 {
            let bits = header_bits(self.job(p - 4)) + learned.bits;
            ledger.known(p - 4, bits, learned.work);
        }
        ledger
    }

    /// Plans picture p.
    pub(crate) fn plan_picture(
        &self,
        p: u32,
        cache: &EncodeCache,
        plan_out: &mut Plan,
        ledger_out: &mut Ledger,
    )
        requires picture { p < length self.now.pictures }
        requires learned { HasLearnedPlan self.now p cache.now }
        ensures plan { plan_out.new ≡ (picture_at (coded self.now (p + 1)) p).plan }
        ensures ledger { ledger_out.new
            ≡ ledger_with self.now (coded self.now (p + 1)) (first_open p)
            (coded self.now (p + 1)) }
    {
        // what is known of a book
        let _book = self.pictures();
        let mut ledger = self.ledger_for(p, cache);
        let made = plan(self.settings(), &ledger, p);
        ledger.planned(p, made);
        *plan_out = made;
        *ledger_out = ledger;
    }

    /// Codes slice r of picture p.
    pub(crate) fn code_picture_slice(&self, p: u32, r: u32, cache: &EncodeCache, out: &mut SliceOut)
        requires picture { p < length self.now.pictures }
        requires row { r < rows self.now }
        requires learned { HasLearnedSlice self.now p r cache.now }
        requires size { out.old.row.dims ≡ dims_of self.now.settings }
        ensures value { out.new ≡ slice_at (coded self.now (p + 1)) p r }
        ensures few { length out.new.text ≤ most_bits_of (mb_width_of self.now.settings) }
    {
        // what is known of a book
        let _book = self.pictures();
        let settings = self.settings();
        let job = self.job(p);
        let plan = &cache.learned().plan;
        let context = picture_context(settings, job);
        let forward = ReferenceWindow::for_slice(self, cache, p, r, forward_number(job.kind));
        let backward = ReferenceWindow::for_slice(self, cache, p, r, 0);
        let row_plan = RowPlan {
            row: r,
            q: plan.q,
            cap: slice_cap(settings, plan, r),
            search: settings.settings().search,
            activities: self.slice_activities(p, r),
        };
        code_row_slice(
            self.source(p),
            &forward,
            &backward,
            &context,
            &row_plan,
            out,
        );
    }
}
