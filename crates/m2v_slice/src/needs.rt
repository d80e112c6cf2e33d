//! The jobs that a job stands on.
ghost use Rattle.std.specs.Prelude.{◌≡◌, ◌+◌, ◌-◌, ◌<◌, ◌≤◌, ◌∷◌, ◌++◌, [], Bool, not, ◌&&◌, cond, nat_eq, nat_lt, length, map, All};
ghost use Rattle.std.specs.List.{range_with_len, flat_map};
ghost use Rattle.m2v_slice.specs.Books.{rows, job_at, has_lines, reference_picture, in_group, plan_job, slice_job, near_rows};
ghost use Rattle.m2v_slice.specs.Windows.{needed, references_of, plan_needs, slice_needs};

use crate::book::EncodeBook;
use m2v_core::NeedList;
use m2v_order::PictureJob;
use m2v_plane::Lines;

/// Whether a picture is an anchor that has these lines.
#[tactic(auto, unfolding(crate::specs::Books::has_lines))]
fn is_anchor_with(job: &PictureJob, lines: Lines) -> bool
    ensures value { result ≡ (not (nat_eq job.now.kind 3) && has_lines job.now.structure lines) }
{
    let has_lines = match lines {
        Lines::Whole => true,
        Lines::Top => job.structure != 2,
        Lines::Bottom => job.structure != 1,
    };
    job.kind != 3 && has_lines
}

/// Appends the picture that a reference stands in, where it is one of the group.
fn push_found(found: Option<u32>, out: &mut NeedList)
    requires room { length out.old < 160 }
    ensures written { out.new ≡ out.old ++ in_group found }
{
    if let Some(q) = found {
        out.push(q);
    }
}

impl EncodeBook {
    /// The picture that picture p finds these lines in: in the anchor decoded last (n is 0), or in the one before it (n is 1);
    /// none where that is the anchor before the group.
    pub(crate) fn reference_picture(&self, p: u32, n: u32, lines: Lines) -> Option<u32>
        requires picture { p ≤ length self.now.pictures }
        ensures value { result ≡ reference_picture self.now p n lines }
    {
        let mut left = n;
        let mut q = p;
        while q > 0 {
            q -= 1;
            if is_anchor_with(self.job(q), lines) {
                if left == 0 {
                    return Some(q);
                }
                left -= 1;
            }
        }
        None
    }

    /// Appends the pictures of the group that reference n of picture p stands in, of a field picture's references the one
    /// with the top lines first.
    fn push_references(&self, p: u32, n: u32, out: &mut NeedList)
        requires picture { p < length self.now.pictures }
        requires room { length out.old ≤ 2 }
        ensures written { out.new ≡ out.old ++ flat_map in_group (references_of self.now p n) }
    {
        if self.job(p).structure == 3 {
            push_found(self.reference_picture(p, n, Lines::Whole), out);
        } else {
            push_found(self.reference_picture(p, n, Lines::Top), out);
            push_found(self.reference_picture(p, n, Lines::Bottom), out);
        }
    }

    /// Puts the pictures of the group that picture p refers to into an empty list, forward ones first.
    #[tactic(auto, unfolding(crate::specs::Books::reference_pictures))]
    pub(crate) fn needed(&self, p: u32, out: &mut NeedList)
        requires picture { p < length self.now.pictures }
        requires blank { out.old ≡ [] }
        ensures written { out.new ≡ needed self.now p }
    {
        let kind = self.job(p).kind;
        if kind == 1 {
            return;
        }
        if kind != 2 {
            self.push_references(p, 1, out);
        }
        self.push_references(p, 0, out);
    }

    /// Appends the jobs of so many slices of picture p, from one on.
    fn push_slices(&self, p: u32, from: u32, count: u32, out: &mut NeedList)
        requires picture { p < length self.now.pictures }
        requires rows { from + count ≤ rows self.now }
        requires room { length out.old + count ≤ 160 }
        ensures written { out.new
            ≡ out.old ++ map (slice_job self.now p) (range_with_len from count) }
    {
        // a picture has at most 72 rows
        let _rows = self.rows();
        let first = self.plan_job(p) + 1 + from;
        for i in 0..count {
            out.push(first + i);
        }
    }

    /// Puts the needs of a plan into an empty list.
    pub(crate) fn needs_of_plan(&self, p: u32, out: &mut NeedList)
        requires picture { p < length self.now.pictures }
        requires blank { out.old ≡ [] }
        ensures written { out.new ≡ plan_needs self.now p }
    {
        if p == 0 {
            return;
        }
        out.push(self.plan_job(p - 1));
        if p >= 4 {
            self.push_slices(p - 4, 0, self.rows(), out);
        }
    }

    /// Puts the needs of a slice into an empty list.
    pub(crate) fn needs_of_slice(&self, p: u32, r: u32, out: &mut NeedList)
        requires picture { p < length self.now.pictures }
        requires row { r < rows self.now }
        requires blank { out.old ≡ [] }
        ensures written { out.new ≡ slice_needs self.now p r }
    {
        out.push(self.plan_job(p));
        let mut pictures = NeedList::new();
        self.needed(p, &mut pictures);
        let rows = self.rows();
        let first = r.saturating_sub(1);
        let count = (r + 2).min(rows) - first;
        for i in 0..pictures.len() {
            self.push_slices(pictures.get(i), first, count, out);
        }
    }
}
