//! What a picture is predicted from, and the jobs that a job stands on.
ghost use Rattle.std.specs.Prelude.{ℕ, ◌≡◌, ◌+◌, ◌-◌, ◌*◌, ◌^◌, ◌<◌, ◌≤◌, ◌++◌, [], if◌then◌else◌, map, length, slice_index, slice_index_or, Some};
ghost use Rattle.m2v_dec_batch.specs.declared.picture.FramePlace.TheVariants.{Behind};
ghost use Rattle.std.specs.List.{range_with_len};
ghost use Rattle.m2v_dec_batch.specs.Jobs.{header_at, ends_anchor, newer_before, older_before, first_field as first_field_before, read_by, first_job, frame_begin, frame_from, frame_count, jobs_behind, jobs_at, needs_of, jobs_of};
ghost use Rattle.m2v_dec_batch.specs.declared.reads.Before.{Before};
ghost use Rattle.m2v_dec_batch.specs.Batches.{headers, header_of};
ghost use Rattle.m2v_dec_batch.specs.Below.{ComesBefore, MayBe, IsBefore};

use crate::book::DecodeBook;
use crate::picture::{BatchPicture, FramePlace, Header, Reads, header_of};
use m2v_core::NeedList;

/// What stands before a picture.
#[derive(Clone, Copy)]
pub(crate) struct Before {
    /// How many jobs there are.
    pub(crate) jobs: u32,
    /// The last anchor but one.
    pub(crate) older: FramePlace,
    /// The last anchor.
    pub(crate) newer: FramePlace,
}

/// What stands before the first picture.
const START: Before = Before {
    jobs: 0,
    older: FramePlace::Older,
    newer: FramePlace::Newer,
};

/// Whether a picture that isn't B ends its frame.
pub fn ends_anchor(h: Header) -> bool
    ensures value { result ≡ ends_anchor h }
{
    h.kind != 3 && (h.structure == 3 || h.second)
}

/// What stands behind picture q, by what stands before it.
fn behind_picture(before: Before, q: u32, h: Header) -> Before
    requires few { before.jobs ≤ 2 ^ 20 }
    requires rows { h.rows ≤ 72 }
    ensures jobs { result.jobs ≡ before.jobs + h.rows }
    ensures older { result.older ≡ (if ends_anchor h then before.newer else before.older) }
    ensures newer { result.newer ≡ (if ends_anchor h then Behind q else before.newer) }
{
    let jobs = before.jobs + h.rows;
    if ends_anchor(h) {
        Before {
            jobs,
            older: before.newer,
            newer: FramePlace::Behind(q),
        }
    } else {
        Before { jobs, ..before }
    }
}

/// What stands before each of at most 16 pictures, and behind the last one. Each need of each job asks for it.
pub(crate) fn before_each(pictures: &[BatchPicture]) -> [Before; 17]
    requires few { length pictures.now ≤ 16 }
    requires rows { (p : ℕ) → (header_at (map header_of pictures.now) p).rows ≤ 72 }
    ensures each { (p : ℕ) (d : Before) → p ≤ length pictures.now
        → IsBefore (map header_of pictures.now) p (slice_index_or result p d) }
{
    let mut all = [START; 17];
    for p in 0..pictures.len() {
        all[p + 1] = behind_picture(all[p], p as u32, header_of(&pictures[p].opened));
    }
    all
}

/// The frame of the first field before a second field.
#[tactic(auto, unfolding(crate::specs::Jobs::first_field))]
pub(crate) fn first_field(p: u32) -> FramePlace
    ensures value { result ≡ first_field_before p }
{
    if p == 0 {
        FramePlace::Waiting
    } else {
        FramePlace::Behind(p - 1)
    }
}

/// The jobs of the rows that a frame consists of, as far as they are in the batch: `count` jobs, from `from` on.
#[derive(Clone, Copy)]
pub(crate) struct JobRange {
    pub(crate) from: u32,
    pub(crate) count: u32,
}

/// Appends the jobs of a range.
fn push_range(jobs: JobRange, out: &mut NeedList)
    requires room { length out.old + jobs.count ≤ 160 }
    requires few { jobs.from + jobs.count ≤ 2 ^ 20 }
    ensures written { out.new ≡ out.old ++ range_with_len jobs.from jobs.count }
{
    for i in 0..jobs.count {
        out.push(jobs.from + i);
    }
}

impl DecodeBook {
    /// The frames that a picture is predicted from.
    #[tactic(auto, unfolding(crate::specs::Jobs::read_by))]
    pub(crate) fn reads(&self, p: u32) -> Reads
        requires picture { p < length (headers self.now) }
        ensures value { result ≡ read_by (headers self.now) p }
    {
        let header = self.header(p);
        let anchors = self.before(p);
        if header.kind == 1 {
            Reads {
                forward: None,
                other: None,
            }
        } else if header.kind == 3 {
            Reads {
                forward: Some(anchors.older),
                other: Some(anchors.newer),
            }
        } else {
            Reads {
                forward: Some(anchors.newer),
                other: if header.second {
                    Some(first_field(p))
                } else {
                    None
                },
            }
        }
    }

    /// The picture that begins the frame of picture q.
    #[tactic(auto, unfolding(crate::specs::Jobs::frame_begin))]
    fn frame_begin(&self, q: u32) -> u32
        requires picture { q < length (headers self.now) }
        ensures value { result ≡ frame_begin (headers self.now) q }
        ensures most { result ≤ q }
    {
        if q > 0 && self.header(q).second {
            return q - 1;
        }
        q
    }

    /// The jobs of the rows that the frame behind a picture consists of.
    pub(crate) fn jobs_behind(&self, q: u32) -> JobRange
        requires picture { q < length (headers self.now) }
        ensures from { result.from ≡ frame_from (headers self.now) q }
        ensures count { result.count ≡ frame_count (headers self.now) q }
        ensures few { result.count ≤ 72 }
        ensures most { result.from + result.count ≤ 72 * 16 }
        ensures there { result.from + result.count
            ≤ first_job (headers self.now) (length (headers self.now)) }
    {
        // there are at most 16 pictures
        let _pictures = self.pictures();
        let from = self.first_job(self.frame_begin(q));
        JobRange {
            from,
            count: self.first_job(q + 1) - from,
        }
    }

    /// The jobs of the rows that a frame consists of, as far as they are in the batch.
    #[tactic(auto, unfolding(crate::specs::Jobs::jobs_at))]
    fn jobs_in(&self, place: FramePlace) -> JobRange
        requires picture { ComesBefore (length (headers self.now)) place }
        ensures jobs { jobs_at (headers self.now) (Some place)
            ≡ range_with_len result.from result.count }
        ensures few { result.count ≤ 72 }
        ensures most { result.from + result.count ≤ 72 * 16 }
        ensures there { result.from + result.count
            ≤ first_job (headers self.now) (length (headers self.now)) }
    {
        match place {
            FramePlace::Behind(q) => self.jobs_behind(q),
            FramePlace::Older | FramePlace::Newer | FramePlace::Waiting => {
                JobRange { from: 0, count: 0 }
            }
        }
    }

    /// The jobs of the rows that a frame consists of, if there is one.
    #[tactic(auto, unfolding(crate::specs::Jobs::jobs_at, crate::specs::Below::MayBe))]
    pub(crate) fn jobs_at(&self, place: Option<FramePlace>) -> JobRange
        requires picture { MayBe (ComesBefore (length (headers self.now))) place }
        ensures jobs { jobs_at (headers self.now) place ≡ range_with_len result.from result.count }
        ensures few { result.count ≤ 72 }
        ensures most { result.from + result.count ≤ 72 * 16 }
        ensures there { result.from + result.count
            ≤ first_job (headers self.now) (length (headers self.now)) }
    {
        match place {
            None => JobRange { from: 0, count: 0 },
            Some(place) => self.jobs_in(place),
        }
    }

    /// The needs of a job.
    #[tactic(auto, unfolding(crate::specs::Jobs::needs_of))]
    pub(crate) fn needs_of_job(&self, j: u32, out: &mut NeedList)
        requires job { j < jobs_of (headers self.now) }
        requires blank { out.old ≡ [] }
        ensures written { out.new ≡ needs_of (headers self.now) j }
    {
        let reads = self.reads(self.picture_of_job(j));
        push_range(self.jobs_at(reads.forward), out);
        push_range(self.jobs_at(reads.other), out);
    }
}
