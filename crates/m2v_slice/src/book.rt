//! The book of a group.
ghost use Rattle.std.specs.Prelude.{◌≡◌, ◌+◌, ◌*◌, ◌<◌, ◌≤◌, All, IfSome, IfOk, is_some, length, take, drop, slice_index_or};
ghost use Rattle.m2v_plane.specs.Samples.{Samples};
ghost use Rattle.m2v_plane.specs.Fields.{no_samples};
ghost use Rattle.m2v_set.specs.Numbers.{dims_of, rows_by};
ghost use Rattle.m2v_order.specs.Whole.{IsGroupOf, handed};
ghost use Rattle.m2v_enc_activity.specs.Activity.{IsActivity};
ghost use Rattle.m2v_slice.specs.Laws.{AreSliceActivities};
ghost use Rattle.m2v_slice.specs.Books.{Book, macroblock_activities, slice_activities, rows, job_at, plan_job, picture_of_job, part_of_job};
ghost use Rattle.m2v_slice.specs.Conditions.{IsBook, IsBegunFor};
ghost use Rattle.m2v_slice.specs.Jobs.{jobs_of};

use m2v_core::Memory;
use m2v_order::{GroupJobs, PictureJob};
use m2v_plane::Frame;
use m2v_rate::Ledger;
use m2v_set::{Passed, Planning, Scan};
use std::alloc::Global;
use std::marker::Model;

/// The macroblock rows of a picture.
#[tactic(auto, unfolding(m2v_set::specs::Numbers::dims_of, m2v_set::specs::Numbers::rows_by, m2v_set::specs::Numbers::frame_rows_by))]
fn rows_of(settings: &Passed) -> u32
    ensures value { result ≡ rows_by settings.now.scan settings.now.height }
    ensures some { 1 ≤ result }
    ensures most { result ≤ 72 }
{
    let frame = settings.dims().mb_rows;
    match settings.settings().scan {
        Scan::Progressive | Scan::Frames => frame,
        Scan::Fields => frame / 2,
    }
}

/// So many numbers, from one on.
fn part_of(all: &[u32], from: usize, count: usize) -> &[u32]
    requires within { from + count ≤ length all.now }
    ensures value { result.now ≡ take count (drop from all.now) }
{
    &all[from..from + count]
}

/// The jobs of a group of pictures: for each picture, in coding order, its plan and then its slices from the top.
///
/// Contracts see its settings, the frames in display order, the pictures in coding order, the reconstruction of the anchor
/// before the group, and the ledger with which the group begins.
#[derive(Drop)]
pub struct EncodeBook {
    pub(crate) settings: Passed,
    pub(crate) frames: Vec<Frame>,
    pub(crate) pictures: Vec<PictureJob>,
    pub(crate) activities: Vec<u32>,
    pub(crate) before: Option<Frame>,
    pub(crate) ledger: Ledger,
}

impl Model for EncodeBook {
    ghost use Rattle.std.specs.Prelude.{◌≡◌, All};
    ghost use Rattle.m2v_enc_activity.specs.Activity.{IsActivity};
    ghost use Rattle.m2v_slice.specs.Books.{Book, macroblock_activities};
    ghost use Rattle.m2v_slice.specs.Conditions.{IsBook};

    ghost Value = { Book };

    ghost view = { λ b. record {
      settings = b.settings;
      frames = b.frames.items;
      pictures = b.pictures.items;
      before = b.before;
      ledger = b.ledger;
    } };

    ghost invariant = { λ b. IsBook (record {
      settings = b.settings;
      frames = b.frames.items;
      pictures = b.pictures.items;
      before = b.before;
      ledger = b.ledger;
    }) × (b.activities.items ≡ macroblock_activities b.settings b.frames.items b.pictures.items)
        × All IsActivity b.activities.items };
}

impl EncodeBook {
    /// The book of a group of these settings, with the activities of its macroblocks, as [`source_activities`] makes them, the
    /// reconstruction of the anchor that was coded before it, which is there exactly where one was coded, and the ledger that
    /// begins the group. All frames are of the settings' size.
    ///
    /// # Errors
    /// `Memory` where no memory is left; the group, the activities and `before` are then dropped.
    pub fn for_group(
        _alloc: Global,
        settings: &Passed,
        group: GroupJobs,
        activities: Vec<u32>,
        before: Option<Frame>,
        ledger: Ledger,
    ) -> Result<EncodeBook, Memory>
        requires group { IsGroupOf settings.now (handed group) }
        requires activities { activities.items
            ≡ macroblock_activities settings.now group.frames.items group.pictures.items }
        requires range { All IsActivity activities.items }
        requires sizes { All (λ (f : Samples). f.dims ≡ dims_of settings.now) group.frames.items }
        requires before { is_some before ≡ is_some group.before }
        requires size { IfSome before (λ f. f.dims ≡ dims_of settings.now) }
        requires ledger { IsBegunFor settings.now (handed group) ledger }
        ensures value { IfOk result (λ b. b ≡ record {
          settings = settings.now;
          frames = group.frames.items;
          pictures = group.pictures.items;
          before = before;
          ledger = ledger;
        }) }
        ensures book { IfOk result (λ b. IsBook b) }
        ensures jobs { IfOk result (λ b. jobs_of b ≡ length b.pictures * (rows b + 1)) }
    {
        // a picture has at most 72 rows
        let _rows = rows_of(settings);
        let GroupJobs {
            frames,
            pictures,
            before: _,
        } = group;
        Ok(EncodeBook {
            settings: *settings,
            frames,
            pictures,
            activities,
            before,
            ledger,
        })
    }

    /// The macroblock rows of a picture.
    pub(crate) fn rows(&self) -> u32
        ensures value { result ≡ rows self.now }
        ensures some { 1 ≤ result }
        ensures most { result ≤ 72 }
    {
        rows_of(&self.settings)
    }

    /// The settings.
    pub(crate) fn settings(&self) -> &Passed
        ensures value { result.now ≡ self.now.settings }
    {
        &self.settings
    }

    /// The ledger with which the group begins.
    pub(crate) fn ledger(&self) -> &Ledger
        ensures value { result.now ≡ self.now.ledger }
    {
        &self.ledger
    }

    /// The reconstruction of the anchor before the group.
    pub(crate) fn before(&self) -> &Option<Frame>
        ensures value { result.now ≡ self.now.before }
    {
        &self.before
    }

    /// How many pictures there are.
    pub(crate) fn pictures(&self) -> u32
        ensures value { result ≡ length self.now.pictures }
        ensures most { result ≤ 126 }
        ensures book { IsBook self.now }
    {
        self.pictures.len() as u32
    }

    /// A picture.
    pub(crate) fn job(&self, p: u32) -> &PictureJob
        requires picture { p < length self.now.pictures }
        ensures value { result.now ≡ job_at self.now p }
    {
        &self.pictures[p as usize]
    }

    /// A frame, by its place in display order.
    fn frame(&self, k: u32) -> &Frame
        requires frame { k < length self.now.frames }
        ensures value { result.now ≡ slice_index_or self.now.frames k no_samples }
    {
        &self.frames[k as usize]
    }

    /// The frame that a picture is coded of.
    pub(crate) fn source(&self, p: u32) -> &Frame
        requires picture { p < length self.now.pictures }
        ensures value { result.now
            ≡ slice_index_or self.now.frames (job_at self.now p).frame no_samples }
    {
        // what is known of a book
        let _book = self.pictures();
        self.frame(self.job(p).frame)
    }

    /// The activities of the group's macroblocks.
    fn activities(&self) -> &[u32]
        ensures value { result.now ≡ macroblock_activities self.now.settings self.now.frames
            self.now.pictures }
        ensures range { All IsActivity result.now }
    {
        &self.activities
    }

    /// The activities of the macroblocks of slice r of picture p, where the plan goes by the source.
    pub(crate) fn slice_activities(&self, p: u32, r: u32) -> &[u32]
        requires picture { p < length self.now.pictures }
        requires row { r < rows self.now }
        ensures value { result.now ≡ slice_activities self.now p r }
        ensures range { AreSliceActivities (dims_of self.now.settings).mb_width result.now }
    {
        // a group has at most 126 pictures
        let _pictures = self.pictures();
        match self.settings().settings().planning {
            Planning::Weights => &[],
            Planning::Even => {
                let columns = self.settings().dims().mb_width as usize;
                let from = (p * self.rows() + r) as usize * columns;
                part_of(self.activities(), from, columns)
            }
        }
    }

    /// The picture that a job belongs to.
    pub(crate) fn picture_of_job(&self, j: u32) -> u32
        requires job { j < jobs_of self.now }
        ensures value { result ≡ picture_of_job self.now j }
        ensures picture { result < length self.now.pictures }
    {
        j / (self.rows() + 1)
    }

    /// Which of its picture's jobs a job is: 0 for the plan, r + 1 for slice r.
    pub(crate) fn part_of_job(&self, j: u32) -> u32
        ensures value { result ≡ part_of_job self.now j }
        ensures most { result ≤ rows self.now }
    {
        j % (self.rows() + 1)
    }

    /// The job of a picture's plan.
    pub(crate) fn plan_job(&self, p: u32) -> u32
        requires picture { p < length self.now.pictures }
        ensures value { result ≡ plan_job self.now p }
        ensures most { result ≤ 126 * 73 }
    {
        // a group has at most 126 pictures
        let _pictures = self.pictures();
        p * (self.rows() + 1)
    }
}
