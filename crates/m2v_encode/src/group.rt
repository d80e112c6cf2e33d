//! A group of pictures, coded and written.
ghost use Rattle.std.specs.Prelude.{◌≡◌, ◌*◌, ◌≤◌, ◌<◌, false, true, Bool, None, ◌^◌, All, IsTrue, IfOk, IfErr, OnOk, IfSome, length, map, is_some};
ghost use Rattle.m2v_port.specs.Ends.{change, SinkStays};
ghost use Rattle.m2v_plane.specs.Raw.{frame_bytes};
ghost use Rattle.m2v_set.specs.Numbers.{dims_of, rows_by};
ghost use Rattle.m2v_set.specs.Rules.{is_even};
ghost use Rattle.m2v_rate.specs.Sharing.{IsPictureActivity};
ghost use Rattle.m2v_order.specs.declared.jobs.PictureJob.{PictureJob};
ghost use Rattle.m2v_order.specs.Times.{intervals_of};
ghost use Rattle.m2v_order.specs.Whole.{handed};
ghost use Rattle.m2v_rate.specs.Plans.{account_at, fresh, begun};
ghost use Rattle.m2v_slice.specs.Conditions.{IsBook};
ghost use Rattle.m2v_encode.specs.Groups.{whole_ledger, IsPlace};
ghost use Rattle.m2v_encode.specs.Ready.{IsReady};
ghost use Rattle.m2v_encode.specs.Steps.{HasRoom, IsFew, GoesOn, GroupCoded, GroupStops, CanCode, book_by};

use crate::answer::{EncodeError, Summary};
use crate::done::{DoneGroup, GroupFacts};
use crate::kept::{KeptPosts, bench_for};
use crate::measured::MeasuredGroup;
use crate::ready::ReadyGroup;
use m2v_bits::BitWriter;
use m2v_order::{PictureJob, intervals};
use m2v_plane::{Frame, Memory, bytes_of};
use m2v_port::Sink;
use m2v_rate::Ledger;
use m2v_set::{Passed, Scan};
use m2v_slice::{EncodeBook, GroupActivities};
use std::alloc::Global;

/// Room for the headers of a picture.
const HEADERS: usize = 48;

/// What coding group after group needs: the ledger of the group before, the reconstruction of the last anchor, whether frames
/// are shown, room for a shown frame's bytes and for a picture's headers, the numbers so far, in which the frames are not
/// counted, and the posts of the group before.
#[derive(Drop)]
pub(crate) struct Coder {
    pub(crate) settings: Passed,
    pub(crate) ledger: Ledger,
    pub(crate) before: Option<Frame>,
    pub(crate) shown: bool,
    pub(crate) raw: Vec<u8>,
    pub(crate) headers: BitWriter,
    pub(crate) total: Summary,
    pub(crate) kept: Option<KeptPosts>,
}

/// The same pictures once more.
fn copy_of(alloc: Global, pictures: &[PictureJob]) -> Result<Vec<PictureJob>, Memory>
    ensures value { IfOk result (λ v. v.items ≡ pictures.now) }
{
    let mut copied = Vec::new(alloc);
    for i in 0..pictures.len() {
        copied.push(pictures[i])?;
    }
    Ok(copied)
}

/// The types of pictures.
fn kinds_of(alloc: Global, pictures: &[PictureJob]) -> Result<Vec<u8>, Memory>
    ensures value { IfOk result (λ v. v.items ≡ map (λ (j : PictureJob). j.kind) pictures.now) }
{
    let mut kinds = Vec::new(alloc);
    for i in 0..pictures.len() {
        kinds.push(pictures[i].kind)?;
    }
    Ok(kinds)
}

/// The macroblock rows of a picture.
#[tactic(auto, unfolding(m2v_set::specs::Numbers::dims_of, m2v_set::specs::Numbers::rows_by, m2v_set::specs::Numbers::frame_rows_by))]
fn rows_of(settings: &Passed) -> u32
    ensures value { result ≡ rows_by settings.now.scan settings.now.height }
    ensures most { result ≤ 72 }
{
    let all = settings.dims().mb_rows;
    match settings.settings().scan {
        Scan::Progressive | Scan::Frames => all,
        Scan::Fields => all / 2,
    }
}

/// The bytes of a frame where frames are shown.
fn shown_bytes(settings: &Passed, shown: bool) -> usize
    ensures value { shown ≡ true → result ≡ frame_bytes (dims_of settings.now) }
{
    if shown { bytes_of(settings.dims()) } else { 0 }
}

impl Coder {
    /// Room for a picture's headers, and for one frame where frames are shown, with nothing coded.
    pub(crate) fn new(alloc: Global, settings: &Passed, shown: bool) -> Result<Coder, Memory>
        ensures settings { IfOk result (λ c. c.settings ≡ settings.now) }
        ensures shown { IfOk result (λ c. c.shown ≡ shown) }
        ensures room { IfOk result HasRoom }
        ensures ledger { IfOk result (λ c. c.ledger ≡ fresh settings.now) }
        ensures before { IfOk result (λ c. c.before ≡ None) }
        ensures total { IfOk result (λ c. c.total ≡ record {
          frames = 0;
          pictures = 0;
          bytes = 0;
          stuffing = 0;
        }) }
    {
        Ok(Coder {
            settings: *settings,
            ledger: Ledger::start(settings),
            before: None,
            shown,
            raw: vec![in alloc; 0; shown_bytes(settings, shown)]?,
            headers: BitWriter::over(vec![in alloc; 0; HEADERS]?),
            total: Summary {
                frames: 0,
                pictures: 0,
                bytes: 0,
                stuffing: 0,
            },
            kept: None,
        })
    }

    /// Begins the ledger of the next group, whose pictures have these activities, and gives the times behind them.
    fn begin_group(
        &mut self,
        alloc: Global,
        before: Option<u64>,
        pictures: &[PictureJob],
        activities: &[u32],
    ) -> Result<Vec<u64>, Memory>
        requires going { (coded : Bool) × GoesOn self.old coded }
        requires few { IsFew self.old.total }
        requires some { 1 ≤ length pictures.now }
        requires most { length pictures.now ≤ 126 }
        requires kinds { All (λ (j : PictureJob). (1 ≤ j.kind) × (j.kind ≤ 3)) pictures.now }
        requires active { length activities.now ≡ length pictures.now }
        requires activities { is_even self.old.settings.planning ≡ true
            → All IsPictureActivity activities.now }
        ensures times { IfOk result
            (λ v. v.items ≡ intervals_of self.old.settings before pictures.now) }
        ensures begun { OnOk result (self.new.ledger ≡ begun self.old.ledger
            (map (λ (j : PictureJob). j.kind) pictures.now)
            (intervals_of self.old.settings before pictures.now) activities.now) }
        ensures rest { self.new ≡ record self.old { ledger = self.new.ledger } }
    {
        let times = intervals(alloc, &self.settings, before, pictures)?;
        let kinds = kinds_of(alloc, pictures)?;
        self.ledger
            .group(&self.settings, &kinds, &times, activities);
        Ok(times)
    }

    /// Makes a book of the group, and a bench for its jobs.
    pub(crate) fn prepare(
        &mut self,
        alloc: Global,
        group: MeasuredGroup,
    ) -> Result<ReadyGroup, Memory>
        requires going { GoesOn self.old (is_some group.group.before) }
        requires few { IsFew self.old.total }
        requires group { CanCode self.old.settings group }
        requires kept { IfSome self.old.kept (λ s. s ≡ self.old.settings) }
        ensures value { IfOk result (λ r. r.book ≡ book_by self.old (handed group.group)) }
        ensures ready { IfOk result IsReady }
        ensures settings { self.new.settings ≡ self.old.settings }
        ensures shown { self.new.shown ≡ self.old.shown }
        ensures total { self.new.total ≡ self.old.total }
        ensures raw { self.new.raw ≡ self.old.raw }
        ensures headers { self.new.headers ≡ self.old.headers }
        ensures kept { IfSome self.new.kept (λ s. s ≡ self.new.settings) }
    {
        let MeasuredGroup { group, active } = group;
        let GroupActivities {
            macroblocks,
            pictures: sums,
        } = active;
        let pictures = copy_of(alloc, &group.pictures)?;
        let frames = group.frames.len() as u32;
        let rows = rows_of(&self.settings);
        let times = self.begin_group(alloc, group.before, &pictures, &sums)?;
        let before = self.before.take();
        let book = EncodeBook::for_group(
            alloc,
            &self.settings,
            group,
            macroblocks,
            before,
            self.ledger,
        )?;
        let workers = self.settings.settings().workers;
        let bench = bench_for(alloc, &book, workers, self.kept.take())?;
        let facts = GroupFacts {
            settings: self.settings,
            pictures,
            frames,
            rows,
            times,
        };
        Ok(ReadyGroup { facts, book, bench })
    }

    /// Writes the bytes of a group whose jobs are done to output, and its frames, where they are shown, to recon. `ends` tells
    /// that it is the last one of the stream.
    pub(crate) fn put_group<K: Sink, N: Sink>(
        &mut self,
        alloc: Global,
        done: DoneGroup,
        ends: bool,
        output: &mut K,
        recon: &mut N,
    ) -> Result<(), EncodeError>
        requires room { HasRoom self.old }
        requires settings { done.settings ≡ self.old.settings }
        requires place { IsPlace done.settings (account_at (whole_ledger done) 0)
            (8 * self.old.total.bytes) }
        requires few { IsFew self.old.total }
        requires output { IsTrue (K.ready output.old) }
        requires recon { IsTrue (N.ready recon.old) }
        requires unshown { self.old.shown ≡ false → N.held recon.old ≡ None }
        ensures coded { OnOk result (GroupCoded self.old self.new done ends
            (change K.held K.faults output.old output.new)
            (change N.held N.faults recon.old recon.new)) }
        ensures err { IfErr result (GroupStops done ends (8 * self.old.total.bytes)
            (change K.held K.faults output.old output.new)
            (change N.held N.faults recon.old recon.new)) }
        ensures book { IsBook done }
        ensures place { OnOk result (ends ≡ false → IsPlace done.settings
            (account_at (whole_ledger done) (length done.pictures)) (8 * self.new.total.bytes)) }
        ensures room { HasRoom self.new }
        ensures shown { self.new.shown ≡ self.old.shown }
        ensures few { OnOk result ((self.new.total.bytes ≤ 2 ^ 21 * self.new.total.pictures)
            × (self.new.total.stuffing ≤ self.new.total.bytes)) }
        ensures output { SinkStays K.ready K.name K.faults output.old output.new }
        ensures recon { SinkStays N.ready N.name N.faults recon.old recon.new }
    {
        // a group that is done has its book
        let _book = done.pictures();
        self.ledger = done.ledger();
        done.put_pictures(
            ends,
            &self.ledger,
            &mut self.headers,
            &mut self.total,
            output,
        )?;
        self.before = done.put_shown(alloc, self.shown, &mut self.raw, recon)?;
        self.kept = Some(done.into_kept());
        Ok(())
    }
}
