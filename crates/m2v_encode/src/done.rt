//! A group whose jobs are done.
ghost use Rattle.std.specs.Prelude.{◌≡◌, ◌+◌, ◌-◌, ◌*◌, ◌^◌, ◌<◌, ◌≤◌, length, slice_index};
ghost use Rattle.m2v_slice.specs.Headers.{IsJob};
ghost use Rattle.m2v_slice.specs.Books.{rows, job_at, slice_at, size_of, work_of, ledger_with};
ghost use Rattle.m2v_slice.specs.Conditions.{IsBook};
ghost use Rattle.m2v_encode.specs.Groups.{all_coded, whole_ledger};

use crate::kept::KeptPosts;
use m2v_order::PictureJob;
use m2v_rate::Ledger;
use m2v_set::Passed;
use m2v_slice::{EncodeBook, EncodePiece, SliceOut, header_bits};
use m2v_wave::Done;
use std::marker::Model;

/// What is asked of a group once its jobs are done: the settings, its pictures, how many frames it has and how many
/// macroblock rows a picture has, and the time behind each picture.
#[derive(Drop)]
pub(crate) struct GroupFacts {
    pub(crate) settings: Passed,
    pub(crate) pictures: Vec<PictureJob>,
    pub(crate) frames: u32,
    pub(crate) rows: u32,
    pub(crate) times: Vec<u64>,
}

/// A group whose jobs are done: the plan and the slices of each picture. Contracts see the group's book.
pub(crate) struct DoneGroup {
    pub(crate) facts: GroupFacts,
    pub(crate) done: Done<EncodeBook>,
}

impl Model for DoneGroup {
    ghost use Rattle.m2v_slice.specs.Headers.{IsJob};
    ghost use Rattle.m2v_slice.specs.Books.{Book};
    ghost use Rattle.m2v_slice.specs.Conditions.{IsBook};
    ghost use Rattle.m2v_encode.specs.Groups.{IsDone};

    ghost Value = { Book };

    ghost view = { λ g. g.done };

    ghost invariant = { λ g. IsDone g.done g.facts.settings g.facts.pictures.items g.facts.frames
        g.facts.rows g.facts.times.items };
}

impl Drop for DoneGroup {
    fn drop(self) {
        let Self { facts: _, done: _ } = self;
    }
}

impl DoneGroup {
    /// The settings.
    pub(crate) fn settings(&self) -> &Passed
        ensures value { result.now ≡ self.now.settings }
    {
        &self.facts.settings
    }

    /// How many pictures it has.
    pub(crate) fn pictures(&self) -> u32
        ensures value { result ≡ length self.now.pictures }
        ensures some { 1 ≤ result }
        ensures most { result ≤ 126 }
        ensures book { IsBook self.now }
    {
        self.facts.pictures.len() as u32
    }

    /// How many frames it has.
    pub(crate) fn frames(&self) -> u32
        ensures value { result ≡ length self.now.frames }
        ensures most { result ≤ 63 }
    {
        self.facts.frames
    }

    /// How many macroblock rows a picture has.
    pub(crate) fn rows(&self) -> u32
        ensures value { result ≡ rows self.now }
        ensures most { result ≤ 72 }
    {
        self.facts.rows
    }

    /// A picture.
    pub(crate) fn job(&self, p: u32) -> &PictureJob
        requires picture { p < length self.now.pictures }
        ensures value { result.now ≡ job_at self.now p }
        ensures job { IsJob result.now }
        ensures early { result.now.display < 1000000 }
    {
        &self.facts.pictures[p as usize]
    }

    /// The time behind a picture, in units of 1/720,000 s.
    pub(crate) fn time(&self, p: u32) -> u64
        requires picture { p < length self.now.pictures }
        ensures value { result ≡ slice_index self.now.ledger.intervals p }
        ensures small { result < 2 ^ 20 }
    {
        self.facts.times[p as usize]
    }

    /// A slice of a picture.
    pub(crate) fn slice(&self, p: u32, r: u32) -> &SliceOut
        requires picture { p < length self.now.pictures }
        requires row { r < rows self.now }
        ensures value { result.now ≡ slice_at (all_coded self.now) p r }
    {
        match self.done.piece(p * (self.facts.rows + 1) + 1 + r) {
            EncodePiece::Slice { out } => out,
            EncodePiece::Plan { plan: _, ledger: _ } => unreachable!(),
        }
    }

    /// The bits of a slice of a picture.
    fn slice_bits(&self, p: u32, r: u32) -> u64
        requires picture { p < length self.now.pictures }
        requires row { r < rows self.now }
        ensures value { result ≡ length (slice_at (all_coded self.now) p r).text }
        ensures most { result < 2 ^ 32 }
    {
        // a book's slices are short
        let _book = self.pictures();
        8 * self.slice(p, r).bytes().len() as u64
    }

    /// The bits of a picture with its headers, without the zero bytes behind it.
    pub(crate) fn size(&self, p: u32) -> u64
        requires picture { p < length self.now.pictures }
        ensures value { result ≡ size_of self.now (all_coded self.now) p }
        ensures most { result < 2 ^ 32 }
    {
        // the plans of a book's pictures are good
        let _book = self.pictures();
        let mut bits = header_bits(self.job(p));
        for r in 0..self.rows() {
            bits += self.slice_bits(p, r);
        }
        bits
    }

    /// The work of a picture: the sum of that of its slices.
    fn work(&self, p: u32) -> u64
        requires picture { p < length self.now.pictures }
        ensures value { result ≡ work_of (all_coded self.now) p }
    {
        // a book's slices are short, and so is their work
        let _book = self.pictures();
        let mut work = 0;
        for r in 0..self.rows() {
            work += self.slice(p, r).work();
        }
        work
    }

    /// The ledger that knows all plans, and all sizes but those of the last three pictures before the last, and its own.
    fn planned(&self) -> Ledger
        ensures value { result ≡ ledger_with self.now (all_coded self.now)
            (length self.now.pictures - 4) (all_coded self.now) }
    {
        let last = self.pictures() - 1;
        match self.done.piece(last * (self.facts.rows + 1)) {
            EncodePiece::Plan { plan: _, ledger } => *ledger,
            EncodePiece::Slice { out: _ } => unreachable!(),
        }
    }

    /// The ledger that knows all plans and all sizes.
    pub(crate) fn ledger(&self) -> Ledger
        ensures value { result ≡ whole_ledger self.now }
    {
        let mut ledger = self.planned();
        let count = self.pictures();
        for p in count.saturating_sub(4)..count {
            ledger.known(p, self.size(p), self.work(p));
        }
        ledger
    }

    /// Its posts, for the group after it.
    pub(crate) fn into_kept(self) -> KeptPosts
        ensures value { result ≡ self.settings }
    {
        let Self { facts, done } = self;
        KeptPosts::of(&facts.settings, done)
    }
}
