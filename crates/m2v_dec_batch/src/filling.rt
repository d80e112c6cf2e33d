//! A batch that is filled.
ghost use Rattle.std.specs.Prelude.{ℕ, suc, ◌≡◌, ◌<◌, ◌≤◌, ◌++◌, [], ◌∷◌, ◌↔◌, false, IsTrue, IsSome, IfErr, OnOk, None, length};
ghost use Rattle.m2v_plane.specs.Sizes.{IsSize};
ghost use Rattle.m2v_dec_piece.specs.declared.answer.Piece.{Piece as PieceOf};
ghost use Rattle.m2v_dec_rows.specs.Opened.{IsOpened};
ghost use Rattle.m2v_dec_batch.specs.Jobs.{header_at, first_job, jobs_of};
ghost use Rattle.m2v_dec_batch.specs.Batches.{Batch, headers, ArePair, IsBatch};
ghost use Rattle.m2v_dec_batch.specs.Filled.{batch_of, with_picture, with_frames, at_hand, AreThere, HaveDims, Follows};

use crate::at_hand::{FramesThere, behind, has_fields, reading_of};
use crate::{BatchPicture, DecodeBook, Header, Memory, header_of};
use m2v_dec_piece::Piece;
use m2v_dec_rows::Opened;
use m2v_dec_rows::dec_picture::FramesAtHand;
use m2v_plane::Dims;
use std::alloc::Global;
use std::marker::Model;

/// A batch that is filled: pictures whose rows are decoded by themselves, and which frames are at hand before them.
///
/// Contracts see a batch whose frames at hand have samples 0: those that its pictures are predicted from may not be decoded
/// yet.
#[derive(Drop)]
pub struct Filling {
    dims: Dims,
    pictures: Vec<BatchPicture>,
    before: FramesThere,
}

impl Model for Filling {
    ghost use Rattle.m2v_dec_batch.specs.Batches.{Batch, IsBatch};
    ghost use Rattle.m2v_dec_batch.specs.Filled.{batch_of};

    ghost Value = { Batch };

    ghost view = { λ b. batch_of b.dims b.pictures.items b.before };

    ghost invariant = { λ b. IsBatch (batch_of b.dims b.pictures.items b.before) };
}

/// Whether two pictures are the fields of one frame: a first field, and one of the other parity.
fn are_pair(first: Header, next: Header) -> bool
    requires field { next.structure ≤ 2 }
    ensures pair { IsTrue result ↔ ArePair first next }
{
    if first.second || first.structure > 2 {
        return false;
    }
    first.structure + next.structure == 3
}

impl Filling {
    /// A batch of no picture, before which such frames are at hand.
    pub fn new(alloc: Global, dims: Dims, before: FramesThere) -> Filling
        requires size { IsSize dims }
        ensures value { result ≡ batch_of dims [] before }
    {
        Filling {
            dims,
            pictures: Vec::new(alloc),
            before,
        }
    }

    /// The size of the frames.
    pub fn dims(&self) -> Dims
        ensures value { result ≡ self.now.dims }
        ensures size { IsSize result }
    {
        self.dims
    }

    /// How many pictures there are.
    pub fn len(&self) -> u32
        ensures value { result ≡ length self.now.pictures }
        ensures most { result ≤ 16 }
    {
        self.pictures.len() as u32
    }

    /// What a picture's headers say.
    fn header(&self, p: u32) -> Header
        requires picture { p < length self.now.pictures }
        ensures value { result ≡ header_at (headers self.now) p }
    {
        header_of(&self.pictures[p as usize].opened)
    }

    /// Which frames are there before the next picture.
    pub fn at_hand(&self) -> FramesThere
        ensures value { result ≡ at_hand self.now (length self.now.pictures) }
    {
        let mut at = self.before;
        for p in 0..self.len() {
            at = behind(at, self.header(p));
        }
        at
    }

    /// Whether the first field of a second field, which would be the next picture, is the last picture, or waits before
    /// the batch.
    fn has_first_field(&self, h: Header) -> bool
        requires field { h.structure ≤ 2 }
        ensures waits { IsTrue result → length self.now.pictures ≡ 0 → IsSome self.now.waiting }
        ensures pair { IsTrue result → (p : ℕ) → length self.now.pictures ≡ suc p
            → ArePair (header_at (headers self.now) p) h }
        ensures every { (length self.now.pictures ≡ 0 → IsSome self.now.waiting)
            → ((p : ℕ) → length self.now.pictures ≡ suc p
            → ArePair (header_at (headers self.now) p) h)
            → IsTrue result }
    {
        let count = self.len();
        if count == 0 {
            return self.before.first;
        }
        are_pair(self.header(count - 1), h)
    }

    /// Whether a picture that is a second field follows its first field directly.
    fn follows(&self, h: Header) -> bool
        ensures follows { IsTrue result ↔ Follows self.now h }
    {
        if !h.second {
            return true;
        }
        if h.structure > 2 {
            return false;
        }
        self.has_first_field(h)
    }

    /// Whether there is room for a picture, and it has the size of the batch.
    fn has_place(&self, opened: &Opened) -> bool
        ensures room { IsTrue result → length self.now.pictures < 16 }
        ensures size { IsTrue result → opened.now.dims ≡ self.now.dims }
        ensures every { length self.now.pictures < 16 → opened.now.dims ≡ self.now.dims
            → IsTrue result }
        ensures batch { IsBatch self.now }
    {
        if opened.dims != self.dims {
            return false;
        }
        self.len() < 16
    }

    /// Whether a picture fits behind those of the batch: there is room for it, it has their size, as a second field it
    /// follows its first field directly, and each field that it may be predicted from is there.
    fn fits(&self, opened: &Opened) -> bool
        ensures batch { IsTrue result → (p : PieceOf) → IsOpened p opened.now
            → IsBatch (with_picture self.now p opened.now) }
        ensures every { (p : PieceOf) → IsBatch (with_picture self.now p opened.now)
            → IsTrue result }
    {
        if !self.has_place(opened) {
            return false;
        }
        let header = header_of(opened);
        if !self.follows(header) {
            return false;
        }
        has_fields(&opened.references, &reading_of(header), self.at_hand())
    }

    /// Whether a picture may be the next one: it isn't dropped, its headers have no fault, there are fewer than 16
    /// pictures, it has the size of the batch, as a second field it follows its first field directly, and each field that
    /// it may be predicted from is there.
    pub fn takes(&self, opened: &Opened) -> bool
        ensures batch { IsTrue result → (p : PieceOf) → IsOpened p opened.now
            → IsBatch (with_picture self.now p opened.now) }
        ensures read { IsTrue result → opened.now.note.dropped ≡ false }
        ensures whole { IsTrue result → opened.now.fault ≡ None }
        ensures every { opened.now.note.dropped ≡ false → opened.now.fault ≡ None → (p : PieceOf)
            → IsBatch (with_picture self.now p opened.now) → IsTrue result }
    {
        if opened.note.dropped || opened.fault.is_some() {
            return false;
        }
        self.fits(opened)
    }

    /// Appends a picture that may be the next one.
    ///
    /// # Errors
    /// Want of memory; the batch is then as it was.
    pub fn push(&mut self, piece: Piece, opened: Opened) -> Result<(), Memory>
        requires batch { IsBatch (with_picture self.old piece opened) }
        ensures value { OnOk result (self.new ≡ with_picture self.old piece opened) }
        ensures memory { IfErr result (λ e. self.new ≡ self.old) }
    {
        self.pictures.push(BatchPicture { piece, opened })?;
        Ok(())
    }

    /// The pictures.
    pub fn pictures(&self) -> &[BatchPicture]
        ensures value { result.now ≡ self.now.pictures }
    {
        self.pictures.as_slice()
    }

    /// The book of the batch, with the frames at hand before it.
    pub fn book(self, frames: FramesAtHand) -> DecodeBook
        requires there { AreThere frames self }
        requires sizes { HaveDims self.dims frames }
        ensures value { result ≡ with_frames self frames }
        ensures jobs { jobs_of (headers result)
            ≡ first_job (headers result) (length self.pictures) }
    {
        DecodeBook::for_batch(self.dims, self.pictures, frames)
    }
}
