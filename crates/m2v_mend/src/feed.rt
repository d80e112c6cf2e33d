//! The pieces of an input's stretches, as they are read.
ghost use Rattle.std.specs.Prelude.{◌≡◌, ◌+◌, ◌-◌, ◌^◌, ◌≤◌, ◌<◌, length, take, drop, vec_len, false, IfOk, IfErr, IfSome, OnOk, IsErrOf};
ghost use Rattle.m2v_port.specs.Port.{Rose};
ghost use Rattle.m2v_decode.specs.m2v_dec_piece.Sound.{IsSoundPiece};
ghost use Rattle.m2v_decode.specs.m2v_dec_piece.Slices.{OnlySlices};
ghost use Rattle.m2v_decode.specs.m2v_dec_piece.Cutting.{IsReading};
ghost use Rattle.m2v_decode.specs.m2v_dec_piece.Stepping.{Stopped};
ghost use Rattle.m2v_decode.specs.Decoding.{whole_of};
ghost use Rattle.m2v_mend.specs.Feeding.{IsPart, IsBare, AreBare, IsExtent, IsOwn, KeepsZeros, KeepZeros, Fed, IsOnward, nothing_read, within};

use crate::Memory;
use crate::fresh::Fresh;
use crate::info::{Counted, count};
use crate::walk::units;
use m2v_decode::{CutPiece, Cutter, DecodeError, Piece};
use m2v_port::Source;
use std::alloc::Global;
use std::marker::Model;

/// So many bytes behind so many, or as many as there are.
fn bytes_of(alloc: Global, bytes: &[u8], before: usize, own: u64) -> Result<Vec<u8>, Memory>
    requires { before ≤ length bytes.now }
    ensures { IfOk result (λ v. v.items ≡ take own (drop before bytes.now)) }
{
    let behind = &bytes[before..];
    let count = own.min(behind.len() as u64) as usize;
    behind[..count].to_vec(alloc)
}

/// So many bytes of a piece, behind so many.
fn part(alloc: Global, piece: &Piece, before: u64, own: u64) -> Result<Piece, Memory>
    requires sound { IsSoundPiece piece.now }
    requires within { before + own ≤ piece.now.length }
    requires some { before < vec_len piece.now.bytes }
    ensures whole { IfOk result (λ p. IsPart p (piece.now.place + before)
        (take own (drop before (whole_of piece.now)))) }
    ensures zeros { IfOk result (KeepsZeros piece.now) }
{
    let bytes = bytes_of(alloc, &piece.bytes, before as usize, own)?;
    Ok(Piece {
        bytes,
        place: piece.place + before,
        length: own,
    })
}

/// How much of a piece stands from its first unit on, and how much of it before a sequence end code, in bytes; and what is
/// counted there.
#[derive(Clone, Copy)]
struct Extent {
    units: u64,
    own: u64,
    counted: Counted,
}

/// Measures a piece that is slices alone from a byte on.
fn measured(piece: &Piece, slices: u64) -> Extent
    requires sound { IsSoundPiece piece.now }
    requires slices { OnlySlices slices (whole_of piece.now) }
    ensures { IsExtent (whole_of piece.now) result }
{
    let all = units(piece).left();
    let sliced = 8 * piece.length.saturating_sub(slices);
    let (counted, behind) = count(&mut units(piece), sliced);
    Extent {
        units: all / 8,
        own: all.saturating_sub(behind) / 8,
        counted,
    }
}

/// A piece without what stands before its first unit, and without a sequence end code.
fn bared(alloc: Global, piece: Piece, extent: &Extent) -> Result<Piece, Memory>
    requires sound { IsSoundPiece piece }
    requires extent { IsExtent (whole_of piece) extent.now }
    ensures bare { IfOk result (λ p. IsBare p piece.place (whole_of piece)) }
    ensures zeros { IfOk result (KeepsZeros piece) }
{
    if extent.own == piece.length {
        return Ok(piece);
    }
    if extent.units == 0 {
        return Ok(Piece {
            bytes: Vec::new(alloc),
            place: piece.place + piece.length,
            length: 0,
        });
    }
    part(alloc, &piece, piece.length - extent.units, extent.own)
}

/// The same, with what is counted of it.
fn fresh_of(alloc: Global, piece: CutPiece) -> Result<Fresh, Memory>
    requires { IsSoundPiece piece }
    ensures bare { IfOk result (λ p. IsBare p piece.place (whole_of piece)) }
    ensures zeros { IfOk result (KeepsZeros piece) }
{
    let extent = measured(piece.piece(), piece.slices());
    let bare = bared(alloc, piece.into_piece(), &extent)?;
    Ok(Fresh::of(bare, extent.counted))
}

/// The same, where there is a piece.
fn fresh_if(alloc: Global, piece: Option<CutPiece>) -> Result<Option<Fresh>, Memory>
    requires { IfSome piece IsSoundPiece }
    ensures bare { IfOk result (AreBare piece) }
    ensures zeros { IfOk result (KeepZeros piece) }
{
    match piece {
        None => Ok(None),
        Some(piece) => {
            let bare = fresh_of(alloc, piece)?;
            Ok(Some(bare))
        }
    }
}

/// The pieces of an input's stretches, one after another.
///
/// Contracts see it as the cutter that reads them.
#[derive(Drop)]
pub struct Feed {
    cutter: Cutter,
}

impl Model for Feed {
    ghost use Rattle.m2v_decode.specs.m2v_dec_piece.Cutting.{Cutting};

    ghost Value = { Cutting };

    ghost view = { λ f. f.cutter };
}

impl Feed {
    /// Nothing was read.
    pub fn new(alloc: Global) -> Result<Feed, Memory>
        ensures { IfOk result (λ f. f ≡ nothing_read) }
    {
        let mut cutter = Cutter::new(alloc)?;
        cutter.begin_within();
        Ok(Feed { cutter })
    }

    /// Goes on with the next stretch, behind the last piece of one.
    pub fn go_on(&mut self)
        requires going { self.old.failed ≡ false }
        ensures { self.new ≡ within self.old }
    {
        self.cutter.begin_within();
    }

    /// The place of what was read and not handed out; behind the last piece of a stretch, where that ends.
    pub fn place(&self) -> u64
        ensures value { result ≡ self.now.place }
        ensures most { result ≤ 2 ^ 36 }
    {
        self.cutter.place()
    }

    /// The next piece of the stretch, without what stands before its first unit and without its end code, so that no byte may
    /// be left; None where no piece is left. After an error no call may follow.
    pub fn next_piece<S: Source>(
        &mut self,
        alloc: Global,
        input: &mut S,
    ) -> Result<Option<Fresh>, DecodeError>
        requires { self.old.failed ≡ false }
        ensures ok { IfOk result (Fed self.old (S.left input.old) self.new (S.left input.new)) }
        ensures own { IfOk result (λ o. IfSome o IsOwn) }
        ensures onward { IfOk result (λ o. IsOnward o self.old self.new) }
        ensures going { OnOk result (self.new.failed ≡ false) }
        ensures err { IfErr result (Stopped self.old (S.left input.old) (S.left input.new)) }
        ensures kind { IfErr result IsReading }
        ensures failed { IsErrOf result DecodeError.Read
            → Rose (S.faults input.old) (S.faults input.new) }
        ensures faults { S.faults input.old ≤ S.faults input.new }
        ensures most { self.old.place ≤ 2 ^ 36 }
    {
        let piece = self.cutter.next_cut(alloc, input)?;
        let bare = fresh_if(alloc, piece)?;
        Ok(bare)
    }
}
