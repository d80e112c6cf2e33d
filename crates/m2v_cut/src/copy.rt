//! Pieces of a cut, one after another.
ghost use Rattle.std.specs.Prelude.{◌≡◌, ◌⊎◌, ◌+◌, ◌*◌, ◌^◌, ◌≤◌, ◌<◌, ◌++◌, length, IsTrue, IfOk, IfErr, IfSome, OnOk, true, false};
ghost use Rattle.m2v_port.specs.Ends.{change, SinkStays};
ghost use Rattle.m2v_port.specs.Port.{Grows};
ghost use Rattle.m2v_decode.specs.m2v_dec_piece.Sound.{IsSoundPiece};
ghost use Rattle.m2v_decode.specs.Decoding.{whole_of};
ghost use Rattle.m2v_cut.specs.Answers.{groups_of};
ghost use Rattle.m2v_cut.specs.Progress.{Cuts, bytes_of, all_bytes, all_groups, HasPut, SecondPut, RestPut, RestFails};
ghost use Rattle.m2v_cut.specs.Starts.{piece_list};

use crate::answer::CutError;
use crate::find::reading;
use crate::look::{count, units};
use crate::put::put_part;
use m2v_decode::{Cutter, Piece};
use m2v_port::{Sink, Source};
use std::alloc::Global;

/// What was copied: how many groups, by their headers, and how many bytes.
#[derive(Clone, Copy, Debug, PartialEq, Eq)]
pub struct Copied {
    pub groups: u64,
    pub bytes: u64,
}

/// Writes the next piece without the sequence end code, unless it holds the header of the group behind so many. Answers
/// whether it was written.
pub fn put_next<K: Sink>(
    piece: &Piece,
    most: u64,
    copied: &mut Copied,
    output: &mut K,
) -> Result<bool, CutError>
    requires piece { IsSoundPiece piece.now }
    requires few { copied.old.groups ≤ most }
    requires room { copied.old.bytes + piece.now.length < 2 ^ 60 }
    requires output { IsTrue (K.ready output.old) }
    ensures put { IfOk result (λ written. HasPut written
        (whole_of piece.now) most copied.old copied.new
        (change K.held K.faults output.old output.new)) }
    ensures err { IfErr result (λ e. (copied.old.groups + groups_of (whole_of piece.now) ≤ most)
        × Cuts (bytes_of (whole_of piece.now)) (change K.held K.faults output.old output.new) e) }
    ensures output { SinkStays K.ready K.name K.faults output.old output.new }
{
    let counted = count(&mut units(piece));
    if counted.groups > most - copied.groups {
        return Ok(false);
    }
    let bytes = counted.bits / 8;
    put_part(piece, 0, bytes, output)?;
    copied.groups += counted.groups;
    copied.bytes += bytes;
    Ok(true)
}

/// Writes a piece that may be there, as `put_next` does.
pub fn put_second<K: Sink>(
    second: &Option<Piece>,
    most: u64,
    copied: &mut Copied,
    output: &mut K,
) -> Result<bool, CutError>
    requires second { IfSome second.now (λ p. IsSoundPiece p
        × (copied.old.bytes + p.length < 2 ^ 60)) }
    requires few { copied.old.groups ≤ most }
    requires output { IsTrue (K.ready output.old) }
    ensures put { IfOk result (λ written. SecondPut written (piece_list second.now) most
        copied.old copied.new (change K.held K.faults output.old output.new)) }
    ensures err { IfErr result (λ e.
        (copied.old.groups + all_groups (piece_list second.now) ≤ most)
        × Cuts (all_bytes (piece_list second.now))
        (change K.held K.faults output.old output.new) e) }
    ensures output { SinkStays K.ready K.name K.faults output.old output.new }
{
    match second {
        None => Ok(true),
        Some(piece) => put_next(piece, most, copied, output),
    }
}

/// Writes the pieces that are left, up to the one that holds the header of the group behind so many.
pub fn put_rest<S: Source, K: Sink>(
    alloc: Global,
    most: u64,
    cutter: &mut Cutter,
    copied: &mut Copied,
    input: &mut S,
    output: &mut K,
) -> Result<(), CutError>
    requires going { cutter.old.failed ≡ false }
    requires begun { (cutter.old.begun ≡ true) ⊎ (cutter.old.ended ≡ true) }
    requires few { copied.old.groups ≤ most }
    requires room { copied.old.bytes ≤ cutter.old.place }
    requires low { cutter.old.place ≤ 2 ^ 36 }
    requires output { IsTrue (K.ready output.old) }
    ensures put { OnOk result (RestPut most copied.old copied.new
        (change S.left S.faults input.old input.new)
        (change K.held K.faults output.old output.new) cutter.old cutter.new) }
    ensures room { OnOk result (copied.new.bytes ≤ 2 ^ 36) }
    ensures err { IfErr result (RestFails most copied.old.groups
        (change S.left S.faults input.old input.new)
        (change K.held K.faults output.old output.new) cutter.old) }
    ensures output { SinkStays K.ready K.name K.faults output.old output.new }
    ensures input { S.faults input.old ≤ S.faults input.new }
{
    loop {
        match cutter.next_piece(alloc, input) {
            Err(e) => return Err(reading(e)),
            Ok(None) => return Ok(()),
            Ok(Some(piece)) => {
                if !put_next(&piece, most, copied, output)? {
                    copied.groups = most;
                    return Ok(());
                }
            }
        }
    }
}
