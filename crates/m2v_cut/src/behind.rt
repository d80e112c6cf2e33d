//! The pieces behind a group's first one.
ghost use Rattle.std.specs.Prelude.{◌≡◌, ◌⊎◌, ◌+◌, ◌^◌, ◌≤◌, true, false, IsTrue, IfErr, IfSome, OnOk};
ghost use Rattle.m2v_port.specs.Ends.{change, SinkStays};
ghost use Rattle.m2v_decode.specs.m2v_dec_piece.Sound.{IsSoundPiece};
ghost use Rattle.m2v_cut.specs.Starts.{piece_list};
ghost use Rattle.m2v_cut.specs.Behind.{BehindPut, BehindFails};

use crate::answer::CutError;
use crate::copy::{Copied, put_rest, put_second};
use m2v_decode::{Cutter, Piece};
use m2v_port::{Sink, Source};
use std::alloc::Global;

/// Writes the pieces behind a group's first one, of which the second may have been read, up to the one that holds the
/// header of the group behind so many.
pub fn put_behind<S: Source, K: Sink>(
    alloc: Global,
    second: &Option<Piece>,
    most: u64,
    cutter: &mut Cutter,
    copied: &mut Copied,
    input: &mut S,
    output: &mut K,
) -> Result<(), CutError>
    requires sound { IfSome second.now IsSoundPiece }
    requires second { IfSome second.now (λ p. copied.old.bytes + p.length ≤ cutter.old.place) }
    requires going { cutter.old.failed ≡ false }
    requires begun { (cutter.old.begun ≡ true) ⊎ (cutter.old.ended ≡ true) }
    requires few { copied.old.groups ≤ most }
    requires room { copied.old.bytes ≤ cutter.old.place }
    requires low { cutter.old.place ≤ 2 ^ 36 }
    requires output { IsTrue (K.ready output.old) }
    ensures put { OnOk result (BehindPut (piece_list second.now) most copied.old copied.new
        (change S.left S.faults input.old input.new)
        (change K.held K.faults output.old output.new) cutter.old cutter.new) }
    ensures room { OnOk result (copied.new.bytes ≤ 2 ^ 36) }
    ensures err { IfErr result (BehindFails (piece_list second.now) most copied.old.groups
        (change S.left S.faults input.old input.new)
        (change K.held K.faults output.old output.new) cutter.old) }
    ensures output { SinkStays K.ready K.name K.faults output.old output.new }
    ensures input { S.faults input.old ≤ S.faults input.new }
{
    if !put_second(second, most, copied, output)? {
        copied.groups = most;
        return Ok(());
    }
    put_rest(alloc, most, cutter, copied, input, output)
}
