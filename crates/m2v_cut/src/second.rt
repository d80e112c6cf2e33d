//! The second piece of a group's first frame.
ghost use Rattle.std.specs.Prelude.{◌≡◌, ◌⊎◌, ◌+◌, ◌≤◌, ◌^◌, true, false, IfOk, IfErr, IfSome, OnOk};
ghost use Rattle.m2v_port.specs.Ends.{change};
ghost use Rattle.m2v_cut.specs.Starts.{Second, SecondFails, is_field_number};

use crate::answer::CutError;
use crate::find::reading;
use crate::look::FirstPicture;
use crate::start::is_field;
use m2v_decode::{Cutter, Piece};
use m2v_port::Source;
use std::alloc::Global;

/// The next piece, where a group's first picture is one field.
pub fn second_piece<S: Source>(
    alloc: Global,
    picture: FirstPicture,
    cutter: &mut Cutter,
    input: &mut S,
) -> Result<Option<Piece>, CutError>
    requires going { cutter.old.failed ≡ false }
    requires begun { cutter.old.begun ≡ true }
    requires low { cutter.old.place ≤ 2 ^ 36 }
    ensures ok { IfOk result (Second picture (S.left input.old) (S.left input.new)
        cutter.old cutter.new) }
    ensures err { IfErr result (SecondFails
        (change S.left S.faults input.old input.new) cutter.old) }
    ensures field { IfErr result (λ e. is_field_number picture.structure ≡ true) }
    ensures going { OnOk result (cutter.new.failed ≡ false) }
    ensures begun { OnOk result ((cutter.new.begun ≡ true) ⊎ (cutter.new.ended ≡ true)) }
    ensures room { IfOk result (λ p. IfSome p
        (λ q. cutter.old.place + q.length ≤ cutter.new.place)) }
    ensures low { OnOk result (cutter.new.place ≤ 2 ^ 36) }
    ensures onward { OnOk result (cutter.old.place ≤ cutter.new.place) }
    ensures input { S.faults input.old ≤ S.faults input.new }
{
    if !is_field(picture) {
        return Ok(None);
    }
    match cutter.next_piece(alloc, input) {
        Err(e) => Err(reading(e)),
        Ok(None) => Ok(None),
        Ok(Some(piece)) => Ok(Some(piece)),
    }
}
