//! One stretch of an input: its pieces are read, and what is kept of them is written.
ghost use Rattle.std.specs.Prelude.{◌≡◌, ◌≤◌, ◌<◌, ◌^◌, ◌⊎◌, ℕ, List, [], true, false, IsTrue, IfOk, IfErr, OnOk, OnErr};
ghost use Rattle.m2v_port.specs.Ends.{change, SinkStays};
ghost use Rattle.m2v_port.specs.Port.{Rose};
ghost use Rattle.m2v_decode.specs.m2v_dec_piece.Cutting.{IsReading};
ghost use Rattle.m2v_law_seam.specs.Mending as mending;
ghost use Rattle.m2v_mend.specs.Feeding.{IsOwn};
ghost use Rattle.m2v_mend.specs.Gathering.{Gathering};
ghost use Rattle.m2v_mend.specs.Making.{IsFolded, IsFoldReady};
ghost use Rattle.m2v_mend.specs.Stretching.{FellOut, IsAnswered, held_by, all_but_last, IsForgotten, IsFlushed, IsPartOf, with_whole, IsNextIf, IsTaken, over_to, IsEnded, InStretch, IsBefore, IsRead, IsBehind, Leads, Stops};

use crate::Memory;
use crate::answer::MendError;
use crate::feed::Feed;
use crate::folding::Folding;
use crate::fresh::Fresh;
use crate::gap::Gap;
use crate::listing::put_lines;
use crate::writing::put_pieces;
use m2v_decode::DecodeError;
use m2v_port::{Sink, Source};
use std::alloc::Global;

/// An error of a feed: it never writes, and reads no element.
fn answered(e: DecodeError) -> MendError
    requires { IsReading e }
    ensures { IsAnswered e result }
{
    match e {
        DecodeError::Read => MendError::Read,
        DecodeError::TooLong => MendError::TooLong,
        DecodeError::PictureTooLarge => MendError::PictureTooLarge,
        DecodeError::Memory => MendError::Memory,
        _ => unreachable!(),
    }
}

/// All gaps but the last one, which another one may join.
fn settled(gaps: &[Gap]) -> &[Gap]
    ensures { result.now ≡ all_but_last gaps.now }
{
    &gaps[..gaps.len().saturating_sub(1)]
}

/// Lets go the pieces that were handed out, and all gaps but the last one, which another one may join.
fn forget(folding: &mut Folding) -> Result<(), Memory>
    ensures { OnOk result (IsForgotten folding.old folding.new) }
{
    folding.mender.out.truncate(0);
    if let Some(last) = folding.mender.gaps.pop() {
        folding.mender.gaps.truncate(0);
        folding.mender.gaps.push(last)?;
    }
    Ok(())
}

/// Writes the pieces that were kept and the lines of all gaps but the last one, and lets them go.
fn flush<K: Sink, L: Sink>(
    alloc: Global,
    folding: &mut Folding,
    output: &mut K,
    list: &mut L,
) -> Result<(), MendError>
    requires output { IsTrue (K.ready output.old) }
    requires list { IsTrue (L.ready list.old) }
    ensures told { OnOk result
        (IsFlushed (held_by K.held L.held output.old list.old)
        (held_by K.held L.held output.new list.new) folding.old folding.new) }
    ensures ready { OnOk result (IsFoldReady folding.old → IsFoldReady folding.new) }
    ensures none { OnOk result (folding.new.mender.out.items ≡ []) }
    ensures err { OnErr result ((written : List ℕ) (listed : List mending.Gap) (g : Gathering)
        → IsFolded written listed g folding.old
        → IsPartOf g written listed (held_by K.held L.held output.old list.old)
        (held_by K.held L.held output.new list.new)) }
    ensures fell { IfErr result (FellOut (Rose (K.faults output.old) (K.faults output.new)
        ⊎ Rose (L.faults list.old) (L.faults list.new))) }
    ensures output { SinkStays K.ready K.name K.faults output.old output.new }
    ensures list { SinkStays L.ready L.name L.faults list.old list.new }
{
    put_pieces(&folding.mender.out, output)?;
    put_lines(alloc, settled(&folding.mender.gaps), list)?;
    forget(folding)?;
    Ok(())
}

/// Takes one piece more, and writes what is kept and told by it. A piece without a byte is passed over.
fn take<K: Sink, L: Sink>(
    alloc: Global,
    fresh: Fresh,
    folding: &mut Folding,
    output: &mut K,
    list: &mut L,
) -> Result<(), MendError>
    requires ready { IsFoldReady folding.old }
    requires own { IsOwn fresh }
    requires output { IsTrue (K.ready output.old) }
    requires list { IsTrue (L.ready list.old) }
    ensures told { OnOk result (IsTaken (held_by K.held L.held output.old list.old)
        (held_by K.held L.held output.new list.new) fresh
        folding.old folding.new) }
    ensures ready { OnOk result (IsFoldReady folding.new) }
    ensures err { OnErr result ((written : List ℕ) (listed : List mending.Gap) (g : Gathering)
        → IsFolded written listed g folding.old → IsNextIf g fresh
        → IsPartOf (with_whole g fresh) written listed (held_by K.held L.held output.old list.old)
        (held_by K.held L.held output.new list.new)) }
    ensures fell { IfErr result (FellOut (Rose (K.faults output.old) (K.faults output.new)
        ⊎ Rose (L.faults list.old) (L.faults list.new))) }
    ensures output { SinkStays K.ready K.name K.faults output.old output.new }
    ensures list { SinkStays L.ready L.name L.faults list.old list.new }
{
    if fresh.length() == 0 {
        return Ok(());
    }
    folding.piece(alloc, fresh)?;
    flush(alloc, folding, output, list)
}

/// Ends a stretch, and writes what is kept and told by that.
fn end<K: Sink, L: Sink>(
    alloc: Global,
    folding: &mut Folding,
    output: &mut K,
    list: &mut L,
) -> Result<(), MendError>
    requires ready { IsFoldReady folding.old }
    requires output { IsTrue (K.ready output.old) }
    requires list { IsTrue (L.ready list.old) }
    ensures told { OnOk result
        (IsEnded (held_by K.held L.held output.old list.old)
        (held_by K.held L.held output.new list.new) folding.old folding.new) }
    ensures ready { OnOk result (IsFoldReady folding.new) }
    ensures none { OnOk result (folding.new.mender.out.items ≡ []) }
    ensures err { OnErr result ((written : List ℕ) (listed : List mending.Gap) (g : Gathering)
        (place : ℕ) → IsFolded written listed g folding.old
        → IsPartOf (over_to g place) written listed (held_by K.held L.held output.old list.old)
        (held_by K.held L.held output.new list.new)) }
    ensures fell { IfErr result (FellOut (Rose (K.faults output.old) (K.faults output.new)
        ⊎ Rose (L.faults list.old) (L.faults list.new))) }
    ensures output { SinkStays K.ready K.name K.faults output.old output.new }
    ensures list { SinkStays L.ready L.name L.faults list.old list.new }
{
    folding.end_stretch(alloc)?;
    flush(alloc, folding, output, list)
}

/// Reads the pieces of a stretch, and writes what is kept of them. Answers whether it has one.
fn pieces<S: Source, K: Sink, L: Sink>(
    alloc: Global,
    feed: &mut Feed,
    folding: &mut Folding,
    input: &mut S,
    output: &mut K,
    list: &mut L,
) -> Result<bool, MendError>
    requires going { feed.old.failed ≡ false }
    requires begun { feed.old.begun ≡ true }
    requires still { feed.old.ended ≡ false }
    requires ready { IsFoldReady folding.old }
    requires output { IsTrue (K.ready output.old) }
    requires list { IsTrue (L.ready list.old) }
    ensures told { IfOk result (λ some. Leads (InStretch feed.old folding.old)
        (IsRead some feed.new folding.new) (change S.left S.faults input.old input.new)
        (change K.held K.faults output.old output.new)
        (change L.held L.faults list.old list.new)) }
    ensures going { OnOk result (feed.new.failed ≡ false) }
    ensures onward { IfOk result (λ some. some ≡ true → feed.old.place < feed.new.place) }
    ensures most { OnOk result (feed.new.place ≤ 2 ^ 36) }
    ensures ready { OnOk result (IsFoldReady folding.new) }
    ensures stops { IfErr result (Stops (InStretch feed.old folding.old)
        (change S.left S.faults input.old input.new)
        (change K.held K.faults output.old output.new)
        (change L.held L.faults list.old list.new)) }
    ensures output { SinkStays K.ready K.name K.faults output.old output.new }
    ensures list { SinkStays L.ready L.name L.faults list.old list.new }
    ensures input { S.faults input.old ≤ S.faults input.new }
{
    let mut some = false;
    loop {
        match feed.next_piece(alloc, input) {
            Err(e) => return Err(answered(e)),
            Ok(None) => return Ok(some),
            Ok(Some(piece)) => {
                take(alloc, piece, folding, output, list)?;
                some = true;
            }
        }
    }
}

/// Reads a stretch, and writes what is kept of it. Answers whether it has a piece; where it has none, nothing is left of the
/// input.
pub(crate) fn stretch<S: Source, K: Sink, L: Sink>(
    alloc: Global,
    feed: &mut Feed,
    folding: &mut Folding,
    input: &mut S,
    output: &mut K,
    list: &mut L,
) -> Result<bool, MendError>
    requires going { feed.old.failed ≡ false }
    requires begun { feed.old.begun ≡ true }
    requires still { feed.old.ended ≡ false }
    requires ready { IsFoldReady folding.old }
    requires output { IsTrue (K.ready output.old) }
    requires list { IsTrue (L.ready list.old) }
    ensures told { IfOk result (λ some. Leads (IsBefore feed.old folding.old)
        (IsBehind some feed.new folding.new) (change S.left S.faults input.old input.new)
        (change K.held K.faults output.old output.new)
        (change L.held L.faults list.old list.new)) }
    ensures going { OnOk result (feed.new.failed ≡ false) }
    ensures onward { IfOk result (λ some. some ≡ true → feed.old.place < feed.new.place) }
    ensures most { OnOk result (feed.new.place ≤ 2 ^ 36) }
    ensures ready { OnOk result (IsFoldReady folding.new) }
    ensures none { OnOk result (folding.new.mender.out.items ≡ []) }
    ensures stops { IfErr result (Stops (IsBefore feed.old folding.old)
        (change S.left S.faults input.old input.new)
        (change K.held K.faults output.old output.new)
        (change L.held L.faults list.old list.new)) }
    ensures output { SinkStays K.ready K.name K.faults output.old output.new }
    ensures list { SinkStays L.ready L.name L.faults list.old list.new }
    ensures input { S.faults input.old ≤ S.faults input.new }
{
    let some = pieces(alloc, feed, folding, input, output, list)?;
    end(alloc, folding, output, list)?;
    Ok(some)
}
