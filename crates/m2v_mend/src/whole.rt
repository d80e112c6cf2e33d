//! The mending of a whole input.
ghost use Rattle.std.specs.Prelude.{◌≡◌, ◌*◌, ◌^◌, ◌≤◌, ◌⊎◌, ℕ, List, Option, [], true, false, IsTrue, IfOk, IfErr, OnOk, OnErr};
ghost use Rattle.m2v_port.specs.Ends.{absent, change, SinkStays};
ghost use Rattle.m2v_port.specs.Port.{Rose};
ghost use Rattle.m2v_decode.specs.Answers.{OfText};
ghost use Rattle.m2v_decode.specs.m2v_dec_piece.Cutting.{Cutting};
ghost use Rattle.m2v_law_seam.specs.Told.{none_kept};
ghost use Rattle.m2v_mend.specs.Answers.{answer_told, IsMended, Fails};
ghost use Rattle.m2v_mend.specs.Making.{fault_first, IsFoldReady};
ghost use Rattle.m2v_mend.specs.Stretching.{FellOut, Held, held_by, IsBefore, IsBehind, Comes, IsCut, Leads, Stops, IsAll, kept_told};

use crate::Memory;
use crate::answer::{Answer, MendError};
use crate::feed::Feed;
use crate::folding::Folding;
use crate::listing::put_lines;
use crate::stretch::stretch;
use crate::sums::sum;
use m2v_dec_piece::put;
use m2v_decode::Fault;
use m2v_model::FaultKind;
use m2v_port::{Nowhere, Sink, Source};
use std::alloc::Global;

/// The answer where a strand has a byte.
fn kept(folding: &Folding) -> Result<Answer, Memory>
    ensures { IfOk result (λ a. answer_told a ≡ kept_told folding.now) }
{
    let bytes = sum(folding.mender.bytes, 4)?;
    let left = folding.mender.left;
    if left == 0 {
        return Ok(Answer::AllKept {
            groups: folding.mender.groups,
            pictures: folding.pictures,
            bytes,
        });
    }
    Ok(Answer::SomeKept {
        groups: folding.mender.groups,
        of_groups: folding.groups,
        pictures: folding.pictures.saturating_sub(left),
        of_pictures: folding.pictures,
        bytes,
    })
}

/// The answer where there is no strand, to an input that ends at a byte.
fn nothing(folding: &Folding, end: u64) -> Answer
    requires { end ≤ 2 ^ 36 }
    ensures { answer_told result
        ≡ none_kept (fault_first (8 * end) folding.now.mender.fault) }
{
    match folding.mender.fault {
        Some(fault) => Answer::NoneKept(fault),
        None => Answer::NoneKept(Fault {
            kind: FaultKind::NoSequence,
            place: 8 * end,
        }),
    }
}

/// Writes the lines of the gaps that are left, and the sequence end code, where there is a strand. Answers what was kept of an input that ends at a byte.
fn finish<K: Sink, L: Sink>(
    alloc: Global,
    folding: &Folding,
    end: u64,
    output: &mut K,
    list: &mut L,
) -> Result<Answer, MendError>
    requires most { end ≤ 2 ^ 36 }
    requires none { folding.now.mender.out.items ≡ [] }
    requires output { IsTrue (K.ready output.old) }
    requires list { IsTrue (L.ready list.old) }
    ensures told { IfOk result (λ a. (c : Cutting) (first left : Option (List ℕ)) (start : Held)
        → c.place ≡ end → Comes (IsBehind false c folding.now) first left start
        (held_by K.held L.held output.old list.old) → IsAll a first left start
        (held_by K.held L.held output.new list.new)) }
    ensures err { OnErr result ((c : Cutting) (first left : Option (List ℕ)) (start : Held)
        → c.place ≡ end → Comes (IsBehind false c folding.now) first left start
        (held_by K.held L.held output.old list.old) → IsCut first left start
        (held_by K.held L.held output.new list.new)) }
    ensures fell { IfErr result (FellOut (Rose (K.faults output.old) (K.faults output.new)
        ⊎ Rose (L.faults list.old) (L.faults list.new))) }
    ensures output { SinkStays K.ready K.name K.faults output.old output.new }
    ensures list { SinkStays L.ready L.name L.faults list.old list.new }
{
    put_lines(alloc, &folding.mender.gaps, list)?;
    if folding.mender.bytes == 0 {
        return Ok(nothing(folding, end));
    }
    let answer = kept(folding)?;
    let code = [0u8, 0, 1, 0xB7];
    put(&code, output)?;
    Ok(answer)
}

/// Reads stretch after stretch, and writes what is kept of each.
fn stretches<S: Source, K: Sink, L: Sink>(
    alloc: Global,
    feed: &mut Feed,
    folding: &mut Folding,
    input: &mut S,
    output: &mut K,
    list: &mut L,
) -> Result<(), MendError>
    requires going { feed.old.failed ≡ false }
    requires begun { feed.old.begun ≡ true }
    requires still { feed.old.ended ≡ false }
    requires ready { IsFoldReady folding.old }
    requires output { IsTrue (K.ready output.old) }
    requires list { IsTrue (L.ready list.old) }
    ensures told { OnOk result (Leads (IsBefore feed.old folding.old)
        (IsBehind false feed.new folding.new) (change S.left S.faults input.old input.new)
        (change K.held K.faults output.old output.new)
        (change L.held L.faults list.old list.new)) }
    ensures none { OnOk result (folding.new.mender.out.items ≡ []) }
    ensures stops { IfErr result (Stops (IsBefore feed.old folding.old)
        (change S.left S.faults input.old input.new)
        (change K.held K.faults output.old output.new)
        (change L.held L.faults list.old list.new)) }
    ensures output { SinkStays K.ready K.name K.faults output.old output.new }
    ensures list { SinkStays L.ready L.name L.faults list.old list.new }
    ensures input { S.faults input.old ≤ S.faults input.new }
{
    loop {
        if !stretch(alloc, feed, folding, input, output, list)? {
            return Ok(());
        }
        feed.go_on();
    }
}

/// Mends an input as [`mend`] does, and writes a line for each gap to a list, in order, as soon as the gap is known whole.
///
/// # Errors
/// Those of [`mend`]; a failed list is a failed output. Of the list a prefix was written then.
pub fn mend_listed<S: Source, K: Sink, L: Sink>(
    alloc: Global,
    input: &mut S,
    output: &mut K,
    list: &mut L,
) -> Result<Answer, MendError>
    requires output { IsTrue (K.ready output.old) }
    requires list { IsTrue (L.ready list.old) }
    ensures ok { IfOk result (λ a. OfText
        (change S.left S.faults input.old input.new) (λ text. IsMended text
        (change K.held K.faults output.old output.new)
        (change L.held L.faults list.old list.new) a)) }
    ensures err { IfErr result (Fails
        (change S.left S.faults input.old input.new)
        (change K.held K.faults output.old output.new)
        (change L.held L.faults list.old list.new)) }
    ensures output { SinkStays K.ready K.name K.faults output.old output.new }
    ensures list { SinkStays L.ready L.name L.faults list.old list.new }
    ensures input { S.faults input.old ≤ S.faults input.new }
{
    let mut feed = Feed::new(alloc)?;
    let mut folding = Folding::new(alloc);
    stretches(alloc, &mut feed, &mut folding, input, output, list)?;
    finish(alloc, &folding, feed.place(), output, list)
}

/// Mends an input: reads it to its end, behind sequence end codes too, and writes the strands that it has, and one sequence
/// end code. Answers what was kept, or why nothing was.
///
/// # Errors
/// A failed input, a failed output, limits that the input passes, and want of memory, with a prefix of the mended text on
/// output.
pub fn mend<S: Source, K: Sink>(
    alloc: Global,
    input: &mut S,
    output: &mut K,
) -> Result<Answer, MendError>
    requires output { IsTrue (K.ready output.old) }
    ensures ok { IfOk result (λ a. OfText
        (change S.left S.faults input.old input.new) (λ text. IsMended text
        (change K.held K.faults output.old output.new) absent a)) }
    ensures err { IfErr result (Fails
        (change S.left S.faults input.old input.new)
        (change K.held K.faults output.old output.new) absent) }
    ensures output { SinkStays K.ready K.name K.faults output.old output.new }
    ensures input { S.faults input.old ≤ S.faults input.new }
{
    let mut list = Nowhere;
    mend_listed(alloc, input, output, &mut list)
}
