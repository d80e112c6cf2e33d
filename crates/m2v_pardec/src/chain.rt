//! Batch after batch: while the rows of one are decoded, the one before it is taken in, and the next one taken ahead.
ghost use Rattle.std.specs.Prelude.{◌≡◌, ◌<◌, ◌≤◌, ◌^◌, ◌++◌, IsTrue, IfOk, IfErr, OnErr, OnOk, map, length};
ghost use Rattle.m2v_port.specs.Ends.{change, SinkStays};
ghost use Rattle.m2v_port.specs.Port.{Rose};
ghost use Rattle.m2v_dec_batch.specs.m2v_dec_picture.Frames.{store_of};
ghost use Rattle.m2v_pardec.specs.Staff.{IsStaffed};
ghost use Rattle.m2v_dec_batch.specs.Filled.{with_frames, AreThere, HaveDims};
ghost use Rattle.m2v_pardec.specs.Behind.{Tracks};
ghost use Rattle.m2v_dec_batch.specs.m2v_dec_rows.Headers.{IsBetween};
ghost use Rattle.m2v_pardec.specs.Taken.{IsSet, pieces_of, piece_of, ReadOn, CanTakeMore};
ghost use Rattle.m2v_pardec.specs.Put.{StopsBy, AreAllThere, AreNext, WerePut, ComesNext};
ghost use Rattle.m2v_pardec.specs.Chain.{CanPut, PutsOn, TakesOn, AreWaiting, IsUnderWay, WorksOn, GoesFrom, WrongFrom, StopsTaking, WorksNext, StopsUnder};

use crate::pieces::{put_pieces, put_rest};
use crate::put::{Worked, put_rows};
use crate::stream::Stream;
use crate::taking::{Rest, Stop, Taken, take_more};
use crate::workers::{Staffed, Workers};
use m2v_board::Gate;
use m2v_dec_batch::DecodeBook;
use m2v_dec_batch::dec_picture::FramesAtHand;
use m2v_dec_piece::{Cutter, DecodeError};
use m2v_decode::Decoder;
use m2v_port::{Sink, Source};
use m2v_wave::Done;
use std::alloc::{AllocError, Global};
use std::sync::Wait;
use std::thread::Threads;

/// Takes in a batch whose rows are all rebuilt, and takes the pieces behind those that were taken.
fn put_and_take<S: Source, K: Sink>(
    alloc: Global,
    worked: &Worked,
    rest: &mut Rest,
    stream: &mut Stream,
    input: &mut S,
    output: &mut K,
) -> Result<Taken, DecodeError>
    requires can { CanPut worked.now rest.old stream.old }
    requires output { IsTrue (K.ready output.old) }
    ensures puts { PutsOn S.left S.faults input.old input.new
        (change K.held K.faults output.old output.new) worked.now rest.old stream.old stream.new
        result }
    ensures output { SinkStays K.ready K.name K.faults output.old output.new }
{
    put_rows(
        alloc,
        &mut stream.decoder,
        &worked.book,
        &worked.done,
        worked.after.as_slice(),
        &mut stream.raw,
        output,
    )?;
    let taken = take_more(alloc, rest, &mut stream.cutter, input)?;
    Ok(taken)
}

/// Decodes the rows of a batch; beside that takes in the batch before it, and takes the pieces behind it.
fn run_and_put<R: Threads + Wait + Sync, S: Source, K: Sink, G: Gate + Sync>(
    workers: &Workers<R, G>,
    staffed: Staffed,
    worked: &Worked,
    rest: &mut Rest,
    stream: &mut Stream,
    input: &mut S,
    output: &mut K,
) -> (Done<DecodeBook>, Result<Taken, DecodeError>)
    requires staffed { IsStaffed staffed }
    requires can { CanPut worked.now rest.old stream.old }
    requires output { IsTrue (K.ready output.old) }
    ensures rows { result.0 ≡ staffed.entry.book.now }
    ensures puts { PutsOn S.left S.faults input.old input.new
        (change K.held K.faults output.old output.new) worked.now rest.old stream.old stream.new
        result.1 }
    ensures output { SinkStays K.ready K.name K.faults output.old output.new }
{
    workers.work_beside(
        staffed,
        &mut || { put_and_take(workers.alloc, worked, rest, stream, input, output) },
    )
}

/// Decodes the rows of a batch, and takes the pieces behind it beside that.
fn run_and_take<R: Threads + Wait + Sync, S: Source, G: Gate + Sync>(
    workers: &Workers<R, G>,
    staffed: Staffed,
    rest: &mut Rest,
    cutter: &mut Cutter,
    input: &mut S,
) -> (Done<DecodeBook>, Result<Taken, AllocError>)
    requires staffed { IsStaffed staffed }
    requires can { CanTakeMore rest.old cutter.old }
    ensures rows { result.0 ≡ staffed.entry.book.now }
    ensures takes { TakesOn S.left S.faults input.old input.new rest.old cutter.old cutter.new
        result.1 }
{
    workers.work_beside(
        staffed,
        &mut || { take_more(workers.alloc, rest, cutter, input) },
    )
}

/// Decodes the rows of what was taken first, with these frames at hand before it, and takes pieces beside that.
fn work_first<R: Threads + Wait + Sync, S: Source, G: Gate + Sync>(
    workers: &Workers<R, G>,
    taken: Taken,
    frames: FramesAtHand,
    cutter: &mut Cutter,
    input: &mut S,
) -> Result<(Worked, Taken), AllocError>
    requires there { AreThere frames taken.pictures }
    requires sizes { HaveDims taken.pictures.dims frames }
    requires between { IsBetween taken.state }
    requires set { IsSet taken.stop cutter.old }
    requires most { cutter.old.place ≤ 2 ^ 36 }
    ensures ok { IfOk result (λ x. WorksOn taken frames cutter.old (S.left input.old) cutter.new
        (S.left input.new) x.0 x.1) }
    ensures err { OnErr result (StopsTaking taken cutter.old (S.left input.old)
        (S.left input.new)) }
    ensures read { IfOk result (λ x. ReadOn taken.stop x.1.stop (S.faults input.old)
        (S.faults input.new)) }
    ensures input { S.faults input.old ≤ S.faults input.new }
{
    let (book, after, mut rest) = taken.into_book(frames);
    let staffed = workers.staff(&book)?;
    let (done, taken) = run_and_take(workers, staffed, &mut rest, cutter, input);
    Ok((Worked { book, done, after }, taken?))
}

/// Decodes the rows of what was taken behind a batch; beside that takes in the batch, and takes pieces.
fn work_next<R: Threads + Wait + Sync, S: Source, K: Sink, G: Gate + Sync>(
    workers: &Workers<R, G>,
    worked: &Worked,
    next: Taken,
    stream: &mut Stream,
    input: &mut S,
    output: &mut K,
) -> Result<(Worked, Taken), DecodeError>
    requires done { worked.now.done ≡ worked.now.book }
    requires rebuilt { AreAllThere worked.now.book }
    requires under { IsUnderWay worked.now.book worked.now.after.items next stream.old.cutter
        stream.old.decoder }
    requires output { IsTrue (K.ready output.old) }
    ensures ok { IfOk result (λ x. WorksNext worked.now.book next stream.old.cutter (S.left
        input.old) (K.held output.old) stream.old.decoder stream.new.cutter (S.left input.new)
        (K.held output.new) stream.new.decoder x.0 x.1) }
    ensures err { IfErr result (StopsUnder (Rose (K.faults output.old) (K.faults output.new))
        worked.now.book next stream.old.cutter (S.left input.old) (K.held output.old)
        stream.old.decoder (S.left input.new) (K.held output.new)) }
    ensures read { IfOk result (λ x. ReadOn next.stop x.1.stop (S.faults input.old)
        (S.faults input.new)) }
    ensures output { SinkStays K.ready K.name K.faults output.old output.new }
    ensures input { S.faults input.old ≤ S.faults input.new }
{
    let frames = worked.book.frames_behind(workers.alloc, &worked.done)?;
    let (book, after, mut rest) = next.into_book(frames);
    let staffed = workers.staff(&book)?;
    let (done, taken) = run_and_put(workers, staffed, worked, &mut rest, stream, input, output);
    Ok((Worked { book, done, after }, taken?))
}

/// Whether the next rows may be decoded beside the taking in of a batch: all rows of the batch are rebuilt, and pictures
/// were taken behind it.
fn goes_on(worked: &Worked, next: &Taken) -> bool
    requires done { worked.now.done ≡ worked.now.book }
    ensures rebuilt { IsTrue result → AreAllThere worked.now.book }
    ensures some { IsTrue result → 0 < length next.now.pictures.pictures }
{
    next.pictures.len() > 0 && worked.is_rebuilt()
}

/// Takes in a batch: by its rows where all of them are rebuilt, or else its pieces as a whole.
fn put_worked<K: Sink>(
    alloc: Global,
    worked: &Worked,
    decoder: &mut Decoder,
    raw: &mut Vec<u8>,
    output: &mut K,
) -> Result<(), DecodeError>
    requires done { worked.now.done ≡ worked.now.book }
    requires next { AreNext (map piece_of worked.now.book.pictures) decoder.old }
    requires comes { ComesNext worked.now.book worked.now.after.items decoder.old }
    requires output { IsTrue (K.ready output.old) }
    ensures ok { OnOk result (WerePut (map piece_of worked.now.book.pictures) decoder.old (K.held
        output.old) decoder.new (K.held output.new)) }
    ensures err { IfErr result (StopsBy (Rose (K.faults output.old) (K.faults output.new))
        (map piece_of worked.now.book.pictures) decoder.old (K.held output.old)
        (K.held output.new)) }
    ensures output { SinkStays K.ready K.name K.faults output.old output.new }
{
    if worked.is_rebuilt() {
        return put_rows(
            alloc,
            decoder,
            &worked.book,
            &worked.done,
            worked.after.as_slice(),
            raw,
            output,
        );
    }
    put_pieces(alloc, decoder, worked.book.batch(), raw, output)
}

/// Decodes what was taken as a whole.
fn put_taken<K: Sink>(
    alloc: Global,
    taken: &Taken,
    decoder: &mut Decoder,
    raw: &mut Vec<u8>,
    output: &mut K,
) -> Result<(), DecodeError>
    requires next { AreNext (pieces_of taken.now) decoder.old }
    requires output { IsTrue (K.ready output.old) }
    ensures ok { OnOk result (WerePut (pieces_of taken.now) decoder.old (K.held output.old)
        decoder.new (K.held output.new)) }
    ensures err { IfErr result (StopsBy (Rose (K.faults output.old) (K.faults output.new))
        (pieces_of taken.now) decoder.old (K.held output.old) (K.held output.new)) }
    ensures output { SinkStays K.ready K.name K.faults output.old output.new }
{
    put_pieces(alloc, decoder, taken.pictures.pictures(), raw, output)?;
    put_rest(alloc, decoder, &taken.other, raw, output)
}

/// Takes in the last batch, and decodes what was taken behind it as a whole.
fn put_last<K: Sink>(
    alloc: Global,
    worked: &Worked,
    next: &Taken,
    decoder: &mut Decoder,
    raw: &mut Vec<u8>,
    output: &mut K,
) -> Result<(), DecodeError>
    requires done { worked.now.done ≡ worked.now.book }
    requires next { AreNext (map piece_of worked.now.book.pictures ++ pieces_of next.now)
        decoder.old }
    requires comes { ComesNext worked.now.book worked.now.after.items decoder.old }
    requires output { IsTrue (K.ready output.old) }
    ensures ok { OnOk result (WerePut (map piece_of worked.now.book.pictures ++ pieces_of next.now)
        decoder.old (K.held output.old) decoder.new (K.held output.new)) }
    ensures err { IfErr result (StopsBy (Rose (K.faults output.old) (K.faults output.new))
        (map piece_of worked.now.book.pictures ++ pieces_of next.now) decoder.old
        (K.held output.old) (K.held output.new)) }
    ensures output { SinkStays K.ready K.name K.faults output.old output.new }
{
    put_worked(alloc, worked, decoder, raw, output)?;
    put_taken(alloc, next, decoder, raw, output)
}

/// Decodes what was taken, with these frames at hand before it, and what comes behind it, batch after batch, as long as pieces
/// are pictures.
pub fn put_chain<R: Threads + Wait + Sync, S: Source, K: Sink, G: Gate + Sync>(
    workers: &Workers<R, G>,
    taken: Taken,
    frames: FramesAtHand,
    stream: &mut Stream,
    input: &mut S,
    output: &mut K,
) -> Result<Stop, DecodeError>
    requires waiting { AreWaiting taken stream.old.cutter stream.old.decoder }
    requires there { AreThere frames taken.pictures }
    requires sizes { HaveDims taken.pictures.dims frames }
    requires tracks { Tracks (with_frames taken.pictures frames) 0 (store_of
        stream.old.decoder.frames) }
    requires output { IsTrue (K.ready output.old) }
    ensures ok { IfOk result (λ stop. GoesFrom taken stream.old.cutter (S.left input.old) (K.held
        output.old) stream.old.decoder stop stream.new.cutter (S.left input.new) (K.held output.new)
        stream.new.decoder) }
    ensures err { IfErr result (WrongFrom (Rose (K.faults output.old) (K.faults output.new)) taken
        stream.old.cutter (S.left input.old) (K.held output.old) stream.old.decoder (S.left
        input.new) (K.held output.new)) }
    ensures read { IfOk result (λ stop. ReadOn taken.stop stop (S.faults input.old)
        (S.faults input.new)) }
    ensures output { SinkStays K.ready K.name K.faults output.old output.new }
    ensures input { S.faults input.old ≤ S.faults input.new }
{
    let (mut worked, mut next) = work_first(workers, taken, frames, &mut stream.cutter, input)?;
    while goes_on(&worked, &next) {
        (worked, next) = work_next(workers, &worked, next, stream, input, output)?;
    }
    put_last(
        workers.alloc,
        &worked,
        &next,
        &mut stream.decoder,
        &mut stream.raw,
        output,
    )?;
    Ok(next.stop)
}
