ghost use Rattle.std.specs.Prelude.{◌≡◌, ◌<◌, ◌≤◌, ◌^◌, IsTrue, IfOk, IfErr, OnOk, None, is_some};
ghost use Rattle.m2v_port.specs.Ends.{change, Tells, SinkStays};
ghost use Rattle.m2v_decode.specs.Decoding.{at_start};
ghost use Rattle.m2v_decode.specs.Answers.{OfText, IsDecoded, Fails};
ghost use Rattle.m2v_decode.specs.Complete.{IsAnswered};
ghost use Rattle.m2v_decode.specs.Progress.{before_all, IsDone};
ghost use Rattle.m2v_pardec.specs.Put.{CanGoOn, Goes};

use crate::chain::put_chain;
use crate::pieces::put_piece;
use crate::stream::Stream;
use crate::taking::{Before, Stop, take, take_first};
use crate::workers::Workers;
use m2v_board::Gate;
use m2v_dec_batch::FramesThere;
use m2v_dec_batch::dec_picture::FramesAtHand;
use m2v_dec_piece::DecodeError;
use m2v_decode::{Decoded, decode, finish};
use m2v_port::{Sink, Source};
use std::alloc::{AllocError, Global};
use std::sync::Wait;
use std::thread::Threads;

/// The size of a block that is let go at once, so that smaller ones stay with the allocator.
const KEPT_BLOCK: usize = 31 << 20;

/// No frames at hand.
fn no_frames() -> FramesAtHand
    ensures older { result.older ≡ None }
    ensures newer { result.newer ≡ None }
    ensures waiting { result.waiting ≡ None }
{
    FramesAtHand {
        older: None,
        newer: None,
        waiting: None,
    }
}

/// Which frames are there.
fn there_of(frames: &FramesAtHand) -> FramesThere
    ensures older { result.older ≡ is_some frames.now.older }
    ensures newer { result.newer ≡ is_some frames.now.newer }
    ensures first { result.first ≡ is_some frames.now.waiting }
{
    FramesThere {
        older: frames.older.is_some(),
        newer: frames.newer.is_some(),
        first: frames.waiting.is_some(),
    }
}

/// Takes one piece and decodes it as a whole.
fn put_other<S: Source, K: Sink>(
    alloc: Global,
    stream: &mut Stream,
    input: &mut S,
    output: &mut K,
) -> Result<Stop, DecodeError>
    requires can { CanGoOn stream.old }
    requires output { IsTrue (K.ready output.old) }
    ensures goes { Goes (change S.left S.faults input.old input.new)
        (change K.held K.faults output.old output.new) stream.old stream.new result }
    ensures output { SinkStays K.ready K.name K.faults output.old output.new }
    ensures input { S.faults input.old ≤ S.faults input.new }
{
    match stream.cutter.next_piece(alloc, input) {
        Err(e) => Ok(Stop::Error(e)),
        Ok(None) => Ok(Stop::End),
        Ok(Some(piece)) => {
            put_piece(alloc, &mut stream.decoder, &piece, &mut stream.raw, output)?;
            Ok(Stop::More)
        }
    }
}

/// Takes the first piece and decodes it, and those behind it, batch after batch, as long as they are pictures.
fn put_first<R: Threads + Wait + Sync, S: Source, K: Sink, G: Gate + Sync>(
    workers: &Workers<R, G>,
    stream: &mut Stream,
    input: &mut S,
    output: &mut K,
) -> Result<Stop, DecodeError>
    requires start { stream.old.decoder ≡ at_start }
    requires can { CanGoOn stream.old }
    requires output { IsTrue (K.ready output.old) }
    ensures goes { Goes (change S.left S.faults input.old input.new)
        (change K.held K.faults output.old output.new) stream.old stream.new result }
    ensures output { SinkStays K.ready K.name K.faults output.old output.new }
    ensures input { S.faults input.old ≤ S.faults input.new }
{
    match stream.cutter.next_piece(workers.alloc, input) {
        Err(e) => Ok(Stop::Error(e)),
        Ok(None) => Ok(Stop::End),
        Ok(Some(piece)) => match take_first(workers.alloc, piece)? {
            Ok(taken) => put_chain(workers, taken, no_frames(), stream, input, output),
            Err(piece) => {
                put_piece(
                    workers.alloc,
                    &mut stream.decoder,
                    &piece,
                    &mut stream.raw,
                    output,
                )?;
                Ok(Stop::More)
            }
        },
    }
}

/// Takes pieces and decodes them, batch after batch, as long as they are pictures.
fn put_next<R: Threads + Wait + Sync, S: Source, K: Sink, G: Gate + Sync>(
    workers: &Workers<R, G>,
    stream: &mut Stream,
    input: &mut S,
    output: &mut K,
) -> Result<Stop, DecodeError>
    requires can { CanGoOn stream.old }
    requires output { IsTrue (K.ready output.old) }
    ensures goes { Goes (change S.left S.faults input.old input.new)
        (change K.held K.faults output.old output.new) stream.old stream.new result }
    ensures output { SinkStays K.ready K.name K.faults output.old output.new }
    ensures input { S.faults input.old ≤ S.faults input.new }
{
    match stream.decoder.at_hand(workers.alloc)? {
        Some(hand) => {
            let before = Before {
                state: hand.state,
                dims: hand.dims,
                there: there_of(&hand.frames),
            };
            let taken = take(workers.alloc, before, &mut stream.cutter, input)?;
            put_chain(workers, taken, hand.frames, stream, input, output)
        }
        // behind the first piece this doesn't come
        None => put_other(workers.alloc, stream, input, output),
    }
}

/// Decodes batch after batch, and writes the frames that are due behind each picture.
fn read_batches<R: Threads + Wait + Sync, S: Source, K: Sink, G: Gate + Sync>(
    workers: &Workers<R, G>,
    stream: &mut Stream,
    input: &mut S,
    output: &mut K,
) -> Result<(), DecodeError>
    requires cutter { stream.old.cutter ≡ before_all }
    requires decoder { stream.old.decoder ≡ at_start }
    requires output { IsTrue (K.ready output.old) }
    ensures ok { OnOk result (IsDone
        (change S.left S.faults input.old input.new)
        (change K.held K.faults output.old output.new) stream.new.cutter stream.new.decoder) }
    ensures most { OnOk result (stream.new.cutter.place ≤ 2 ^ 36) }
    ensures err { IfErr result (Fails
        (change S.left S.faults input.old input.new)
        (change K.held K.faults output.old output.new)) }
    ensures output { SinkStays K.ready K.name K.faults output.old output.new }
    ensures input { S.faults input.old ≤ S.faults input.new }
{
    let mut stop = put_first(workers, stream, input, output)?;
    loop {
        match stop {
            Stop::More => {}
            Stop::End => return Ok(()),
            Stop::Error(e) => return Err(e),
        }
        stop = put_next(workers, stream, input, output)?;
    }
}

/// Has the allocator keep what a batch lets go for the next one. A block of many pages goes back to the system at once, and
/// comes anew page by page, which takes as long as decoding into it; glibc counts as such a block only what is larger than the
/// largest one that was let go, up to 32 MiB.
fn keep_memory(alloc: Global) {
    let block: Result<Vec<u8>, AllocError> = Vec::with_capacity(alloc, KEPT_BLOCK);
    drop(block);
}

/// Reads batch after batch to the end, and ends the stream there.
fn by_batches<R: Threads + Wait + Sync, S: Source, K: Sink, G: Gate + Sync>(
    workers: &Workers<R, G>,
    input: &mut S,
    output: &mut K,
) -> Result<Decoded, DecodeError>
    requires output { IsTrue (K.ready output.old) }
    ensures ok { IfOk result (λ d. OfText
        (change S.left S.faults input.old input.new) (λ text. IsDecoded text
        (change K.held K.faults output.old output.new) d)) }
    ensures err { IfErr result (Fails
        (change S.left S.faults input.old input.new)
        (change K.held K.faults output.old output.new)) }
    ensures output { SinkStays K.ready K.name K.faults output.old output.new }
    ensures input { S.faults input.old ≤ S.faults input.new }
{
    keep_memory(workers.alloc);
    let mut stream = Stream::new(workers.alloc)?;
    read_batches(workers, &mut stream, input, output)?;
    finish(
        workers.alloc,
        stream.cutter.end(),
        &mut stream.decoder,
        &mut stream.raw,
        output,
    )
}

/// Decodes a stream by 1 to 16 workers: what it answers, reads and writes is what `decode` of `m2v_decode` does, for every
/// number of workers and whatever the gate does.
///
/// By more than one, pictures are taken ahead, up to 16 at a time. Their macroblock rows are the jobs of the workers: a row
/// waits for the rows of the pictures that its own is predicted from. Meanwhile this thread takes in the pictures before
/// them, writes the frames that are due, and takes the next pictures. Pictures are decoded as a whole, one after another,
/// where a row of them has a fault; so are one that is dropped, and a piece whose headers have a fault.
///
/// # Errors
/// Those of `decode`.
pub fn decode_with<R: Threads + Wait + Sync, S: Source, K: Sink, G: Gate + Sync>(
    rt: &R,
    alloc: Global,
    workers: u32,
    input: &mut S,
    output: &mut K,
    gate: &G,
) -> Result<Decoded, DecodeError>
    requires workers { (0 < workers) × (workers ≤ 16) }
    requires output { IsTrue (K.ready output.old) }
    ensures ok { IfOk result (λ d. OfText
        (change S.left S.faults input.old input.new) (λ text. IsDecoded text
        (change K.held K.faults output.old output.new) d)) }
    ensures err { IfErr result (Fails
        (change S.left S.faults input.old input.new)
        (change K.held K.faults output.old output.new)) }
    // A text that decodes, that has a first fault or that passes a limit is answered so, and by nothing else.
    ensures answer { Tells
        (change S.left S.faults input.old input.new) (IsAnswered
        (change S.left S.faults input.old input.new)
        (change K.held K.faults output.old output.new) result) }
    ensures output { SinkStays K.ready K.name K.faults output.old output.new }
    ensures input { S.faults input.old ≤ S.faults input.new }
{
    // one worker needs no pieces ahead
    if workers == 1 {
        return decode(alloc, input, output);
    }
    let workers = Workers {
        rt,
        alloc,
        count: workers,
        gate,
    };
    by_batches(&workers, input, output)
}
