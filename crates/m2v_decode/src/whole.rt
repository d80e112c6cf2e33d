ghost use Rattle.std.specs.Prelude.{◌≡◌, ◌≤◌, ◌<◌, ◌^◌, IsTrue, IfOk, IfErr, IfSome, OnOk, false};
ghost use Rattle.m2v_port.specs.Ends.{change, Tells, SinkStays};
ghost use Rattle.m2v_decode.specs.Decoding.{at_start};
ghost use Rattle.m2v_decode.specs.Answers.{OfText, IsDecoded, HasDecoded, Fails};
ghost use Rattle.m2v_decode.specs.Complete.{IsAnswered};
ghost use Rattle.m2v_decode.specs.Progress.{before_all, IsDone, Ends, EndFails};

use crate::Decoder;
use crate::answer::Decoded;
use crate::frames::put_due;
use m2v_dec_piece::{Cutter, DecodeError};
use m2v_port::{Sink, Source};
use std::alloc::Global;

/// Reads piece after piece, and writes the frames that are due behind each.
fn read_pieces<S: Source, K: Sink>(
    alloc: Global,
    cutter: &mut Cutter,
    decoder: &mut Decoder,
    raw: &mut Vec<u8>,
    input: &mut S,
    output: &mut K,
) -> Result<(), DecodeError>
    requires cutter { cutter.old ≡ before_all }
    requires decoder { decoder.old ≡ at_start }
    requires output { IsTrue (K.ready output.old) }
    ensures ok { OnOk result (IsDone
        (change S.left S.faults input.old input.new)
        (change K.held K.faults output.old output.new) cutter.new decoder.new) }
    ensures most { OnOk result (cutter.new.place ≤ 2 ^ 36) }
    ensures err { IfErr result (Fails
        (change S.left S.faults input.old input.new)
        (change K.held K.faults output.old output.new)) }
    ensures output { SinkStays K.ready K.name K.faults output.old output.new }
    ensures input { S.faults input.old ≤ S.faults input.new }
{
    loop {
        match cutter.next_piece(alloc, input) {
            Err(e) => return Err(e),
            Ok(None) => return Ok(()),
            Ok(Some(piece)) => {
                decoder.piece(alloc, &piece)?;
                put_due(alloc, decoder, raw, output)?;
            }
        }
    }
}

/// Ends the stream, and writes the frames that are due then.
pub fn finish<K: Sink>(
    alloc: Global,
    end: u64,
    decoder: &mut Decoder,
    raw: &mut Vec<u8>,
    output: &mut K,
) -> Result<Decoded, DecodeError>
    requires going { decoder.old.failed ≡ false }
    requires before { decoder.old.ended ≡ false }
    requires end { end ≤ 2 ^ 36 }
    requires output { IsTrue (K.ready output.old) }
    ensures ok { IfOk result (λ d. Ends decoder.old end d
        (change K.held K.faults output.old output.new)) }
    ensures err { IfErr result (EndFails decoder.old end
        (change K.held K.faults output.old output.new)) }
    ensures output { SinkStays K.ready K.name K.faults output.old output.new }
{
    match decoder.end(end) {
        Err(f) => return Err(DecodeError::Stream(f)),
        Ok(()) => {}
    }
    put_due(alloc, decoder, raw, output)?;
    Ok(Decoded {
        frames: decoder.shown(),
        pictures: decoder.pictures(),
        dropped: decoder.dropped(),
    })
}

/// Reads piece after piece to the end, and ends the stream there.
fn by_pieces<S: Source, K: Sink>(
    alloc: Global,
    input: &mut S,
    output: &mut K,
) -> Result<Decoded, DecodeError>
    requires output { IsTrue (K.ready output.old) }
    ensures ok { IfOk result (HasDecoded
        (change S.left S.faults input.old input.new)
        (change K.held K.faults output.old output.new)) }
    ensures err { IfErr result (Fails
        (change S.left S.faults input.old input.new)
        (change K.held K.faults output.old output.new)) }
    ensures output { SinkStays K.ready K.name K.faults output.old output.new }
    ensures input { S.faults input.old ≤ S.faults input.new }
{
    let mut cutter = Cutter::new(alloc)?;
    let mut decoder = Decoder::new(alloc)?;
    let mut raw = Vec::new(alloc);
    read_pieces(alloc, &mut cutter, &mut decoder, &mut raw, input, output)?;
    finish(alloc, cutter.end(), &mut decoder, &mut raw, output)
}

/// Decodes a stream: reads it to its end code or to the input's end, and writes the frames that it shows as raw video, in
/// display order, each as it becomes due.
///
/// # Errors
/// The first fault of the stream, with output grown by the frames that were due before the piece that has it; too long
/// or too large, by the input's limits, with output grown likewise; a failed endpoint and want of memory, with a prefix
/// of the frames on output.
pub fn decode<S: Source, K: Sink>(
    alloc: Global,
    input: &mut S,
    output: &mut K,
) -> Result<Decoded, DecodeError>
    requires output { IsTrue (K.ready output.old) }
    ensures ok { IfOk result (λ d. OfText
        (change S.left S.faults input.old input.new) (λ text. IsDecoded text
        (change K.held K.faults output.old output.new) d)) }
    ensures err { IfErr result (Fails
        (change S.left S.faults input.old input.new)
        (change K.held K.faults output.old output.new)) }
    // A text that decodes, that has a first fault or that passes a limit is answered so, and by nothing else.
    ensures answer { Tells
        (change S.left S.faults input.old input.new) (IsAnswered
        (change S.left S.faults input.old input.new)
        (change K.held K.faults output.old output.new) result) }
    ensures output { SinkStays K.ready K.name K.faults output.old output.new }
    ensures input { S.faults input.old ≤ S.faults input.new }
{
    by_pieces(alloc, input, output)
}
