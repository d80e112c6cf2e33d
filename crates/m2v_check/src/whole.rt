ghost use Rattle.std.specs.Prelude.{◌≡◌, ◌≤◌, ◌<◌, ◌^◌, IfOk, IfErr, OnOk, false, None};
ghost use Rattle.m2v_port.specs.Ends.{change, Tells};
ghost use Rattle.m2v_decode.specs.Answers.{OfText};
ghost use Rattle.m2v_decode.specs.Decoding.{Decoding};
ghost use Rattle.m2v_decode.specs.Reading.{nothing_read, Follows};
ghost use Rattle.m2v_decode.specs.Progress.{before_all};
ghost use Rattle.m2v_check.specs.Running.{no_rules};
ghost use Rattle.m2v_check.specs.Progress.{verdict_of, AreJudged, Ends, EndFails};
ghost use Rattle.m2v_check.specs.Answers.{IsJudged, Fails, IsAnswered};

use crate::verdict::{Figures, Verdict};
use crate::{Judge, Judgement};
use m2v_dec_piece::{Cutter, DecodeError};
use m2v_decode::Reader;
use m2v_port::Source;
use std::alloc::Global;

/// Reads piece after piece, and judges each.
fn read_pieces<S: Source>(
    alloc: Global,
    cutter: &mut Cutter,
    reader: &mut Reader,
    judge: &mut Judge,
    input: &mut S,
) -> Result<(), DecodeError>
    requires cutter { cutter.old ≡ before_all }
    requires reader { reader.old ≡ nothing_read }
    requires rules { judge.old.rules ≡ no_rules }
    requires none { judge.old.buffer ≡ None }
    requires bytes { judge.old.bytes ≡ 0 }
    ensures ok { OnOk result (AreJudged
        (change S.left S.faults input.old input.new) cutter.new reader.new judge.new) }
    ensures most { OnOk result (cutter.new.place ≤ 2 ^ 36) }
    ensures few { OnOk result (judge.new.rules.pictures < 2 ^ 60) }
    ensures err { IfErr result (Fails (change S.left S.faults input.old input.new)) }
    ensures input { S.faults input.old ≤ S.faults input.new }
{
    loop {
        match cutter.next_piece(alloc, input) {
            Err(e) => return Err(e),
            Ok(None) => return Ok(()),
            Ok(Some(piece)) => {
                let notes = reader.piece(alloc, &piece)?;
                judge.piece(alloc, &notes, piece.place, piece.length)?;
            }
        }
    }
}

/// The verdict of a judgement, with what is counted of the stream.
fn verdict(judgement: &Judgement, frames: u64, pictures: u64, bytes: u64) -> Verdict
    ensures value { result ≡ verdict_of judgement.now frames pictures bytes }
{
    let counted = Figures {
        frames,
        pictures,
        bytes,
        low: 0,
        high: 0,
        delays: 0,
    };
    match judgement {
        Judgement::Unlawful(b) => Verdict::Unlawful {
            rule: b.rule,
            picture: b.picture,
            have: b.have,
            need: b.need,
        },
        Judgement::Variable => Verdict::Variable(counted),
        Judgement::Unsafe(fault) => Verdict::Buffer(*fault),
        Judgement::Lawful(f) => Verdict::Lawful(Figures {
            low: f.low,
            high: f.high,
            delays: f.delays,
            ..counted
        }),
    }
}

/// Ends the stream, and judges it.
fn finish(end: u64, reader: &mut Reader, judge: &mut Judge) -> Result<Verdict, DecodeError>
    requires going { reader.old.failed ≡ false }
    requires before { reader.old.ended ≡ false }
    requires end { end ≤ 2 ^ 36 }
    requires few { judge.old.rules.pictures < 2 ^ 60 }
    ensures ok { IfOk result (λ v. (d : Decoding) → Follows reader.old d
        → Ends d end judge.old v) }
    ensures err { IfErr result (λ e. (d : Decoding) → Follows reader.old d
        → EndFails d end e) }
{
    match reader.end(end) {
        Err(f) => return Err(DecodeError::Stream(f)),
        Ok(()) => {}
    }
    let bytes = judge.bytes;
    let judgement = judge.finish()?;
    Ok(verdict(&judgement, reader.frames(), reader.pictures(), bytes))
}

/// Reads piece after piece to the end, and judges the stream there.
fn by_pieces<S: Source>(alloc: Global, input: &mut S) -> Result<Verdict, DecodeError>
    ensures ok { IfOk result (λ v. OfText
        (change S.left S.faults input.old input.new) (λ text. IsJudged text v)) }
    ensures err { IfErr result (Fails (change S.left S.faults input.old input.new)) }
    ensures input { S.faults input.old ≤ S.faults input.new }
{
    let mut cutter = Cutter::new(alloc)?;
    let mut reader = Reader::new(alloc);
    let mut judge = Judge::new();
    read_pieces(alloc, &mut cutter, &mut reader, &mut judge, input)?;
    finish(cutter.end(), &mut reader, &mut judge)
}

/// Checks a stream: reads it to its end code or to the input's end, and says whether it keeps the rules, and whether the
/// buffer bears it.
///
/// # Errors
/// The first fault of the stream; too long or too large, by the input's limits; a failed input; want of memory. Write
/// never comes.
pub fn check<S: Source>(alloc: Global, input: &mut S) -> Result<Verdict, DecodeError>
    ensures ok { IfOk result (λ v. OfText
        (change S.left S.faults input.old input.new) (λ text. IsJudged text v)) }
    ensures err { IfErr result (Fails (change S.left S.faults input.old input.new)) }
    // A text that has a verdict, that has a first fault or that passes a limit is answered so, and by nothing else.
    ensures answer { Tells
        (change S.left S.faults input.old input.new) (IsAnswered
        (change S.left S.faults input.old input.new) result) }
    ensures input { S.faults input.old ≤ S.faults input.new }
{
    by_pieces(alloc, input)
}
