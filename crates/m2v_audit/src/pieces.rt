//! The pieces of a text: each is read, audited, and what it tells is written.
ghost use Rattle.std.specs.Prelude.{◌≡◌, ◌+◌, ◌≤◌, ◌^◌, IsTrue, IfOk, IfErr, OnOk, None, true, false};
ghost use Rattle.m2v_port.specs.Ends.{change, SinkStays};
ghost use Rattle.m2v_port.specs.Port.{Grows};
ghost use Rattle.m2v_model.specs.ByPieces.{at_start};
ghost use Rattle.m2v_dec_piece.specs.Sound.{IsSoundPiece};
ghost use Rattle.m2v_strict.specs.m2v_check.m2v_decode.Decoding.{Decoding};
ghost use Rattle.m2v_strict.specs.m2v_check.m2v_decode.Progress.{Cuts};
ghost use Rattle.m2v_strict.specs.m2v_check.m2v_decode.Reading.{nothing_read, Follows};
ghost use Rattle.m2v_audit.specs.Auditing.{cleared, is_begun};
ghost use Rattle.m2v_audit.specs.Feeding.{cutting_of, IsFed};
ghost use Rattle.m2v_audit.specs.Leading.{PieceTold, PieceFails, AreTold, IsTextRead, pieces_from, TextStops};

use crate::auditor::Auditor;
use crate::feed::Feed;
use m2v_port::{PortError, Sink, Source};
use m2v_strict::check::decode::{DecodeError, Piece, Reader};
use std::alloc::Global;

/// Writes bytes.
pub(crate) fn put<K: Sink>(bytes: &[u8], output: &mut K) -> Result<(), DecodeError>
    requires output { IsTrue (K.ready output.old) }
    ensures grown { OnOk result (Grows (K.held output.old) bytes.now (K.held output.new)) }
    ensures err { IfErr result (Cuts bytes.now (change K.held K.faults output.old output.new)) }
    ensures output { SinkStays K.ready K.name K.faults output.old output.new }
{
    match output.put(bytes) {
        Ok(()) => Ok(()),
        Err(PortError::Failed) => Err(DecodeError::Write),
        Err(PortError::Memory) => Err(DecodeError::Memory),
    }
}

/// Writes what an auditor has told, and takes it away.
fn put_told<K: Sink>(auditor: &mut Auditor, output: &mut K) -> Result<(), DecodeError>
    requires output { IsTrue (K.ready output.old) }
    ensures grown { OnOk result
        (Grows (K.held output.old) auditor.old.report.text (K.held output.new)) }
    ensures auditor { OnOk result (auditor.new ≡ cleared auditor.old) }
    ensures err { IfErr result (Cuts auditor.old.report.text
        (change K.held K.faults output.old output.new)) }
    ensures output { SinkStays K.ready K.name K.faults output.old output.new }
{
    put(auditor.bytes(), output)?;
    auditor.clear();
    Ok(())
}

/// Reads and audits a piece, and writes what it tells.
fn tell_piece<K: Sink>(
    alloc: Global,
    piece: &Piece,
    reader: &mut Reader,
    auditor: &mut Auditor,
    output: &mut K,
) -> Result<(), DecodeError>
    requires piece { IsSoundPiece piece.now }
    requires going { reader.old.failed ≡ false }
    requires before { reader.old.ended ≡ false }
    requires counted { reader.old.pictures + piece.now.length ≤ 2 ^ 60 }
    requires shut { reader.old.state.picture ≡ None }
    requires bytes { auditor.old.bytes + piece.now.length ≤ 2 ^ 36 }
    requires output { IsTrue (K.ready output.old) }
    ensures ok { OnOk result (PieceTold reader.old auditor.old piece.now
        (change K.held K.faults output.old output.new) reader.new auditor.new) }
    ensures err { IfErr result (λ e. (d : Decoding) → Follows reader.old d
        → PieceFails d auditor.old piece.now
        (change K.held K.faults output.old output.new) auditor.new e) }
    ensures output { SinkStays K.ready K.name K.faults output.old output.new }
{
    let notes = reader.piece(alloc, piece)?;
    auditor.piece(alloc, piece, &notes)?;
    put_told(auditor, output)
}

/// Reads and audits the pieces of a text, and writes what each tells. `later`: the text needs no sequence. Answers
/// whether it needs none and has none. A piece with a fault with which another sequence begins comes once more.
fn tell_pieces<S: Source, K: Sink>(
    alloc: Global,
    later: bool,
    feed: &mut Feed,
    reader: &mut Reader,
    auditor: &mut Auditor,
    input: &mut S,
    output: &mut K,
) -> Result<bool, DecodeError>
    requires going { (cutting_of feed.old).failed ≡ false }
    requires waits { IsFed feed.old (S.left input.old) }
    requires reader { reader.old ≡ nothing_read }
    requires bytes { auditor.old.bytes ≤ (cutting_of feed.old).place }
    requires none { is_begun auditor.old ≡ false }
    requires output { IsTrue (K.ready output.old) }
    ensures ok { IfOk result (λ optional. AreTold
        (change S.left S.faults input.old input.new)
        (change K.held K.faults output.old output.new) later auditor.old (cutting_of feed.old)
        optional auditor.new reader.new (cutting_of feed.new)) }
    ensures going { OnOk result ((cutting_of feed.new).failed ≡ false) }
    ensures again { OnOk result (feed.new.again ≡ None) }
    ensures most { OnOk result ((cutting_of feed.new).place ≤ 2 ^ 36) }
    ensures err { IfErr result (TextStops
        (change S.left S.faults input.old input.new)
        (change K.held K.faults output.old output.new)
        (pieces_from later auditor.old at_start (cutting_of feed.old)) later (cutting_of feed.old)
        auditor.new (cutting_of feed.new)) }
    ensures waits { IsFed feed.new (S.left input.new) }
    ensures output { SinkStays K.ready K.name K.faults output.old output.new }
    ensures input { S.faults input.old ≤ S.faults input.new }
{
    let mut optional = later;
    loop {
        match feed.next_piece(alloc, input) {
            Err(e) => return Err(e),
            Ok(None) => return Ok(optional),
            Ok(Some(piece)) => match tell_piece(alloc, &piece, reader, auditor, output) {
                Err(e) => {
                    feed.refused(auditor.is_begun(), e, piece);
                    return Err(e);
                }
                Ok(()) => optional = false,
            },
        }
    }
}

/// Reads a text to its end, and writes what each of its pieces tells. `later`: the text needs no sequence. Answers
/// whether it needs none and has none.
pub(crate) fn read_text<S: Source, K: Sink>(
    alloc: Global,
    later: bool,
    feed: &mut Feed,
    auditor: &mut Auditor,
    input: &mut S,
    output: &mut K,
) -> Result<bool, DecodeError>
    requires going { (cutting_of feed.old).failed ≡ false }
    requires waits { IsFed feed.old (S.left input.old) }
    requires bytes { auditor.old.bytes ≤ (cutting_of feed.old).place }
    requires none { is_begun auditor.old ≡ false }
    requires output { IsTrue (K.ready output.old) }
    ensures ok { IfOk result (λ optional. IsTextRead
        (change S.left S.faults input.old input.new)
        (change K.held K.faults output.old output.new) later auditor.old (cutting_of feed.old)
        optional auditor.new (cutting_of feed.new)) }
    ensures going { OnOk result ((cutting_of feed.new).failed ≡ false) }
    ensures again { OnOk result (feed.new.again ≡ None) }
    ensures err { IfErr result (TextStops
        (change S.left S.faults input.old input.new)
        (change K.held K.faults output.old output.new)
        (pieces_from later auditor.old at_start (cutting_of feed.old)) later (cutting_of feed.old)
        auditor.new (cutting_of feed.new)) }
    ensures waits { IsFed feed.new (S.left input.new) }
    ensures output { SinkStays K.ready K.name K.faults output.old output.new }
    ensures input { S.faults input.old ≤ S.faults input.new }
{
    let mut reader = Reader::new(alloc);
    let optional = tell_pieces(alloc, later, feed, &mut reader, auditor, input, output)?;
    if optional {
        return Ok(true);
    }
    match reader.end(feed.place()) {
        Ok(()) => Ok(false),
        Err(f) => Err(DecodeError::Stream(f)),
    }
}
