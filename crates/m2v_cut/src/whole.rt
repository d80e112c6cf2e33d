ghost use Rattle.std.specs.Prelude.{◌≡◌, ℕ, ◌+◌, ◌^◌, ◌≤◌, ◌<◌, true, false, length, IsTrue, IfOk, IfErr};
ghost use Rattle.m2v_port.specs.Ends.{change, Tells, SinkStays};
ghost use Rattle.m2v_decode.specs.Answers.{OfText};
ghost use Rattle.m2v_decode.specs.m2v_dec_piece.Sound.{IsSoundPiece};
ghost use Rattle.m2v_decode.specs.Decoding.{whole_of};
ghost use Rattle.m2v_law_group.specs.Chosen.{CutDecodes};
ghost use Rattle.m2v_cut.specs.Answers.{IsCutOut, Fails, Gives, answer_to, groups_of};
ghost use Rattle.m2v_cut.specs.Progress.{IsFound};

use crate::answer::{CutError, CutSummary};
use crate::behind::put_behind;
use crate::copy::Copied;
use crate::find::{Found, find};
use crate::put::put_first;
use crate::second::second_piece;
use crate::start::{cuttable, start_in};
use m2v_dec_piece::put;
use m2v_decode::Cutter;
use m2v_port::{Sink, Source};
use std::alloc::Global;

/// The sequence end code.
const END_CODE: [u8; 4] = [0x00, 0x00, 0x01, 0xB7];

/// Cuts groups out from one on that was found.
fn cut_from<S: Source, K: Sink>(
    alloc: Global,
    found: Found,
    count: u32,
    cutter: &mut Cutter,
    input: &mut S,
    output: &mut K,
) -> Result<CutSummary, CutError>
    requires count { 1 ≤ count }
    requires piece { IsSoundPiece found.piece }
    requires here { found.number < groups_of (whole_of found.piece) }
    requires place { found.piece.place + length (whole_of found.piece) ≤ cutter.old.place }
    requires going { cutter.old.failed ≡ false }
    requires begun { cutter.old.begun ≡ true }
    requires low { cutter.old.place ≤ 2 ^ 36 }
    requires output { IsTrue (K.ready output.old) }
    // Whatever was read up to the group.
    ensures ok { (from : ℕ) (first : S)
        → IsFound from (change S.left S.faults first input.old) cutter.old found
        → IfOk result (λ s. OfText
        (change S.left S.faults first input.new) (λ text. IsCutOut text from count
        (change K.held K.faults output.old output.new) s)) }
    ensures err { (from : ℕ) (first : S) → S.faults first ≤ S.faults input.old
        → IsFound from (change S.left S.faults first input.old) cutter.old found
        → IfErr result (Fails from count
        (change S.left S.faults first input.new)
        (change K.held K.faults output.old output.new)) }
    ensures output { SinkStays K.ready K.name K.faults output.old output.new }
    ensures input { S.faults input.old ≤ S.faults input.new }
{
    let start = start_in(&found.piece, found.number);
    let second = second_piece(alloc, start.first, cutter, input)?;
    let Some(sequence) = cuttable(start, &second) else {
        return Err(CutError::NotCuttable {
            place: 8 * (found.piece.place + start.header),
        });
    };
    let bytes = put_first(&found.piece, sequence, start.header, found.behind, output)?;
    let mut copied = Copied { groups: 1, bytes };
    put_behind(
        alloc,
        &second,
        u64::from(count),
        cutter,
        &mut copied,
        input,
        output,
    )?;
    put(&END_CODE, output)?;
    Ok(CutSummary {
        groups: copied.groups,
        bytes: copied.bytes + 4,
    })
}

/// Cuts whole groups out of a stream: so many from group `from` on, which are numbered from 0 by their group headers, or
/// those that are there, behind the last sequence header before them and with an end code behind them. Where a picture
/// stands before them the first group's header tells that its link to it is broken; all other bytes are copied.
///
/// # Errors
/// No such group, with its number and how many there are; a group that needs pictures or headers before it, with the
/// place of its header; both write nothing. Too long or too large, by the input's limits, with what was copied of the
/// pieces before; a failed endpoint and want of memory, with a prefix of the cut.
pub fn cut<S: Source, K: Sink>(
    alloc: Global,
    from: u32,
    count: u32,
    input: &mut S,
    output: &mut K,
) -> Result<CutSummary, CutError>
    requires count { 1 ≤ count }
    requires output { IsTrue (K.ready output.old) }
    ensures ok { IfOk result (λ s. OfText
        (change S.left S.faults input.old input.new) (λ text. IsCutOut text from count
        (change K.held K.faults output.old output.new) s)) }
    ensures err { IfErr result (Fails from count
        (change S.left S.faults input.old input.new)
        (change K.held K.faults output.old output.new)) }
    // Each text has one answer, and nothing else is answered.
    ensures answer { Tells
        (change S.left S.faults input.old input.new) (λ text. Gives
        (change S.left S.faults input.old input.new)
        (change K.held K.faults output.old output.new) (answer_to text from count) result) }
    // What the text of the cut decodes to.
    ensures decodes { Tells
        (change S.left S.faults input.old input.new) (λ text. CutDecodes text from count) }
    ensures output { SinkStays K.ready K.name K.faults output.old output.new }
    ensures input { S.faults input.old ≤ S.faults input.new }
{
    let Ok(mut cutter) = Cutter::new(alloc) else {
        return Err(CutError::Memory);
    };
    let found = find(alloc, from, &mut cutter, input)?;
    cut_from(alloc, found, count, &mut cutter, input, output)
}
