//! The list of what was left out: a line for each gap.
ghost use Rattle.std.specs.Prelude.{◌≡◌, ◌++◌, map, option_map, codes, IsTrue, IfOk, IfErr, OnOk};
ghost use Rattle.m2v_port.specs.Ends.{change, SinkStays};
ghost use Rattle.m2v_port.specs.Port.{Grows};
ghost use Rattle.m2v_dec_piece.specs.Putting.{PutStops};
ghost use Rattle.m2v_mend.specs.Listing.{numbered, why_told, gap_line, lines_of};
ghost use Rattle.m2v_mend.specs.Making.{fault_told, gap_told};

use crate::Memory;
use crate::gap::Gap;
use itoa::Buffer;
use m2v_dec_piece::put;
use m2v_decode::{Fault, fault_word};
use m2v_port::{PortError, Sink};
use std::alloc::Global;

/// Appends a text and a number in decimal.
fn push(line: &mut Vec<u8>, text: &str, number: u64) -> Result<(), Memory>
    ensures { OnOk result (line.new.items ≡ line.old.items ++ numbered text.now number) }
{
    line.extend_from_slice(text.as_bytes())?;
    let mut digits = Buffer::new();
    line.extend_from_slice(digits.format(number).as_bytes())?;
    Ok(())
}

/// Appends why bytes were left out.
#[tactic(auto, unfolding(crate::specs::Listing::why_told))]
fn push_why(line: &mut Vec<u8>, fault: &Option<Fault>) -> Result<(), Memory>
    ensures { OnOk result (line.new.items ≡ line.old.items
        ++ why_told (option_map fault_told fault.now)) }
{
    match fault {
        None => line.extend_from_slice(b" leading")?,
        Some(fault) => {
            line.extend_from_slice(b" stream ")?;
            line.extend_from_slice(fault_word(fault.kind).as_bytes())?;
            push(line, " at bit ", fault.place)?;
        }
    }
    Ok(())
}

/// Appends the line of a gap.
fn push_line(line: &mut Vec<u8>, gap: &Gap) -> Result<(), Memory>
    ensures { OnOk result (line.new.items ≡ line.old.items ++ gap_line (gap_told gap.now)) }
{
    push(line, "frame ", gap.frames)?;
    push(line, " from ", gap.from)?;
    push(line, " bytes ", gap.bytes)?;
    push(line, " pictures ", gap.pictures)?;
    push_why(line, &gap.fault)?;
    line.extend_from_slice(b"\n")?;
    Ok(())
}

/// The lines of gaps.
fn lines(alloc: Global, gaps: &[Gap]) -> Result<Vec<u8>, Memory>
    ensures { IfOk result (λ l. l.items ≡ lines_of (map gap_told gaps.now)) }
{
    let mut lines = Vec::new(alloc);
    for gap in gaps {
        push_line(&mut lines, gap)?;
    }
    Ok(lines)
}

/// Writes the lines of gaps.
pub(crate) fn put_lines<L: Sink>(alloc: Global, gaps: &[Gap], list: &mut L) -> Result<(), PortError>
    requires list { IsTrue (L.ready list.old) }
    ensures grown { OnOk result (Grows (L.held list.old) (lines_of (map gap_told gaps.now))
        (L.held list.new)) }
    ensures err { IfErr result (PutStops (lines_of (map gap_told gaps.now))
        (change L.held L.faults list.old list.new)) }
    ensures list { SinkStays L.ready L.name L.faults list.old list.new }
{
    if gaps.is_empty() {
        return Ok(());
    }
    let lines = lines(alloc, gaps)?;
    put(&lines, list)
}
