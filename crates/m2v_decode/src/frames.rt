ghost use Rattle.std.specs.Prelude.{◌≡◌, ◌+◌, ◌*◌, ◌/◌, ◌≤◌, map, IsTrue, IfErr, OnOk, false};
ghost use Rattle.m2v_port.specs.Ends.{change, SinkStays};
ghost use Rattle.m2v_port.specs.Port.{Grows};
ghost use Rattle.m2v_plane.specs.Sizes.{IsSize};
ghost use Rattle.m2v_plane.specs.Raw.{frame_bytes, crop, raw as frames_raw};
ghost use Rattle.m2v_decode.specs.Decoding.{due_of};
ghost use Rattle.m2v_decode.specs.Progress.{Cuts, HasPut};

use crate::Decoder;
use m2v_dec_piece::DecodeError;
use m2v_plane::{Frame, RefView, bytes_of};
use m2v_port::{PortError, Sink};
use std::alloc::Global;

/// The displayed part of a frame, in place of what stood there.
fn crop_to(alloc: Global, frame: &Frame, raw: &mut Vec<u8>) -> Result<(), std::alloc::AllocError>
    ensures { OnOk result (raw.new.items ≡ crop frame.now) }
{
    let bytes = bytes_of(frame.dims());
    if raw.len() != bytes {
        *raw = vec![in alloc; 0; bytes]?;
    }
    frame.crop_into(raw);
    Ok(())
}

/// Writes the displayed part of a frame, by way of a buffer.
fn put_frame<K: Sink>(
    alloc: Global,
    frame: &Frame,
    raw: &mut Vec<u8>,
    output: &mut K,
) -> Result<(), DecodeError>
    requires output { IsTrue (K.ready output.old) }
    ensures grown { OnOk result (Grows (K.held output.old) (crop frame.now) (K.held output.new)) }
    ensures err { IfErr result (Cuts (crop frame.now)
        (change K.held K.faults output.old output.new)) }
    ensures output { SinkStays K.ready K.name K.faults output.old output.new }
{
    crop_to(alloc, frame, raw)?;
    match output.put(raw) {
        Ok(()) => Ok(()),
        Err(PortError::Failed) => Err(DecodeError::Write),
        Err(PortError::Memory) => Err(DecodeError::Memory),
    }
}

/// Writes the frames that are due, by way of a buffer that is made anew where the size changes.
pub fn put_due<K: Sink>(
    alloc: Global,
    decoder: &mut Decoder,
    raw: &mut Vec<u8>,
    output: &mut K,
) -> Result<(), DecodeError>
    requires going { decoder.old.failed ≡ false }
    requires output { IsTrue (K.ready output.old) }
    ensures put { OnOk result (HasPut decoder.old decoder.new) }
    ensures grown { OnOk result
        (Grows (K.held output.old) (frames_raw (map crop (due_of decoder.old)))
        (K.held output.new)) }
    ensures err { IfErr result (Cuts (frames_raw (map crop (due_of decoder.old)))
        (change K.held K.faults output.old output.new)) }
    ensures output { SinkStays K.ready K.name K.faults output.old output.new }
{
    while let Some(due) = decoder.next_due() {
        put_frame(alloc, due.frame(), raw, output)?;
        decoder.take_back(due);
    }
    Ok(())
}
