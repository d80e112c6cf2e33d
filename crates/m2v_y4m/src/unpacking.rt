ghost use Rattle.std.specs.Prelude.{ℕ, ◌≡◌, ◌⊎◌, ◌+◌, ◌<◌, ◌≤◌, [], ◌∷◌, true, false, length, take, IfOk, IfErr, OnOk, OnErr, IsErrOf, IsTrue, is_some, None, Ok};
ghost use Rattle.m2v_port.specs.Ends.{change, SinkStays, Tells};
ghost use Rattle.m2v_port.specs.Port.{Rose, IsAtEnd};
ghost use Rattle.m2v_y4m.specs.Frames.{size_of};
ghost use Rattle.m2v_y4m.specs.Sources.{comes_of, spot, ReadOn};
ghost use Rattle.m2v_y4m.specs.Reading.{GaveFewer, ReadFewer, IsOver, FrameGiven, NoFrame, FrameStops, ReadStops};
ghost use Rattle.m2v_y4m.specs.Giving.{AllGiven, GivingStops};
ghost use Rattle.m2v_y4m.specs.Answers.{IsAnswered, Unpacked, UnpackStops};

use crate::answer::{PackSummary, UnpackError, Y4mError};
use crate::packing::MOST;
use crate::reader::Reader;
use m2v_port::{PortError, Sink, Source};
use std::alloc::Global;

/// Writes the raw frames of a YUV4MPEG2 text, up to 999,999 of them.
///
/// Each frame is read whole and written before the next one is read; memory is that of one frame, whatever their number.
/// A text without frames writes nothing.
pub fn unpack<S: Source, K: Sink>(
    alloc: Global,
    input: &mut S,
    output: &mut K,
) -> Result<PackSummary, UnpackError>
    requires output { IsTrue (K.ready output.old) }
    // The text was read to its end, and all its frames were written.
    ensures ok { IfOk result (Unpacked
        (change S.left S.faults input.old input.new)
        (change K.held K.faults output.old output.new)) }
    // When each error comes, and what stands then.
    ensures err { IfErr result (UnpackStops
        (change S.left S.faults input.old input.new)
        (change K.held K.faults output.old output.new)) }
    // What is answered to a text that is told: nothing else may come but want of memory and counts that rose.
    ensures told { Tells (change S.left S.faults input.old input.new) (IsAnswered
        (change S.left S.faults input.old input.new)
        (change K.held K.faults output.old output.new) result) }
    ensures output { SinkStays K.ready K.name K.faults output.old output.new }
    ensures input { S.faults input.old ≤ S.faults input.new }
{
    unpack_text(alloc, input, output)
}

/// The same, by what each answer means alone.
fn unpack_text<S: Source, K: Sink>(
    alloc: Global,
    input: &mut S,
    output: &mut K,
) -> Result<PackSummary, UnpackError>
    requires output { IsTrue (K.ready output.old) }
    // The text was read to its end, and all its frames were written.
    ensures ok { IfOk result (Unpacked
        (change S.left S.faults input.old input.new)
        (change K.held K.faults output.old output.new)) }
    // When each error comes, and what stands then.
    ensures err { IfErr result (UnpackStops
        (change S.left S.faults input.old input.new)
        (change K.held K.faults output.old output.new)) }
    ensures output { SinkStays K.ready K.name K.faults output.old output.new }
    ensures input { S.faults input.old ≤ S.faults input.new }
{
    let mut reader = match Reader::open(alloc, input) {
        Ok(reader) => reader,
        Err(Y4mError::Read) => return Err(UnpackError::Read),
        Err(Y4mError::Y4m(fault)) => return Err(UnpackError::Y4m(fault)),
        Err(Y4mError::Memory) => return Err(UnpackError::Memory),
    };
    let size = reader.size();
    let Ok(mut frame) = vec![in alloc; 0u8; size] else {
        return Err(UnpackError::Memory);
    };
    let answer = unpack_frames(&mut reader, &mut frame, input, output);
    // it tells contracts how much is read ahead at most
    let _ahead = reader.ahead();
    let frames = answer?;
    Ok(PackSummary {
        frames,
        bytes: frames * size as u64,
    })
}

/// Writes the raw frames of the text behind its header line, and answers how many they are.
fn unpack_frames<S: Source, K: Sink>(
    reader: &mut Reader,
    frame: &mut [u8],
    input: &mut S,
    output: &mut K,
) -> Result<u64, UnpackError>
    requires frame { length frame.old ≡ size_of reader.old.header }
    requires some { 1 ≤ length frame.old }
    requires unbroken { reader.old.fault ≡ None }
    requires output { IsTrue (K.ready output.old) }
    ensures ok { IfOk result (λ n. AllGiven reader.old.header n
        (spot reader.old (S.left input.old)) (spot reader.new (S.left input.new))
        (change S.left S.faults input.old input.new)
        (change K.held K.faults output.old output.new)) }
    ensures most { IfOk result (λ n. n ≤ 999999) }
    ensures err { IfErr result (GivingStops reader.old.header
        (spot reader.old (S.left input.old)) (spot reader.new (S.left input.new))
        (change S.left S.faults input.old input.new)
        (change K.held K.faults output.old output.new)) }
    ensures same { length frame.new ≡ length frame.old }
    ensures output { SinkStays K.ready K.name K.faults output.old output.new }
    ensures input { S.faults input.old ≤ S.faults input.new }
{
    let _size = reader.size();
    for number in 0..MOST {
        if !next(reader, frame, input, output)? {
            return Ok(number);
        }
    }
    if goes_on(reader, input)? {
        return Err(UnpackError::TooManyFrames);
    }
    Ok(MOST)
}

/// Whether a raw byte is left; it is read.
fn goes_on<S: Source>(reader: &mut Reader, input: &mut S) -> Result<bool, UnpackError>
    requires unbroken { reader.old.fault ≡ None }
    ensures more { result ≡ Ok true → (byte : ℕ)
        × ReadOn (spot reader.old (S.left input.old)) (byte ∷ [])
        (spot reader.new (S.left input.new)) }
    ensures none { result ≡ Ok false → ReadOn (spot reader.old (S.left input.old)) []
        (spot reader.new (S.left input.new)) }
    ensures over { result ≡ Ok false → IsOver (comes_of reader.new (S.left input.new)) }
    ensures end { result ≡ Ok false → IsAtEnd (S.left input.new) }
    ensures err { IfErr result (ReadStops 1 (change S.left S.faults input.old input.new)
        (spot reader.old (S.left input.old)) (spot reader.new (S.left input.new))) }
    ensures header { reader.new.header ≡ reader.old.header }
    ensures input { S.faults input.old ≤ S.faults input.new }
{
    let mut byte = [0u8];
    Ok(read_frame(reader, &mut byte, input)? > 0)
}

/// Reads the next frame and writes it. Answers whether there is one.
fn next<S: Source, K: Sink>(
    reader: &mut Reader,
    frame: &mut [u8],
    input: &mut S,
    output: &mut K,
) -> Result<bool, UnpackError>
    requires frame { length frame.old ≡ size_of reader.old.header }
    requires some { 1 ≤ length frame.old }
    requires unbroken { reader.old.fault ≡ None }
    requires output { IsTrue (K.ready output.old) }
    ensures given { result ≡ Ok true → FrameGiven (size_of reader.old.header)
        (spot reader.old (S.left input.old)) (spot reader.new (S.left input.new))
        (change K.held K.faults output.old output.new) }
    ensures none { result ≡ Ok false → NoFrame
        (spot reader.old (S.left input.old)) (spot reader.new (S.left input.new))
        (change K.held K.faults output.old output.new) }
    ensures end { result ≡ Ok false → IsAtEnd (S.left input.new) }
    ensures err { IfErr result (FrameStops (size_of reader.old.header)
        (change S.left S.faults input.old input.new)
        (spot reader.old (S.left input.old)) (spot reader.new (S.left input.new))
        (change K.held K.faults output.old output.new)) }
    ensures unbroken { OnOk result (reader.new.fault ≡ None) }
    ensures same { length frame.new ≡ length frame.old }
    ensures header { reader.new.header ≡ reader.old.header }
    ensures output { SinkStays K.ready K.name K.faults output.old output.new }
    ensures input { S.faults input.old ≤ S.faults input.new }
{
    let read = read_frame(reader, frame, input)?;
    if read == 0 {
        return Ok(false);
    }
    if read < frame.len() {
        return Err(UnpackError::ShortFrame { extra: read as u64 });
    }
    match output.put(frame) {
        Ok(()) => Ok(true),
        Err(PortError::Failed) => Err(UnpackError::Write),
        Err(PortError::Memory) => Err(UnpackError::Memory),
    }
}

/// Reads bytes of the next frame until they are all there or the text ends, and says how many there are.
fn read_frame<S: Source>(
    reader: &mut Reader,
    frame: &mut [u8],
    input: &mut S,
) -> Result<usize, UnpackError>
    requires unbroken { reader.old.fault ≡ None }
    ensures within { IfOk result (λ n. n ≤ length frame.old) }
    ensures read { IfOk result (λ n. ReadOn (spot reader.old (S.left input.old))
        (take n frame.new) (spot reader.new (S.left input.new))) }
    ensures end { IfOk result (λ n. n < length frame.old → IsAtEnd (S.left input.new)) }
    ensures over { IfOk result (λ n. n < length frame.old
        → IsOver (comes_of reader.new (S.left input.new))) }
    ensures unbroken { OnOk result (reader.new.fault ≡ None) }
    ensures err { IfErr result (ReadStops (length frame.old)
        (change S.left S.faults input.old input.new)
        (spot reader.old (S.left input.old)) (spot reader.new (S.left input.new))) }
    ensures same { length frame.new ≡ length frame.old }
    ensures header { reader.new.header ≡ reader.old.header }
    ensures input { S.faults input.old ≤ S.faults input.new }
{
    match read_whole(reader, frame, input) {
        Ok(read) => Ok(read),
        Err(error) => match reader.fault() {
            Some(fault) => Err(UnpackError::Y4m(fault)),
            None => match error {
                PortError::Failed => Err(UnpackError::Read),
                PortError::Memory => Err(UnpackError::Memory),
            },
        },
    }
}

/// Reads raw bytes until the buffer is full or the text ends, and answers how many it has then.
fn read_whole<S: Source>(
    reader: &mut Reader,
    buf: &mut [u8],
    input: &mut S,
) -> Result<usize, PortError>
    requires unbroken { reader.old.fault ≡ None }
    ensures within { IfOk result (λ n. n ≤ length buf.old) }
    ensures read { IfOk result (λ n. ReadOn (spot reader.old (S.left input.old)) (take n buf.new)
        (spot reader.new (S.left input.new))) }
    ensures end { IfOk result (λ n. n < length buf.old → IsAtEnd (S.left input.new)) }
    ensures over { IfOk result (λ n. n < length buf.old
        → IsOver (comes_of reader.new (S.left input.new))) }
    ensures unbroken { OnOk result (reader.new.fault ≡ None) }
    ensures err { OnErr result (reader.new.fault ≡ None → ReadFewer
        (spot reader.old (S.left input.old)) (length buf.old)
        (spot reader.new (S.left input.new))) }
    // Where the text broke, of the text that is there.
    ensures broke { OnErr result (GaveFewer (comes_of reader.old (S.left input.old)) (length buf.old)
        (comes_of reader.new (S.left input.new))) }
    ensures failed { IsErrOf result PortError.Failed
        → Rose (S.faults input.old) (S.faults input.new) ⊎ IsTrue (is_some reader.new.fault) }
    ensures same { length buf.new ≡ length buf.old }
    ensures header { reader.new.header ≡ reader.old.header }
    ensures input { S.faults input.old ≤ S.faults input.new }
{
    let mut filled = 0;
    while filled < buf.len() {
        let n = reader.read(input, &mut buf[filled..])?;
        if n == 0 {
            break;
        }
        filled += n;
    }
    Ok(filled)
}
