ghost use Rattle.std.specs.Prelude.{ℕ, ◌≡◌, ◌+◌, ◌-◌, ◌*◌, ◌<◌, ◌≤◌, [], ◌∷◌, true, false, length, take, drop, IfOk, IfErr, IsTrue, Ok, string_bytes, codes};
ghost use Rattle.m2v_port.specs.Ends.{change, SinkStays};
ghost use Rattle.m2v_port.specs.Port.{Moves, IsAtEnd};
ghost use Rattle.m2v_y4m.specs.Frames.{size_of};
ghost use Rattle.m2v_y4m.specs.Writing.{header_text, scan_text};
ghost use Rattle.m2v_y4m.specs.Rules.{IsHeader};
ghost use Rattle.m2v_y4m.specs.Answers.{Packed, PackStops, PackEnds};
ghost use Rattle.m2v_y4m.specs.Packing.{IsRoom, FramePacked, NoFrame, FrameStops, ReadStops};

use crate::answer::{EncodeFault, PackSummary};
use crate::header::{Y4mHeader, frame_size};
use crate::words::rate_of_code;
use m2v_port::{Memory, PortError, Sink, Source, fill};
use std::alloc::Global;

/// The most frames of raw video.
pub(crate) const MOST: u64 = 999_999;

/// The bytes of a frame's line.
const LINE: usize = 6;

/// Writes the frames of a raw input, up to 999,999 of them, as a YUV4MPEG2 text of this header.
///
/// Each frame is read whole and written with its line before the next one is read; memory is that of one frame, whatever
/// their number. An input without frames gives the header line alone.
pub fn pack<S: Source, K: Sink>(
    alloc: Global,
    header: &Y4mHeader,
    input: &mut S,
    output: &mut K,
) -> Result<PackSummary, EncodeFault>
    requires header { IsHeader header.now }
    requires output { IsTrue (K.ready output.old) }
    // All frames of the input were written.
    ensures ok { IfOk result (Packed header.now
        (change S.left S.faults input.old input.new)
        (change K.held K.faults output.old output.new)) }
    // When each error comes, and what stands then.
    ensures err { IfErr result (PackStops header.now
        (change S.left S.faults input.old input.new)
        (change K.held K.faults output.old output.new)) }
    ensures output { SinkStays K.ready K.name K.faults output.old output.new }
    ensures input { S.faults input.old ≤ S.faults input.new }
{
    let Ok(line) = header_line(alloc, header) else {
        return Err(EncodeFault::Memory);
    };
    let Ok(mut text) = frame_room(alloc, header) else {
        return Err(EncodeFault::Memory);
    };
    pack_all(header, line.as_bytes(), &mut text, input, output)
}

/// Writes the header line, and the frames of a raw input behind their lines.
fn pack_all<S: Source, K: Sink>(
    header: &Y4mHeader,
    line: &[u8],
    text: &mut [u8],
    input: &mut S,
    output: &mut K,
) -> Result<PackSummary, EncodeFault>
    requires header { IsHeader header.now }
    requires line { line.now ≡ header_text header.now }
    requires text { IsRoom header.now text.old }
    requires output { IsTrue (K.ready output.old) }
    ensures ends { PackEnds header.now (change S.left S.faults input.old input.new)
        (change K.held K.faults output.old output.new) result }
    ensures output { SinkStays K.ready K.name K.faults output.old output.new }
    ensures input { S.faults input.old ≤ S.faults input.new }
{
    let _size = frame_size(header);
    match output.put(line) {
        Ok(()) => {}
        Err(PortError::Failed) => return Err(EncodeFault::Write),
        Err(PortError::Memory) => return Err(EncodeFault::Memory),
    }
    for number in 0..MOST {
        if !next(header, text, input, output)? {
            return Ok(summary_of(line, text, number));
        }
    }
    if goes_on(input)? {
        return Err(EncodeFault::TooManyFrames);
    }
    Ok(summary_of(line, text, MOST))
}

/// The numbers of a text of so many frames.
fn summary_of(line: &[u8], text: &[u8], frames: u64) -> PackSummary
    requires text { length text.now ≤ 3317766 }
    requires frames { frames ≤ 999999 }
    ensures value { result
        ≡ record { frames = frames; bytes = length line.now + frames * length text.now } }
{
    PackSummary {
        frames,
        bytes: line.len() as u64 + frames * text.len() as u64,
    }
}

#[tactic(auto, unfolding(crate::specs::Writing::header_text))]
/// The header line of a text.
fn header_line(alloc: Global, header: &Y4mHeader) -> Result<String, Memory>
    requires header { IsHeader header.now }
    ensures value { IfOk result (λ line. string_bytes line ≡ header_text header.now) }
{
    let (frames, seconds) = rate_of_code(header.rate_code);
    let scan = scan_text(header.top);
    format!(in alloc;
        "YUV4MPEG2 W{} H{} F{}:{}{} A0:0 C420mpeg2\n",
        header.width, header.height, frames, seconds, scan
    )
}

/// The parameter of the interlacing.
fn scan_text(top: bool) -> &'static str
    ensures value { result.now ≡ scan_text top }
{
    if top { " It" } else { " Ip" }
}

/// Room for a frame behind its line, which stands there.
fn frame_room(alloc: Global, header: &Y4mHeader) -> Result<Vec<u8>, Memory>
    requires header { IsHeader header.now }
    ensures room { IfOk result (λ text. IsRoom header.now text.items) }
{
    let mut text = vec![in alloc; 0u8; LINE + frame_size(header)]?;
    begin(&mut text);
    Ok(text)
}

/// Writes the line of a frame to the front.
fn begin(text: &mut [u8])
    requires room { 6 ≤ length text.old }
    ensures line { take 6 text.new ≡ codes "FRAME\n" }
    ensures same { length text.new ≡ length text.old }
{
    text[..LINE].copy_from_slice(b"FRAME\n");
}

/// Reads the next frame and writes it behind its line. Answers whether there is one.
fn next<S: Source, K: Sink>(
    header: &Y4mHeader,
    text: &mut [u8],
    input: &mut S,
    output: &mut K,
) -> Result<bool, EncodeFault>
    requires header { IsHeader header.now }
    requires text { IsRoom header.now text.old }
    requires output { IsTrue (K.ready output.old) }
    ensures text { IsRoom header.now text.new }
    ensures packed { result ≡ Ok true → FramePacked (size_of header.now)
        (change S.left S.faults input.old input.new)
        (change K.held K.faults output.old output.new) }
    ensures none { result ≡ Ok false → NoFrame
        (change S.left S.faults input.old input.new)
        (change K.held K.faults output.old output.new) }
    ensures err { IfErr result (FrameStops (size_of header.now)
        (change S.left S.faults input.old input.new)
        (change K.held K.faults output.old output.new)) }
    ensures output { SinkStays K.ready K.name K.faults output.old output.new }
    ensures input { S.faults input.old ≤ S.faults input.new }
{
    let size = frame_size(header);
    let read = read_behind_line(text, input)?;
    if read == 0 {
        return Ok(false);
    }
    if read < size {
        return Err(EncodeFault::ShortFrame { extra: read as u64 });
    }
    match output.put(text) {
        Ok(()) => Ok(true),
        Err(PortError::Failed) => Err(EncodeFault::Write),
        Err(PortError::Memory) => Err(EncodeFault::Memory),
    }
}

/// Reads bytes of the next frame behind its line until they are all there or the input ends, and says how many there are.
fn read_behind_line<S: Source>(text: &mut [u8], input: &mut S) -> Result<usize, EncodeFault>
    requires line { 6 ≤ length text.old }
    ensures front { take 6 text.new ≡ take 6 text.old }
    ensures same { length text.new ≡ length text.old }
    ensures within { IfOk result (λ n. 6 + n ≤ length text.old) }
    ensures moved { IfOk result (λ n. Moves (S.left input.old) (take n (drop 6 text.new))
        (S.left input.new)) }
    ensures end { IfOk result (λ n. 6 + n < length text.old → IsAtEnd (S.left input.new)) }
    ensures err { IfErr result (ReadStops (length text.old - 6)
        (change S.left S.faults input.old input.new)) }
    ensures input { S.faults input.old ≤ S.faults input.new }
{
    read_frame(&mut text[LINE..], input)
}

/// Reads bytes of the next frame until they are all there or the input ends, and says how many there are.
fn read_frame<S: Source>(frame: &mut [u8], input: &mut S) -> Result<usize, EncodeFault>
    ensures within { IfOk result (λ n. n ≤ length frame.old) }
    ensures moved { IfOk result (λ n. Moves (S.left input.old) (take n frame.new)
        (S.left input.new)) }
    ensures end { IfOk result (λ n. n < length frame.old → IsAtEnd (S.left input.new)) }
    ensures err { IfErr result (ReadStops (length frame.old)
        (change S.left S.faults input.old input.new)) }
    ensures input { S.faults input.old ≤ S.faults input.new }
{
    match fill(input, frame) {
        Ok(read) => Ok(read),
        Err(PortError::Failed) => Err(EncodeFault::Read),
        Err(PortError::Memory) => Err(EncodeFault::Memory),
    }
}

/// Whether a byte is left; it is read.
fn goes_on<S: Source>(input: &mut S) -> Result<bool, EncodeFault>
    ensures more { result ≡ Ok true → (byte : ℕ)
        × Moves (S.left input.old) (byte ∷ []) (S.left input.new) }
    ensures none { result ≡ Ok false → Moves (S.left input.old) [] (S.left input.new)
        × IsAtEnd (S.left input.new) }
    ensures err { IfErr result (ReadStops 1 (change S.left S.faults input.old input.new)) }
    ensures input { S.faults input.old ≤ S.faults input.new }
{
    let mut byte = [0u8];
    Ok(read_frame(&mut byte, input)? > 0)
}
