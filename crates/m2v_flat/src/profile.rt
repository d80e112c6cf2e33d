ghost use Rattle.std.specs.Prelude.{◌≡◌, ℕ, ◌+◌, ◌*◌, ◌%◌, ◌<◌, ◌≤◌, ◌^◌, [], ◌∷◌, true, false, length, take, IsTrue, IfOk, IfErr, IfSome, OnOk, OnErr, MatchOption, Ok};
ghost use Rattle.m2v_bits.specs.Bits.{packed, start_code};
ghost use Rattle.m2v_port.specs.Ends.{change, SinkStays};
ghost use Rattle.m2v_port.specs.Port.{Moves, IsAtEnd, Grows};
ghost use Rattle.m2v_plane.specs.Sizes.{IsSize};
ghost use Rattle.m2v_plane.specs.Raw.{frame_bytes, pad};
ghost use Rattle.m2v_flat.specs.Flat.{frame_units, FlatFrame};
ghost use Rattle.m2v_flat.specs.Answers.{HasPassed, FlatCoded, FlatStops};
ghost use Rattle.m2v_flat.specs.Steps.{IsReady, room_bits, NextCoded, NextNone, NextStops, EndStops, ReadStops, PutStops};

use crate::answer::{EncodeError, Summary};
use crate::settings::FlatSettings;
use crate::writing::pictures::write_frame;
use crate::writing::units::write_end;
use m2v_bits::BitWriter;
use m2v_plane::{Frame, bytes_of};
use m2v_port::{PortError, Sink, Source, fill};
use std::alloc::{AllocError, Global};

/// The most frames of a raw input.
const MOST: u64 = 999_999;

/// Room for the bytes of a picture of Main level, the headers before it and an end code.
const ROOM: usize = 32_784;

/// What coding frame after frame needs, whatever their number: the bytes, the samples and the bits of one.
#[derive(Drop)]
struct Coder {
    settings: FlatSettings,
    raw: Vec<u8>,
    frame: Frame,
    out: BitWriter,
}

impl Coder {
    /// Room for one frame.
    fn new(alloc: Global, settings: &FlatSettings) -> Result<Coder, AllocError>
        requires passed { HasPassed settings.now }
        ensures ready { IfOk result IsReady }
        ensures settings { IfOk result (λ c. c.settings ≡ settings.now) }
    {
        Ok(Coder {
            settings: *settings,
            raw: vec![in alloc; 0; bytes_of(settings.dims)]?,
            frame: Frame::blank(alloc, settings.dims)?,
            out: BitWriter::over(vec![in alloc; 0; ROOM]?),
        })
    }

    /// Codes the frame that was read, frame n; the bits are those that it brings.
    fn code(&mut self, number: u64)
        requires ready { IsReady self.old }
        ensures written { self.new.out.written ≡ frame_units self.old.settings number
            (pad self.old.settings.dims self.old.raw.items) }
        ensures edge { length self.new.out.written % 8 ≡ 0 }
        ensures ready { IsReady self.new }
        ensures settings { self.new.settings ≡ self.old.settings }
    {
        self.out.clear();
        self.frame.pad_from_raw(&self.raw);
        write_frame(&self.settings, number, &self.frame, &mut self.out);
    }

    /// Reads bytes of the next frame until they are all there or the input ends, and says how many there are.
    fn read<S: Source>(&mut self, input: &mut S) -> Result<usize, EncodeError>
        requires ready { IsReady self.old }
        ensures within { IfOk result (λ n. n ≤ frame_bytes self.old.settings.dims) }
        ensures moved { IfOk result (λ n. Moves (S.left input.old) (take n self.new.raw.items)
            (S.left input.new)) }
        ensures end { IfOk result (λ n. n < frame_bytes self.old.settings.dims
            → IsAtEnd (S.left input.new)) }
        ensures err { IfErr result (ReadStops (frame_bytes self.old.settings.dims)
            (change S.left S.faults input.old input.new)) }
        ensures ready { IsReady self.new }
        ensures settings { self.new.settings ≡ self.old.settings }
        ensures input { S.faults input.old ≤ S.faults input.new }
    {
        match fill(input, &mut self.raw) {
            Ok(read) => Ok(read),
            Err(PortError::Failed) => Err(EncodeError::Read),
            Err(PortError::Memory) => Err(EncodeError::Memory),
        }
    }

    /// Writes the bytes of the bits, and says how many they are.
    fn put<K: Sink>(&self, output: &mut K) -> Result<u64, EncodeError>
        requires ready { IsReady self.now }
        requires edge { length self.now.out.written % 8 ≡ 0 }
        requires output { IsTrue (K.ready output.old) }
        ensures grown { OnOk result (Grows (K.held output.old) (packed self.now.out.written)
            (K.held output.new)) }
        ensures size { IfOk result (λ n. n ≡ length (packed self.now.out.written)) }
        ensures most { IfOk result (λ n. n ≤ 32784) }
        ensures err { IfErr result (PutStops (packed self.now.out.written)
            (change K.held K.faults output.old output.new)) }
        ensures output { SinkStays K.ready K.name K.faults output.old output.new }
    {
        let bytes = self.out.bytes();
        match output.put(bytes) {
            Ok(()) => Ok(bytes.len() as u64),
            Err(PortError::Failed) => Err(EncodeError::Write),
            Err(PortError::Memory) => Err(EncodeError::Memory),
        }
    }

    /// Reads frame n, codes it and writes its bytes, and says how many they are; `None` where the input has ended.
    fn next<S: Source, K: Sink>(
        &mut self,
        number: u64,
        input: &mut S,
        output: &mut K,
    ) -> Result<Option<u64>, EncodeError>
        requires ready { IsReady self.old }
        requires output { IsTrue (K.ready output.old) }
        ensures coded { IfOk result (λ o. MatchOption o
            (NextNone (change S.left S.faults input.old input.new)
            (change K.held K.faults output.old output.new))
            (λ n. NextCoded self.old.settings number n
            (change S.left S.faults input.old input.new)
            (change K.held K.faults output.old output.new))) }
        ensures most { IfOk result (λ o. IfSome o (λ n. n ≤ 32784)) }
        ensures err { IfErr result (NextStops self.old.settings number
            (change S.left S.faults input.old input.new)
            (change K.held K.faults output.old output.new)) }
        ensures ready { IsReady self.new }
        ensures settings { self.new.settings ≡ self.old.settings }
        ensures output { SinkStays K.ready K.name K.faults output.old output.new }
        ensures input { S.faults input.old ≤ S.faults input.new }
    {
        let read = self.read(input)?;
        if read == 0 {
            return Ok(None);
        }
        if read < self.raw.len() {
            return Err(EncodeError::ShortFrame { extra: read as u64 });
        }
        self.code(number);
        let bytes = self.put(output)?;
        Ok(Some(bytes))
    }

    /// Ends the stream of so many frames, which has so many bytes.
    fn finish<K: Sink>(
        &mut self,
        frames: u64,
        bytes: u64,
        output: &mut K,
    ) -> Result<Summary, EncodeError>
        requires ready { IsReady self.old }
        requires bytes { bytes < 2 ^ 63 }
        requires output { IsTrue (K.ready output.old) }
        ensures some { OnOk result (0 < frames) }
        ensures grown { OnOk result
            (Grows (K.held output.old) (packed (start_code 0xB7)) (K.held output.new)) }
        ensures numbers { IfOk result (λ s. s ≡ record {
          frames = frames;
          pictures = frames;
          bytes = bytes + length (packed (start_code 0xB7));
          stuffing = 0;
        }) }
        ensures err { IfErr result (EndStops frames
            (change K.held K.faults output.old output.new)) }
        ensures output { SinkStays K.ready K.name K.faults output.old output.new }
    {
        if frames == 0 {
            return Err(EncodeError::NoFrames);
        }
        self.out.clear();
        write_end(&mut self.out);
        let end = self.put(output)?;
        Ok(Summary {
            frames,
            pictures: frames,
            bytes: bytes + end,
            stuffing: 0,
        })
    }

    /// Codes all frames of the input.
    fn code_all<S: Source, K: Sink>(
        &mut self,
        input: &mut S,
        output: &mut K,
    ) -> Result<Summary, EncodeError>
        requires ready { IsReady self.old }
        requires output { IsTrue (K.ready output.old) }
        ensures ok { IfOk result (FlatCoded self.old.settings
            (change S.left S.faults input.old input.new)
            (change K.held K.faults output.old output.new)) }
        ensures err { IfErr result (FlatStops self.old.settings
            (change S.left S.faults input.old input.new)
            (change K.held K.faults output.old output.new)) }
        ensures output { SinkStays K.ready K.name K.faults output.old output.new }
        ensures input { S.faults input.old ≤ S.faults input.new }
    {
        let mut bytes = 0;
        for number in 0..MOST {
            match self.next(number, input, output)? {
                Some(more) => bytes += more,
                None => return self.finish(number, bytes, output),
            }
        }
        if goes_on(input)? {
            return Err(EncodeError::TooManyFrames);
        }
        self.finish(MOST, bytes, output)
    }
}

/// Whether a byte is left; it is read.
fn goes_on<S: Source>(input: &mut S) -> Result<bool, EncodeError>
    ensures more { result ≡ Ok true → (byte : ℕ)
        × Moves (S.left input.old) (byte ∷ []) (S.left input.new) }
    ensures none { result ≡ Ok false → Moves (S.left input.old) [] (S.left input.new)
        × IsAtEnd (S.left input.new) }
    ensures err { IfErr result (ReadStops 1 (change S.left S.faults input.old input.new)) }
    ensures input { S.faults input.old ≤ S.faults input.new }
{
    let mut byte = [0u8];
    match fill(input, &mut byte) {
        Ok(read) => Ok(read > 0),
        Err(PortError::Failed) => Err(EncodeError::Read),
        Err(PortError::Memory) => Err(EncodeError::Memory),
    }
}

/// Codes the frames of a raw input, up to 999,999 of them, by the flat profile: a progressive sequence of I pictures of
/// which each block has its DC alone (clause 6.1.1).
///
/// Each frame is read whole, coded and written before the next one is read; memory is that of one frame, whatever their
/// number. The sequence headers go with the first frame, so an input without a whole frame writes nothing.
pub fn flat<S: Source, K: Sink>(
    alloc: Global,
    settings: &FlatSettings,
    input: &mut S,
    output: &mut K,
) -> Result<Summary, EncodeError>
    requires passed { HasPassed settings.now }
    requires output { IsTrue (K.ready output.old) }
    // All frames of the input were coded.
    ensures ok { IfOk result (FlatCoded settings.now
        (change S.left S.faults input.old input.new)
        (change K.held K.faults output.old output.new)) }
    // When each error comes, and what stands then.
    ensures err { IfErr result (FlatStops settings.now
        (change S.left S.faults input.old input.new)
        (change K.held K.faults output.old output.new)) }
    ensures output { SinkStays K.ready K.name K.faults output.old output.new }
    ensures input { S.faults input.old ≤ S.faults input.new }
{
    let Ok(mut coder) = Coder::new(alloc, settings) else {
        return Err(EncodeError::Memory);
    };
    coder.code_all(input, output)
}
