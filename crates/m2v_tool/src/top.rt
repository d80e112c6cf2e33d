ghost use Rattle.std.specs.Prelude.{◌≡◌, ◌≤◌, ◌==◌, if◌then◌else◌, map, string_bytes, IsTrue, IsFalse};
ghost use Rattle.m2v_port.specs.Ends.{change, SinkStays};
ghost use Rattle.m2v_tool.specs.Endings.{Told};
ghost use Rattle.m2v_tool.specs.Runs.{worked};
ghost use Rattle.m2v_tool.specs.Commands.{Comes, Kept, ending_of};

use crate::beside::{encoded, encoded_text, mended};
use crate::command::{Command, Outcome, meaning};
use crate::report::{Ends, Report};
use crate::work::{audited, coded, cut_out, decoded, judged, made, packed_frames, unpacked};
use m2v_board::Gate;
use m2v_make::encode::Crew;
use m2v_port::{NamedSink, PortError, Sink, Source};
use std::alloc::{AllocError, Global};
use std::sync::Wait;
use std::thread::Threads;

/// How the program ends: its exit status.
#[derive(Clone, Copy, Debug, PartialEq, Eq)]
pub struct Status {
    /// 0 where all went well, else the number of the refusal.
    pub code: u8,
}

/// Does what the words say, all but the report.
fn carried_out<R: Threads + Wait + Sync, S: Source, K: Sink, N: NamedSink, G: Gate + Sync>(
    crew: &Crew<R, G>,
    words: &[String],
    input: &mut S,
    output: &mut K,
    recon: &mut N,
) -> Outcome
    requires output { IsTrue (K.ready output.old) }
    requires recon { IsFalse (N.ready recon.old) }
    ensures comes { Comes (map string_bytes words.now)
        (worked S.left S.faults K.held K.faults N.held N.faults N.ready N.name
        input.old input.new output.old output.new recon.old recon.new) result }
    ensures recon { N.faults recon.old ≤ N.faults recon.new }
    ensures output { SinkStays K.ready K.name K.faults output.old output.new }
    ensures input { S.faults input.old ≤ S.faults input.new }
{
    let alloc = crew.alloc;
    match meaning(alloc, words) {
        Ok(Some(Command::Flat(meant))) => Outcome::Flat(coded(alloc, &meant, input, output)),
        Ok(Some(Command::Encode(meant))) => {
            Outcome::Encode(encoded(crew, &meant, input, output, recon))
        }
        Ok(Some(Command::Decode(workers))) => {
            Outcome::Decode(decoded(crew, workers, input, output))
        }
        Ok(Some(Command::Check)) => Outcome::Check(judged(alloc, input)),
        Ok(Some(Command::Audit(meant))) => Outcome::Audit(audited(alloc, &meant, input, output)),
        Ok(Some(Command::Mend(meant))) => {
            Outcome::Mend(mended(alloc, &meant, input, output, recon))
        }
        Ok(Some(Command::Make(seed))) => Outcome::Make(made(crew, seed, output)),
        Ok(Some(Command::Cut(meant))) => Outcome::Cut(cut_out(alloc, &meant, input, output)),
        Ok(Some(Command::Pack(header))) => {
            Outcome::Pack(packed_frames(alloc, &header, input, output))
        }
        Ok(Some(Command::Unpack)) => Outcome::Unpack(unpacked(alloc, input, output)),
        Ok(Some(Command::EncodeY4m(meant))) => {
            Outcome::EncodeY4m(encoded_text(crew, meant, input, output, recon))
        }
        Ok(None) => Outcome::Usage,
        Err(AllocError) => Outcome::NoMemory,
    }
}

/// The status where the report fails: that is a write fault after success, and changes no other status.
fn status_unreported(report: &Report) -> u8
    ensures { result ≡ (if report.now.status == 0 then 8 else report.now.status) }
{
    if report.status == 0 { 8 } else { report.status }
}

/// Puts the line of an outcome on report, and gives the status.
fn reported<E: Sink>(alloc: Global, outcome: &Outcome, report: &mut E) -> Status
    requires { IsTrue (E.ready report.old) }
    ensures told { Told (ending_of outcome.now) result.code
        (change E.held E.faults report.old report.new) }
    ensures report { SinkStays E.ready E.name E.faults report.old report.new }
{
    let Ok(own) = outcome.report(alloc) else {
        return Status { code: 12 };
    };
    let code = match report.put(&own.line) {
        Ok(()) => own.status,
        Err(PortError::Failed) => status_unreported(&own),
        Err(PortError::Memory) => 12,
    };
    Status { code }
}

/// Does all that the program does.
///
/// `words` are those behind the program's name. `flat W H CODE Q` codes the raw frames of `input`, 1 to 999,999 of them,
/// each W by H samples, to `output` by the flat profile, with the frame rate code CODE and the quantiser code Q. `decode`
/// decodes the stream of `input` (ISO/IEC 13818-2) and writes the frames that it shows to `output` as raw video, in
/// display order, with workers that `rt` runs and `gate` lets in. `check` says of the stream of `input` whether it keeps
/// the rules of its level, and whether the decoder's buffer bears it; `audit` writes to `output` all that is wrong with
/// the sequences of `input`. `mend` copies what decodes of `input` to `output`, a stream without a fault; where its words
/// name a file, `recon` is opened under this name before `input` is read, and gets a line for each gap, of what was left
/// out there. `make SEED` writes a large lawful stream of a seed. `encode` codes the raw frames of `input` to `output` by
/// its options, with workers that `rt` runs and `gate` lets in; where its words name a file, `recon` is opened under this
/// name, and gets the frames that the stream decodes to. `cut FROM COUNT` copies whole groups of the stream of `input` to
/// `output`, so many from number FROM on. `pack W H CODE` writes the raw frames of `input` as a YUV4MPEG2 text, and
/// `unpack` the frames of such a text as raw video. `encode-y4m` codes the frames of such a text as `encode` does, with
/// the sizes and the rate of its header.
pub fn run<R: Threads + Wait + Sync, S: Source, K: Sink, N: NamedSink, E: Sink, G: Gate + Sync>(
    rt: &R,
    alloc: Global,
    words: &[String],
    input: &mut S,
    output: &mut K,
    recon: &mut N,
    report: &mut E,
    gate: &G,
) -> Status
    requires output { IsTrue (K.ready output.old) }
    requires recon { IsFalse (N.ready recon.old) }
    requires report { IsTrue (E.ready report.old) }
    ensures kept { Kept (record {
      words = map string_bytes words.now;
      input = change S.left S.faults input.old input.new;
      output = change K.held K.faults output.old output.new;
      recon = change N.held N.faults recon.old recon.new;
      place = record { ready = N.ready recon.new; name = N.name recon.new };
      report = change E.held E.faults report.old report.new;
      status = result.code;
    }) }
    ensures recon { N.faults recon.old ≤ N.faults recon.new }
    ensures output { SinkStays K.ready K.name K.faults output.old output.new }
    ensures report { SinkStays E.ready E.name E.faults report.old report.new }
    ensures input { S.faults input.old ≤ S.faults input.new }
{
    let crew = Crew { rt, alloc, gate };
    let outcome = carried_out(&crew, words, input, output, recon);
    reported(alloc, &outcome, report)
}
