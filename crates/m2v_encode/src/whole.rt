//! The one call of the encoder, with or without a place for reconstructions.
ghost use Rattle.std.specs.Prelude.{◌≡◌, ◌≤◌, IsTrue, IfOk, IfErr, IfSome};
ghost use Rattle.m2v_port.specs.Ends.{change, SinkStays};
ghost use Rattle.m2v_encode.specs.Answers.{AllCoded, Stops};
ghost use Rattle.m2v_encode.specs.Places.{Beside, PlaceStays};

use crate::answer::{EncodeError, Summary};
use crate::coding::encode_to;
use crate::crew::Crew;
use crate::unshown::encode_unshown;
use m2v_board::Gate;
use m2v_port::{NamedSink, Sink, Source};
use m2v_set::Passed;
use std::alloc::Global;
use std::sync::Wait;
use std::thread::Threads;

/// Codes the frames of a raw input, up to 999,999 of them, with settings that passed; the stream goes to output. Where there is
/// a place for reconstructions, which must be ready, the frames that a decoder makes of the stream go there, in display order.
pub fn encode<R: Threads + Wait + Sync, S: Source, K: Sink, N: NamedSink, G: Gate + Sync>(
    rt: &R,
    alloc: Global,
    settings: &Passed,
    input: &mut S,
    output: &mut K,
    recon: Option<&mut N>,
    gate: &G,
) -> Result<Summary, EncodeError>
    requires output { IsTrue (K.ready output.old) }
    requires recon { IfSome recon (λ place. IsTrue (N.ready place.now)) }
    // All frames of the input were coded.
    ensures ok { IfOk result (λ summary. Beside N.held N.faults (λ recon. AllCoded settings.now
        (change S.left S.faults input.old input.new)
        (change K.held K.faults output.old output.new)
        recon summary) recon.entry recon.exit) }
    // When each error comes, and what stands then.
    ensures err { IfErr result (λ error. Beside N.held N.faults (λ recon. Stops settings.now
        (change S.left S.faults input.old input.new)
        (change K.held K.faults output.old output.new)
        recon error) recon.entry recon.exit) }
    ensures output { SinkStays K.ready K.name K.faults output.old output.new }
    ensures recon { PlaceStays N.ready N.name N.faults recon.entry recon.exit }
    ensures input { S.faults input.old ≤ S.faults input.new }
    ensures behind { S.behind input.old ≤ S.behind input.new }
    ensures lenders { S.lenders input.new ≡ S.lenders input.old }
{
    match recon {
        Some(place) => {
            let crew = Crew { rt, alloc, gate };
            encode_to(&crew, true, settings, input, output, place)
        }
        None => encode_unshown(rt, alloc, settings, input, output, gate),
    }
}
