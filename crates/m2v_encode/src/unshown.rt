//! Raw frames to a stream alone: no frames are shown.
ghost use Rattle.std.specs.Prelude.{◌≡◌, ◌≤◌, IsTrue, IfOk, IfErr};
ghost use Rattle.m2v_port.specs.Ends.{absent, change, SinkStays};
ghost use Rattle.m2v_encode.specs.Answers.{AllCoded, Stops};

use crate::answer::{EncodeError, Summary};
use crate::coding::encode_to;
use crate::crew::Crew;
use m2v_board::Gate;
use m2v_port::{Nowhere, Sink, Source};
use m2v_set::Passed;
use std::alloc::Global;
use std::sync::Wait;
use std::thread::Threads;

/// Codes as [`encode_to`] does, where no recon is wanted: then only the input and the output fail.
pub(crate) fn encode_unshown<R: Threads + Wait + Sync, S: Source, K: Sink, G: Gate + Sync>(
    rt: &R,
    alloc: Global,
    settings: &Passed,
    input: &mut S,
    output: &mut K,
    gate: &G,
) -> Result<Summary, EncodeError>
    requires output { IsTrue (K.ready output.old) }
    // All frames of the input were coded.
    ensures ok { IfOk result (AllCoded settings.now
        (change S.left S.faults input.old input.new)
        (change K.held K.faults output.old output.new) absent) }
    // When each error comes, and what stands then.
    ensures err { IfErr result (Stops settings.now
        (change S.left S.faults input.old input.new)
        (change K.held K.faults output.old output.new) absent) }
    ensures output { SinkStays K.ready K.name K.faults output.old output.new }
    ensures input { S.faults input.old ≤ S.faults input.new }
    ensures behind { S.behind input.old ≤ S.behind input.new }
    ensures lenders { S.lenders input.new ≡ S.lenders input.old }
{
    let mut recon = Nowhere;
    let crew = Crew { rt, alloc, gate };
    encode_to(&crew, false, settings, input, output, &mut recon)
}
