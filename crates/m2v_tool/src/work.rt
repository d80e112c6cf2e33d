// What the commands do that read input and write output, and have no file beside these.
ghost use Rattle.std.specs.Prelude.{◌≡◌, ◌≤◌, ◌<◌, IsTrue, OnOk};
ghost use Rattle.m2v_port.specs.Ends.{change, SinkStays};
ghost use Rattle.m2v_set.specs.Rules.{judged};
ghost use Rattle.m2v_tool.specs.Decoding.{workers_rules};
ghost use Rattle.m2v_tool.specs.Commands.{AuditComes, CheckComes, CutComes, DecodeComes, FlatComes, MakeComes, PackComes, UnpackComes};

use crate::audit::AuditOutcome;
use crate::check::CheckOutcome;
use crate::cut::{CutOutcome, CutWords};
use crate::decode::DecodeOutcome;
use crate::flat::{FlatOutcome, FlatWords};
use crate::make::MakeOutcome;
use crate::pack::PackOutcome;
use crate::unpack::UnpackOutcome;
use m2v_audit::{Asked, audit};
use m2v_board::Gate;
use m2v_cut::cut;
use m2v_flat::{FlatSettings, flat};
use m2v_make::check::check;
use m2v_make::encode::Crew;
use m2v_make::make;
use m2v_pardec::decode_with;
use m2v_port::{Sink, Source};
use m2v_set::{Unfit, test_flat};
use m2v_y4m::{Y4mHeader, pack, unpack};
use std::alloc::Global;
use std::sync::Wait;
use std::thread::Threads;

/// The most workers.
const MOST_WORKERS: u32 = 16;

/// Codes the raw frames of the input by the flat profile.
pub(crate) fn coded<S: Source, K: Sink>(
    alloc: Global,
    meant: &FlatWords,
    input: &mut S,
    output: &mut K,
) -> FlatOutcome
    requires { IsTrue (K.ready output.old) }
    ensures comes { FlatComes meant.now
        (change S.left S.faults input.old input.new)
        (change K.held K.faults output.old output.new) result }
    ensures output { SinkStays K.ready K.name K.faults output.old output.new }
    ensures input { S.faults input.old ≤ S.faults input.new }
{
    let dims = match test_flat(meant.width, meant.height, meant.rate_code, meant.quantiser) {
        Ok(dims) => dims,
        Err(unfit) => return FlatOutcome::Unfit(unfit),
    };
    let settings = FlatSettings {
        dims,
        rate_code: meant.rate_code,
        quantiser: meant.quantiser,
    };
    match flat(alloc, &settings, input, output) {
        Ok(summary) => FlatOutcome::Coded(summary),
        Err(error) => FlatOutcome::Stopped(error),
    }
}

/// Rule 6 on workers, that of `encode`: 1 to 16 of them. The first condition that fails is told.
#[tactic(auto, unfolding(crate::specs::Decoding::workers_rules, m2v_set::specs::Rules::judged, m2v_set::specs::Rules::judge, m2v_set::specs::Rules::and_then))]
fn test_workers(workers: u32) -> Result<(), Unfit>
    ensures value { result ≡ judged (workers_rules workers) }
    ensures holds { OnOk result ((0 < workers) × (workers ≤ 16)) }
{
    if workers == 0 {
        return Err(Unfit {
            rule: 6,
            have: 0,
            need: 1,
        });
    }
    if workers > MOST_WORKERS {
        return Err(Unfit {
            rule: 6,
            have: u128::from(workers),
            need: u128::from(MOST_WORKERS),
        });
    }
    Ok(())
}

/// Decodes the stream of the input, by so many workers.
pub(crate) fn decoded<R: Threads + Wait + Sync, S: Source, K: Sink, G: Gate + Sync>(
    crew: &Crew<R, G>,
    workers: u32,
    input: &mut S,
    output: &mut K,
) -> DecodeOutcome
    requires { IsTrue (K.ready output.old) }
    ensures comes { DecodeComes workers
        (change S.left S.faults input.old input.new)
        (change K.held K.faults output.old output.new) result }
    ensures output { SinkStays K.ready K.name K.faults output.old output.new }
    ensures input { S.faults input.old ≤ S.faults input.new }
{
    match test_workers(workers) {
        Ok(()) => {}
        Err(first) => return DecodeOutcome::Unfit(first),
    }
    let Crew { rt, alloc, gate } = crew;
    match decode_with(*rt, *alloc, workers, input, output, *gate) {
        Ok(numbers) => DecodeOutcome::Shown(numbers),
        Err(error) => DecodeOutcome::Stopped(error),
    }
}

/// Judges the stream of the input.
pub(crate) fn judged<S: Source>(alloc: Global, input: &mut S) -> CheckOutcome
    ensures comes { CheckComes (change S.left S.faults input.old input.new) result }
    ensures input { S.faults input.old ≤ S.faults input.new }
{
    match check(alloc, input) {
        Ok(verdict) => CheckOutcome::Judged(verdict),
        Err(error) => CheckOutcome::Stopped(error),
    }
}

/// Audits the input, and writes the report.
pub(crate) fn audited<S: Source, K: Sink>(
    alloc: Global,
    meant: &Asked,
    input: &mut S,
    output: &mut K,
) -> AuditOutcome
    requires { IsTrue (K.ready output.old) }
    ensures comes { AuditComes meant.now
        (change S.left S.faults input.old input.new)
        (change K.held K.faults output.old output.new) result }
    ensures output { SinkStays K.ready K.name K.faults output.old output.new }
    ensures input { S.faults input.old ≤ S.faults input.new }
{
    match audit(alloc, *meant, input, output) {
        Ok(outcome) => AuditOutcome::Reported(outcome),
        Err(error) => AuditOutcome::Stopped(error),
    }
}

/// Copies groups of the stream of the input.
pub(crate) fn cut_out<S: Source, K: Sink>(
    alloc: Global,
    meant: &CutWords,
    input: &mut S,
    output: &mut K,
) -> CutOutcome
    requires { IsTrue (K.ready output.old) }
    ensures comes { CutComes meant.now
        (change S.left S.faults input.old input.new)
        (change K.held K.faults output.old output.new) result }
    ensures output { SinkStays K.ready K.name K.faults output.old output.new }
    ensures input { S.faults input.old ≤ S.faults input.new }
{
    if meant.count == 0 {
        return CutOutcome::NoneAsked;
    }
    match cut(alloc, meant.from, meant.count, input, output) {
        Ok(summary) => CutOutcome::Done(summary),
        Err(error) => CutOutcome::Stopped(error),
    }
}

/// Makes the stream of a seed.
pub(crate) fn made<R: Threads + Wait + Sync, K: Sink, G: Gate + Sync>(
    crew: &Crew<R, G>,
    seed: u64,
    output: &mut K,
) -> MakeOutcome
    requires { IsTrue (K.ready output.old) }
    ensures comes { MakeComes seed (change K.held K.faults output.old output.new) result }
    ensures output { SinkStays K.ready K.name K.faults output.old output.new }
{
    let Crew { rt, alloc, gate } = crew;
    match make(*rt, *alloc, seed, output, *gate) {
        Ok(made) => MakeOutcome::Done { seed, made },
        Err(error) => MakeOutcome::Stopped(error),
    }
}

/// Packs the raw frames of the input.
pub(crate) fn packed_frames<S: Source, K: Sink>(
    alloc: Global,
    header: &Y4mHeader,
    input: &mut S,
    output: &mut K,
) -> PackOutcome
    requires { IsTrue (K.ready output.old) }
    ensures comes { PackComes header.now
        (change S.left S.faults input.old input.new)
        (change K.held K.faults output.old output.new) result }
    ensures output { SinkStays K.ready K.name K.faults output.old output.new }
    ensures input { S.faults input.old ≤ S.faults input.new }
{
    match header.test() {
        Ok(()) => {}
        Err(first) => return PackOutcome::Unfit(first),
    }
    match pack(alloc, header, input, output) {
        Ok(summary) => PackOutcome::Packed(summary),
        Err(error) => PackOutcome::Stopped(error),
    }
}

/// Unpacks the text of the input.
pub(crate) fn unpacked<S: Source, K: Sink>(
    alloc: Global,
    input: &mut S,
    output: &mut K,
) -> UnpackOutcome
    requires { IsTrue (K.ready output.old) }
    ensures comes { UnpackComes
        (change S.left S.faults input.old input.new)
        (change K.held K.faults output.old output.new) result }
    ensures output { SinkStays K.ready K.name K.faults output.old output.new }
    ensures input { S.faults input.old ≤ S.faults input.new }
{
    match unpack(alloc, input, output) {
        Ok(summary) => UnpackOutcome::Unpacked(summary),
        Err(error) => UnpackOutcome::Stopped(error),
    }
}
