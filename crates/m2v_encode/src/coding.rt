//! Raw frames to a stream.
ghost use Rattle.std.specs.Prelude.{◌≡◌, ◌+◌, ◌*◌, ◌^◌, ◌≤◌, ◌<◌, true, false, None, IsTrue, IfOk, IfErr, OnOk, is_some};
ghost use Rattle.m2v_port.specs.Ends.{change, SinkStays};
ghost use Rattle.m2v_order.specs.Groups.{opening, first_of, is_due, group_of, anchor_before, after_end, IsSoundQueue};
ghost use Rattle.m2v_order.specs.Whole.{handed};
ghost use Rattle.m2v_rate.specs.Plans.{fresh};
ghost use Rattle.m2v_encode.specs.Answers.{AllCoded, Stops};
ghost use Rattle.m2v_encode.specs.Ready.{IsReady};
ghost use Rattle.m2v_encode.specs.Steps.{HasRoom, IsFew, GoesOn, CanCode, CanRead, ReadsNext, Comes, GroupCoded, GroupStops, BesideStops, EndCoded, EndStops, book_by};

use crate::answer::{EncodeError, Summary};
use crate::crew::Crew;
use crate::done::DoneGroup;
use crate::group::Coder;
use crate::intake::Intake;
use crate::measured::{MeasuredGroup, measured};
use crate::pictures::put_bytes;
use crate::ready::ReadyGroup;
use m2v_board::Gate;
use m2v_order::Reorder;
use m2v_port::{Sink, Source};
use m2v_set::Passed;
use std::sync::Wait;
use std::thread::Threads;

/// The sequence end code (clause 6.2.1).
const END: [u8; 4] = [0, 0, 1, 0xB7];

/// Does a group's jobs, and reads the frames up to the next group beside that.
fn work_and_read<R: Threads + Wait + Sync, S: Source, G: Gate + Sync>(
    crew: &Crew<R, G>,
    ready: ReadyGroup,
    intake: &mut Intake,
    input: &mut S,
) -> (DoneGroup, Result<Option<MeasuredGroup>, EncodeError>)
    requires ready { IsReady ready }
    requires reads { CanRead intake.old }
    ensures done { result.0 ≡ ready.book }
    ensures reads { ReadsNext S.left S.faults intake.old intake.new input.old input.new result.1 }
    ensures behind { S.behind input.old ≤ S.behind input.new }
    ensures lenders { S.lenders input.new ≡ S.lenders input.old }
{
    ready.work_beside(crew, &mut || { intake.next_group(crew.alloc, input) })
}

impl Coder {
    /// Codes a group that is not the last one, and writes it. The frames up to the next group, which is handed out, are read
    /// while its jobs are done; why they weren't is told once the group is written.
    fn code_beside<R: Threads + Wait + Sync, S: Source, K: Sink, N: Sink, G: Gate + Sync>(
        &mut self,
        crew: &Crew<R, G>,
        group: MeasuredGroup,
        intake: &mut Intake,
        input: &mut S,
        output: &mut K,
        recon: &mut N,
    ) -> Result<Option<MeasuredGroup>, EncodeError>
        requires room { HasRoom self.old }
        requires going { GoesOn self.old (is_some group.group.before) }
        requires few { IsFew self.old.total }
        requires group { CanCode self.old.settings group }
        requires reads { CanRead intake.old }
        requires output { IsTrue (K.ready output.old) }
        requires recon { IsTrue (N.ready recon.old) }
        requires unshown { self.old.shown ≡ false → N.held recon.old ≡ None }
        ensures coded { OnOk result (GroupCoded self.old self.new
            (book_by self.old (handed group.group)) false
            (change K.held K.faults output.old output.new)
            (change N.held N.faults recon.old recon.new)) }
        ensures going { OnOk result (GoesOn self.new true) }
        ensures few { OnOk result ((self.new.total.bytes ≤ 2 ^ 21 * self.new.total.pictures)
            × (self.new.total.stuffing ≤ self.new.total.bytes)) }
        ensures comes { IfOk result (Comes S.left S.faults intake.old.settings intake.old.queue
            intake.new.queue input.old input.new) }
        ensures reads { OnOk result (CanRead intake.new) }
        ensures err { IfErr result (BesideStops S.left S.faults
            (book_by self.old (handed group.group)) self.old self.new intake.old input.old input.new
            (change K.held K.faults output.old output.new)
            (change N.held N.faults recon.old recon.new)) }
        ensures room { HasRoom self.new }
        ensures shown { self.new.shown ≡ self.old.shown }
        ensures settings { intake.new.settings ≡ intake.old.settings }
        ensures output { SinkStays K.ready K.name K.faults output.old output.new }
        ensures recon { SinkStays N.ready N.name N.faults recon.old recon.new }
        ensures input { S.faults input.old ≤ S.faults input.new }
        ensures behind { S.behind input.old ≤ S.behind input.new }
        ensures lenders { S.lenders input.new ≡ S.lenders input.old }
    {
        // a frame has bytes
        let _size = intake.settings.dims();
        let Ok(ready) = self.prepare(crew.alloc, group) else {
            return Err(EncodeError::Memory);
        };
        let (done, next) = work_and_read(crew, ready, intake, input);
        self.put_group(crew.alloc, done, false, output, recon)?;
        next
    }

    /// Codes the last group of the stream, and writes it.
    fn code_last<R: Threads + Wait + Sync, K: Sink, N: Sink, G: Gate + Sync>(
        &mut self,
        crew: &Crew<R, G>,
        group: MeasuredGroup,
        output: &mut K,
        recon: &mut N,
    ) -> Result<(), EncodeError>
        requires room { HasRoom self.old }
        requires going { GoesOn self.old (is_some group.group.before) }
        requires few { IsFew self.old.total }
        requires group { CanCode self.old.settings group }
        requires output { IsTrue (K.ready output.old) }
        requires recon { IsTrue (N.ready recon.old) }
        requires unshown { self.old.shown ≡ false → N.held recon.old ≡ None }
        ensures coded { OnOk result (GroupCoded self.old self.new
            (book_by self.old (handed group.group)) true
            (change K.held K.faults output.old output.new)
            (change N.held N.faults recon.old recon.new)) }
        ensures few { OnOk result ((self.new.total.bytes ≤ 2 ^ 21 * self.new.total.pictures)
            × (self.new.total.stuffing ≤ self.new.total.bytes)) }
        ensures err { IfErr result
            (GroupStops (book_by self.old (handed group.group)) true (8 * self.old.total.bytes)
            (change K.held K.faults output.old output.new)
            (change N.held N.faults recon.old recon.new)) }
        ensures output { SinkStays K.ready K.name K.faults output.old output.new }
        ensures recon { SinkStays N.ready N.name N.faults recon.old recon.new }
    {
        let Ok(ready) = self.prepare(crew.alloc, group) else {
            return Err(EncodeError::Memory);
        };
        let done = ready.work(crew);
        self.put_group(crew.alloc, done, true, output, recon)
    }

    /// Ends the stream of so many frames: codes the last group, and writes a sequence end code.
    fn finish<R: Threads + Wait + Sync, K: Sink, N: Sink, G: Gate + Sync>(
        &mut self,
        crew: &Crew<R, G>,
        queue: &mut Reorder,
        frames: u64,
        output: &mut K,
        recon: &mut N,
    ) -> Result<Summary, EncodeError>
        requires room { HasRoom self.old }
        requires settings { queue.old.settings ≡ self.old.settings }
        requires going { GoesOn self.old (is_some (anchor_before (first_of queue.old))) }
        requires few { IsFew self.old.total }
        requires pushed { queue.old.pushed < 1000000 }
        requires sound { IsSoundQueue queue.old }
        requires output { IsTrue (K.ready output.old) }
        requires recon { IsTrue (N.ready recon.old) }
        requires unshown { self.old.shown ≡ false → N.held recon.old ≡ None }
        ensures some { OnOk result (is_due (after_end queue.old) ≡ true) }
        ensures coded { IfOk result
            (EndCoded self.old frames (book_by self.old (group_of (after_end queue.old)))
            (change K.held K.faults output.old output.new)
            (change N.held N.faults recon.old recon.new)) }
        ensures err { IfErr result (EndStops self.old (after_end queue.old)
            (change K.held K.faults output.old output.new)
            (change N.held N.faults recon.old recon.new)) }
        ensures output { SinkStays K.ready K.name K.faults output.old output.new }
        ensures recon { SinkStays N.ready N.name N.faults recon.old recon.new }
    {
        queue.end();
        match queue.next_group(crew.alloc) {
            Ok(Some(group)) => {
                let Ok(last) = measured(crew.alloc, &self.settings, group) else {
                    return Err(EncodeError::Memory);
                };
                self.code_last(crew, last, output, recon)?;
                put_bytes(&END, output)?;
                self.total.bytes += 4;
                self.total.frames = frames;
                Ok(self.total)
            }
            Ok(None) => Err(EncodeError::NoFrames),
            Err(_) => Err(EncodeError::Memory),
        }
    }

    /// Codes all frames of the input.
    fn code_all<R: Threads + Wait + Sync, S: Source, K: Sink, N: Sink, G: Gate + Sync>(
        &mut self,
        crew: &Crew<R, G>,
        intake: &mut Intake,
        input: &mut S,
        output: &mut K,
        recon: &mut N,
    ) -> Result<Summary, EncodeError>
        requires room { HasRoom self.old }
        requires ledger { self.old.ledger ≡ fresh self.old.settings }
        requires before { self.old.before ≡ None }
        requires total { self.old.total ≡ record {
          frames = 0;
          pictures = 0;
          bytes = 0;
          stuffing = 0;
        } }
        requires reads { CanRead intake.old }
        requires settings { intake.old.settings ≡ self.old.settings }
        requires queue { intake.old.queue ≡ opening self.old.settings }
        requires output { IsTrue (K.ready output.old) }
        requires recon { IsTrue (N.ready recon.old) }
        requires unshown { self.old.shown ≡ false → N.held recon.old ≡ None }
        ensures ok { IfOk result (AllCoded self.old.settings
            (change S.left S.faults input.old input.new)
            (change K.held K.faults output.old output.new)
            (change N.held N.faults recon.old recon.new)) }
        ensures err { IfErr result (Stops self.old.settings
            (change S.left S.faults input.old input.new)
            (change K.held K.faults output.old output.new)
            (change N.held N.faults recon.old recon.new)) }
        ensures output { SinkStays K.ready K.name K.faults output.old output.new }
        ensures recon { SinkStays N.ready N.name N.faults recon.old recon.new }
        ensures input { S.faults input.old ≤ S.faults input.new }
        ensures behind { S.behind input.old ≤ S.behind input.new }
        ensures lenders { S.lenders input.new ≡ S.lenders input.old }
    {
        // the settings pass, so a frame has bytes
        let _known = self.settings.settings();
        let mut next = intake.next_group(crew.alloc, input)?;
        while let Some(group) = next {
            next = self.code_beside(crew, group, intake, input, output, recon)?;
        }
        if intake.goes_past(input)? {
            return Err(EncodeError::TooManyFrames);
        }
        self.finish(crew, &mut intake.queue, intake.count, output, recon)
    }
}

/// Codes the frames of a raw input, up to 999,999 of them, with settings that passed; the stream goes to output, and the
/// frames that a decoder makes of it go to recon, in display order, where they are shown; where they aren't, recon tells
/// nothing.
pub(crate) fn encode_to<R: Threads + Wait + Sync, S: Source, K: Sink, N: Sink, G: Gate + Sync>(
    crew: &Crew<R, G>,
    shown: bool,
    settings: &Passed,
    input: &mut S,
    output: &mut K,
    recon: &mut N,
) -> Result<Summary, EncodeError>
    requires output { IsTrue (K.ready output.old) }
    requires recon { IsTrue (N.ready recon.old) }
    requires unshown { shown ≡ false → N.held recon.old ≡ None }
    // All frames of the input were coded.
    ensures ok { IfOk result (AllCoded settings.now
        (change S.left S.faults input.old input.new)
        (change K.held K.faults output.old output.new)
        (change N.held N.faults recon.old recon.new)) }
    // When each error comes, and what stands then.
    ensures err { IfErr result (Stops settings.now
        (change S.left S.faults input.old input.new)
        (change K.held K.faults output.old output.new)
        (change N.held N.faults recon.old recon.new)) }
    ensures output { SinkStays K.ready K.name K.faults output.old output.new }
    ensures recon { SinkStays N.ready N.name N.faults recon.old recon.new }
    ensures input { S.faults input.old ≤ S.faults input.new }
    ensures behind { S.behind input.old ≤ S.behind input.new }
    ensures lenders { S.lenders input.new ≡ S.lenders input.old }
{
    // the settings pass, so a frame has bytes
    let _known = settings.settings();
    let Ok(mut coder) = Coder::new(crew.alloc, settings, shown) else {
        return Err(EncodeError::Memory);
    };
    let Ok(mut intake) = Intake::new(crew.alloc, settings) else {
        return Err(EncodeError::Memory);
    };
    coder.code_all(crew, &mut intake, input, output, recon)
}
