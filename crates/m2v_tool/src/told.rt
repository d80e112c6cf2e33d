// What is told of each outcome: the status and the line on report.
ghost use Rattle.std.specs.Prelude.{◌≡◌, IfOk};
ghost use Rattle.m2v_tool.specs.Endings.{IsReport};
ghost use Rattle.m2v_tool.specs.Auditing.{audited_ending, whole_ending};
ghost use Rattle.m2v_tool.specs.Checking.{account_ending, verdict_ending};
ghost use Rattle.m2v_tool.specs.Mending.{mended_ending};
ghost use Rattle.m2v_tool.specs.Packing.{packed_ending};
ghost use Rattle.m2v_tool.specs.Commands.{audit_ending, check_ending, cut_ending, decode_ending, encode_ending, ending_of, flat_ending, make_ending, mend_ending, pack_ending, unpack_ending, y4m_ending};

use crate::audit::AuditOutcome;
use crate::check::CheckOutcome;
use crate::command::Outcome;
use crate::cut::CutOutcome;
use crate::decode::DecodeOutcome;
use crate::encode::EncodeOutcome;
use crate::encode_y4m::Y4mOutcome;
use crate::figures::{all, clean, coded, found, lawful, made, nothing, some, unfit, variable};
use crate::flat::FlatOutcome;
use crate::make::MakeOutcome;
use crate::mend::MendOutcome;
use crate::pack::PackOutcome;
use crate::report::{
    Ends, Report, no_memory, stream_fault, too_large, too_long, unopened, usage, y4m_fault,
};
use crate::unpack::UnpackOutcome;
use m2v_audit::{Ending, LimitKind, TotalRecord};
use m2v_make::check::{AccountFault, Verdict};
use m2v_mend::Answer;
use m2v_set::Unfit;
use m2v_y4m::PackSummary;
use std::alloc::{AllocError, Global};

impl Ends for Outcome {
    ghost ending = { ending_of };

    #[tactic(auto, unfolding(crate::specs::Commands::ending_of))]
    fn report(&self, alloc: Global) -> Result<Report, AllocError> {
        match self {
            Outcome::Usage => usage(alloc),
            Outcome::NoMemory => no_memory(alloc),
            Outcome::Flat(outcome) => outcome.report(alloc),
            Outcome::Encode(outcome) => outcome.report(alloc),
            Outcome::Decode(outcome) => outcome.report(alloc),
            Outcome::Check(outcome) => outcome.report(alloc),
            Outcome::Audit(outcome) => outcome.report(alloc),
            Outcome::Mend(outcome) => outcome.report(alloc),
            Outcome::Make(outcome) => outcome.report(alloc),
            Outcome::Cut(outcome) => outcome.report(alloc),
            Outcome::Pack(outcome) => outcome.report(alloc),
            Outcome::Unpack(outcome) => outcome.report(alloc),
            Outcome::EncodeY4m(outcome) => outcome.report(alloc),
        }
    }
}

// ---- flat, encode and encode-y4m

impl Ends for FlatOutcome {
    ghost ending = { flat_ending };

    #[tactic(auto, unfolding(crate::specs::Coding::flat_ending))]
    fn report(&self, alloc: Global) -> Result<Report, AllocError> {
        match self {
            FlatOutcome::Coded(n) => coded(alloc, n.frames, n.pictures, n.bytes, n.stuffing),
            FlatOutcome::Unfit(first) => unfit(alloc, first),
            FlatOutcome::Stopped(error) => error.report(alloc),
        }
    }
}

impl Ends for EncodeOutcome {
    ghost ending = { encode_ending };

    #[tactic(auto, unfolding(crate::specs::Encoding::encode_ending, crate::specs::Encoding::encoded_ending))]
    fn report(&self, alloc: Global) -> Result<Report, AllocError> {
        match self {
            EncodeOutcome::Coded(n) => coded(alloc, n.frames, n.pictures, n.bytes, n.stuffing),
            EncodeOutcome::Unfit(first) => unfit(alloc, first),
            EncodeOutcome::Unopened(error) => unopened(alloc, *error),
            EncodeOutcome::Stopped(error) => error.report(alloc),
        }
    }
}

impl Ends for Y4mOutcome {
    ghost ending = { y4m_ending };

    #[tactic(auto, unfolding(crate::specs::Y4mCoding::y4m_ending))]
    fn report(&self, alloc: Global) -> Result<Report, AllocError> {
        match self {
            Y4mOutcome::Unread(error) => error.report(alloc),
            Y4mOutcome::Encoded(outcome) => outcome.report(alloc),
            Y4mOutcome::Broken(fault) => y4m_fault(alloc, fault),
        }
    }
}

// ---- decode, check and audit

impl Ends for DecodeOutcome {
    ghost ending = { decode_ending };

    #[tactic(auto, unfolding(crate::specs::Decoding::decode_ending, crate::specs::Decoding::shown_ending))]
    fn report(&self, alloc: Global) -> Result<Report, AllocError> {
        match self {
            DecodeOutcome::Shown(n) => Report::new(
                alloc,
                0,
                &[
                    ("frames ", u128::from(n.frames)),
                    (" pictures ", u128::from(n.pictures)),
                    (" dropped ", u128::from(n.dropped)),
                ],
            ),
            DecodeOutcome::Unfit(first) => unfit(alloc, first),
            DecodeOutcome::Stopped(error) => error.report(alloc),
        }
    }
}

impl Ends for CheckOutcome {
    ghost ending = { check_ending };

    #[tactic(auto, unfolding(crate::specs::Checking::check_ending))]
    fn report(&self, alloc: Global) -> Result<Report, AllocError> {
        match self {
            CheckOutcome::Judged(verdict) => verdict.report(alloc),
            CheckOutcome::Stopped(error) => error.report(alloc),
        }
    }
}

impl Ends for Verdict {
    ghost ending = { verdict_ending };

    #[tactic(auto, unfolding(crate::specs::Checking::verdict_ending))]
    fn report(&self, alloc: Global) -> Result<Report, AllocError> {
        match self {
            Verdict::Lawful(figures) => lawful(alloc, figures),
            Verdict::Variable(figures) => variable(alloc, figures),
            Verdict::Unlawful {
                rule,
                picture,
                have,
                need,
            } => Report::new(
                alloc,
                10,
                &[
                    ("unlawful rule ", u128::from(*rule)),
                    (" picture ", u128::from(*picture)),
                    (" have ", *have),
                    (" need ", *need),
                ],
            ),
            Verdict::Buffer(fault) => fault.report(alloc),
        }
    }
}

/// A buffer's account that fails.
impl Ends for AccountFault {
    ghost ending = { account_ending };

    #[tactic(auto, unfolding(crate::specs::Checking::account_ending))]
    fn report(&self, alloc: Global) -> Result<Report, AllocError> {
        match self {
            AccountFault::Under {
                picture,
                have,
                need,
            } => Report::new(
                alloc,
                11,
                &[
                    ("buffer under picture ", u128::from(*picture)),
                    (" have ", *have),
                    (" need ", *need),
                ],
            ),
            AccountFault::Over {
                picture,
                have,
                size,
            } => Report::new(
                alloc,
                11,
                &[
                    ("buffer over picture ", u128::from(*picture)),
                    (" have ", *have),
                    (" need ", *size),
                ],
            ),
        }
    }
}

impl Ends for AuditOutcome {
    ghost ending = { audit_ending };

    #[tactic(auto, unfolding(crate::specs::Auditing::audit_ending))]
    fn report(&self, alloc: Global) -> Result<Report, AllocError> {
        match self {
            AuditOutcome::Reported(outcome) => ended(alloc, &outcome.totals, &outcome.ending),
            AuditOutcome::Stopped(error) => error.report(alloc),
        }
    }
}

/// The report of an audit, by how it ended.
#[tactic(auto, unfolding(crate::specs::Auditing::audited_ending, crate::specs::Auditing::limit_ending))]
fn ended(alloc: Global, totals: &TotalRecord, ending: &Ending) -> Result<Report, AllocError>
    ensures { IfOk result (λ r. IsReport r (audited_ending totals.now ending.now)) }
{
    match ending {
        Ending::Whole => whole(alloc, totals),
        Ending::Fault(fault) => stream_fault(alloc, fault),
        Ending::Limit(LimitKind::TooLong) => too_long(alloc),
        Ending::Limit(LimitKind::TooLarge) => too_large(alloc),
    }
}

/// The report of an input that was read to its end.
#[tactic(auto, unfolding(crate::specs::Auditing::whole_ending))]
fn whole(alloc: Global, totals: &TotalRecord) -> Result<Report, AllocError>
    ensures { IfOk result (λ r. IsReport r (whole_ending totals.now)) }
{
    if totals.breaches == 0 && totals.failures == 0 {
        return clean(alloc, totals);
    }
    found(alloc, totals)
}

// ---- mend and cut

/// An input that was read to its end.
impl Ends for Answer {
    ghost ending = { mended_ending };

    fn report(&self, alloc: Global) -> Result<Report, AllocError> {
        match self {
            Answer::AllKept {
                groups,
                pictures,
                bytes,
            } => all(alloc, *groups, *pictures, *bytes),
            Answer::SomeKept {
                groups,
                of_groups,
                pictures,
                of_pictures,
                bytes,
            } => some(alloc, *groups, *of_groups, *pictures, *of_pictures, *bytes),
            Answer::NoneKept(fault) => nothing(alloc, fault),
        }
    }
}

impl Ends for MendOutcome {
    ghost ending = { mend_ending };

    #[tactic(auto, unfolding(crate::specs::Mending::mend_ending))]
    fn report(&self, alloc: Global) -> Result<Report, AllocError> {
        match self {
            MendOutcome::Mended(answer) => answer.report(alloc),
            MendOutcome::Unopened(error) => unopened(alloc, *error),
            MendOutcome::Stopped(error) => error.report(alloc),
        }
    }
}

impl Ends for CutOutcome {
    ghost ending = { cut_ending };

    #[tactic(auto, unfolding(crate::specs::Cutting::cut_ending, crate::specs::Cutting::cut_out_ending))]
    fn report(&self, alloc: Global) -> Result<Report, AllocError> {
        match self {
            CutOutcome::Done(n) => Report::new(
                alloc,
                0,
                &[
                    ("groups ", u128::from(n.groups)),
                    (" bytes ", u128::from(n.bytes)),
                ],
            ),
            CutOutcome::NoneAsked => {
                let none_asked = Unfit {
                    rule: 9,
                    have: 0,
                    need: 1,
                };
                unfit(alloc, &none_asked)
            }
            CutOutcome::Stopped(error) => error.report(alloc),
        }
    }
}

// ---- make, pack and unpack

impl Ends for MakeOutcome {
    ghost ending = { make_ending };

    #[tactic(auto, unfolding(crate::specs::Making::make_ending))]
    fn report(&self, alloc: Global) -> Result<Report, AllocError> {
        match self {
            MakeOutcome::Done { seed, made: told } => made(alloc, *seed, told),
            MakeOutcome::Stopped(error) => error.report(alloc),
        }
    }
}

/// Frames that were packed or unpacked.
impl Ends for PackSummary {
    ghost ending = { packed_ending };

    #[tactic(auto, unfolding(crate::specs::Packing::packed_ending))]
    fn report(&self, alloc: Global) -> Result<Report, AllocError> {
        Report::new(
            alloc,
            0,
            &[
                ("frames ", u128::from(self.frames)),
                (" bytes ", u128::from(self.bytes)),
            ],
        )
    }
}

impl Ends for PackOutcome {
    ghost ending = { pack_ending };

    #[tactic(auto, unfolding(crate::specs::Packing::pack_ending))]
    fn report(&self, alloc: Global) -> Result<Report, AllocError> {
        match self {
            PackOutcome::Packed(summary) => summary.report(alloc),
            PackOutcome::Unfit(first) => unfit(alloc, first),
            PackOutcome::Stopped(error) => error.report(alloc),
        }
    }
}

impl Ends for UnpackOutcome {
    ghost ending = { unpack_ending };

    #[tactic(auto, unfolding(crate::specs::Packing::unpack_ending))]
    fn report(&self, alloc: Global) -> Result<Report, AllocError> {
        match self {
            UnpackOutcome::Unpacked(summary) => summary.report(alloc),
            UnpackOutcome::Stopped(error) => error.report(alloc),
        }
    }
}
