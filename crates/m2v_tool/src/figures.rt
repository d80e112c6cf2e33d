// The lines with numbers that several outcomes tell, or that have many.
ghost use Rattle.std.specs.Prelude.{◌≡◌, IfOk};
ghost use Rattle.m2v_mend.specs.Making.{fault_told};
ghost use Rattle.m2v_mend.specs.m2v_law_seam.Told.{all_kept, some_kept, none_kept};
ghost use Rattle.m2v_tool.specs.Endings.{IsReport, coded_ending, unfit_ending};
ghost use Rattle.m2v_tool.specs.Auditing.{clean_ending, found_ending};
ghost use Rattle.m2v_tool.specs.Checking.{lawful_ending, variable_ending};
ghost use Rattle.m2v_tool.specs.Making.{made_ending};
ghost use Rattle.m2v_tool.specs.Mending.{told_ending};

use crate::report::Report;
use m2v_audit::TotalRecord;
use m2v_cut::decode::{Fault, fault_word};
use m2v_make::Made;
use m2v_make::check::Figures;
use m2v_set::Unfit;
use std::alloc::{AllocError, Global};

/// The report of a stream that was coded.
pub(crate) fn coded(
    alloc: Global,
    frames: u64,
    pictures: u64,
    bytes: u64,
    stuffing: u64,
) -> Result<Report, AllocError>
    ensures { IfOk result (λ r. IsReport r (coded_ending frames pictures bytes stuffing)) }
{
    Report::new(
        alloc,
        0,
        &[
            ("frames ", u128::from(frames)),
            (" pictures ", u128::from(pictures)),
            (" bytes ", u128::from(bytes)),
            (" stuffing ", u128::from(stuffing)),
        ],
    )
}

/// The report of a stream that breaks no rule and that the buffer bears.
#[tactic(auto, unfolding(crate::specs::Checking::lawful_ending))]
pub(crate) fn lawful(alloc: Global, figures: &Figures) -> Result<Report, AllocError>
    ensures { IfOk result (λ r. IsReport r (lawful_ending figures.now)) }
{
    Report::new(
        alloc,
        0,
        &[
            ("lawful frames ", u128::from(figures.frames)),
            (" pictures ", u128::from(figures.pictures)),
            (" bytes ", u128::from(figures.bytes)),
            (" low ", figures.low),
            (" high ", figures.high),
            (" delays ", u128::from(figures.delays)),
        ],
    )
}

/// The report of a stream that breaks no rule and whose rate is variable.
#[tactic(auto, unfolding(crate::specs::Checking::variable_ending))]
pub(crate) fn variable(alloc: Global, figures: &Figures) -> Result<Report, AllocError>
    ensures { IfOk result (λ r. IsReport r (variable_ending figures.now)) }
{
    Report::new(
        alloc,
        0,
        &[
            ("variable frames ", u128::from(figures.frames)),
            (" pictures ", u128::from(figures.pictures)),
            (" bytes ", u128::from(figures.bytes)),
        ],
    )
}

/// The report of an input in which nothing was found.
#[tactic(auto, unfolding(crate::specs::Auditing::clean_ending))]
pub(crate) fn clean(alloc: Global, totals: &TotalRecord) -> Result<Report, AllocError>
    ensures { IfOk result (λ r. IsReport r (clean_ending totals.now)) }
{
    Report::new(
        alloc,
        0,
        &[
            ("clean sequences ", u128::from(totals.sequences)),
            (" pictures ", u128::from(totals.pictures)),
            (" bytes ", u128::from(totals.bytes)),
            (" warnings ", u128::from(totals.warnings)),
        ],
    )
}

/// The report of an input in which something was found.
#[tactic(auto, unfolding(crate::specs::Auditing::found_ending))]
pub(crate) fn found(alloc: Global, totals: &TotalRecord) -> Result<Report, AllocError>
    ensures { IfOk result (λ r. IsReport r (found_ending totals.now)) }
{
    Report::new(
        alloc,
        18,
        &[
            ("found sequences ", u128::from(totals.sequences)),
            (" pictures ", u128::from(totals.pictures)),
            (" bytes ", u128::from(totals.bytes)),
            (" breaches ", u128::from(totals.breaches)),
            (" failures ", u128::from(totals.failures)),
            (" warnings ", u128::from(totals.warnings)),
        ],
    )
}

/// The report of an input of which no picture was left out.
pub(crate) fn all(
    alloc: Global,
    groups: u64,
    pictures: u64,
    bytes: u64,
) -> Result<Report, AllocError>
    ensures { IfOk result (λ r. IsReport r (told_ending (all_kept groups pictures bytes))) }
{
    Report::new(
        alloc,
        0,
        &[
            ("groups ", u128::from(groups)),
            (" pictures ", u128::from(pictures)),
            (" bytes ", u128::from(bytes)),
        ],
    )
}

/// The report of one of which some were.
pub(crate) fn some(
    alloc: Global,
    groups: u64,
    of_groups: u64,
    pictures: u64,
    of_pictures: u64,
    bytes: u64,
) -> Result<Report, AllocError>
    ensures { IfOk result (λ r. IsReport r
        (told_ending (some_kept groups of_groups pictures of_pictures bytes))) }
{
    Report::new(
        alloc,
        18,
        &[
            ("groups ", u128::from(groups)),
            (" of ", u128::from(of_groups)),
            (" pictures ", u128::from(pictures)),
            (" of ", u128::from(of_pictures)),
            (" bytes ", u128::from(bytes)),
        ],
    )
}

/// The report of an input of which nothing was kept: the first fault.
#[tactic(auto, unfolding(crate::specs::Mending::told_ending))]
pub(crate) fn nothing(alloc: Global, fault: &Fault) -> Result<Report, AllocError>
    ensures { IfOk result (λ r. IsReport r (told_ending (none_kept (fault_told fault.now)))) }
{
    let word = fault_word(fault.kind);
    Report::placed(
        alloc,
        19,
        "nothing kept stream ",
        word,
        " at bit ",
        fault.place,
    )
}

/// The report of a stream that was made.
#[tactic(auto, unfolding(crate::specs::Making::made_ending))]
pub(crate) fn made(alloc: Global, seed: u64, made: &Made) -> Result<Report, AllocError>
    ensures { IfOk result (λ r. IsReport r (made_ending seed made.now)) }
{
    Report::new(
        alloc,
        0,
        &[
            ("make seed ", u128::from(seed)),
            (" frames 48 bytes ", u128::from(made.bytes)),
            (" stuffing ", u128::from(made.stuffing)),
            (" low ", made.low),
            (" high ", made.high),
            (" delays ", u128::from(made.delays)),
        ],
    )
}

/// The settings don't pass: the first condition that fails.
#[tactic(auto, unfolding(crate::specs::Endings::unfit_ending))]
pub(crate) fn unfit(alloc: Global, unfit: &Unfit) -> Result<Report, AllocError>
    ensures { IfOk result (λ r. IsReport r (unfit_ending unfit.now)) }
{
    Report::new(
        alloc,
        3,
        &[
            ("unfit rule ", u128::from(unfit.rule)),
            (" have ", unfit.have),
            (" need ", unfit.need),
        ],
    )
}
