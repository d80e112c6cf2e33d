//! What the plan by the source is made of.
ghost use Rattle.std.specs.Prelude.{◌≡◌, ◌+◌, ◌≤◌, ◌<◌, true, length};
ghost use Rattle.m2v_set.specs.Rules.{is_even};
ghost use Rattle.m2v_rate.specs.Sharing.{IsOutlook};
ghost use Rattle.m2v_rate.specs.Plans.{incomes_of as incomes_in, last_measured, outlook_of as outlook_in};

use crate::columns::Numbers;
use crate::ledger::Ledger;
use crate::outlook::{Measured, Outlook};
use crate::quantisers::last_before;
use crate::states::{arriving, low_before, mean_before};

/// The bits that arrive behind each picture of the group.
pub fn incomes_of(ledger: &Ledger) -> Numbers
    ensures value { result ≡ incomes_in ledger.now }
{
    let _steady = ledger.settings();
    let mut incomes = Numbers::none();
    for j in 0..ledger.pictures() {
        incomes.push((arriving(ledger, j) / 1800) as u32);
    }
    incomes
}

/// What was measured of the last picture of a type that the plan of picture p knows.
fn last_measured(ledger: &Ledger, kind: u8, p: u32) -> Option<Measured>
    requires known { p ≤ length ledger.now.sizes + 3 }
    ensures value { result ≡ last_measured ledger.now kind p }
{
    match last_before(ledger, kind, p.saturating_sub(3)) {
        Some(known) => Some(known.measured),
        None => None,
    }
}

/// What the plan of picture p is made of, with the bits that arrive.
pub fn outlook_of<'a>(ledger: &'a Ledger, incomes: &'a Numbers, p: u32) -> Outlook<'a>
    requires even { is_even ledger.now.settings.planning ≡ true }
    requires incomes { incomes.now ≡ incomes_in ledger.now }
    requires picture { p < length ledger.now.kinds }
    requires known { p ≤ length ledger.now.sizes + 3 }
    requires planned { p ≤ length ledger.now.caps }
    ensures value { result ≡ outlook_in ledger.now p }
    ensures group { IsOutlook result }
{
    let _steady = ledger.settings();
    Outlook {
        kinds: ledger.kinds(),
        activities: ledger.activities(),
        incomes: incomes.items(),
        last_i: last_measured(ledger, 1, p),
        last_p: last_measured(ledger, 2, p),
        last_b: last_measured(ledger, 3, p),
        mean: mean_before(ledger, p) / 1800,
        low: low_before(ledger, p) / 1800,
        start: ledger.held_first(),
    }
}
