//! What was left out.
ghost use Rattle.std.specs.Prelude.{◌≡◌, ◌+◌, map, nat_eq, IfOk, OnOk};
ghost use Rattle.m2v_law_seam.specs.Mending.{joins, both_gaps, with_gap};
ghost use Rattle.m2v_mend.specs.Making.{gap_told};

use crate::Memory;
use crate::sums::sum;
use m2v_decode::Fault;

/// Bytes of the input that were left out: how many frames are shown before them in the mended stream, the byte at which they
/// begin, how many they are, how many picture units they have, and why. Leading B pictures have no fault.
#[derive(Clone, Copy, Debug, PartialEq, Eq)]
pub struct Gap {
    pub frames: u64,
    pub from: u64,
    pub bytes: u64,
    pub pictures: u64,
    pub fault: Option<Fault>,
}

impl Gap {
    /// It ends where another one begins.
    fn ends_at(&self, place: u64) -> bool
        ensures { result ≡ nat_eq (self.now.from + self.now.bytes) place }
    {
        place >= self.from && place - self.from == self.bytes
    }

    /// Two gaps of spans that stand one behind the other are one.
    fn joins(&self, next: &Gap) -> bool
        ensures { result ≡ joins (gap_told self.now) (gap_told next.now) }
    {
        self.fault.is_some() && next.fault.is_some() && self.ends_at(next.from)
    }

    /// Both as one, with the place and the fault of the first.
    fn with(&self, next: &Gap) -> Result<Gap, Memory>
        ensures { IfOk result (λ g. gap_told g ≡ both_gaps (gap_told self.now) (gap_told next.now)) }
    {
        Ok(Gap {
            frames: self.frames,
            from: self.from,
            bytes: sum(self.bytes, next.bytes)?,
            pictures: sum(self.pictures, next.pictures)?,
            fault: self.fault,
        })
    }
}

/// One gap more: it joins the last one, or stands behind it.
pub(crate) fn push_gap(gaps: &mut Vec<Gap>, gap: Gap) -> Result<(), Memory>
    ensures { OnOk result (map gap_told gaps.new.items
        ≡ with_gap (map gap_told gaps.old.items) (gap_told gap)) }
{
    let Some(last) = gaps.pop() else {
        gaps.push(gap)?;
        return Ok(());
    };
    if last.joins(&gap) {
        let both = last.with(&gap)?;
        gaps.push(both)?;
        return Ok(());
    }
    gaps.push(last)?;
    gaps.push(gap)?;
    Ok(())
}
