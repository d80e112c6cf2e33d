//! What a plan is made of.
ghost use Rattle.std.specs.Prelude.{◌≡◌, ◌^◌, ◌<◌, ◌≤◌, IfSome, length};
ghost use Rattle.m2v_rate.specs.Sharing.{complexity, coarseness, last_of, kind_at, complexity_at, need, income, IsMeasured, IsPictureActivity, IsIncome, IsOutlook};

use std::marker::Model;

/// A picture by its source and by what its code took: its activity, and its work, which is the sum of bits times quantiser
/// over its macroblocks.
#[derive(Clone, Copy, Debug, PartialEq, Eq)]
pub struct Measured {
    /// Below 2^29.
    pub work: u32,
    /// Below 2^30.
    pub activity: u32,
}

/// What the plans of a group's pictures are made of; lists are in coding order, amounts in bits.
#[derive(Drop)]
pub struct Outlook<'a> {
    /// picture_coding_type (table 6-12) of each picture: 1 I, 2 P, 3 B.
    pub kinds: &'a [u8],
    /// The activity of each picture.
    pub activities: &'a [u32],
    /// What arrives behind each picture.
    pub incomes: &'a [u32],
    /// The last I picture that is known.
    pub last_i: Option<Measured>,
    /// The last P picture that is known.
    pub last_p: Option<Measured>,
    /// The last B picture that is known.
    pub last_b: Option<Measured>,
    /// What is held when the picture is due, if each before it has its target.
    pub mean: u64,
    /// What is held then at least.
    pub low: u64,
    /// What is held where a stream begins.
    pub start: u64,
}

impl<'a> Model for Outlook<'a> {
    ghost use Rattle.m2v_rate.specs.Sharing.{Outlook};

    ghost Value = { Outlook };

    ghost view = { λ o. record {
      kinds = o.kinds.now;
      activities = o.activities.now;
      incomes = o.incomes.now;
      last_i = o.last_i;
      last_p = o.last_p;
      last_b = o.last_b;
      mean = o.mean;
      low = o.low;
      start = o.start;
    } };
}

/// The work that a picture is likely to take, by the last one of its type.
#[tactic(auto, unfolding(crate::specs::Sharing::complexity))]
fn complexity(last: Option<Measured>, activity: u32) -> u32
    requires last { IfSome last IsMeasured }
    requires active { IsPictureActivity activity }
    ensures value { result ≡ complexity last activity }
    ensures most { result < 2 ^ 30 }
{
    match last {
        None => activity / 4,
        Some(known) => by_last(known, activity),
    }
}

/// The same, where one is known.
#[tactic(auto, using(crate::proofs::Targets::part_most), unfolding(crate::specs::Sharing::complexity))]
fn by_last(known: Measured, activity: u32) -> u32
    requires known { IsMeasured known }
    requires active { IsPictureActivity activity }
    ensures value { result ≡ complexity (Some known) activity }
    ensures most { result < 2 ^ 30 }
{
    if activity > known.activity {
        return known.work + (activity - known.activity) / 4;
    }
    (u64::from(known.work) * u64::from(activity) / u64::from(known.activity)) as u32
}

/// How coarsely a type of picture is coded.
#[tactic(auto, unfolding(crate::specs::Sharing::coarseness))]
pub(crate) fn coarseness(kind: u8) -> u64
    ensures value { result ≡ coarseness kind }
    ensures some { 13 ≤ result }
    ensures most { result ≤ 20 }
{
    match kind {
        1 => 13,
        2 => 16,
        _ => 20,
    }
}

impl<'a> Outlook<'a> {
    /// How many pictures the group has.
    pub(crate) fn pictures(&self) -> usize
        ensures value { result ≡ length self.now.kinds }
    {
        self.kinds.len()
    }

    /// The type of a picture.
    pub(crate) fn kind(&self, j: usize) -> u8
        requires picture { j < length self.now.kinds }
        ensures value { result ≡ kind_at self.now j }
    {
        self.kinds[j]
    }

    /// What arrives behind a picture.
    pub(crate) fn income(&self, j: usize) -> u64
        requires group { IsOutlook self.now }
        requires picture { j < length self.now.kinds }
        ensures value { result ≡ income self.now j }
        ensures range { IsIncome result }
    {
        u64::from(self.incomes[j])
    }

    /// The last known picture of a type.
    fn last_of(&self, kind: u8) -> Option<Measured>
        requires group { IsOutlook self.now }
        ensures value { result ≡ last_of self.now kind }
        ensures measured { IfSome result IsMeasured }
    {
        match kind {
            1 => self.last_i,
            2 => self.last_p,
            _ => self.last_b,
        }
    }

    /// The work that a picture of the group is likely to take.
    #[tactic(auto, unfolding(crate::specs::Sharing::complexity_at))]
    pub(crate) fn complexity(&self, j: usize) -> u64
        requires group { IsOutlook self.now }
        requires picture { j < length self.now.kinds }
        ensures value { result ≡ complexity_at self.now j }
        ensures most { result < 2 ^ 30 }
    {
        u64::from(complexity(self.last_of(self.kind(j)), self.activities[j]))
    }

    /// What a picture of the group wants.
    #[tactic(auto, unfolding(crate::specs::Sharing::need))]
    pub(crate) fn need(&self, j: usize) -> u64
        requires group { IsOutlook self.now }
        requires picture { j < length self.now.kinds }
        ensures value { result ≡ need self.now j }
        ensures most { result < 2 ^ 31 }
    {
        16 * self.complexity(j) / coarseness(self.kind(j))
    }
}
