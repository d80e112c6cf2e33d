//! What is counted of a sequence.
ghost use Rattle.std.specs.Prelude.{◌≡◌, ◌<◌};
ghost use Rattle.m2v_audit.specs.Report.{once_more, no_tally, count_of, counts_with, with_rule, with_warned, with_failing, before_of, after_of, least, is_off, with_due};

use crate::account::Due;
use m2v_vbv::Removed;

/// How often a rule was broken.
#[derive(Clone, Copy)]
pub struct RuleCount {
    pub how_often: u64,
    /// The picture where it was broken first; 0 where it wasn't.
    pub picture: u64,
}

impl RuleCount {
    /// It is broken once more, at this picture.
    fn once_more(self, picture: u64) -> RuleCount
        ensures { result ≡ once_more self picture }
    {
        RuleCount {
            how_often: self.how_often.saturating_add(1),
            picture: if self.how_often == 0 {
                picture
            } else {
                self.picture
            },
        }
    }
}

/// What is counted of a sequence.
#[derive(Clone, Copy)]
pub struct Tally {
    /// How often each rule was broken: rule n in place n, and none in place 0.
    pub counts: [RuleCount; 96],
    pub breaches: u64,
    pub failures: u64,
    pub warnings: u64,
    /// The least number of bits that the buffer held after a picture.
    pub low: Option<u64>,
    /// The greatest number of bits that the buffer held before a picture.
    pub high: u64,
    /// The pictures whose vbv_delay isn't the one that their removal implies.
    pub delays: u64,
    /// When the last picture was due, from when the first picture was due, in units of 1/720,000 s.
    pub time: u128,
}

impl Tally {
    /// Nothing was counted.
    pub(crate) fn new() -> Tally
        ensures { result ≡ no_tally }
    {
        Tally {
            counts: [RuleCount {
                how_often: 0,
                picture: 0,
            }; 96],
            breaches: 0,
            failures: 0,
            warnings: 0,
            low: None,
            high: 0,
            delays: 0,
            time: 0,
        }
    }

    /// How often a rule was broken.
    pub(crate) fn count(&self, rule: u8) -> RuleCount
        requires { rule < 96 }
        ensures { result ≡ count_of self.now rule }
    {
        self.counts[usize::from(rule)]
    }

    /// A rule is told once more, at a picture.
    fn rule(&mut self, rule: u8, picture: u64)
        ensures { self.new ≡ record self.old { counts = counts_with self.old rule picture } }
    {
        if rule < 96 {
            self.counts[usize::from(rule)] = self.count(rule).once_more(picture);
        }
    }

    /// A rule is broken at a picture.
    pub(crate) fn breach(&mut self, rule: u8, picture: u64)
        ensures { self.new ≡ with_rule self.old rule picture }
    {
        self.rule(rule, picture);
        self.breaches = self.breaches.saturating_add(1);
    }

    /// A warning comes at a picture.
    pub(crate) fn warning(&mut self, rule: u8, picture: u64)
        ensures { self.new ≡ with_warned self.old rule picture }
    {
        self.rule(rule, picture);
        self.warnings = self.warnings.saturating_add(1);
    }

    /// The buffer fails.
    pub(crate) fn failure(&mut self)
        ensures { self.new ≡ with_failing self.old }
    {
        self.failures = self.failures.saturating_add(1);
    }

    /// A picture is removed, at constant rate or not.
    pub(crate) fn removal(&mut self, constant: bool, due: &Due, told: &Removed)
        ensures { self.new ≡ with_due self.old constant due.now told.now }
    {
        self.low = Some(least(self.low, after_of(told)));
        self.high = self.high.max(before_of(told));
        if is_off(constant, due, told) {
            self.delays = self.delays.saturating_add(1);
        }
        self.time = told.time;
    }
}

/// The bits that are held when a picture is due, rounded down.
pub(crate) fn before_of(told: &Removed) -> u64
    ensures { result ≡ before_of told.now }
{
    told.have / 1800
}

/// Those of them that aren't the picture's; none where the decoder waits for it.
pub(crate) fn after_of(told: &Removed) -> u64
    ensures { result ≡ after_of told.now }
{
    told.have.saturating_sub(told.need) / 1800
}

/// The lesser of two amounts, of which the first may be missing.
fn least(low: Option<u64>, n: u64) -> u64
    ensures { result ≡ least low n }
{
    match low {
        Some(low) => low.min(n),
        None => n,
    }
}

/// The vbv_delay of a picture, but the first, isn't the one that its removal implies; at variable rate none is implied.
fn is_off(constant: bool, due: &Due, told: &Removed) -> bool
    ensures { result ≡ is_off constant due.now told.now }
{
    constant && due.number != 0 && u128::from(due.delay) != told.delay
}
