//! The sets of rules that `audit` is asked for.
ghost use Rattle.std.specs.Prelude.{◌≡◌};
ghost use Rattle.m2v_strict.specs.RuleSets.{name_of};

/// Which rules are looked at beside those of the standard.
#[derive(Clone, Copy, Debug, PartialEq, Eq)]
pub enum RuleSet {
    /// None: those of the Main profile alone.
    Main,
    /// Those of a video DVD.
    Dvd,
    /// Those of broadcasts at 25 Hz (ETSI TS 101 154).
    Dvb,
    /// Those of American broadcasts (A/53 Part 4).
    Atsc,
}

impl RuleSet {
    /// Its name.
    #[tactic(auto, unfolding(crate::specs::RuleSets::name_of))]
    pub fn name(self) -> &'static str
        ensures { result.now ≡ name_of self }
    {
        match self {
            RuleSet::Main => "main",
            RuleSet::Dvd => "dvd",
            RuleSet::Dvb => "dvb",
            RuleSet::Atsc => "atsc",
        }
    }
}
