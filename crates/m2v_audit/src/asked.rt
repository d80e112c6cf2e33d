//! What is asked of an audit.
ghost use Rattle.std.specs.Prelude.{◌≡◌};
ghost use Rattle.m2v_audit.specs.Audited.{asked_behind};

use crate::auditor::Auditor;
use m2v_model::Sequence;
use m2v_strict::RuleSet;

/// Which rules are looked at, and what is told.
#[derive(Clone, Copy, Debug, PartialEq, Eq)]
pub struct Asked {
    /// The rules beside those of the Main profile.
    pub rules: RuleSet,
    /// Each picture is told, and what the buffer holds when it is removed.
    pub pictures: bool,
    /// The first sequence header of all, where sequences came before; None of a whole input.
    pub first: Option<Sequence>,
}

impl Asked {
    /// What is asked of the texts behind a sequence.
    pub(crate) fn behind(&self, auditor: &Auditor) -> Asked
        ensures { result ≡ asked_behind self.now auditor.now }
    {
        Asked {
            first: self.first.or(auditor.first()),
            ..*self
        }
    }
}
