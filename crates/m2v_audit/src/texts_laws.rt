//! What is told of a worked input.
ghost use Rattle.std.specs.Prelude.{◌≡◌, ◌++◌, codes};
ghost use Rattle.m2v_model.specs.declared.fault.FaultKind.TheVariants.{Truncated};
ghost use Rattle.m2v_strict.specs.RuleSets.{name_of};
ghost use Rattle.m2v_audit.specs.declared.asked.Asked.{Asked};
ghost use Rattle.m2v_audit.specs.declared.outcome.Ending.TheVariants as endings;
ghost use Rattle.m2v_audit.specs.Lines.{audit_line, columns_lines};
ghost use Rattle.m2v_audit.specs.Audited.{audited, then_comes, totalled, none_counted};
ghost use Rattle.m2v_audit.specs.WorkedTexts.{two_broken};

/// All that is told of a worked input of two texts, each with a fault: behind the first fault the second text is told, and
/// the first fault is the one that tells how the audit ends.
pub fn law_texts_worked()
    ensures { (asked : Asked) → audited asked two_broken
        ≡ then_comes (audit_line (name_of asked.rules) ++ columns_lines)
        (then_comes (codes "fault\t0\t32\tTruncated\n")
        (then_comes (codes "fault\t0\t104\tTruncated\n")
        (totalled none_counted (endings.Fault (record { kind = Truncated; place = 32 }))))) }
{}
