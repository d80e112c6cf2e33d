// What the times from one removal to the next have to do with those that `check` goes by.
ghost use Rattle.std.specs.Prelude.{ℕ, Bool, List};
ghost use Rattle.std.specs.List.{AllByRecursion};
ghost use Rattle.m2v_strict.specs.m2v_check.declared.coded.CodedPicture.{CodedPicture};
ghost use Rattle.m2v_strict.specs.m2v_check.declared.times.Times.{Times as Checked};
ghost use Rattle.m2v_audit.specs.Times.{IsOnce, IsSameStep, AreIntervals};

/// Where no frame is repeated in a progressive sequence, the times are those of the account by which `check` judges: one
/// step keeps what both keep alike, and all times of a sequence are the intervals of its account.
pub fn law_times_as_checked()
    ensures step { (c : Checked) (p : CodedPicture) → IsOnce p → IsSameStep c p }
    ensures all { (low_delay : Bool) (code : ℕ) (ps : List CodedPicture) → AllByRecursion IsOnce ps
        → AreIntervals low_delay code ps }
{}
