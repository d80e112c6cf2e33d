ghost use Rattle.m2v_model.specs.Pictures.{Events};
ghost use Rattle.m2v_check.specs.Laws.{IsFound};
ghost use Rattle.std.specs.Prelude.{List};
ghost use Rattle.m2v_vbv.specs.Annex.{Start};
ghost use Rattle.m2v_check.specs.declared.course.Next.{Next};
ghost use Rattle.m2v_check.specs.declared.course.Course.{Course};
ghost use Rattle.m2v_check.specs.Accounts.{Ran, RunsOn};

/// What the rules find as they run, event by event, is the rule that is broken first.
pub fn law_rules()
    ensures { (es : Events) → IsFound es }
{}

/// What the account says as it runs, picture by picture: how it fails first, the most that is held, and how many delays
/// aren't exact.
pub fn law_account()
    ensures { (start : Start) (ts : List Next) (c : Course) → Ran start ts c → RunsOn start ts c }
{}
