ghost use Rattle.std.specs.Prelude.{◌≡◌, ℕ};
ghost use Rattle.m2v_model.specs.Lawful.{breach, judge, at_most, within};
ghost use Rattle.m2v_check.specs.Breaking.{told, told_at, told_by, first_some, found};

/// A rule that a stream breaks, and the two numbers that it compares.
#[derive(Clone, Copy, Debug, PartialEq, Eq)]
pub struct BrokenRule {
    /// The number of the rule, from 1 to 15.
    pub rule: u8,
    /// The number of the picture in decoding order, from 0.
    pub picture: u64,
    /// What the stream has.
    pub have: u128,
    /// What the rule needs.
    pub need: u128,
}

/// The breach of a rule at a picture.
pub(crate) fn broken(rule: u8, picture: u64, have: u128, need: u128) -> BrokenRule
    ensures { result ≡ record { rule = rule; picture = picture; have = have; need = need } }
{
    BrokenRule {
        rule,
        picture,
        have,
        need,
    }
}

/// The first of two breaches.
pub fn either(a: Option<BrokenRule>, b: Option<BrokenRule>) -> Option<BrokenRule>
    ensures value { result ≡ first_some a b }
{
    match a {
        Some(_) => a,
        None => b,
    }
}

/// The first breach of several places in turn.
pub fn first_of(places: &[Option<BrokenRule>]) -> Option<BrokenRule>
    ensures value { result ≡ found (told_by places.now) }
{
    for place in places {
        if let Some(broken) = place {
            return Some(*broken);
        }
    }
    None
}

/// The breach of a rule that may hold.
pub fn judge(holds: bool, broken: BrokenRule) -> Option<BrokenRule>
    ensures value { told_at result ≡ judge holds (told broken) }
{
    if holds { None } else { Some(broken) }
}

/// A rule that what the stream has is at most what is needed.
pub fn at_most(rule: u8, picture: u64, have: u128, need: u128) -> Option<BrokenRule>
    ensures value { told_at result ≡ at_most rule picture have need }
{
    judge(have <= need, broken(rule, picture, have, need))
}

/// A rule that what the stream has lies from one bound to another; the nearer one is needed.
pub fn within(rule: u8, picture: u64, have: u128, low: u128, high: u128) -> Option<BrokenRule>
    ensures value { told_at result ≡ within rule picture have low high }
{
    if have < low {
        return Some(broken(rule, picture, have, low));
    }
    at_most(rule, picture, have, high)
}
