// The rules on sequence headers (clause 8), which count as picture 0.
ghost use Rattle.std.specs.Prelude.{◌≡◌, ◌+◌, ◌*◌, ◌<◌, ◌^◌, ◌∷◌, []};
ghost use Rattle.m2v_model.specs.Lawful.{within, at_most, level_in, limits_in, rate_of, buffer_of, level_rule, width_rule, height_rule, luma_rule, rate_rule, buffer_rule, sequence_breaches};
ghost use Rattle.m2v_check.specs.Breaking.{found, told_at, told_by};

use crate::broken::{BrokenRule, at_most, broken, first_of, judge, within};
use crate::level::{Bounds, bounds_at, is_level, level_of, time_of_field};
use m2v_model::Sequence;

/// The bounds of a sequence's level.
fn bounds_of(s: &Sequence) -> Bounds
    ensures width { result.width ≡ (limits_in s.now).width }
    ensures height { result.height ≡ (limits_in s.now).height }
    ensures codes { result.codes ≡ (limits_in s.now).codes }
    ensures luma { result.luma ≡ (limits_in s.now).luma }
    ensures bits { result.bits ≡ (limits_in s.now).bits }
    ensures buffer { result.buffer ≡ (limits_in s.now).buffer }
    ensures most_luma { result.luma < 2 ^ 26 }
{
    bounds_at(level_of(s.extension.profile_and_level))
}

/// The rate of a sequence (bit_rate, clause 6.3.3), in units of 400 bit/s.
pub fn rate_of(s: &Sequence) -> u64
    ensures value { result ≡ rate_of s.now }
    ensures below { result < 2 ^ 51 }
{
    let high = s.extension.bit_rate_ext;
    let low = s.info.bit_rate;
    u64::from(high) * 262_144 + u64::from(low)
}

/// The buffer of a sequence (vbv_buffer_size, clause 6.3.3), in units of 16,384 bits.
pub fn buffer_of(s: &Sequence) -> u64
    ensures value { result ≡ buffer_of s.now }
    ensures below { result < 2 ^ 33 }
{
    let high = s.extension.vbv_ext;
    let low = s.info.vbv_buffer_size;
    u64::from(high) * 1024 + u64::from(low)
}

/// profile_and_level is one that is judged.
#[tactic(auto, unfolding(m2v_model::specs::Lawful::level_rule))]
fn level_rule(s: &Sequence) -> Option<BrokenRule>
    ensures value { told_at result ≡ level_rule s.now }
{
    let code = s.extension.profile_and_level;
    judge(is_level(code), broken(1, 0, u128::from(code), 72))
}

/// The width of a frame.
#[tactic(auto, unfolding(m2v_model::specs::Lawful::width_rule))]
fn width_rule(s: &Sequence) -> Option<BrokenRule>
    ensures value { told_at result ≡ width_rule s.now }
{
    let most = bounds_of(s).width;
    at_most(2, 0, u128::from(s.width()), u128::from(most))
}

/// The height of a frame.
#[tactic(auto, unfolding(m2v_model::specs::Lawful::height_rule))]
fn height_rule(s: &Sequence) -> Option<BrokenRule>
    ensures value { told_at result ≡ height_rule s.now }
{
    let most = bounds_of(s).height;
    at_most(3, 0, u128::from(s.height()), u128::from(most))
}

/// frame_rate_code.
fn code_rule(s: &Sequence) -> Option<BrokenRule>
    ensures value { told_at result
        ≡ within 4 0 s.now.info.frame_rate_code 1 (limits_in s.now).codes }
{
    let most = bounds_of(s).codes;
    let code = s.info.frame_rate_code;
    within(4, 0, u128::from(code), 1, u128::from(most))
}

/// The two numbers that change the frame rate are 0.
fn change_rule(s: &Sequence) -> Option<BrokenRule>
    ensures value { told_at result
        ≡ at_most 4 0 (32 * s.now.extension.rate_n + s.now.extension.rate_d) 0 }
{
    let n = s.extension.rate_n;
    let d = s.extension.rate_d;
    at_most(4, 0, 32 * u128::from(n) + u128::from(d), 0)
}

/// Luma samples in a second.
#[tactic(auto, unfolding(m2v_model::specs::Lawful::luma_rule))]
fn luma_rule(s: &Sequence) -> Option<BrokenRule>
    ensures value { told_at result ≡ luma_rule s.now }
{
    let most = bounds_of(s).luma;
    let time = 2 * time_of_field(s.info.frame_rate_code);
    let samples = 720_000 * u128::from(s.width()) * u128::from(s.height());
    at_most(5, 0, samples, u128::from(most * time))
}

/// The rate of the stream.
#[tactic(auto, unfolding(m2v_model::specs::Lawful::rate_rule))]
fn rate_rule(s: &Sequence) -> Option<BrokenRule>
    ensures value { told_at result ≡ rate_rule s.now }
{
    let most = bounds_of(s).bits;
    within(6, 0, u128::from(rate_of(s)), 1, u128::from(most))
}

/// The size of the buffer.
#[tactic(auto, unfolding(m2v_model::specs::Lawful::buffer_rule))]
fn buffer_rule(s: &Sequence) -> Option<BrokenRule>
    ensures value { told_at result ≡ buffer_rule s.now }
{
    let most = bounds_of(s).buffer;
    within(7, 0, u128::from(buffer_of(s)), 1, u128::from(most))
}

/// The rules on a sequence header, by number: at each place the breach, where there is one. The code of the frame rate
/// and the two numbers that change it are two places of one rule.
#[tactic(auto, unfolding(m2v_model::specs::Lawful::frame_rate_rule))]
pub fn sequence_rules(s: &Sequence) -> [Option<BrokenRule>; 8]
    ensures value { told_by result ≡ sequence_breaches (s.now ∷ []) }
{
    [
        level_rule(s),
        width_rule(s),
        height_rule(s),
        code_rule(s),
        change_rule(s),
        luma_rule(s),
        rate_rule(s),
        buffer_rule(s),
    ]
}

/// The first rule that a sequence header breaks.
pub fn sequence_breach(s: &Sequence) -> Option<BrokenRule>
    ensures value { result ≡ found (sequence_breaches (s.now ∷ [])) }
{
    first_of(&sequence_rules(s))
}
