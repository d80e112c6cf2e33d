//! The conditions of the published test, in order.
ghost use Rattle.std.specs.Prelude.{◌≡◌, ◌≤◌, ◌%◌, IsTrue, OnOk};
ghost use Rattle.m2v_set.specs.Rules.{judge, judged, at_least, at_most, is_zero, is_progressive, line_step, scan_number, frame_rules, channel_rules, buffer_rules, delay_rules, choice_rules, pulldown_rules, quantiser_rules, rules};

use crate::limits::{Limits, limits_at};
use crate::numbers;
use crate::settings::{Scan, Settings};
use crate::unfit::Unfit;

/// A condition on two numbers passes, or its rule and they are told.
#[tactic(auto, unfolding(crate::specs::Rules::judge))]
fn judge(rule: u8, have: u128, need: u128, holds: bool) -> Result<(), Unfit>
    ensures value { result ≡ judge (record { rule = rule; have = have; need = need; holds = holds }) }
    ensures holds { OnOk result (IsTrue holds) }
{
    if holds {
        Ok(())
    } else {
        Err(Unfit { rule, have, need })
    }
}

/// The value is at least the bound.
pub fn at_least(rule: u8, have: u128, need: u128) -> Result<(), Unfit>
    ensures value { result ≡ judge (at_least rule have need) }
    ensures holds { OnOk result (need ≤ have) }
{
    judge(rule, have, need, need <= have)
}

/// The value is at most the bound.
pub fn at_most(rule: u8, have: u128, need: u128) -> Result<(), Unfit>
    ensures value { result ≡ judge (at_most rule have need) }
    ensures holds { OnOk result (have ≤ need) }
{
    judge(rule, have, need, have <= need)
}

/// The remainder is 0.
fn is_zero(rule: u8, have: u128) -> Result<(), Unfit>
    ensures value { result ≡ judge (is_zero rule have) }
    ensures holds { OnOk result (have ≡ 0) }
{
    judge(rule, have, 0, have == 0)
}

/// What the lines of a frame are a multiple of.
#[tactic(auto, unfolding(crate::specs::Rules::is_progressive))]
fn line_step(scan: Scan) -> u128
    ensures value { result ≡ line_step scan }
    ensures least { 2 ≤ result }
{
    match scan {
        Scan::Progressive => 2,
        Scan::Frames | Scan::Fields => 4,
    }
}

/// Rule 1, first part: size, rate code and luma rate.
#[tactic(auto, unfolding(crate::specs::Rules::frame_rules, crate::specs::Rules::judged, crate::specs::Rules::and_then))]
pub fn frame(limit: &Limits, scan: Scan, width: u32, height: u32, code: u32) -> Result<(), Unfit>
    ensures value { result ≡ judged (frame_rules limit.now scan width height code) }
    ensures wide { OnOk result (2 ≤ width) }
    ensures width { OnOk result (width ≤ limit.now.width) }
    ensures tall { OnOk result (2 ≤ height) }
    ensures height { OnOk result (height ≤ limit.now.height) }
{
    at_least(1, u128::from(width), 2)?;
    at_most(1, u128::from(width), u128::from(limit.width))?;
    is_zero(1, u128::from(width % 2))?;
    at_least(1, u128::from(height), line_step(scan))?;
    at_most(1, u128::from(height), u128::from(limit.height))?;
    is_zero(1, u128::from(height) % line_step(scan))?;
    at_least(1, u128::from(code), 1)?;
    at_most(1, u128::from(code), u128::from(limit.codes))?;
    at_most(
        1,
        720_000 * u128::from(width) * u128::from(height),
        u128::from(u64::from(limit.luma) * (2 * numbers::time_of_field(code))),
    )
}

/// Rule 1, second part: rate and buffer.
#[tactic(auto, unfolding(crate::specs::Rules::channel_rules, crate::specs::Rules::judged, crate::specs::Rules::and_then))]
pub fn channel(limit: &Limits, settings: &Settings) -> Result<(), Unfit>
    ensures value { result ≡ judged (channel_rules limit.now settings.now) }
    ensures holds { OnOk result (1 ≤ settings.now.bits) }
{
    at_least(1, u128::from(settings.bits), 1)?;
    at_most(1, u128::from(settings.bits), u128::from(limit.bits))?;
    at_least(1, u128::from(settings.buffer), 1)?;
    at_most(1, u128::from(settings.buffer), u128::from(limit.buffer))
}

/// Rules 2, 3 and 4: an emergency picture arrives in time, the buffer takes what arrives and such a picture, and it is
/// full before a delay passes its 16 bits.
#[tactic(auto, unfolding(crate::specs::Rules::buffer_rules, crate::specs::Rules::judged, crate::specs::Rules::and_then))]
pub fn buffer(settings: &Settings) -> Result<(), Unfit>
    ensures value { result ≡ judged (buffer_rules settings.now) }
{
    let bits = settings.bits;
    let buffer = u128::from(numbers::buffer(settings));
    let least = u128::from(numbers::least(settings));
    at_least(2, u128::from(numbers::arrival(settings)), 1800 * least)?;
    at_least(
        3,
        1800 * buffer,
        u128::from(numbers::longest(settings)) + 14_400,
    )?;
    at_least(3, 1800 * buffer.saturating_sub(8), 1800 * least)?;
    at_most(4, 1800 * buffer, 8 * u128::from(bits) * 65_534)
}

/// Rule 5: before the first picture is due, an emergency picture has arrived, and no more than the buffer takes.
#[tactic(auto, unfolding(crate::specs::Rules::delay_rules, crate::specs::Rules::judged, crate::specs::Rules::and_then))]
pub fn delay(settings: &Settings) -> Result<(), Unfit>
    requires rate { 1 ≤ settings.now.bits }
    ensures value { result ≡ judged (delay_rules settings.now) }
{
    let bits = settings.bits;
    let arrived = 8 * u128::from(bits) * u128::from(numbers::delay(settings));
    let least = u128::from(numbers::least(settings));
    at_least(5, arrived, 1800 * (least + 272))?;
    at_most(
        5,
        arrived + 489_600,
        1800 * u128::from(numbers::buffer(settings)),
    )
}

/// Rule 6, first part: what is chosen freely.
#[tactic(auto, unfolding(crate::specs::Rules::choice_rules, crate::specs::Rules::judged, crate::specs::Rules::and_then))]
pub fn choices(settings: &Settings) -> Result<(), Unfit>
    ensures value { result ≡ judged (choice_rules settings.now) }
{
    at_least(6, u128::from(settings.group), 1)?;
    at_most(6, u128::from(settings.group), 60)?;
    at_least(6, u128::from(settings.step), 1)?;
    at_most(6, u128::from(settings.step), 4)?;
    is_zero(6, u128::from(settings.group % settings.step))?;
    at_most(6, u128::from(settings.search), 15)?;
    at_least(6, u128::from(settings.aspect), 1)?;
    at_most(6, u128::from(settings.aspect), 4)?;
    at_least(6, u128::from(settings.workers), 1)?;
    at_most(6, u128::from(settings.workers), 16)
}

/// The scan by number, as rule 6 tells it.
#[tactic(auto, unfolding(crate::specs::Rules::scan_number))]
fn scan_number(scan: Scan) -> u128
    ensures value { result ≡ scan_number scan }
{
    match scan {
        Scan::Progressive => 0,
        Scan::Frames => 1,
        Scan::Fields => 2,
    }
}

/// Rule 6, second part: pulldown is for scan frames at 30000/1001 or 30 frames a second.
#[tactic(auto, unfolding(crate::specs::Rules::pulldown_rules, crate::specs::Rules::judged, crate::specs::Rules::and_then))]
pub fn pulldown(settings: &Settings) -> Result<(), Unfit>
    ensures value { result ≡ judged (pulldown_rules settings.now) }
{
    at_least(6, scan_number(settings.scan), 1)?;
    at_most(6, scan_number(settings.scan), 1)?;
    at_least(6, u128::from(settings.rate_code), 4)?;
    at_most(6, u128::from(settings.rate_code), 5)
}

/// Rule 7: the quantiser of the flat profile.
#[tactic(auto, unfolding(crate::specs::Rules::quantiser_rules, crate::specs::Rules::judged, crate::specs::Rules::and_then))]
pub fn quantiser(code: u32) -> Result<(), Unfit>
    ensures value { result ≡ judged (quantiser_rules code) }
    ensures least { OnOk result (1 ≤ code) }
    ensures most { OnOk result (code ≤ 31) }
{
    at_least(7, u128::from(code), 1)?;
    at_most(7, u128::from(code), 31)
}

/// All rules of the encoder's settings.
#[tactic(auto, unfolding(crate::specs::Rules::judged, crate::specs::Rules::and_then), using(crate::proofs::Judged::in_turn))]
pub fn all(settings: &Settings) -> Result<(), Unfit>
    ensures value { result ≡ judged (rules settings.now) }
{
    let limit = limits_at(settings.level);
    frame(
        &limit,
        settings.scan,
        settings.width,
        settings.height,
        settings.rate_code,
    )?;
    channel(&limit, settings)?;
    buffer(settings)?;
    delay(settings)?;
    choices(settings)?;
    if settings.pulldown {
        return pulldown(settings);
    }
    Ok(())
}
