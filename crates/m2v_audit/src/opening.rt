// Whether a sequence has an account of the decoder's buffer, and how it begins (Annex C).
ghost use Rattle.std.specs.Prelude.{◌≡◌, ◌*◌, ◌<◌, ◌^◌, ◌&&◌, nat_le, true, Some};
ghost use Rattle.m2v_model.specs.Lawful.{rate_rule, buffer_rule};
ghost use Rattle.m2v_audit.specs.Opening.{keeps, has_frame_rate, has_account, kind_of, step_of, buffer_at_first, first_buffer, CanBegin};

use crate::words::RateKind;
use m2v_model::{PictureNote, Sequence};
use m2v_strict::check::{bounds_at, buffer_of, level_of, rate_of, time_of_field};
use m2v_vbv::Buffer;

/// The vbv_delay of a sequence at variable rate (clause 6.3.9).
pub(crate) const VARIABLE: u32 = 65_535;

/// A number lies from 1 to a bound.
fn is_within(have: u64, most: u64) -> bool
    ensures value { result ≡ (nat_le 1 have && nat_le have most) }
{
    1 <= have && have <= most
}

/// The rate and the buffer keep the rules on them.
#[tactic(auto, using(crate::proofs::Beginning::keeps_rate, crate::proofs::Beginning::keeps_buffer))]
fn keeps_rates(s: &Sequence) -> bool
    ensures value { result ≡ (keeps (rate_rule s.now) && keeps (buffer_rule s.now)) }
{
    let bounds = bounds_at(level_of(s.extension.profile_and_level));
    let rate = is_within(rate_of(s), bounds.bits);
    let buffer = is_within(buffer_of(s), bounds.buffer);
    rate && buffer
}

/// The sequence has a frame rate of table 6-4, which no extension changes.
fn has_frame_rate(s: &Sequence) -> bool
    ensures value { result ≡ has_frame_rate s.now }
{
    let coded = is_within(u64::from(s.info.frame_rate_code), 8);
    coded && (s.extension.rate_n == 0 && s.extension.rate_d == 0)
}

/// A sequence with this first sequence header has an account: its rate and its buffer keep the rules on them, and it has
/// a frame rate.
fn has_account(s: &Sequence) -> bool
    ensures value { result ≡ has_account s.now }
    ensures begin { result ≡ true → CanBegin s.now }
{
    let rates = keeps_rates(s);
    let frames = has_frame_rate(s);
    rates && frames
}

/// The rate of a sequence's account, by its first sequence header and its first picture, if it has one.
pub fn kind_of(s: &Sequence, first: &Option<PictureNote>) -> RateKind
    ensures value { result ≡ kind_of s.now first.now }
{
    match first {
        Some(p) => kind_with(s, p),
        None => RateKind::NoAccount,
    }
}

/// The same, of a sequence with a picture.
fn kind_with(s: &Sequence, p: &PictureNote) -> RateKind
    ensures value { result ≡ kind_of s.now (Some p.now) }
{
    if !has_account(s) {
        return RateKind::NoAccount;
    }
    if p.info.vbv_delay == VARIABLE {
        RateKind::Variable
    } else {
        RateKind::Constant
    }
}

/// The step in which a decoder waits for a picture, in units of 1/720,000 s.
fn step_of(s: &Sequence) -> u64
    ensures value { result ≡ step_of s.now }
    ensures most { result < 2 ^ 20 }
{
    if s.extension.low_delay {
        2 * time_of_field(s.info.frame_rate_code)
    } else {
        1
    }
}

/// The buffer when the first picture is due, where there is an account.
fn buffer_at_first(s: &Sequence, p: &PictureNote, bits: u64) -> Buffer
    requires begin { CanBegin s.now }
    requires bits { bits < 2 ^ 40 }
    requires delay { p.now.info.vbv_delay < 2 ^ 16 }
    ensures value { result ≡ buffer_at_first s.now p.now bits }
{
    let rate = rate_of(s);
    let size = 16_384 * buffer_of(s);
    let step = step_of(s);
    let delay = p.info.vbv_delay;
    if delay == VARIABLE {
        Buffer::variable(rate, size, step)
    } else {
        Buffer::constant(rate, size, step, bits, u64::from(delay))
    }
}

/// How the account of a sequence begins, if it has one, by its first sequence header, its first picture, and its bits up
/// to the end of the first picture start code.
pub fn first_buffer(s: &Sequence, p: &PictureNote, bits: u64) -> Option<Buffer>
    requires bits { bits < 2 ^ 40 }
    requires delay { p.now.info.vbv_delay < 2 ^ 16 }
    ensures value { result ≡ first_buffer s.now p.now bits }
{
    if has_account(s) {
        Some(buffer_at_first(s, p, bits))
    } else {
        None
    }
}
