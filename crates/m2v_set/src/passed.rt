ghost use Rattle.std.specs.Prelude.{◌≡◌, ◌≤◌, ◌<◌, ◌↔◌, ◌^◌, IfOk, IfErr, IsOk, OnOk};
ghost use Rattle.m2v_plane.specs.Sizes.{IsSize};
ghost use Rattle.m2v_set.specs.Bounds.{Bounds};
ghost use Rattle.m2v_set.specs.Numbers.{interval_of, longest_interval_of, arrival_of, longest_of, least_of, delay_of, dims_of, flat_dims};
ghost use Rattle.m2v_set.specs.Rules.{Passes, FirstUnfit, FlatPasses, FlatUnfit};

use crate::limits::limits_at;
use crate::settings::{Level, Scan, Settings};
use crate::unfit::Unfit;
use crate::{numbers, rules};
use m2v_plane::Dims;
use std::marker::Model;

/// Settings that passed the published test. It is made by [`Settings::test`] alone, and that the settings pass holds of
/// each value. Contracts see it as its settings.
#[derive(Clone, Copy)]
pub struct Passed {
    settings: Settings,
}

impl Model for Passed {
    ghost use Rattle.m2v_set.specs.declared.settings.Settings.{Settings};
    ghost use Rattle.m2v_set.specs.Rules.{Passes};

    ghost Value = { Settings };

    ghost view = { λ p. p.settings };

    ghost invariant = { λ p. Passes p.settings };

    ghost inverse = { λ s. record { settings = s } };
}

impl Settings {
    /// The published test: whether these settings pass, or the first condition that fails, with the number of its rule,
    /// the value and the bound.
    pub fn test(&self) -> Result<Passed, Unfit>
        ensures passes { IsOk result ↔ Passes self.now }
        ensures same { IfOk result (λ p. p ≡ self.now) }
        ensures err { IfErr result (λ u. FirstUnfit self.now u) }
    {
        rules::all(self)?;
        Ok(Passed { settings: *self })
    }
}

impl Passed {
    /// The settings.
    #[inline(always)]
    pub fn settings(&self) -> &Settings
        ensures value { result.now ≡ self.now }
        ensures passes { Passes self.now }
        ensures bounds { Bounds self.now }
    {
        &self.settings
    }

    /// The size of the frames.
    #[tactic(auto, unfolding(crate::specs::Numbers::dims_of))]
    pub fn dims(&self) -> Dims
        ensures value { result ≡ dims_of self.now }
        ensures size { IsSize result }
    {
        // the bounds of settings that pass
        let _known = self.settings();
        Dims {
            width: self.settings.width,
            height: self.settings.height,
            mb_width: (self.settings.width + 15) / 16,
            mb_rows: numbers::frame_rows(&self.settings) as u32,
        }
    }

    /// The delay of the first picture, in ticks of 1/90,000 s.
    pub fn delay(&self) -> u64
        ensures value { result ≡ delay_of self.now }
        ensures most { result ≤ 65534 }
    {
        numbers::delay(self.settings())
    }

    /// The time from one picture to the next, in units of 1/720,000 s.
    pub fn interval(&self) -> u64
        ensures value { result ≡ interval_of self.now }
        ensures most { result ≤ 30030 }
    {
        numbers::interval(&self.settings)
    }

    /// The longest time from one picture to the next, in the same units: with pulldown a frame may be shown for three fields.
    pub fn longest_interval(&self) -> u64
        ensures value { result ≡ longest_interval_of self.now }
        ensures most { result ≤ 45045 }
    {
        numbers::longest_interval(&self.settings)
    }

    /// What arrives in an interval, in units of 1/1800 bit.
    pub fn arrival(&self) -> u64
        ensures value { result ≡ arrival_of self.now }
        ensures most { result < 2 ^ 33 }
    {
        numbers::arrival(self.settings())
    }

    /// The most bits of an emergency picture, with all its headers and an end code.
    pub fn least(&self) -> u64
        ensures value { result ≡ least_of self.now }
        ensures most { result < 2 ^ 24 }
    {
        numbers::least(self.settings())
    }

    /// What arrives at most from one picture to the next, in units of 1/1800 bit.
    pub fn longest(&self) -> u64
        ensures value { result ≡ longest_of self.now }
        ensures most { result < 2 ^ 34 }
    {
        numbers::longest(self.settings())
    }

    /// Whether film frames are shown for three and two fields in turn.
    #[inline(always)]
    pub fn pulldown(&self) -> bool
        ensures value { result ≡ self.now.pulldown }
    {
        self.settings.pulldown
    }
}

/// The part of the test that the flat profile takes, progressive at main level: rule 1 up to the luma rate, and rule 7.
/// It gives the size of the frames.
#[tactic(auto, unfolding(crate::specs::Rules::and_then), using(crate::proofs::Judged::flat_in_turn))]
pub fn test_flat(width: u32, height: u32, rate_code: u32, quantiser: u32) -> Result<Dims, Unfit>
    ensures passes { IsOk result ↔ (FlatPasses width height rate_code quantiser) }
    ensures value { IfOk result (λ d. d ≡ flat_dims width height) }
    ensures size { IfOk result (λ d. IsSize d) }
    ensures quantiser { OnOk result ((1 ≤ quantiser) × (quantiser ≤ 31)) }
    ensures err { IfErr result (λ u. FlatUnfit width height rate_code quantiser u) }
{
    rules::frame(
        &limits_at(Level::Main),
        Scan::Progressive,
        width,
        height,
        rate_code,
    )?;
    rules::quantiser(quantiser)?;
    Ok(Dims {
        width,
        height,
        mb_width: (width + 15) / 16,
        mb_rows: (height + 15) / 16,
    })
}
