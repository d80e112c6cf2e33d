//! How what a group may take is shared, and the plan of a picture.
ghost use Rattle.std.specs.Prelude.{◌≡◌, ◌+◌, ◌-◌, ◌*◌, ◌^◌, ◌<◌, ◌≤◌, min, length};
ghost use Rattle.m2v_rate.specs.Sharing.{from_on, income, need, needs, pool, share, quantiser, target, lack, reserve, most, even_plan, IsOutlook};

use crate::outlook::{Outlook, coarseness};

/// What a picture is coded by, as far as the source tells.
#[derive(Clone, Copy, Debug, PartialEq, Eq)]
pub struct EvenPlan {
    /// The quantiser code, 1 to 31.
    pub q: u8,
    /// The bits that it is to have.
    pub target: u64,
    /// The most bits that it may have, beside what is held.
    pub most: u64,
}

/// How the pictures from one on, and then a whole group like it, share what they may take.
#[derive(Clone, Copy, Debug, PartialEq, Eq)]
struct Supply {
    needs: u64,
    pool: u64,
}

/// What the pictures from p on want.
fn needs_from(group: &Outlook, p: usize) -> u64
    requires group { IsOutlook group.now }
    requires picture { p ≤ length group.now.kinds }
    ensures value { result ≡ from_on group.now (need group.now) p }
    ensures most { result ≤ 2147483647 * 126 }
{
    let mut sum = 0;
    for n in 0..group.pictures() - p {
        sum += group.need(p + n);
    }
    sum
}

/// What arrives behind the pictures from p on.
fn incomes_from(group: &Outlook, p: usize) -> u64
    requires group { IsOutlook group.now }
    requires picture { p ≤ length group.now.kinds }
    ensures value { result ≡ from_on group.now (income group.now) p }
    ensures most { result ≤ 16777215 * 126 }
    ensures some { 4 * (length group.now.kinds - p) ≤ result }
{
    let mut sum = 0;
    for n in 0..group.pictures() - p {
        sum += group.income(p + n);
    }
    sum
}

/// What picture p and those after it may take, and what they want.
#[tactic(auto, unfolding(crate::specs::Sharing::needs, crate::specs::Sharing::pool))]
fn supply_of(group: &Outlook, p: usize) -> Supply
    requires group { IsOutlook group.now }
    requires picture { p < length group.now.kinds }
    ensures needs { result.needs ≡ needs group.now p }
    ensures pool { result.pool ≡ pool group.now p }
    ensures some { (1 ≤ result.needs) × (1 ≤ result.pool) }
    ensures most { (result.needs < 2 ^ 39) × (result.pool < 2 ^ 32) }
{
    let needs = needs_from(group, p) + needs_from(group, 0);
    let incomes = incomes_from(group, p) + incomes_from(group, 0);
    let surplus = (incomes + group.mean).saturating_sub(group.start);
    Supply {
        needs: needs.max(1),
        pool: (incomes / 4).max(surplus),
    }
}

/// The share of picture j, one of those from p on.
fn share(group: &Outlook, p: usize, of: Supply, j: usize) -> u64
    requires group { IsOutlook group.now }
    requires picture { j < length group.now.kinds }
    requires needs { of.needs ≡ needs group.now p }
    requires pool { of.pool ≡ pool group.now p }
    requires some { 1 ≤ of.needs }
    requires most { of.pool < 2 ^ 32 }
    ensures value { result ≡ share group.now p j }
    ensures most { result < 2 ^ 32 }
{
    group.need(j) * of.pool / of.needs
}

/// What picture j may want beyond what arrives right before it.
#[tactic(auto, unfolding(crate::specs::Sharing::lack))]
fn lack(group: &Outlook, p: usize, of: Supply, j: usize) -> u64
    requires group { IsOutlook group.now }
    requires before { 1 ≤ j }
    requires picture { j < length group.now.kinds }
    requires needs { of.needs ≡ needs group.now p }
    requires pool { of.pool ≡ pool group.now p }
    requires some { 1 ≤ of.needs }
    requires most { of.pool < 2 ^ 32 }
    ensures value { result ≡ lack group.now p j }
    ensures most { result < 2 ^ 34 }
{
    (5 * share(group, p, of, j) / 4).saturating_sub(group.income(j - 1))
}

/// What is left to the three pictures behind picture p.
fn reserve(group: &Outlook, p: usize, of: Supply) -> u64
    requires group { IsOutlook group.now }
    requires picture { p < length group.now.kinds }
    requires needs { of.needs ≡ needs group.now p }
    requires pool { of.pool ≡ pool group.now p }
    requires some { 1 ≤ of.needs }
    requires most { of.pool < 2 ^ 32 }
    ensures value { result ≡ reserve group.now p }
    ensures most { result < 2 ^ 36 }
{
    let next = p + 1;
    let mut sum = 0;
    for n in 0..(group.pictures() - next).min(3) {
        sum += lack(group, p, of, next + n);
    }
    sum
}

/// The quantiser by which what all pictures want is what they may take.
#[tactic(auto, unfolding(crate::specs::Sharing::quantiser))]
fn quantiser(group: &Outlook, p: usize, of: Supply) -> u8
    requires picture { p < length group.now.kinds }
    requires needs { of.needs ≡ needs group.now p }
    requires pool { of.pool ≡ pool group.now p }
    requires some { 1 ≤ of.pool }
    requires most { (of.needs < 2 ^ 39) × (of.pool < 2 ^ 32) }
    ensures value { result ≡ quantiser group.now p }
    ensures range { (1 ≤ result) × (result ≤ 31) }
{
    let wanted = coarseness(group.kind(p)) * of.needs + 8 * of.pool;
    (wanted / (16 * of.pool)).max(1).min(31) as u8
}

/// The plan of picture p of a group, by what is known of its source and of the last coded picture of each type.
#[tactic(auto, unfolding(crate::specs::Sharing::target, crate::specs::Sharing::most))]
pub fn even_plan(group: &Outlook, p: usize) -> EvenPlan
    requires group { IsOutlook group.now }
    requires picture { p < length group.now.kinds }
    ensures value { result ≡ even_plan group.now p }
    ensures q { (1 ≤ result.q) × (result.q ≤ 31) }
    ensures target { result.target < 2 ^ 30 }
    ensures most { result.most < 2 ^ 34 }
{
    let of = supply_of(group, p);
    let q = quantiser(group, p, of);
    let own = share(group, p, of, p);
    let beside = group.low.saturating_sub(reserve(group, p, of));
    EvenPlan {
        q,
        target: group.complexity(p) / u64::from(q),
        most: (3 * own).min((5 * own / 4).max(beside)),
    }
}
