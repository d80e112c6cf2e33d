ghost use Rattle.std.specs.Prelude.{◌≡◌, ◌+◌, ◌*◌, ◌/◌, ◌%◌, ◌^◌, ◌<◌, ◌≤◌};

/// The n lowest bits of x.
#[inline(always)]
#[tactic(auto, using(std::proofs::lemmas::Nat::one_shl, std::proofs::lemmas::Nat::pow_pos))]
pub fn low(x: u64, n: u8) -> u64
    requires { n < 64 }
    ensures { result ≡ x % 2 ^ n }
{
    x % (1u64 << n)
}

/// The bits of `high`, and the n bits of `low` behind them.
#[inline(always)]
pub fn joined(high: u64, n: u8, low: u64) -> u64
    requires width { n ≤ 32 }
    requires high { high < 2 ^ 8 }
    requires low { low < 2 ^ n }
    ensures { result ≡ high * 2 ^ n + low }
{
    (high << n) + low
}
