//! The activity of one macroblock.
ghost use Rattle.std.specs.Prelude.{◌≡◌, ◌≤◌, length, sum, min, replicate};
ghost use Rattle.m2v_kernel.specs.Sums.{sad};
ghost use Rattle.m2v_enc_activity.specs.Activity.{texture};

use m2v_kernel::sad16;

/// The sum of so many samples.
fn sum_of(luma: &[u8]) -> u32
    requires whole { length luma.now ≡ 256 }
    ensures value { result ≡ sum luma.now }
    ensures most { result ≤ 65280 }
{
    sad16(luma, &[0; 256])
}

/// How far the samples of a macroblock lie from their mean, in sum.
pub(crate) fn texture(luma: &[u8]) -> u32
    requires whole { length luma.now ≡ 256 }
    ensures value { result ≡ texture luma.now }
    ensures most { result ≤ 65280 }
{
    let mean = (sum_of(luma) / 256) as u8;
    let flat = [mean; 256];
    sad_of(luma, &flat)
}

/// The change of a macroblock against another one.
pub(crate) fn sad_of(luma: &[u8], other: &[u8]) -> u32
    requires whole { length luma.now ≡ 256 }
    requires same { length other.now ≡ 256 }
    ensures value { result ≡ sad luma.now other.now }
    ensures most { result ≤ 65280 }
{
    sad16(luma, other)
}
