ghost use Rattle.std.specs.Prelude.{◌≡◌, All, ◌*ℤ◌, ◌≤ℤ◌, pos, neg_ℤ};
ghost use Rattle.m2v_idct.specs.Block.{nth};
ghost use Rattle.m2v_idct.specs.Forward.{forward_at, forward_of, rounded};
ghost use Rattle.m2v_idct.specs.Ranges.{IsCoefficient, IsDoubleSum, IsSample};
ghost use Rattle.m2v_idct.specs.Sums.{sum_below};

use crate::forward_columns::transform_columns;
use crate::forward_rows::transform_rows;

// The square of the cosine at 0, 2896 times 2896.
const MEAN_SCALE: i64 = 8_386_816;

/// The 64 coefficients, each from -2048 to 2047, of a block of samples or of differences of samples,
/// each from -256 to 255, by Annex A of ISO/IEC 13818-2 in whole numbers, rounded once. Both blocks
/// hold the top line first, each line from the left.
pub fn forward(f: &[i32; 64]) -> [i32; 64]
    requires { All IsSample f.now }
    ensures value { result ≡ forward_of f.now }
    ensures coefficients { All IsCoefficient result }
{
    let mut block = *f;
    forward_in_place(&mut block);
    block
}

/// The same, written over the samples.
pub fn forward_in_place(block: &mut [i32; 64])
    requires { All IsSample block.old }
    ensures value { block.new ≡ forward_of block.old }
    ensures coefficients { All IsCoefficient block.new }
{
    let mut high = [0; 64];
    let mut low = [0; 64];
    transform_rows(block, &mut high, &mut low);
    transform_columns(&high, &low, block);
}

/// The first coefficient of the forward transform alone, from -2048 to 2047: eight times the mean of
/// the 64 samples, each from -256 to 255.
pub fn forward_dc(f: &[i32; 64]) -> i32
    requires { All IsSample f.now }
    ensures value { result ≡ forward_at f.now 0 0 }
    ensures within { IsCoefficient result }
{
    round(scaled_sum(sum_of(f)))
}

// The sum of all samples.
fn sum_of(f: &[i32; 64]) -> i32
    requires { All IsSample f.now }
    ensures value { result ≡ sum_below 64 (nth f.now) }
    ensures low { neg_ℤ (pos 16384) ≤ℤ result }
    ensures high { result ≤ℤ pos 16320 }
{
    let mut sum = 0;
    for sample in f {
        sum += *sample;
    }
    sum
}

// The sum of 64 samples, each times the square of the cosine.
#[inline(always)]
fn scaled_sum(sum: i32) -> i64
    requires low { neg_ℤ (pos 16384) ≤ℤ sum }
    requires high { sum ≤ℤ pos 16320 }
    ensures { result ≡ pos 8386816 *ℤ sum }
{
    MEAN_SCALE * i64::from(sum)
}

// A sum of products with two cosines in the scale of coefficients, to the nearest.
#[inline(always)]
fn round(sum: i64) -> i32
    requires { IsDoubleSum sum }
    ensures value { result ≡ rounded sum }
    ensures within { IsCoefficient result }
{
    ((sum + (1 << 25)) >> 26) as i32
}
