ghost use Rattle.std.specs.Prelude.{All};
ghost use Rattle.m2v_idct.specs.Ranges.{IsCoefficient, IsSample};

use m2v_idct::{forward, forward_dc, inverse};

// What the formulas give for a block of 64 times the highest coefficient.
static OF_HIGHEST: [i32; 64] = [
    255, -256, 255, -256, 255, -163, 255, 255, -256, 255, -256, 255, -256, 44, -256, -116, 255,
    -256, 255, -235, 255, -35, 210, 92, -256, 255, -235, 83, -127, 12, -74, -32, 255, -256, 255,
    -127, 195, -19, 113, 50, -163, 44, -35, 12, -19, 2, -11, -5, 255, -256, 210, -74, 113, -11, 66,
    29, 255, -116, 92, -32, 50, -5, 29, 13,
];

// The same block, kept to the range of coefficients.
fn coefficients(values: &[i32; 64]) -> [i32; 64]
    ensures { All IsCoefficient result }
{
    let mut block = [0; 64];
    for i in 0..64 {
        block[i] = values[i].clamp(-2048, 2047);
    }
    block
}

// The same block, kept to the range of samples.
fn samples(values: &[i32; 64]) -> [i32; 64]
    ensures { All IsSample result }
{
    let mut block = [0; 64];
    for i in 0..64 {
        block[i] = values[i].clamp(-256, 255);
    }
    block
}

#[test]
fn inverts_the_extreme(rt: HostRuntime) {
    let got = inverse(&coefficients(&[2047; 64]));
    assert_eq!(rt; got, OF_HIGHEST);
}

// The inverse of a mean beside the 1 of mismatch control.
fn mean(first: i32) -> [i32; 64] {
    let mut block = [0; 64];
    block[0] = first;
    block[63] = 1;
    inverse(&coefficients(&block))
}

// What the formulas give for a mean of 11 eighths beside the 1, and for one of 13 eighths.
static OF_11: [i32; 64] = [
    1, 1, 1, 1, 1, 1, 1, 1, 1, 1, 1, 2, 1, 1, 1, 1, 1, 1, 2, 1, 2, 1, 1, 1, 1, 2, 1, 2, 1, 2, 1, 1,
    1, 1, 2, 1, 2, 1, 2, 1, 1, 1, 1, 2, 1, 2, 1, 1, 1, 1, 1, 1, 2, 1, 1, 1, 1, 1, 1, 1, 1, 1, 1, 1,
];

static OF_13: [i32; 64] = [
    2, 2, 2, 2, 2, 2, 2, 2, 2, 2, 2, 2, 1, 2, 2, 2, 2, 2, 2, 1, 2, 1, 2, 2, 2, 2, 1, 2, 1, 2, 1, 2,
    2, 1, 2, 1, 2, 1, 2, 2, 2, 2, 1, 2, 1, 2, 2, 2, 2, 2, 2, 1, 2, 2, 2, 2, 2, 2, 2, 2, 2, 2, 2, 2,
];

// The 1 shows only where the eighth of the mean is near a half.
#[test]
fn rounds_a_mean_beside_a_small_last_coefficient(rt: HostRuntime) {
    assert_eq!(rt; mean(10), [1; 64]);
    assert_eq!(rt; mean(11), OF_11);
    assert_eq!(rt; mean(13), OF_13);
    assert_eq!(rt; mean(14), [2; 64]);
}

// The real cosine transform, rounded, of a block whose left half is the highest sample and whose
// right half is the lowest.
#[test]
fn transforms_an_edge(rt: HostRuntime) {
    let mut block = [0; 64];
    for i in 0..64 {
        block[i] = if i % 8 < 4 { 255 } else { -256 };
    }
    let block = samples(&block);
    let mut want = [0; 64];
    want[..8].copy_from_slice(&[-4, 1852, 0, -650, 0, 435, 0, -368]);
    assert_eq!(rt; forward(&block), want);
    assert_eq!(rt; forward_dc(&block), -4);
}
