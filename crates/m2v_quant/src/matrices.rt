ghost use Rattle.std.specs.Prelude.{◌≡◌, ◌<◌, ◌≤◌, ◌^◌, All};
ghost use Rattle.m2v_quant.specs.Matrices.{default_matrix};

/// The default matrix of intra blocks.
const INTRA: [u8; 64] = [
    8, 16, 19, 22, 26, 27, 29, 34, 16, 16, 22, 24, 27, 29, 34, 37, 19, 22, 26, 27, 29, 34, 34, 38,
    22, 22, 26, 27, 29, 34, 37, 40, 22, 26, 27, 29, 32, 35, 40, 48, 26, 27, 29, 32, 35, 40, 48, 58,
    26, 27, 29, 34, 38, 46, 56, 69, 27, 29, 35, 38, 46, 56, 69, 83,
];

/// The default matrix of intra blocks, or that of others, in raster order (clause 6.3.11).
pub fn default_matrix(intra: bool) -> [u8; 64]
    ensures value { result ≡ default_matrix intra }
    ensures weights { All (λ x. (1 ≤ x) × (x < 2 ^ 8)) result }
{
    if intra { INTRA } else { [16; 64] }
}
