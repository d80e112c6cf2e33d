//! What holds of raw video, as contracts.
ghost use Rattle.std.specs.Prelude.{ℕ, ◌≡◌, ◌*◌, length};
ghost use Rattle.m2v_plane.specs.Sizes.{IsSize};
ghost use Rattle.m2v_plane.specs.Raw.{frame_bytes, pad, crop, raw, cut};

use crate::dims::Dims;

/// Padding a raw frame loses nothing that is shown.
pub fn law_crop_pad(dims: &Dims, bytes: &[u8])
    requires size { IsSize dims.now }
    requires whole { length bytes.now ≡ frame_bytes dims.now }
    ensures same { crop (pad dims.now bytes.now) ≡ bytes.now }
{}

/// Cutting raw video of whole frames into its frames loses nothing.
pub fn law_raw_cut(dims: &Dims, bytes: &[u8])
    requires size { IsSize dims.now }
    ensures same { (n : ℕ) → length bytes.now ≡ n * frame_bytes dims.now
        → raw (cut dims.now bytes.now) ≡ bytes.now }
{}
