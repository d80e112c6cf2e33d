use m2v_plane::Dims;

/// The settings of the flat profile, as they passed its part of the published test.
#[derive(Clone, Copy, Debug, PartialEq, Eq)]
pub struct FlatSettings {
    /// The size of the frames.
    pub dims: Dims,
    /// frame_rate_code (table 6-4), 1 to 5.
    pub rate_code: u32,
    /// quantiser_scale_code of every slice, 1 to 31.
    pub quantiser: u32,
}
