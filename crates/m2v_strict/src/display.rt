//! What a sequence display extension says (clause 6.2.2.4).

/// A sequence display extension.
#[derive(Clone, Copy, Debug, PartialEq, Eq)]
pub struct Display {
    pub video_format: u32,
    /// colour_primaries, transfer_characteristics and matrix_coefficients, 24 bits together, where colour_description is set.
    pub colour: Option<u32>,
    /// display_horizontal_size.
    pub width: u32,
    /// display_vertical_size.
    pub height: u32,
}
