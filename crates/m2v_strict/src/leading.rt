//! What stands before a header or a picture.

/// Which headers stand before, behind the last picture.
#[derive(Clone, Copy, Debug, PartialEq, Eq)]
pub struct Leading {
    /// A sequence header.
    pub sequence: bool,
    /// A group of pictures header.
    pub group: bool,
}
