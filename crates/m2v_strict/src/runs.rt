//! What the rules of a DVD count along the pictures of a sequence.

/// How many B frames ended in a row, and for how many fields the group is shown so far.
#[derive(Clone, Copy, Debug, PartialEq, Eq)]
pub struct Runs {
    pub b_frames: u64,
    pub fields: u64,
}
