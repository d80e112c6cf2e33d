use m2v_set::plane::Frame;

/// A picture to be coded.
#[derive(Clone, Copy, Debug, PartialEq, Eq)]
pub struct PictureJob {
    /// The place of its frame in the group's frames.
    pub frame: u32,
    /// The display number of its frame, counted from 0 over the whole sequence.
    pub display: u64,
    /// picture_coding_type (table 6-12): 1 I, 2 P, 3 B.
    pub kind: u8,
    /// picture_structure (table 6-14): 1 top field, 2 bottom field, 3 frame.
    pub structure: u8,
}

/// A group of pictures to be coded: from one I frame up to the next in coding order.
#[derive(Drop)]
pub struct GroupJobs {
    /// The frames in display order.
    pub frames: Vec<Frame>,
    /// The pictures in coding order.
    pub pictures: Vec<PictureJob>,
    /// The display number of the anchor that is coded before the group; the first group has none.
    pub before: Option<u64>,
}
