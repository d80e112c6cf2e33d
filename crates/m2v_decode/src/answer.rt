/// What was decoded: how many frames were shown, how many pictures were coded, and how many of these were dropped.
#[derive(Clone, Copy, Debug, PartialEq, Eq)]
pub struct Decoded {
    pub frames: u64,
    pub pictures: u64,
    pub dropped: u64,
}
