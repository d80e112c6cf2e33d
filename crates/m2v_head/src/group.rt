/// A group of pictures header without its start code (clause 6.2.2.6): a time code in hours, minutes, seconds and
/// pictures, and whether the first B frames need the group before.
#[derive(Clone, Copy, Debug, PartialEq, Eq)]
pub struct GroupInfo {
    pub drop: bool,
    pub hours: u8,
    pub minutes: u8,
    pub seconds: u8,
    pub pictures: u8,
    pub closed_gop: bool,
    pub broken_link: bool,
}
