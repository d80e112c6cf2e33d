/// A slice header without its start code (clause 6.2.4). `quantiser` is quantiser_scale_code, from 1 to 31.
/// `intra_slice` is `Some` where its flag is set, and `reserved` the seven bits behind it.
#[derive(Clone, Copy, Debug, PartialEq, Eq)]
pub struct SliceInfo {
    pub quantiser: u8,
    pub intra_slice: Option<bool>,
    pub reserved: u8,
}
