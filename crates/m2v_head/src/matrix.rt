/// A quant matrix extension without its start code (clause 6.2.3.2). Each matrix is in raster order, and `Some`
/// where its flag is set.
#[derive(Clone, Copy, Debug, PartialEq, Eq)]
pub struct MatrixInfo {
    pub intra: Option<[u8; 64]>,
    pub non_intra: Option<[u8; 64]>,
    pub chroma_intra: Option<[u8; 64]>,
    pub chroma_non_intra: Option<[u8; 64]>,
}
