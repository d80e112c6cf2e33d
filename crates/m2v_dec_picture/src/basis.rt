use m2v_model::SliceSetup;

/// What the slices of a picture are decoded by: what its headers say, and the views of its references.
#[derive(Drop)]
pub struct PictureBasis<'a, V> {
    /// What the headers in force say.
    pub setup: &'a SliceSetup,
    /// The reference that it is predicted forward from.
    pub forward: &'a V,
    /// The reference that it is predicted backward from.
    pub backward: &'a V,
}
