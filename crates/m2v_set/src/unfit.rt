/// Why settings don't pass: the first condition of the published test that fails.
#[derive(Clone, Copy, Debug, PartialEq, Eq)]
pub struct Unfit {
    /// The number of its rule, 1 to 7.
    pub rule: u8,
    /// The value.
    pub have: u128,
    /// The bound that the value doesn't keep.
    pub need: u128,
}
