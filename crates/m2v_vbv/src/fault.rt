/// Why an account fails. `picture` is the number of removals so far; amounts are in units of 1/1800 bit.
#[derive(Clone, Copy, Debug, PartialEq, Eq)]
pub enum AccountFault {
    /// The picture asks for more than is held when it is removed.
    Under {
        /// The number of the picture, from 0.
        picture: u64,
        /// What is held.
        have: u128,
        /// What the picture takes.
        need: u128,
    },
    /// More is held than the buffer takes.
    Over {
        /// The number of the picture, from 0.
        picture: u64,
        /// What is held.
        have: u128,
        /// The size of the buffer.
        size: u128,
    },
}
