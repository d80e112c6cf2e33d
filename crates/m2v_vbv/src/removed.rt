/// What is told of the removal of one picture. Amounts are in units of 1/1800 bit, times in units of 1/720,000 s.
#[derive(Clone, Copy, Debug, PartialEq, Eq)]
pub struct Removed {
    /// When it is due, from when the first picture was due.
    pub time: u128,
    /// What is held when it is due.
    pub have: u64,
    /// What it takes.
    pub need: u64,
    /// More is held than the buffer takes.
    pub is_over: bool,
    /// Less is held than it takes.
    pub is_under: bool,
    /// How long the decoder waits for it.
    pub wait: u64,
    /// The delay (vbv_delay) that its removal implies, in ticks of 1/90,000 s, rounded down.
    pub delay: u128,
}
