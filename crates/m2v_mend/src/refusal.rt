use m2v_decode::Fault;

/// Why pieces can't be put behind a strand, or no strand begins with them.
#[derive(Clone, Copy, Debug, PartialEq, Eq)]
pub enum Refusal {
    /// Their last unit ends in the prefix of a start code.
    Open,
    /// The first fault, as it is told piece by piece: its place in bits of the input, by the places of the pieces.
    Fault(Fault),
    /// All of them read, but a picture may not stand in the strand: the first one whose start code begins at this bit of the
    /// input, by the places of the pieces.
    Rule(u64),
    /// All of them read, and keep the rule of a strand, but the first sequence header doesn't agree with the first one that
    /// was kept.
    Other,
}
