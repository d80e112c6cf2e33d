use m2v_vbv::AccountFault;

/// What is told of a stream that breaks no rule.
#[derive(Clone, Copy, Debug, PartialEq, Eq)]
pub struct Figures {
    /// Frames that are shown.
    pub frames: u64,
    /// Coded pictures, a field picture as one, dropped ones among them.
    pub pictures: u64,
    /// Bytes from the first sequence header to the end code or the end of the input.
    pub bytes: u64,
    /// The least that a picture leaves in the buffer, in bits, rounded down.
    pub low: u128,
    /// The most that the buffer holds when a picture is removed, in bits, rounded down.
    pub high: u128,
    /// Pictures behind the first one whose vbv_delay isn't the exact one.
    pub delays: u64,
}

/// What the verifier says of a stream without a fault.
#[derive(Clone, Copy, Debug, PartialEq, Eq)]
pub enum Verdict {
    /// No rule is broken, and the buffer bears the stream (Annex C).
    Lawful(Figures),
    /// No rule is broken, and the first vbv_delay is 65535: the rate is variable, and the buffer isn't looked at. The
    /// figures of the buffer are 0.
    Variable(Figures),
    /// A rule is broken: the one of the least picture, then of the least number; rules on sequence headers count as
    /// picture 0.
    Unlawful {
        /// The number of the rule, from 1 to 15 (`docs/COMMANDS.md` has them).
        rule: u8,
        /// The number of the picture in decoding order, from 0.
        picture: u64,
        /// What the stream has.
        have: u128,
        /// What the rule needs.
        need: u128,
    },
    /// The account of the buffer fails, here first.
    Buffer(AccountFault),
}
