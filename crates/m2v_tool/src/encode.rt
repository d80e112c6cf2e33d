use m2v_make::encode::{EncodeError, Summary};
use m2v_port::PortError;
use m2v_set::{Settings, Unfit};

/// What the words behind `encode` say.
#[derive(Debug, Drop)]
pub struct EncodeWords {
    /// The settings, whatever they are.
    pub settings: Settings,
    /// The name of the file for reconstructions, where one is wanted.
    pub recon: Option<String>,
}

/// What came of `encode`.
#[derive(Clone, Copy, Debug, PartialEq, Eq)]
pub enum EncodeOutcome {
    /// Raw frames were coded.
    Coded(Summary),
    /// The settings don't pass the published test: the first condition that fails.
    Unfit(Unfit),
    /// The place for reconstructions wasn't opened.
    Unopened(PortError),
    /// Coding stopped.
    Stopped(EncodeError),
}
