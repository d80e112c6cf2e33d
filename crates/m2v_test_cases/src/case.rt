// What a case says: what is run, and what is wanted of it.
use std::alloc::Global;

/// An endpoint of a run whose calls can fail.
#[derive(Clone, Copy, Debug, PartialEq, Eq)]
pub(crate) enum Endpoint {
    Input,
    Output,
    /// The place for a file beside the output, of reconstructions or of a list: the call that opens it is its first one.
    Recon,
    Report,
}

/// The numbers, from 1, of the calls that fail.
#[derive(Drop)]
pub(crate) struct Failing {
    pub(crate) input: Vec<u64>,
    pub(crate) output: Vec<u64>,
    pub(crate) recon: Vec<u64>,
    pub(crate) report: Vec<u64>,
}

impl Failing {
    /// No call fails.
    pub(crate) fn none(alloc: Global) -> Self {
        Failing {
            input: Vec::new(alloc),
            output: Vec::new(alloc),
            recon: Vec::new(alloc),
            report: Vec::new(alloc),
        }
    }

    /// The numbers of one endpoint.
    pub(crate) fn of(&mut self, endpoint: Endpoint) -> &mut Vec<u64> {
        match endpoint {
            Endpoint::Input => &mut self.input,
            Endpoint::Output => &mut self.output,
            Endpoint::Recon => &mut self.recon,
            Endpoint::Report => &mut self.report,
        }
    }
}

/// How the output is told by the bytes that a case gives of it.
#[derive(Clone, Copy, Debug, PartialEq, Eq)]
pub(crate) enum Extent {
    /// It is these bytes.
    Whole,
    /// It is the first ones of these bytes, at least so many.
    Prefix { least: usize },
    /// It begins with these bytes, and has so many in all.
    Begun { length: usize },
}

/// What is wanted of a run.
#[derive(Drop)]
pub(crate) struct Wanted {
    pub(crate) status: u8,
    pub(crate) output: Vec<u8>,
    pub(crate) extent: Extent,
    /// The number that `sum_of` gives of the output, where it is looked at.
    pub(crate) sum: Option<u32>,
    /// What the place for a file beside the output holds.
    pub(crate) recon: Vec<u8>,
    /// The name under which it is open.
    pub(crate) recon_name: Option<String>,
    pub(crate) report: Vec<u8>,
}

/// A run, and what is wanted of it.
#[derive(Drop)]
pub(crate) struct Case {
    pub(crate) name: String,
    pub(crate) words: Vec<String>,
    pub(crate) input: Vec<u8>,
    pub(crate) failing: Failing,
    /// The endpoint of which each call fails in turn, in runs of their own.
    pub(crate) each: Option<Endpoint>,
    pub(crate) wanted: Wanted,
}

impl Case {
    /// A case of which the name alone is known: nothing is on input, and success without a line is wanted.
    pub(crate) fn begin(alloc: Global, name: String) -> Self {
        Case {
            name,
            words: Vec::new(alloc),
            input: Vec::new(alloc),
            failing: Failing::none(alloc),
            each: None,
            wanted: Wanted {
                status: 0,
                output: Vec::new(alloc),
                extent: Extent::Whole,
                sum: None,
                recon: Vec::new(alloc),
                recon_name: None,
                report: Vec::new(alloc),
            },
        }
    }
}
