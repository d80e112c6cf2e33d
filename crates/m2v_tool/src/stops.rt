// What is told where a command stopped: the status and the line on report of each error.
ghost use Rattle.std.specs.Prelude.{IfOk};
ghost use Rattle.m2v_tool.specs.Endings.{IsReport};
ghost use Rattle.m2v_tool.specs.Stops.{coding_stopped, cutting_stopped, decoding_stopped, encoding_stopped, making_stopped, mending_stopped, no_group, not_cuttable, packing_stopped, unpacking_stopped, unread_ending};

use crate::report::{
    Ends, Report, no_frames, no_memory, read_fault, short_frame, stream_fault, too_large, too_long,
    too_many_frames, write_fault, y4m_fault,
};
use m2v_cut::CutError;
use m2v_cut::decode::DecodeError;
use m2v_flat::EncodeError as FlatError;
use m2v_make::MakeError;
use m2v_make::encode::EncodeError;
use m2v_mend::MendError;
use m2v_y4m::{EncodeFault, UnpackError, Y4mError};
use std::alloc::{AllocError, Global};

impl Ends for FlatError {
    ghost ending = { coding_stopped };

    #[tactic(auto, unfolding(crate::specs::Stops::coding_stopped))]
    fn report(&self, alloc: Global) -> Result<Report, AllocError> {
        match self {
            FlatError::Read => read_fault(alloc),
            FlatError::Write => write_fault(alloc),
            FlatError::ShortFrame { extra } => short_frame(alloc, *extra),
            FlatError::NoFrames => no_frames(alloc),
            FlatError::TooManyFrames => too_many_frames(alloc),
            FlatError::Memory => no_memory(alloc),
        }
    }
}

impl Ends for EncodeError {
    ghost ending = { encoding_stopped };

    #[tactic(auto, unfolding(crate::specs::Stops::encoding_stopped))]
    fn report(&self, alloc: Global) -> Result<Report, AllocError> {
        match self {
            EncodeError::Read => read_fault(alloc),
            EncodeError::Write => write_fault(alloc),
            EncodeError::ShortFrame { extra } => short_frame(alloc, *extra),
            EncodeError::NoFrames => no_frames(alloc),
            EncodeError::TooManyFrames => too_many_frames(alloc),
            EncodeError::Memory => no_memory(alloc),
        }
    }
}

/// A text whose header line wasn't read.
impl Ends for Y4mError {
    ghost ending = { unread_ending };

    #[tactic(auto, unfolding(crate::specs::Stops::unread_ending))]
    fn report(&self, alloc: Global) -> Result<Report, AllocError> {
        match self {
            Y4mError::Read => read_fault(alloc),
            Y4mError::Y4m(fault) => y4m_fault(alloc, fault),
            Y4mError::Memory => no_memory(alloc),
        }
    }
}

impl Ends for DecodeError {
    ghost ending = { decoding_stopped };

    #[tactic(auto, unfolding(crate::specs::Stops::decoding_stopped))]
    fn report(&self, alloc: Global) -> Result<Report, AllocError> {
        match self {
            DecodeError::Read => read_fault(alloc),
            DecodeError::Write => write_fault(alloc),
            DecodeError::Stream(fault) => stream_fault(alloc, fault),
            DecodeError::TooLong => too_long(alloc),
            DecodeError::PictureTooLarge => too_large(alloc),
            DecodeError::Memory => no_memory(alloc),
        }
    }
}

impl Ends for MendError {
    ghost ending = { mending_stopped };

    #[tactic(auto, unfolding(crate::specs::Stops::mending_stopped))]
    fn report(&self, alloc: Global) -> Result<Report, AllocError> {
        match self {
            MendError::Read => read_fault(alloc),
            MendError::Write => write_fault(alloc),
            MendError::TooLong => too_long(alloc),
            MendError::PictureTooLarge => too_large(alloc),
            MendError::Memory => no_memory(alloc),
        }
    }
}

impl Ends for MakeError {
    ghost ending = { making_stopped };

    #[tactic(auto, unfolding(crate::specs::Stops::making_stopped))]
    fn report(&self, alloc: Global) -> Result<Report, AllocError> {
        match self {
            MakeError::Write => write_fault(alloc),
            MakeError::Memory => no_memory(alloc),
        }
    }
}

impl Ends for CutError {
    ghost ending = { cutting_stopped };

    #[tactic(auto, unfolding(crate::specs::Stops::cutting_stopped))]
    fn report(&self, alloc: Global) -> Result<Report, AllocError> {
        match self {
            CutError::Read => read_fault(alloc),
            CutError::Write => write_fault(alloc),
            CutError::NoGroup { have, need } => no_group(alloc, *have, *need),
            CutError::NotCuttable { place } => not_cuttable(alloc, *place),
            CutError::TooLong => too_long(alloc),
            CutError::PictureTooLarge => too_large(alloc),
            CutError::Memory => no_memory(alloc),
        }
    }
}

/// The stream has too few groups.
fn no_group(alloc: Global, have: u64, need: u64) -> Result<Report, AllocError>
    ensures { IfOk result (λ r. IsReport r (no_group have need)) }
{
    Report::new(
        alloc,
        16,
        &[
            ("no group have ", u128::from(have)),
            (" need ", u128::from(need)),
        ],
    )
}

/// The first group needs what stands before it.
fn not_cuttable(alloc: Global, place: u64) -> Result<Report, AllocError>
    ensures { IfOk result (λ r. IsReport r (not_cuttable place)) }
{
    Report::new(alloc, 17, &[("not cuttable at bit ", u128::from(place))])
}

impl Ends for EncodeFault {
    ghost ending = { packing_stopped };

    #[tactic(auto, unfolding(crate::specs::Stops::packing_stopped))]
    fn report(&self, alloc: Global) -> Result<Report, AllocError> {
        match self {
            EncodeFault::Read => read_fault(alloc),
            EncodeFault::Write => write_fault(alloc),
            EncodeFault::ShortFrame { extra } => short_frame(alloc, *extra),
            EncodeFault::TooManyFrames => too_many_frames(alloc),
            EncodeFault::Memory => no_memory(alloc),
        }
    }
}

impl Ends for UnpackError {
    ghost ending = { unpacking_stopped };

    #[tactic(auto, unfolding(crate::specs::Stops::unpacking_stopped))]
    fn report(&self, alloc: Global) -> Result<Report, AllocError> {
        match self {
            UnpackError::Read => read_fault(alloc),
            UnpackError::Write => write_fault(alloc),
            UnpackError::ShortFrame { extra } => short_frame(alloc, *extra),
            UnpackError::TooManyFrames => too_many_frames(alloc),
            UnpackError::Y4m(fault) => y4m_fault(alloc, fault),
            UnpackError::Memory => no_memory(alloc),
        }
    }
}
