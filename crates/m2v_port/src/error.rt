// What a call of an endpoint answers when it didn't succeed.
ghost use Rattle.std.specs.Prelude.{◌≡◌};
ghost use Rattle.m2v_port.specs.declared.error.PortError.TheVariants.{Memory as OutOfMemory};

use std::alloc::AllocError;

/// Want of memory.
pub type Memory = AllocError;

/// Why a call of an endpoint gave up.
#[derive(Clone, Copy, Debug, PartialEq, Eq)]
pub enum PortError {
    /// The endpoint failed, and its count of faults rose.
    Failed,
    /// There was no memory for it.
    Memory,
}

impl From<AllocError> for PortError {
    ghost from_gives = { λ _ e. e ≡ OutOfMemory };

    fn from(_: AllocError) -> Self {
        PortError::Memory
    }
}
