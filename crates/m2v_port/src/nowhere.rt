// A sink for what nobody wants.
ghost use Rattle.std.specs.Prelude.{true, None};

use crate::{PortError, Sink};

/// A sink that drops what is put, and tells nothing. No call of it fails.
#[derive(Drop)]
pub struct Nowhere;

impl Sink for Nowhere {
    ghost held = { λ _. None };

    ghost faults = { λ _. 0 };

    ghost ready = { λ _. true };

    ghost name = { λ _. None };

    fn put(&mut self, _piece: &[u8]) -> Result<(), PortError> {
        Ok(())
    }
}
