use crate::Memory;
use m2v_model::Stop;

/// Why reading a piece stopped.
#[derive(Clone, Copy, Debug, PartialEq, Eq)]
pub enum Halt {
    /// The first fault, with the bits of the piece that are left at its place.
    Fault(Stop),
    /// Memory ran out.
    Memory,
}

impl From<Memory> for Halt {
    ghost use Rattle.std.specs.Prelude.{◌≡◌};
    ghost use Rattle.m2v_decode.specs.declared.halt.Halt.TheVariants as halts;

    ghost from_gives = { λ e f. f ≡ halts.Memory };

    fn from(_: Memory) -> Halt {
        Halt::Memory
    }
}

impl From<Stop> for Halt {
    ghost use Rattle.std.specs.Prelude.{◌≡◌};
    ghost use Rattle.m2v_decode.specs.declared.halt.Halt.TheVariants as halts;

    ghost from_gives = { λ e f. f ≡ halts.Fault e };

    fn from(stop: Stop) -> Halt {
        Halt::Fault(stop)
    }
}
