use m2v_vlc::CodeFault;

/// Why a block could not be read.
#[derive(Clone, Copy, Debug, PartialEq, Eq)]
pub enum BlockFault {
    /// The bits end inside an element, or no code stands there.
    Code(CodeFault),
    /// A pair goes past the last place of the scan, 63.
    Overrun,
    /// An escape's level is 0 or -2048.
    ForbiddenLevel,
    /// An intra DC level is below 0 or has more bits than its precision allows.
    DcRange,
}

impl From<CodeFault> for BlockFault {
    ghost use Rattle.std.specs.Prelude.{◌≡◌};
    ghost use Rattle.m2v_block.specs.Faults.{of_code};

    ghost from_gives = { λ e f. f ≡ of_code e };

    #[tactic(auto, unfolding(crate::specs::Faults::of_code))]
    fn from(e: CodeFault) -> BlockFault {
        BlockFault::Code(e)
    }
}
