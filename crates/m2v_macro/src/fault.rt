use m2v_vlc::CodeFault;

/// Why a macroblock could not be read.
#[derive(Clone, Copy, Debug, PartialEq, Eq)]
pub enum MacroFault {
    /// The bits end inside an element, or no code stands there.
    Code(CodeFault),
    /// The address passes the row's end, or the slice begins before the next uncovered macroblock.
    SliceOrder,
    /// The slice begins past the next uncovered macroblock.
    MissingMacroblocks,
    /// A macroblock is skipped in an I picture, or behind an intra one in a B picture.
    SkipRule,
    /// The quantiser code is 0.
    QuantZero,
    /// The pattern is the code of 0, which 4:2:0 does not have.
    PatternZero,
    /// The motion type is 0, or dual prime in a B picture.
    BadMotionType,
    /// A field vector in a frame picture leaves its vertical range.
    VectorRange,
    /// The marker behind concealment vectors is 0.
    Marker,
}

impl From<CodeFault> for MacroFault {
    ghost use Rattle.std.specs.Prelude.{◌≡◌};
    ghost use Rattle.m2v_macro.specs.Faults.{of_code};

    ghost from_gives = { λ e f. f ≡ of_code e };

    #[tactic(auto, unfolding(crate::specs::Faults::of_code))]
    fn from(e: CodeFault) -> MacroFault {
        MacroFault::Code(e)
    }
}
