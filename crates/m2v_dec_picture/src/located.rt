use crate::gap::Gap;
use m2v_macro::MacroSyntax;
use m2v_pred::Mode;

/// A macroblock that was read, how it is predicted, and where it stands in its row.
#[derive(Clone, Copy, Debug, PartialEq, Eq)]
pub struct Located {
    pub syntax: MacroSyntax,
    pub mode: Mode,
    pub column: u32,
    pub gap: Gap,
}

impl Located {
    /// A macroblock that has nothing.
    #[inline(always)]
    pub fn blank() -> Located {
        Located {
            syntax: MacroSyntax::blank(),
            mode: Mode::none(),
            column: 0,
            gap: Gap {
                column: 0,
                count: 0,
            },
        }
    }
}
