//! How a line is printed.
ghost use Rattle.std.specs.Prelude.{◌≡◌, ◌++◌, map, OnOk};
ghost use Rattle.m2v_audit.specs.Lines.{column_text, flag, line_of, number, told};

use itoa::Buffer;
use std::alloc::AllocError;

/// A column of a line.
#[derive(Clone, Copy)]
pub(crate) enum Column<'a> {
    /// A number, in decimal.
    Number(u128),
    /// A word, as it is.
    Word(&'a str),
}

impl Column<'_> {
    /// A number.
    #[tactic(auto, unfolding(crate::specs::Lines::told))]
    pub(crate) fn of(n: u64) -> Column<'static>
        ensures { told result ≡ number n }
    {
        Column::Number(u128::from(n))
    }

    /// A flag, as 1 or 0.
    #[tactic(auto, unfolding(crate::specs::Lines::told))]
    pub(crate) fn flag(is_set: bool) -> Column<'static>
        ensures { told result ≡ flag is_set }
    {
        if is_set {
            Column::Number(1)
        } else {
            Column::Number(0)
        }
    }
}

/// Appends a line: its kind, for each column a tab and its text, and a newline.
pub(crate) fn print(text: &mut Vec<u8>, kind: &str, columns: &[Column]) -> Result<(), AllocError>
    ensures { OnOk result (text.new.items
        ≡ text.old.items ++ line_of kind.now (map told columns.now)) }
{
    text.extend_from_slice(kind.as_bytes())?;
    for &column in columns {
        text.extend_from_slice(b"\t")?;
        print_column(text, column)?;
    }
    text.extend_from_slice(b"\n")
}

/// Appends the text of a column.
#[tactic(auto, unfolding(crate::specs::Lines::told, crate::specs::Lines::column_text))]
fn print_column(text: &mut Vec<u8>, column: Column) -> Result<(), AllocError>
    ensures { OnOk result (text.new.items ≡ text.old.items ++ column_text (told column.entry)) }
{
    match column {
        Column::Number(n) => {
            let mut buffer = Buffer::new();
            text.extend_from_slice(buffer.format(n).as_bytes())
        }
        Column::Word(word) => text.extend_from_slice(word.as_bytes()),
    }
}
