//! What holds of cuts.
ghost use Rattle.std.specs.Prelude.{ℕ, List};
ghost use Rattle.m2v_law_group.specs.Chosen.{CutDecodes, LawfulCutDecodes};
ghost use Rattle.m2v_law_group.specs.Lifted.{SecondGroup};
ghost use Rattle.m2v_law_group.specs.Worked.{WorkedRows};

/// Groups of a stream without a fault, whose groups begin with I pictures, are cut out from one on that stands alone: the
/// text of the cut, where the bytes that are copied don't end in the prefix of a start code, decodes to the frames of these
/// groups, each with the samples that it has in the whole stream, in the order that the low_delay of the cut's first
/// sequence extension gives, but for the B frames before the second anchor where pictures were cut off before it.
pub fn law_cut_decodes()
    ensures { (text : List ℕ) (from count : ℕ) → CutDecodes text from count }
{}

/// The same of each lawful stream: its groups begin with I pictures.
pub fn law_lawful_cut()
    ensures { (text : List ℕ) (from count : ℕ) → LawfulCutDecodes text from count }
{}

/// The cuts of a stream of two groups are those that were written by hand.
pub fn law_worked_rows()
    ensures { WorkedRows }
{}

/// The law can be met: a stream of two groups that is given byte by byte is lawful, and its second group, cut out, decodes
/// to the frame that it has in the whole.
pub fn law_second_group()
    ensures { SecondGroup }
{}
