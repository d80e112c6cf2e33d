ghost use Rattle.m2v_y4m.specs.Rows.{KnownTexts};

/// Texts of which it is known what they say: one of a grey frame, one with each kind of fault, and what breaks a text
/// behind its header line.
pub fn law_worked_rows()
    ensures { KnownTexts }
{}
