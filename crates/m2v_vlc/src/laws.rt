ghost use Rattle.m2v_vlc.specs.Tables.{increment, type_i, type_p, type_b, block_pattern, motion, dmv, dc_luma, dc_chroma};
ghost use Rattle.m2v_vlc.specs.Coefficients.{coefficient_zero, first_zero, coefficient_one};
ghost use Rattle.m2v_vlc.specs.Laws.{IsPrefixTable};

/// Each table is one of prefix codes: each value has one row, no code begins another one nor is the same, and of each
/// text exactly one of a value, `Truncated` and `NoCode` is read.
pub fn law_tables()
    ensures increment { IsPrefixTable increment }
    ensures type_i { IsPrefixTable type_i }
    ensures type_p { IsPrefixTable type_p }
    ensures type_b { IsPrefixTable type_b }
    ensures pattern { IsPrefixTable block_pattern }
    ensures motion { IsPrefixTable motion }
    ensures dmv { IsPrefixTable dmv }
    ensures dc_luma { IsPrefixTable dc_luma }
    ensures dc_chroma { IsPrefixTable dc_chroma }
    ensures coefficient_zero { IsPrefixTable coefficient_zero }
    ensures first_zero { IsPrefixTable first_zero }
    ensures coefficient_one { IsPrefixTable coefficient_one }
{}
