ghost use Rattle.std.specs.Prelude.{◌≡◌, ℕ, ◌≤◌, ◌++◌, List, Bool, ℤ, Ok};
ghost use Rattle.m2v_bits.specs.Laws.{Decided};
ghost use Rattle.m2v_vector.specs.Vectors.{scale, IsVector};
ghost use Rattle.m2v_macro.specs.declared.values.MacroSyntax.{MacroSyntax};
ghost use Rattle.m2v_macro.specs.declared.values.SliceState.{SliceState};
ghost use Rattle.m2v_macro.specs.declared.values.PictureContext.{PictureContext};
ghost use Rattle.m2v_macro.specs.Macros.{macro_at};
ghost use Rattle.m2v_macro.specs.Conditions.{IsContext, IsReady, IsMacro};
ghost use Rattle.m2v_macro.specs.Texts.{macro_text};
ghost use Rattle.m2v_macro.specs.Laws.{TwoTexts};

/// At each text exactly one of a macroblock and a first fault stands, and it has one value: two spellings of one text
/// give the same macroblock, and so the same state.
pub fn law_one_reading()
    ensures { (c : PictureContext) (st : SliceState) → Decided (macro_at c st) }
{}

/// What is written of a macroblock is read back as it, whatever follows.
pub fn law_round_trip()
    ensures { (c : PictureContext) (st : SliceState) (m : MacroSyntax) (rest : List Bool)
        → IsContext c → IsReady c st → IsMacro c st m
        → (macro_at c st).read (macro_text c st m ++ rest) ≡ Ok (m, rest) }
{}

/// A component of a vector whose difference is `16 f` or `-16 f` may be spelled either way.
pub fn law_two_texts()
    ensures { (f_code : ℕ) (predictor : ℤ) → 1 ≤ f_code → IsVector (scale f_code) predictor
        → TwoTexts f_code predictor }
{}
