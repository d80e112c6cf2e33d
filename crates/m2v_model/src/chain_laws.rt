//! What streams of any profile are proved with: no prefix of a start code in a text, units one behind another, chains of
//! parts, and frames and fields whose macroblocks are painted in raster order.
ghost use Rattle.std.specs.Prelude.{◌≡◌, ℕ, ◌*◌, ◌<◌, [], ◌++◌, List, Bool};
ghost use Rattle.m2v_bits.specs.Bits.{packed};
ghost use Rattle.m2v_bits.specs.Syntax.{Rounds};
ghost use Rattle.m2v_plane.specs.declared.dims.Dims.{Dims};
ghost use Rattle.m2v_plane.specs.declared.planes.Plane.{Plane};
ghost use Rattle.m2v_plane.specs.declared.planes.Lines.TheVariants.{Whole, Top, Bottom};
ghost use Rattle.m2v_plane.specs.Samples.{Samples, plane_by};
ghost use Rattle.m2v_macroblock.specs.m2v_macro.declared.values.SliceState.{SliceState};
ghost use Rattle.m2v_macroblock.specs.Macroblocks.{Macroblock};
ghost use Rattle.m2v_macroblock.specs.Modes.{first_skipped};
ghost use Rattle.m2v_model.specs.declared.setup.SliceSetup.{SliceSetup};
ghost use Rattle.m2v_model.specs.declared.state.State.{State};
ghost use Rattle.m2v_model.specs.Samples.{References, put_in_frame, all_painted};
ghost use Rattle.m2v_model.specs.Units.{Units, Cuts};
ghost use Rattle.m2v_model.specs.Streams.{Part, Sofar, unit_round};
ghost use Rattle.m2v_model.specs.Texts.{Packs};
ghost use Rattle.m2v_model.specs.Chains.{Chain};
ghost use Rattle.m2v_model.specs.Painting.{HasPart, IsPainted, lines_in, ArePartsOf, after_macroblocks};

/// A text that packs units, in none of which a prefix of a start code stands, is cut into these units.
pub fn law_cut()
    ensures { (text : List Bool) (us : Units) → Packs text us → Cuts (packed text) [] us }
{}

/// Units that are parts of a stream are read in as many rounds.
pub fn law_chained()
    ensures { (a b : State) (ps : List Part) (us : Units) → Chain a ps us b
        → (xs : List Part) (vs rest : Units) (z : Sofar)
        → Rounds unit_round (record { state = b; parts = xs ++ ps }) z vs rest
        → Rounds unit_round (record { state = a; parts = xs }) z (us ++ vs) rest }
{}

/// A plane in which all macroblocks have their samples is the plane of these samples.
pub fn law_painted()
    ensures { (side rows columns : ℕ) (f : ℕ → ℕ → ℕ) (xs : List ℕ) → 0 < side
        → HasPart Whole side rows columns (rows * columns) f xs
        → xs ≡ plane_by (side * rows) (side * columns) f }
{}

/// A plane in which all macroblocks of both fields have their samples is the plane of these samples: each field has half
/// as many macroblock rows.
pub fn law_fields_painted()
    ensures { (side half columns : ℕ) (f : ℕ → ℕ → ℕ) (xs : List ℕ) → 0 < side
        → HasPart Top side (2 * half) columns (half * columns) f xs
        → HasPart Bottom side (2 * half) columns (half * columns) f xs
        → xs ≡ plane_by (side * (2 * half)) (side * columns) f }
{}

/// Macroblocks that have the samples of a frame, put one behind another into a frame of which all macroblocks before them
/// have theirs, leave one of which all have theirs as far as they reach: in frames and in each field, with those that are
/// skipped.
pub fn law_macroblocks_painted()
    ensures { (d : Dims) (s : SliceSetup) (refs : References) (st : SliceState)
        (xs : List Macroblock) (at : Plane → ℕ → ℕ → ℕ) (now : Samples)
        → 0 < d.mb_width → s.context.columns ≡ d.mb_width
        → ArePartsOf s refs st xs at
        → IsPainted (lines_in s.context) d (first_skipped st) at now
        → IsPainted (lines_in s.context) d (first_skipped (after_macroblocks s.context st xs)) at
        (all_painted put_in_frame s refs st xs now) }
{}
