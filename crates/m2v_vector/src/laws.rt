ghost use Rattle.std.specs.Prelude.{◌≡◌, ℕ, ◌+◌, ◌*◌, ◌<◌, ℤ, pos, neg_ℤ, ◌⊎◌};
ghost use Rattle.m2v_vector.specs.Vectors.{IsVector, IsDifference, IsSpelling, difference, joined, between};

/// A spelling of the difference that is written gives the vector back.
pub fn law_round_trip()
    ensures { (f : ℕ) (predictor vector code : ℤ) (residual : ℕ) → 0 < f → IsVector f predictor
        → IsVector f vector
        → difference f code residual ≡ between f predictor vector → joined f predictor code residual
        ≡ vector }
{}

/// Two spellings that give one vector are one spelling, or their differences are `16 f` and `-16 f`.
pub fn law_two_spellings()
    ensures { (f : ℕ) (predictor code other : ℤ) (residual more : ℕ) → IsVector f predictor
        → IsSpelling f code residual → IsSpelling f other more
        → joined f predictor code residual ≡ joined f predictor other more
        → ((code ≡ other) × (residual ≡ more))
        ⊎ ((difference f code residual ≡ pos (16 * f))
        × (difference f other more ≡ neg_ℤ (pos (16 * f))))
        ⊎ ((difference f code residual ≡ neg_ℤ (pos (16 * f)))
        × (difference f other more ≡ pos (16 * f))) }
{}
