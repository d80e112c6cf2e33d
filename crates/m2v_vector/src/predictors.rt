ghost use Rattle.std.specs.Prelude.{◌≡◌, ◌+◌, ◌^◌, ◌<◌, ◌≤◌, nat_eq, ◌&&◌, ◌||◌, not, cond, pos, neg_ℤ, ◌≤ℤ◌, slice_index_or};

/// The predictors of vectors (clause 7.6.3): by entry, direction (0 forward, 1 backward) and component (0 horizontal,
/// 1 vertical), in half samples.
#[derive(Clone, Copy, Debug, PartialEq, Eq)]
pub struct Pmv {
    pub at: [[[i32; 2]; 2]; 2],
}

/// What a macroblock does to the predictors.
///
/// `kind` is picture_coding_type: 1 I, 2 P, 3 B. `form` is frame_motion_type or field_motion_type; where there is none
/// it is 2 in a frame picture and 0 in a field picture. A skipped macroblock is not intra and has no direction. The
/// vectors are ordered as predictors are, the first vector where predictors have entry 0.
#[derive(Clone, Copy, Debug, PartialEq, Eq)]
pub struct Motion {
    pub field_picture: bool,
    pub kind: u8,
    pub intra: bool,
    pub concealment: bool,
    pub forward: bool,
    pub backward: bool,
    pub form: u8,
    pub vectors: [[[i32; 2]; 2]; 2],
}

impl Motion {
    ghost use Rattle.m2v_vector.specs.Predictors.{resets as resets_of, has_vectors as has_vectors_of, has_two as has_two_of, is_halved as is_halved_of};

    /// Whether all predictors become 0.
    #[inline(always)]
    #[tactic(auto, unfolding(crate::specs::Predictors::resets))]
    fn resets(&self) -> bool
        ensures { result ≡ resets_of self.now }
    {
        if self.intra {
            return !self.concealment;
        }
        self.kind == 2 && !self.forward
    }

    /// Whether the macroblock has vectors of a direction.
    #[inline(always)]
    #[tactic(auto, unfolding(crate::specs::Predictors::has_vectors))]
    fn has_vectors(&self, direction: usize) -> bool
        ensures { result ≡ has_vectors_of self.now direction }
    {
        if direction == 0 {
            return self.forward || (self.intra && self.concealment);
        }
        self.backward
    }

    /// Whether a direction has two vectors.
    #[inline(always)]
    #[tactic(auto, unfolding(crate::specs::Predictors::has_two))]
    fn has_two(&self) -> bool
        ensures { result ≡ has_two_of self.now.field_picture self.now.form }
    {
        if self.field_picture {
            return self.form == 2;
        }
        self.form == 1
    }

    /// Whether the vectors are those of fields in a frame picture.
    #[inline(always)]
    #[tactic(auto, unfolding(crate::specs::Predictors::is_halved))]
    fn is_halved(&self) -> bool
        ensures { result ≡ is_halved_of self.now.field_picture self.now.form }
    {
        !self.field_picture && (self.form == 1 || self.form == 3)
    }
}

ghost use Rattle.m2v_vector.specs.Predictors.{left_by as left_by_of, is_halved, has_two, pair_of, number_of, zero, entry_after, predictors_after, AreSmall};

/// The entry that a vector leaves.
#[inline(always)]
#[tactic(auto, unfolding(crate::specs::Predictors::left_by))]
fn left_by(halved: bool, v: &[i32; 2]) -> [i32; 2]
    requires low { neg_ℤ (pos (2 ^ 16)) ≤ℤ slice_index_or v.now 1 (pos 0) }
    requires high { slice_index_or v.now 1 (pos 0) ≤ℤ pos (2 ^ 16) }
    ensures { result ≡ left_by_of halved v.now }
{
    if halved {
        return [v[0], 2 * v[1]];
    }
    [v[0], v[1]]
}

/// An entry of a direction behind a macroblock.
#[inline(always)]
#[tactic(auto, unfolding(crate::specs::Predictors::entry_after))]
fn entry_after(m: &Motion, p: &Pmv, entry: usize, direction: usize) -> [i32; 2]
    requires entry { entry < 2 }
    requires direction { direction < 2 }
    requires small { AreSmall m.now.vectors }
    ensures { result ≡ entry_after m.now p.now entry direction }
{
    if !m.has_vectors(direction) {
        return p.at[entry][direction];
    }
    if m.has_two() {
        return left_by(m.is_halved(), &m.vectors[entry][direction]);
    }
    left_by(m.is_halved(), &m.vectors[0][direction])
}

static ZERO: Pmv = Pmv {
    at: [[[0, 0], [0, 0]], [[0, 0], [0, 0]]],
};

/// The same predictors.
#[inline(always)]
fn copied(p: &Pmv) -> Pmv
    ensures { result ≡ p.now }
{
    *p
}

impl Pmv {
    /// All predictors 0, as at the start of a slice.
    pub fn zero() -> Pmv
        ensures { result ≡ zero }
    {
        copied(&ZERO)
    }

    /// The predictors after a macroblock, or after skipped ones (clauses 7.6.3.3 and 7.6.3.4).
    #[inline(always)]
    #[tactic(auto, unfolding(crate::specs::Predictors::predictors_after))]
    pub fn after(&self, m: &Motion) -> Pmv
        requires { AreSmall m.now.vectors }
        ensures { result ≡ predictors_after m.now self.now }
    {
        if m.resets() {
            return Pmv::zero();
        }
        let mut next = Pmv::zero();
        next.at[0][0] = entry_after(m, self, 0, 0);
        next.at[0][1] = entry_after(m, self, 0, 1);
        next.at[1][0] = entry_after(m, self, 1, 0);
        next.at[1][1] = entry_after(m, self, 1, 1);
        next
    }
}
