ghost use Rattle.std.specs.Prelude.{◌≡◌, ℕ, ◌+◌, ◌-◌, ◌*◌, ◌/◌, ◌%◌, ◌^◌, ◌<◌, ◌≤◌, ◌||◌, nat_eq, ℤ, pos, neg_ℤ, cond, int_lt, ◌+ℤ◌, ◌-ℤ◌, ◌*ℤ◌, ◌≤ℤ◌, ◌<ℤ◌, unsigned_abs, ◌⊎◌};
ghost use Rattle.m2v_vector.specs.Vectors.{scale, IsVector, IsDifference, IsSpelling, with_sign, difference, code_of, residual_of, wrapped, joined, between as between_of, half as half_of, opposite};

/// What an f_code stands for.
#[inline(always)]
#[tactic(auto, using(crate::proofs::Ranges::powers))]
fn factor(f_code: u8) -> u32
    requires least { 1 ≤ f_code }
    requires most { f_code ≤ 9 }
    ensures value { result ≡ scale f_code }
    ensures some { 0 < result }
    ensures most { result ≤ 256 }
{
    1 << (f_code - 1)
}

/// A size with the sign of a number.
#[inline(always)]
#[tactic(auto, unfolding(crate::specs::Vectors::with_sign))]
fn signed(like: i32, size: u32) -> i32
    requires { size ≤ 4096 }
    ensures value { result ≡ with_sign like size }
    ensures low { neg_ℤ (pos size) ≤ℤ result }
    ensures high { result ≤ℤ pos size }
{
    if like < 0 {
        -(size as i32)
    } else {
        size as i32
    }
}

/// The size of a difference, by that of its code.
#[inline(always)]
fn size_of(f: u32, code: u32, residual: u32) -> u32
    requires f { f ≤ 256 }
    requires code { code ≤ 16 }
    requires some { 0 < code }
    requires residual { residual < f }
    ensures value { result ≡ (code - 1) * f + residual + 1 }
    ensures most { result ≤ 16 * f }
{
    (code - 1) * f + residual + 1
}

/// The difference that a code and its residual mean.
#[inline(always)]
#[tactic(auto, unfolding(crate::specs::Vectors::difference))]
fn difference(f: u32, code: i32, residual: u32) -> i32
    requires some { 0 < f }
    requires f { f ≤ 256 }
    requires low { neg_ℤ (pos 16) ≤ℤ code }
    requires high { code ≤ℤ pos 16 }
    requires residual { residual < f }
    ensures value { result ≡ difference f code residual }
    ensures within { IsDifference f result }
{
    let size = code.unsigned_abs();
    if f == 1 || size == 0 {
        return code;
    }
    signed(code, size_of(f, size, residual))
}

/// A component brought back into the range of vectors.
#[inline(always)]
#[tactic(auto, unfolding(crate::specs::Vectors::wrapped))]
fn wrapped(f: u32, v: i32) -> i32
    requires f { f ≤ 256 }
    requires low { neg_ℤ (pos (48 * f)) ≤ℤ v }
    requires high { v <ℤ pos (48 * f) }
    ensures value { result ≡ wrapped f v }
    ensures within { IsVector f result }
{
    let f = f as i32;
    if v < -(16 * f) {
        v + 32 * f
    } else if 16 * f <= v {
        v - 32 * f
    } else {
        v
    }
}

/// The component of a vector (clause 7.6.3.1), by its predictor, a motion_code and its motion_residual, in half
/// samples: from `-16 f` to `16 f - 1`, where f is 2 ^ (f_code - 1).
pub fn join(pred: i32, code: i8, residual: u32, f_code: u8) -> i32
    requires least { 1 ≤ f_code }
    requires most { f_code ≤ 9 }
    requires predictor { IsVector (scale f_code) pred }
    requires spelling { IsSpelling (scale f_code) code residual }
    ensures value { result ≡ joined (scale f_code) pred code residual }
    ensures within { IsVector (scale f_code) result }
{
    let f = factor(f_code);
    wrapped(f, pred + difference(f, i32::from(code), residual))
}

/// The difference that is written for a component of a vector: the one from `-16 f` to `16 f - 1`.
pub fn between(pred: i32, vector: i32, f_code: u8) -> i32
    requires least { 1 ≤ f_code }
    requires most { f_code ≤ 9 }
    requires predictor { IsVector (scale f_code) pred }
    requires vector { IsVector (scale f_code) vector }
    ensures value { result ≡ between_of (scale f_code) pred vector }
    ensures within { IsVector (scale f_code) result }
{
    wrapped(factor(f_code), vector - pred)
}

/// The size of the code of a difference, by that of the difference.
#[inline(always)]
fn code_size(f: u32, size: u32) -> u32
    requires some { 0 < f }
    requires size { size ≤ 16 * f }
    requires not_none { 0 < size }
    ensures value { result ≡ (size - 1) / f + 1 }
    ensures most { result ≤ 16 }
{
    (size - 1) / f + 1
}

/// The motion_code and the motion_residual of a difference from `-16 f` to `16 f`.
#[tactic(auto, unfolding(crate::specs::Vectors::code_of, crate::specs::Vectors::residual_of))]
pub fn split(delta: i32, f_code: u8) -> (i8, u32)
    requires least { 1 ≤ f_code }
    requires most { f_code ≤ 9 }
    requires range { IsDifference (scale f_code) delta }
    ensures code { result.0 ≡ code_of (scale f_code) delta }
    ensures residual { result.1 ≡ residual_of (scale f_code) delta }
    ensures spelling { IsSpelling (scale f_code) result.0 result.1 }
    ensures value { difference (scale f_code) result.0 result.1 ≡ delta }
{
    let f = factor(f_code);
    let size = delta.unsigned_abs();
    if size == 0 {
        return (0, 0);
    }
    let code = signed(delta, code_size(f, size));
    (code as i8, (size - 1) % f)
}

/// A half, rounded down: what a field vector in a frame picture is predicted from.
#[inline(always)]
pub fn half(value: i32) -> i32
    ensures value { result ≡ half_of value }
    ensures low { neg_ℤ (pos (2 ^ 30)) ≤ℤ result }
    ensures high { result <ℤ pos (2 ^ 30) }
{
    value >> 1
}

/// Whether a component is above 0, as a number.
#[inline(always)]
fn is_above(vector: i32) -> i32
    ensures value { result ≡ cond (int_lt (pos 0) vector) (pos 1) (pos 0) }
    ensures low { pos 0 ≤ℤ result }
    ensures high { result ≤ℤ pos 1 }
{
    if vector > 0 { 1 } else { 0 }
}

/// A component by the distance of the fields, 1 or 3.
#[inline(always)]
fn stretched(vector: i32, factor: i32) -> i32
    requires low { neg_ℤ (pos 4096) ≤ℤ vector }
    requires high { vector ≤ℤ pos 4095 }
    requires factor { (factor ≡ pos 1) ⊎ (factor ≡ pos 3) }
    ensures value { result ≡ vector *ℤ factor }
    ensures low { neg_ℤ (pos 12288) ≤ℤ result }
    ensures high { result ≤ℤ pos 12285 }
{
    if factor == 1 { vector } else { 3 * vector }
}

/// What is added to the stretched component.
#[inline(always)]
fn added(dm: i8, correction: i32) -> i32
    requires dm { (neg_ℤ (pos 1) ≤ℤ dm) × (dm ≤ℤ pos 1) }
    requires correction { (neg_ℤ (pos 1) ≤ℤ correction) × (correction ≤ℤ pos 1) }
    ensures value { result ≡ dm +ℤ correction }
    ensures low { neg_ℤ (pos 2) ≤ℤ result }
    ensures high { result ≤ℤ pos 2 }
{
    i32::from(dm) + correction
}

/// The component of dual prime's opposite vector (clause 7.6.3.6), by that of the vector from -4096 to 4095, in half
/// samples. `factor` is 1 or 3, the distance of the fields; `correction` is -1, 0 or 1 lines.
pub fn dual(vector: i32, dm: i8, factor: i32, correction: i32) -> i32
    requires low { neg_ℤ (pos 4096) ≤ℤ vector }
    requires high { vector ≤ℤ pos 4095 }
    requires dm { (neg_ℤ (pos 1) ≤ℤ dm) × (dm ≤ℤ pos 1) }
    requires factor { (factor ≡ pos 1) ⊎ (factor ≡ pos 3) }
    requires correction { (neg_ℤ (pos 1) ≤ℤ correction) × (correction ≤ℤ pos 1) }
    ensures { result ≡ opposite vector dm factor correction }
{
    half(stretched(vector, factor) + is_above(vector)) + added(dm, correction)
}
