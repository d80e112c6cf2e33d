ghost use Rattle.std.specs.Prelude.{◌≡◌, ◌+◌, ◌-◌, ◌*◌, ◌≤◌, ◌<◌, ◌^◌, ◌&&◌, ◌||◌, not, nat_eq, cond, true, false, ◌∷◌, IfOk, length, drop, slice_index, slice_index_or, pos, neg_ℤ, ◌≤ℤ◌, ◌<ℤ◌};
ghost use Rattle.m2v_bits.specs.Syntax.{Gives, choose, done};
ghost use Rattle.m2v_vector.specs.Vectors.{scale, IsVector, half as half_of};
ghost use Rattle.m2v_vector.specs.Predictors.{pair_of};
ghost use Rattle.m2v_bits.specs.Leaves.{bits_at};
ghost use Rattle.m2v_macro.specs.Faults.{cut, flag_at};
ghost use Rattle.m2v_macro.specs.Vectors.{shape_of as shape_as, has_residual as has_residual_of, component_at, dm_at, is_half_vector as is_half_vector_of, vertical_at, vector_at, selected_at, no_vector as no_vector_of, vectors_at, direction_at};
ghost use Rattle.m2v_macro.specs.Conditions.{AreScales, IsPair, ArePredictors, IsHalf, IsDm, IsSelected, IsDirection};
ghost use Rattle.m2v_macro.specs.Reading.{ReadsComponent, ReadsSelected};

use crate::fault::MacroFault;
use crate::fault::MacroFault::Code;
use crate::values::{Direction, Selected, Shape};
use m2v_bits::{BitReader, check, flag, number};
use m2v_vector::{Pmv, half, join};
use m2v_vlc::CodeFault::Truncated;
use m2v_vlc::{read_dmv, read_motion};

/// How the vectors of a motion type are spelled.
#[inline(always)]
#[tactic(auto, unfolding(crate::specs::Vectors::shape_of, m2v_vector::specs::Predictors::is_halved, m2v_vector::specs::Predictors::has_two))]
pub fn shape_of(field_picture: bool, form: u8) -> Shape
    ensures { result ≡ shape_as field_picture form }
{
    Shape {
        bit: (field_picture || form == 1) && form != 3,
        halved: !field_picture && (form == 1 || form == 3),
        dual: form == 3,
        two: form == if field_picture { 2 } else { 1 },
    }
}

/// Whether a residual stands behind a motion_code.
#[inline(always)]
#[tactic(auto, unfolding(crate::specs::Vectors::has_residual))]
pub fn has_residual(f_code: u8, code: i8) -> bool
    ensures { result ≡ has_residual_of f_code code }
{
    f_code != 1 && code.unsigned_abs() != 0
}

/// The motion_residual behind a motion_code, 0 where there is none.
#[inline(always)]
#[tactic(auto, unfolding(m2v_bits::specs::Syntax::choose, m2v_bits::specs::Syntax::done))]
fn residual(input: &mut BitReader, f_code: u8, code: i8) -> Result<u32, MacroFault>
    requires least { 1 ≤ f_code }
    requires most { f_code ≤ 9 }
    ensures exact { Gives result input.new.rest
        ((choose (has_residual_of f_code code) (bits_at cut (f_code - 1)) (done 0)).read
        input.old.rest) }
    ensures text { input.new.text ≡ input.old.text }
    ensures below { IfOk result (λ v. v < scale f_code) }
    ensures none { IfOk result (λ v. code ≡ pos 0 → v ≡ 0) }
{
    if has_residual(f_code, code) {
        let residual = number(input, f_code - 1, Code(Truncated))?;
        return Ok(residual);
    }
    Ok(0)
}

/// Whether a difference of 0 stands ahead, which is spelled by a bit 1.
#[inline(always)]
fn is_still(input: &BitReader) -> bool
    ensures { result ≡ true → input.now.rest ≡ true ∷ drop 1 input.now.rest }
{
    input.peek(1) == 1
}

/// A component of a vector, behind its predictor, whatever difference stands there.
#[inline(always)]
#[tactic(auto, unfolding(crate::specs::Vectors::component_at, m2v_bits::specs::Syntax::seq, m2v_bits::specs::Syntax::bind, m2v_bits::specs::Syntax::renamed, m2v_bits::specs::Syntax::done))]
fn any_component(input: &mut BitReader, f_code: u8, predictor: i32) -> Result<i32, MacroFault>
    requires least { 1 ≤ f_code }
    requires most { f_code ≤ 9 }
    requires predictor { IsVector (scale f_code) predictor }
    ensures { ReadsComponent f_code predictor input.old input.new result }
{
    let code = read_motion(input)?;
    let residual = residual(input, f_code, code)?;
    Ok(join(predictor, code, residual, f_code))
}

/// A component of a vector, behind its predictor (clauses 6.2.5.2.1 and 7.6.3.1). Where the difference is 0 the predictor
/// is the component.
#[inline(always)]
fn component(input: &mut BitReader, f_code: u8, predictor: i32) -> Result<i32, MacroFault>
    requires least { 1 ≤ f_code }
    requires most { f_code ≤ 9 }
    requires predictor { IsVector (scale f_code) predictor }
    ensures { ReadsComponent f_code predictor input.old input.new result }
{
    if is_still(input) {
        input.skip(1);
        return Ok(predictor);
    }
    any_component(input, f_code, predictor)
}

/// The dmvector of a component in dual prime, 0 elsewhere.
#[inline(always)]
#[tactic(auto, unfolding(crate::specs::Vectors::dm_at, m2v_bits::specs::Syntax::choose, m2v_bits::specs::Syntax::renamed, m2v_bits::specs::Syntax::done))]
fn dm(input: &mut BitReader, dual: bool) -> Result<i32, MacroFault>
    ensures exact { Gives result input.new.rest ((dm_at dual).read input.old.rest) }
    ensures text { input.new.text ≡ input.old.text }
    ensures within { IfOk result (λ v. IsDm v) }
    ensures none { dual ≡ false → IfOk result (λ v. v ≡ pos 0) }
{
    if dual {
        let dm = read_dmv(input)?;
        return Ok(i32::from(dm));
    }
    Ok(0)
}

/// What the vertical component is predicted from.
#[inline(always)]
pub fn before(halved: bool, predictor: i32) -> i32
    ensures { result ≡ cond halved (half_of predictor) predictor }
{
    if halved { half(predictor) } else { predictor }
}

/// Whether a vertical component is that of a field vector in a frame picture.
#[inline(always)]
#[tactic(auto, unfolding(crate::specs::Vectors::is_half_vector))]
pub fn is_half_vector(f_code: u8, v: i32) -> bool
    requires least { 1 ≤ f_code }
    requires most { f_code ≤ 9 }
    ensures value { result ≡ is_half_vector_of (scale f_code) v }
    ensures held { result ≡ true → IsHalf (scale f_code) v }
{
    let eight_f = 8 << (f_code - 1);
    -eight_f <= v && v < eight_f
}

/// The vertical component of a vector, behind its predictor.
#[inline(always)]
#[tactic(auto, unfolding(crate::specs::Vectors::vertical_at, m2v_bits::specs::Syntax::seq, m2v_bits::specs::Syntax::bind, m2v_bits::specs::Syntax::here, m2v_bits::specs::Syntax::done))]
fn vertical(
    input: &mut BitReader,
    halved: bool,
    f_code: u8,
    predictor: i32,
) -> Result<i32, MacroFault>
    requires least { 1 ≤ f_code }
    requires most { f_code ≤ 9 }
    requires predictor { IsVector (scale f_code) predictor }
    ensures exact { Gives result input.new.rest
        ((vertical_at halved f_code predictor).read input.old.rest) }
    ensures text { input.new.text ≡ input.old.text }
    ensures within { IfOk result (λ v. IsVector (scale f_code) v) }
    ensures half { halved ≡ true → IfOk result (λ v. IsHalf (scale f_code) v) }
{
    let start = input.fork();
    let v = component(input, f_code, before(halved, predictor))?;
    let fits = !halved || is_half_vector(f_code, v);
    check(input, &start, fits, MacroFault::VectorRange)?;
    Ok(v)
}

/// A vector behind its reference field bit.
#[inline(always)]
#[tactic(auto, unfolding(crate::specs::Vectors::vector_at, m2v_bits::specs::Syntax::seq, m2v_bits::specs::Syntax::bind, m2v_bits::specs::Syntax::done))]
fn vector(
    input: &mut BitReader,
    shape: &Shape,
    f_code: &[u8; 2],
    predictor: &[i32; 2],
    bottom: bool,
) -> Result<Selected, MacroFault>
    requires scales { AreScales f_code.now }
    requires predictor { IsPair f_code.now predictor.now }
    requires bit { shape.now.bit ≡ false → bottom ≡ false }
    ensures exact { Gives result input.new.rest
        ((vector_at shape.now f_code.now predictor.now bottom).read input.old.rest) }
    ensures text { input.new.text ≡ input.old.text }
    ensures selected { IfOk result (λ s. IsSelected shape.now f_code.now s) }
{
    let x = component(input, f_code[0], predictor[0])?;
    let dm_x = dm(input, shape.dual)?;
    let y = vertical(input, shape.halved, f_code[1], predictor[1])?;
    let dm_y = dm(input, shape.dual)?;
    Ok(Selected {
        bottom,
        vector: [x, y],
        dmvector: [dm_x, dm_y],
    })
}

/// The reference field bit before a vector, false where there is none.
#[inline(always)]
#[tactic(auto, unfolding(m2v_bits::specs::Syntax::choose, m2v_bits::specs::Syntax::done))]
fn bit(input: &mut BitReader, told: bool) -> Result<bool, MacroFault>
    ensures exact { Gives result input.new.rest
        ((choose told flag_at (done false)).read input.old.rest) }
    ensures text { input.new.text ≡ input.old.text }
    ensures none { IfOk result (λ v. told ≡ false → v ≡ false) }
{
    if told {
        let bottom = flag(input, Code(Truncated))?;
        return Ok(bottom);
    }
    Ok(false)
}

/// A vector with its reference field bit.
type Found = Result<Selected, MacroFault>;

/// A vector behind its reference field bit, and that bit.
#[inline(always)]
#[tactic(auto, unfolding(crate::specs::Vectors::selected_at, m2v_bits::specs::Syntax::seq, m2v_bits::specs::Syntax::bind))]
fn with_bit(input: &mut BitReader, shape: &Shape, f_code: &[u8; 2], predictor: &[i32; 2]) -> Found
    requires scales { AreScales f_code.now }
    requires predictor { IsPair f_code.now predictor.now }
    ensures { ReadsSelected shape.now f_code.now predictor.now input.old input.new result }
{
    let bottom = bit(input, shape.bit)?;
    vector(input, shape, f_code, predictor, bottom)
}

/// A vector with its reference field bit (clause 6.2.5.2). The reader's place stays in a register meanwhile.
fn selected(input: &mut BitReader, shape: &Shape, f_code: &[u8; 2], predictor: &[i32; 2]) -> Found
    requires scales { AreScales f_code.now }
    requires predictor { IsPair f_code.now predictor.now }
    ensures { ReadsSelected shape.now f_code.now predictor.now input.old input.new result }
{
    let mut ahead = input.fork();
    let read = with_bit(&mut ahead, shape, f_code, predictor);
    *input = ahead;
    read
}

/// What stands for a vector that there is not.
#[inline(always)]
pub fn no_vector() -> Selected
    ensures { result ≡ no_vector_of }
{
    Selected {
        bottom: false,
        vector: [0, 0],
        dmvector: [0, 0],
    }
}

/// The second vector of a direction, where there are two.
#[inline(always)]
#[tactic(auto, unfolding(m2v_bits::specs::Syntax::choose, m2v_bits::specs::Syntax::done))]
fn second(input: &mut BitReader, shape: &Shape, f_code: &[u8; 2], predictor: &[i32; 2]) -> Found
    requires scales { AreScales f_code.now }
    requires predictor { IsPair f_code.now predictor.now }
    ensures exact { Gives result input.new.rest
        ((choose shape.now.two (selected_at shape.now f_code.now predictor.now)
        (done no_vector_of)).read input.old.rest) }
    ensures text { input.new.text ≡ input.old.text }
    ensures two { shape.now.two ≡ true → IfOk result (λ s. IsSelected shape.now f_code.now s) }
    ensures one { shape.now.two ≡ false → IfOk result (λ s. s ≡ no_vector_of) }
{
    if shape.two {
        return selected(input, shape, f_code, predictor);
    }
    Ok(no_vector())
}

/// The vectors of a direction, which are predicted by both entries (clause 7.6.3.1).
#[inline(always)]
#[tactic(auto, unfolding(crate::specs::Vectors::vectors_at, m2v_bits::specs::Syntax::seq, m2v_bits::specs::Syntax::bind, m2v_bits::specs::Syntax::done))]
fn vectors(
    input: &mut BitReader,
    shape: &Shape,
    f_code: &[u8; 2],
    pmv: &Pmv,
    direction: usize,
) -> Result<Direction, MacroFault>
    requires scales { AreScales f_code.now }
    requires predictors { ArePredictors f_code.now pmv.now direction }
    requires direction { direction < 2 }
    ensures exact { Gives result input.new.rest
        ((vectors_at shape.now f_code.now pmv.now direction).read input.old.rest) }
    ensures text { input.new.text ≡ input.old.text }
    ensures told { IfOk result (λ d. IsDirection true shape.now f_code.now d) }
{
    let first = selected(input, shape, f_code, &pmv.at[0][direction])?;
    let second = second(input, shape, f_code, &pmv.at[1][direction])?;
    Ok(Direction { first, second })
}

/// The vectors of a direction that is told; zero vectors of one that isn't.
#[inline(always)]
#[tactic(auto, unfolding(crate::specs::Vectors::direction_at, m2v_bits::specs::Syntax::choose, m2v_bits::specs::Syntax::done))]
pub fn direction(
    input: &mut BitReader,
    told: bool,
    shape: &Shape,
    f_code: &[u8; 2],
    pmv: &Pmv,
    direction: usize,
) -> Result<Direction, MacroFault>
    requires scales { told ≡ true → AreScales f_code.now }
    requires predictors { told ≡ true → ArePredictors f_code.now pmv.now direction }
    requires direction { direction < 2 }
    ensures exact { Gives result input.new.rest
        ((direction_at told shape.now f_code.now pmv.now direction).read input.old.rest) }
    ensures text { input.new.text ≡ input.old.text }
    ensures known { IfOk result (λ d. IsDirection told shape.now f_code.now d) }
{
    if told {
        let read = vectors(input, shape, f_code, pmv, direction)?;
        return Ok(read);
    }
    Ok(Direction {
        first: no_vector(),
        second: no_vector(),
    })
}
