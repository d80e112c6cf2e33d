ghost use Rattle.std.specs.Prelude.{◌≡◌, ◌≤◌, ◌<◌, true, length};
ghost use Rattle.m2v_bits.specs.Outputs.{Gains};
ghost use Rattle.m2v_vector.specs.Vectors.{scale, IsVector, IsDifference};
ghost use Rattle.m2v_macro.specs.Texts.{residual_text, difference_text, component_text, dm_text};
ghost use Rattle.m2v_macro.specs.Conditions.{IsDm};

use crate::vectors::has_residual;
use m2v_bits::BitOutput;
use m2v_vector::{between, split};
use m2v_vlc::{append_code, code_dmv, code_motion};

/// Appends a residual, where its code has one.
#[inline(always)]
#[tactic(auto, using(m2v_bits::proofs::Cursor::lengths, m2v_bits::proofs::Outputs::gains_none), unfolding(crate::specs::Texts::residual_text))]
fn put_residual<O: BitOutput>(f_code: u8, code: i8, residual: u32, out: &mut O)
    requires least { 1 ≤ f_code }
    requires most { f_code ≤ 9 }
    requires below { residual < scale f_code }
    requires room { length (residual_text f_code code residual) ≤ O.space out.old }
    ensures { Gains O.took O.space out.old (residual_text f_code code residual) out.new }
{
    if has_residual(f_code, code) {
        out.append(residual, f_code - 1);
    }
}

/// Appends a difference.
#[inline(always)]
#[tactic(auto, using(m2v_bits::proofs::Cursor::lengths), unfolding(crate::specs::Texts::difference_text))]
fn put_difference<O: BitOutput>(f_code: u8, difference: i32, out: &mut O)
    requires least { 1 ≤ f_code }
    requires most { f_code ≤ 9 }
    requires difference { IsDifference (scale f_code) difference }
    requires room { length (difference_text f_code difference) ≤ O.space out.old }
    ensures { Gains O.took O.space out.old (difference_text f_code difference) out.new }
{
    let (code, residual) = split(difference, f_code);
    append_code(code_motion(code), out);
    put_residual(f_code, code, residual, out);
}

/// Appends a component of a vector.
#[inline(always)]
#[tactic(auto, unfolding(crate::specs::Texts::component_text))]
pub fn put_component<O: BitOutput>(f_code: u8, predictor: i32, v: i32, out: &mut O)
    requires least { 1 ≤ f_code }
    requires most { f_code ≤ 9 }
    requires predictor { IsVector (scale f_code) predictor }
    requires vector { IsVector (scale f_code) v }
    requires room { length (component_text f_code predictor v) ≤ O.space out.old }
    ensures { Gains O.took O.space out.old (component_text f_code predictor v) out.new }
{
    put_difference(f_code, between(predictor, v, f_code), out);
}

/// Appends a dmvector, in dual prime.
#[inline(always)]
#[tactic(auto, using(m2v_bits::proofs::Cursor::lengths, m2v_bits::proofs::Outputs::gains_none), unfolding(crate::specs::Texts::dm_text))]
pub fn put_dm<O: BitOutput>(dual: bool, dm: i32, out: &mut O)
    requires known { dual ≡ true → IsDm dm }
    requires room { length (dm_text dual dm) ≤ O.space out.old }
    ensures { Gains O.took O.space out.old (dm_text dual dm) out.new }
{
    if dual {
        append_code(code_dmv(dm as i8), out);
    }
}
