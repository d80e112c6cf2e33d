ghost use Rattle.std.specs.Prelude.{◌≡◌, ◌≤◌, ◌<◌, true, length};
ghost use Rattle.m2v_bits.specs.Outputs.{Gains};
ghost use Rattle.m2v_macro.specs.Texts.{bit_text, predictor_at as predictor_at_of, part_text, selected_text, second_text, direction_text};
ghost use Rattle.m2v_macro.specs.Conditions.{AreScales, IsPair, ArePredictors, IsSelected, IsDirection};

use crate::differences::{put_component, put_dm};
use crate::values::{Direction, Selected, Shape};
use crate::vectors::before;
use crate::write_modes::put_flag;
use m2v_bits::BitOutput;
use m2v_vector::Pmv;

/// How a vector is spelled, and what it is predicted from.
#[derive(Clone, Copy)]
struct Spelling<'a> {
    /// What stands with it.
    shape: &'a Shape,
    /// The f_code of each component.
    f_code: &'a [u8; 2],
    /// The entry that it is predicted from.
    predictor: &'a [i32; 2],
}

/// What a component is predicted from.
#[inline(always)]
#[tactic(auto, unfolding(crate::specs::Texts::predictor_at))]
fn predictor_at(shape: &Shape, predictor: &[i32; 2], k: usize) -> i32
    requires { k < 2 }
    ensures { result ≡ predictor_at_of shape.now predictor.now k }
{
    if k == 0 {
        return predictor[0];
    }
    before(shape.halved, predictor[1])
}

/// Appends a component of a vector, and its dmvector in dual prime.
#[inline(always)]
#[tactic(auto, using(m2v_bits::proofs::Cursor::lengths), unfolding(crate::specs::Texts::part_text))]
fn put_part<O: BitOutput>(by: &Spelling, s: &Selected, k: usize, out: &mut O)
    requires k { k < 2 }
    requires scales { AreScales by.now.f_code.now }
    requires predictor { IsPair by.now.f_code.now by.now.predictor.now }
    requires selected { IsSelected by.now.shape.now by.now.f_code.now s.now }
    requires room { length
        (part_text by.now.shape.now by.now.f_code.now by.now.predictor.now s.now k)
        ≤ O.space out.old }
    ensures { Gains O.took O.space out.old
        (part_text by.now.shape.now by.now.f_code.now by.now.predictor.now s.now k) out.new }
{
    let above = predictor_at(by.shape, by.predictor, k);
    put_component(by.f_code[k], above, s.vector[k], out);
    put_dm(by.shape.dual, s.dmvector[k], out);
}

/// Appends a reference field bit, where there is one.
#[inline(always)]
#[tactic(auto, using(m2v_bits::proofs::Outputs::gains_none), unfolding(crate::specs::Texts::bit_text))]
fn put_bit<O: BitOutput>(told: bool, bottom: bool, out: &mut O)
    requires { length (bit_text told bottom) ≤ O.space out.old }
    ensures { Gains O.took O.space out.old (bit_text told bottom) out.new }
{
    if told {
        put_flag(bottom, out);
    }
}

/// Appends a vector with its reference field bit.
#[inline(always)]
#[tactic(auto, using(m2v_bits::proofs::Cursor::lengths), unfolding(crate::specs::Texts::selected_text, crate::specs::Texts::vector_text))]
fn put_selected<O: BitOutput>(by: &Spelling, s: &Selected, out: &mut O)
    requires scales { AreScales by.now.f_code.now }
    requires predictor { IsPair by.now.f_code.now by.now.predictor.now }
    requires selected { IsSelected by.now.shape.now by.now.f_code.now s.now }
    requires room { length
        (selected_text by.now.shape.now by.now.f_code.now by.now.predictor.now s.now)
        ≤ O.space out.old }
    ensures { Gains O.took O.space out.old
        (selected_text by.now.shape.now by.now.f_code.now by.now.predictor.now s.now) out.new }
{
    put_bit(by.shape.bit, s.bottom, out);
    put_part(by, s, 0, out);
    put_part(by, s, 1, out);
}

/// Appends a second vector as `put_selected` does: few macroblocks have one.
#[cold]
#[inline(never)]
fn put_far<O: BitOutput>(
    shape: Shape,
    f_code: &[u8; 2],
    predictor: [i32; 2],
    s: Selected,
    out: &mut O,
)
    requires scales { AreScales f_code.now }
    requires predictor { IsPair f_code.now predictor }
    requires selected { IsSelected shape f_code.now s }
    requires room { length (selected_text shape f_code.now predictor s) ≤ O.space out.old }
    ensures { Gains O.took O.space out.old (selected_text shape f_code.now predictor s) out.new }
{
    let by = Spelling {
        shape: &shape,
        f_code,
        predictor: &predictor,
    };
    put_selected(&by, &s, out);
}

/// Appends the second vector of a direction, where there are two.
#[inline(always)]
#[tactic(auto, using(m2v_bits::proofs::Outputs::gains_none), unfolding(crate::specs::Texts::second_text))]
fn put_second<O: BitOutput>(by: &Spelling, s: &Selected, out: &mut O)
    requires scales { AreScales by.now.f_code.now }
    requires predictor { IsPair by.now.f_code.now by.now.predictor.now }
    requires selected { by.now.shape.now.two ≡ true
        → IsSelected by.now.shape.now by.now.f_code.now s.now }
    requires room { length
        (second_text by.now.shape.now by.now.f_code.now by.now.predictor.now s.now)
        ≤ O.space out.old }
    ensures { Gains O.took O.space out.old
        (second_text by.now.shape.now by.now.f_code.now by.now.predictor.now s.now) out.new }
{
    if by.shape.two {
        put_far(*by.shape, by.f_code, *by.predictor, *s, out);
    }
}

/// Appends the vectors of a direction that is told, and nothing of one that isn't.
#[inline(always)]
#[tactic(auto, using(m2v_bits::proofs::Cursor::lengths, m2v_bits::proofs::Outputs::gains_none), unfolding(crate::specs::Texts::direction_text))]
pub fn put_direction<O: BitOutput>(
    told: bool,
    shape: &Shape,
    f_code: &[u8; 2],
    pmv: &Pmv,
    direction: usize,
    d: &Direction,
    out: &mut O,
)
    requires scales { told ≡ true → AreScales f_code.now }
    requires predictors { told ≡ true → ArePredictors f_code.now pmv.now direction }
    requires direction { direction < 2 }
    requires known { IsDirection told shape.now f_code.now d.now }
    requires room { length (direction_text told shape.now f_code.now pmv.now direction d.now)
        ≤ O.space out.old }
    ensures { Gains O.took O.space out.old
        (direction_text told shape.now f_code.now pmv.now direction d.now) out.new }
{
    if told {
        let first = Spelling {
            shape,
            f_code,
            predictor: &pmv.at[0][direction],
        };
        put_selected(&first, &d.first, out);
        let second = Spelling {
            shape,
            f_code,
            predictor: &pmv.at[1][direction],
        };
        put_second(&second, &d.second, out);
    }
}
