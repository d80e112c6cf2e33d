ghost use Rattle.std.specs.Prelude.{◌≡◌, ℕ, ◌*◌, ◌≤◌, ◌^◌, IfErr, length};
ghost use Rattle.m2v_bits.specs.Syntax.{renamed};
ghost use Rattle.m2v_macro.specs.Macros.{increment_at};
ghost use Rattle.m2v_macro.specs.Reading.{kept};
ghost use Rattle.m2v_model.specs.Faults as faults;
ghost use Rattle.m2v_model.specs.Slices.{begins_late as begins_late_of};
ghost use Rattle.m2v_dec_picture.specs.Reads.{TellsSum};

use m2v_bits::BitReader;
use m2v_macro::increment;
use m2v_model::{Stop, of_macro, stopped};

/// The increment that stands ahead, with its escapes (clause 6.3.17). Nothing is taken.
#[tactic(auto, unfolding(m2v_bits::specs::Syntax::renamed))]
pub fn increment_ahead(input: &BitReader) -> Result<u32, Stop>
    ensures exact { TellsSum result ((renamed faults.of_macro increment_at).read input.now.rest) }
    ensures left { IfErr result (λ e. e.left ≤ length input.now.text) }
{
    let mut ahead = input.fork();
    match increment(&mut ahead) {
        Ok(increment) => Ok(increment),
        Err(e) => Err(stopped(&ahead, of_macro(e))),
    }
}

/// Whether a slice whose first increment is this doesn't begin before the next uncovered macroblock.
pub fn begins_late(row: u32, columns: u32, increment: u32, covered: u32) -> bool
    requires columns { columns ≤ 120 }
    ensures { (n : ℕ) → increment ≡ kept n → covered ≤ 2 ^ 16
        → result ≡ begins_late_of (row * columns) n covered }
{
    u64::from(covered) < u64::from(row) * u64::from(columns) + u64::from(increment)
}
