//! Whether a piece has one picture at most.
ghost use Rattle.std.specs.Prelude.{◌≡◌, ◌↔◌, IsTrue};
ghost use Rattle.m2v_model.specs.Pieces.{begins_piece as is_begin};
ghost use Rattle.m2v_dec_rows.specs.OnePicture.{NoneBegins, HasOnePicture};

use m2v_dec_rows::dec_unit::UnitReader;

/// Whether a unit of this value begins a new piece behind a picture: a picture, a sequence header, the sequence end
/// code or a group.
#[tactic(auto, unfolding(m2v_model::specs::Pieces::begins_piece))]
fn begins_piece(value: u8) -> bool
    ensures value { result ≡ is_begin value }
{
    value == 0x00 || value == 0xB3 || value == 0xB7 || value == 0xB8
}

/// Whether no unit begins a piece.
fn none_begins(units: &mut UnitReader) -> bool
    ensures none { IsTrue result ↔ NoneBegins units.old }
{
    while let Some(u) = units.next() {
        if begins_piece(u.value()) {
            return false;
        }
    }
    true
}

/// Whether behind a picture no unit begins a piece.
pub fn has_one_picture(units: &mut UnitReader) -> bool
    ensures one { IsTrue result → HasOnePicture units.old }
    ensures every { HasOnePicture units.old → IsTrue result }
{
    while let Some(u) = units.next() {
        if u.value() == 0x00 {
            return none_begins(units);
        }
    }
    true
}
