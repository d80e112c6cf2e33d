ghost use Rattle.std.specs.Prelude.{◌≡◌, ◌<◌, IfOk, IfErr, Ok, Err};
ghost use Rattle.m2v_model.specs.Pieces.{begins_piece};
ghost use Rattle.m2v_dec_piece.specs.Cutting.{Fits, StopsAt};
ghost use Rattle.m2v_dec_piece.specs.Stepping.{AtValue, Takes};

use crate::DecodeError;
use crate::hand::Hand;
use m2v_model::Phase;

/// What the next byte of a text does.
#[derive(Clone, Copy, Debug, PartialEq, Eq)]
pub enum Byte {
    /// It is taken, and the piece goes on, or the text before the first one.
    Used,
    /// It stays, and the first piece begins.
    First,
    /// It stays: with its unit the next piece begins, and the piece at hand is whole.
    Whole,
    /// It is taken, and ends the last piece.
    Last,
}

/// Whether a unit of this value begins a piece behind a picture.
#[tactic(auto, unfolding(m2v_model::specs::Pieces::begins_piece))]
fn is_begin(value: u8) -> bool
    ensures { result ≡ begins_piece value }
{
    value == 0x00 || value == 0xB3 || value == 0xB7 || value == 0xB8
}

/// The value of a unit before the first sequence header.
fn before(hand: &mut Hand, value: u8) -> Result<Byte, DecodeError>
    requires at { AtValue hand.old Phase.Before }
    ensures ok { IfOk result (λ b. Takes b hand.old value hand.new) }
    ensures err { IfErr result (StopsAt hand.old value) }
{
    if value == 0xB3 {
        hand.begin();
        return Ok(Byte::First);
    }
    match hand.unit(value) {
        Ok(()) => Ok(Byte::Used),
        Err(e) => Err(e),
    }
}

/// The value of a unit among header units.
#[tactic(auto, unfolding(m2v_model::specs::Pieces::is_end))]
fn headers(hand: &mut Hand, value: u8) -> Result<Byte, DecodeError>
    requires at { AtValue hand.old Phase.Headers }
    ensures ok { IfOk result (λ b. Takes b hand.old value hand.new) }
    ensures err { IfErr result (StopsAt hand.old value) }
{
    if value == 0xB7 {
        return match hand.end() {
            Ok(()) => Ok(Byte::Last),
            Err(e) => Err(e),
        };
    }
    match hand.unit(value) {
        Ok(()) => Ok(Byte::Used),
        Err(e) => Err(e),
    }
}

/// The value of a unit behind a picture.
fn picture(hand: &mut Hand, value: u8) -> Result<Byte, DecodeError>
    requires at { AtValue hand.old Phase.Picture }
    ensures ok { IfOk result (λ b. Takes b hand.old value hand.new) }
    ensures err { IfErr result (StopsAt hand.old value) }
{
    if is_begin(value) {
        return Ok(Byte::Whole);
    }
    match hand.unit(value) {
        Ok(()) => Ok(Byte::Used),
        Err(e) => Err(e),
    }
}

/// The value behind a whole prefix.
fn value(hand: &mut Hand, value: u8) -> Result<Byte, DecodeError>
    requires fits { Fits hand.old }
    requires ahead { hand.old.ahead ≡ 3 }
    ensures ok { IfOk result (λ b. Takes b hand.old value hand.new) }
    ensures err { IfErr result (StopsAt hand.old value) }
{
    match hand.phase() {
        Phase::Before => before(hand, value),
        Phase::Headers => headers(hand, value),
        Phase::Picture => picture(hand, value),
    }
}

/// The next byte of a text.
pub fn take(hand: &mut Hand, b: u8) -> Result<Byte, DecodeError>
    requires fits { Fits hand.old }
    ensures ok { IfOk result (λ what. Takes what hand.old b hand.new) }
    ensures err { IfErr result (StopsAt hand.old b) }
{
    if hand.ahead() == 3 {
        return value(hand, b);
    }
    match hand.plain(b) {
        Ok(()) => Ok(Byte::Used),
        Err(e) => Err(e),
    }
}
