//! What else the units of a piece say before its first slice: sequence display extensions, the extra information of its
//! picture header, and quant matrix extensions.
ghost use Rattle.std.specs.Prelude.{◌≡◌, ◌+◌, ◌≤◌, ◌^◌, ◌++◌, IfOk, OnOk};
ghost use Rattle.std.specs.Option.{option_to_list};
ghost use Rattle.m2v_bits.specs.Syntax.{Gives};
ghost use Rattle.m2v_model.specs.Streams.{value_of};
ghost use Rattle.m2v_model.specs.Units.{unit_bits};
ghost use Rattle.m2v_audit.specs.Others.{colour_at, description_at, between_at, display_id_at, display_at, vector_bits, extra_at, display_in, extra_in, matrices_of, other_at, is_slice, others_from, display_of};

use crate::append::append;
use m2v_bits::{BitReader, check, flag, number};
use m2v_dec_unit::{Unit, UnitReader, matrices};
use m2v_model::FaultKind;
use m2v_model::macro_library::head::MatrixInfo;
use m2v_strict::Display;
use std::alloc::{AllocError, Global};

/// What else a unit before a piece's first slice says.
#[derive(Clone, Copy)]
pub enum Other {
    /// A sequence display extension.
    Display {
        /// What it says.
        display: Display,
    },
    /// A picture header.
    Picture {
        /// Where its start code begins in the input, in bits.
        bit: u64,
        /// extra_bit_picture: extra information stands in it.
        extra: bool,
    },
    /// A quant matrix extension.
    Matrices {
        /// Where its start code begins in the input, in bits.
        bit: u64,
        /// What it says.
        info: MatrixInfo,
    },
}

/// What colour_description says: three numbers of eight bits.
#[tactic(auto, unfolding(crate::specs::Others::colour_at, m2v_bits::specs::Syntax::seq, m2v_bits::specs::Syntax::bind, m2v_bits::specs::Syntax::done))]
fn colour(input: &mut BitReader) -> Result<Option<u32>, FaultKind>
    ensures exact { Gives result input.new.rest (colour_at.read input.old.rest) }
    ensures text { input.new.text ≡ input.old.text }
{
    let colour = number(input, 24, FaultKind::Truncated)?;
    Ok(Some(colour))
}

/// colour_description, and what it says.
#[tactic(auto, unfolding(crate::specs::Others::description_at, m2v_bits::specs::Syntax::seq, m2v_bits::specs::Syntax::bind, m2v_bits::specs::Syntax::choose, m2v_bits::specs::Syntax::done))]
fn description(input: &mut BitReader) -> Result<Option<u32>, FaultKind>
    ensures exact { Gives result input.new.rest (description_at.read input.old.rest) }
    ensures text { input.new.text ≡ input.old.text }
{
    let described = flag(input, FaultKind::Truncated)?;
    if described {
        return colour(input);
    }
    Ok(None)
}

/// The marker between two sizes, which is 1.
#[tactic(auto, unfolding(crate::specs::Others::between_at, m2v_bits::specs::Syntax::seq, m2v_bits::specs::Syntax::bind, m2v_bits::specs::Syntax::here))]
fn between(input: &mut BitReader) -> Result<(), FaultKind>
    ensures exact { Gives result input.new.rest (between_at.read input.old.rest) }
    ensures text { input.new.text ≡ input.old.text }
{
    let at = input.fork();
    let bit = number(input, 1, FaultKind::Truncated)?;
    check(input, &at, bit == 1, FaultKind::BadMarker)
}

/// The id of a sequence display extension.
#[tactic(auto, unfolding(crate::specs::Others::display_id_at, m2v_bits::specs::Syntax::seq, m2v_bits::specs::Syntax::bind, m2v_bits::specs::Syntax::here))]
fn display_id(input: &mut BitReader) -> Result<(), FaultKind>
    ensures exact { Gives result input.new.rest (display_id_at.read input.old.rest) }
    ensures text { input.new.text ≡ input.old.text }
{
    let at = input.fork();
    let id = number(input, 4, FaultKind::Truncated)?;
    check(input, &at, id == 2, FaultKind::NoCode)
}

/// A sequence display extension (clause 6.2.2.4).
#[tactic(auto, unfolding(crate::specs::Others::display_at, m2v_bits::specs::Syntax::seq, m2v_bits::specs::Syntax::bind, m2v_bits::specs::Syntax::done))]
fn display(input: &mut BitReader) -> Result<Display, FaultKind>
    ensures exact { Gives result input.new.rest (display_at.read input.old.rest) }
    ensures text { input.new.text ≡ input.old.text }
{
    display_id(input)?;
    let video_format = number(input, 3, FaultKind::Truncated)?;
    let colour = description(input)?;
    let width = number(input, 14, FaultKind::Truncated)?;
    between(input)?;
    let height = number(input, 14, FaultKind::Truncated)?;
    Ok(Display {
        video_format,
        colour,
        width,
        height,
    })
}

/// How many bits the elements on vectors have in a picture header.
fn vector_bits(kind: u32) -> u8
    ensures value { result ≡ vector_bits kind }
    ensures most { result ≤ 8 }
{
    match kind {
        2 => 4,
        3 => 8,
        _ => 0,
    }
}

/// extra_bit_picture of a picture header (clause 6.2.3).
#[tactic(auto, unfolding(crate::specs::Others::extra_at, m2v_bits::specs::Syntax::seq, m2v_bits::specs::Syntax::bind))]
fn extra(input: &mut BitReader) -> Result<bool, FaultKind>
    ensures exact { Gives result input.new.rest (extra_at.read input.old.rest) }
    ensures text { input.new.text ≡ input.old.text }
{
    number(input, 10, FaultKind::Truncated)?;
    let kind = number(input, 3, FaultKind::Truncated)?;
    number(input, 16, FaultKind::Truncated)?;
    number(input, vector_bits(kind), FaultKind::Truncated)?;
    flag(input, FaultKind::Truncated)
}

/// A sequence display extension's unit, where it is one and reads.
#[tactic(auto, unfolding(crate::specs::Others::display_in))]
fn display_in(u: &Unit) -> Option<Other>
    ensures { option_to_list result ≡ display_in u.now }
{
    match display(&mut u.body()) {
        Ok(display) => Some(Other::Display { display }),
        Err(_) => None,
    }
}

/// A picture header's unit that begins at a bit, where it reads.
#[tactic(auto, unfolding(crate::specs::Others::extra_in))]
fn extra_in(bit: u64, u: &Unit) -> Option<Other>
    ensures { option_to_list result ≡ extra_in bit u.now }
{
    match extra(&mut u.body()) {
        Ok(extra) => Some(Other::Picture { bit, extra }),
        Err(_) => None,
    }
}

/// A quant matrix extension's unit that begins at a bit, where it is one and reads.
#[tactic(auto, unfolding(crate::specs::Others::matrices_of))]
fn matrices_in(bit: u64, u: &Unit) -> Option<Other>
    ensures { option_to_list result ≡ matrices_of bit u.now }
{
    match matrices(&mut u.body()) {
        Ok(info) => Some(Other::Matrices { bit, info }),
        Err(_) => None,
    }
}

/// Appends what an extension's unit that begins at a bit says.
fn note_extension(others: &mut Vec<Other>, bit: u64, u: &Unit) -> Result<(), AllocError>
    ensures { OnOk result
        (others.new.items ≡ others.old.items ++ (display_in u.now ++ matrices_of bit u.now)) }
{
    append(others, display_in(u))?;
    append(others, matrices_in(bit, u))
}

/// Appends what a unit that begins at a bit says.
#[tactic(auto, unfolding(crate::specs::Others::other_at))]
fn note(others: &mut Vec<Other>, bit: u64, u: &Unit) -> Result<(), AllocError>
    ensures { OnOk result (others.new.items ≡ others.old.items ++ other_at bit u.now) }
{
    match u.value() {
        0x00 => append(others, extra_in(bit, u)),
        0xB5 => note_extension(others, bit, u),
        _ => Ok(()),
    }
}

/// A unit is a slice.
fn is_slice(u: &Unit) -> bool
    ensures { result ≡ is_slice (value_of u.now) }
{
    let value = u.value();
    1 <= value && value <= 0xAF
}

/// What else the units say up to the first slice, in order, where the first of them begins at a bit of the input. What
/// doesn't read is left out.
pub fn read_others(
    alloc: Global,
    units: &mut UnitReader,
    bit: u64,
) -> Result<Vec<Other>, AllocError>
    requires most { bit + unit_bits units.old ≤ 2 ^ 42 }
    ensures value { IfOk result (λ others. others.items ≡ others_from bit units.old) }
{
    let mut others = Vec::new(alloc);
    let mut at = bit;
    while let Some(u) = units.next() {
        if is_slice(&u) {
            return Ok(others);
        }
        note(&mut others, at, &u)?;
        at += u.bits();
    }
    Ok(others)
}

/// The first sequence display extension among them.
#[tactic(auto, unfolding(crate::specs::Others::display_of))]
pub(crate) fn display_of(others: &[Other]) -> Option<Display>
    ensures { result ≡ display_of others.now }
{
    for other in others {
        if let Other::Display { display } = other {
            return Some(*display);
        }
    }
    None
}
