//! The stricter rules on what else stands before a picture's first slice: quant matrix extensions, extra information, and
//! sequence display extensions.
ghost use Rattle.std.specs.Prelude.{◌≡◌, is_some};
ghost use Rattle.m2v_strict.specs.Remarks.{told_at, told_by};
ghost use Rattle.m2v_strict.specs.OtherRules.{chroma_number_rule, chroma_rule, matrix_remarks, extra_rule, same_colour, same_display, beside_first, display_rule};

use crate::display::Display;
use crate::element::Element;
use crate::remark::{Remark, equal, number_of, unset};
use crate::sequences::first_number_rule;
use m2v_model::macro_library::head::MatrixInfo;

/// The first number of a matrix of the intra blocks of chroma is 8.
#[tactic(auto, unfolding(crate::specs::OtherRules::chroma_number_rule))]
fn chroma_number_rule(matrix: &Option<[u8; 64]>) -> Option<Remark>
    ensures { told_at result ≡ chroma_number_rule matrix.now }
{
    match matrix {
        Some(numbers) => {
            let number = u128::from(numbers[0]);
            equal(19, Element::ChromaIntraQuantiserMatrix, number, 8)
        }
        None => None,
    }
}

/// Chroma has no matrices of its own.
#[tactic(auto, unfolding(crate::specs::OtherRules::chroma_rule))]
fn chroma_rules(m: &MatrixInfo) -> [Option<Remark>; 2]
    ensures { told_by result ≡ chroma_rule m.now }
{
    [
        unset(
            20,
            Element::LoadChromaIntraQuantiserMatrix,
            m.chroma_intra.is_some(),
        ),
        unset(
            20,
            Element::LoadChromaNonIntraQuantiserMatrix,
            m.chroma_non_intra.is_some(),
        ),
    ]
}

/// The rules on a quant matrix extension (19 and 20), by number.
pub fn matrix_rules(m: &MatrixInfo) -> [Option<Remark>; 4]
    ensures { told_by result ≡ matrix_remarks m.now }
{
    let chroma = chroma_rules(m);
    [
        first_number_rule(&m.intra),
        chroma_number_rule(&m.chroma_intra),
        chroma[0],
        chroma[1],
    ]
}

/// The rule on the extra information of a picture header (32).
#[tactic(auto, unfolding(crate::specs::OtherRules::extra_rule))]
pub fn extra_rule(extra: bool) -> Option<Remark>
    ensures { told_at result ≡ extra_rule extra }
{
    unset(32, Element::ExtraBitPicture, extra)
}

/// Two extensions say the same of colours.
#[tactic(auto, unfolding(crate::specs::OtherRules::same_colour))]
fn same_colour(a: Option<u32>, b: Option<u32>) -> bool
    ensures { result ≡ same_colour a b }
{
    match (a, b) {
        (None, None) => true,
        (Some(a), Some(b)) => a == b,
        _ => false,
    }
}

/// Two extensions say the same.
fn same_display(a: &Display, b: &Display) -> bool
    ensures { result ≡ same_display a.now b.now }
{
    a.video_format == b.video_format
        && same_colour(a.colour, b.colour)
        && a.width == b.width
        && a.height == b.height
}

/// What a sequence header has beside the first one: none (0), the same (1) or another (2).
#[tactic(auto, unfolding(crate::specs::OtherRules::beside_first))]
fn beside_first(first: &Option<Display>, d: &Option<Display>) -> u128
    ensures { result ≡ beside_first first.now d.now }
{
    match (first, d) {
        (_, None) => 0,
        (None, Some(_)) => 2,
        (Some(first), Some(d)) => { if same_display(first, d) { 1 } else { 2 } }
    }
}

/// The rule on the sequence display extension behind a sequence header (39), beside that of the first one.
#[tactic(auto, unfolding(crate::specs::OtherRules::display_rule))]
pub fn display_rule(first: &Option<Display>, d: &Option<Display>) -> Option<Remark>
    ensures { told_at result ≡ display_rule first.now d.now }
{
    let need = number_of(first.is_some());
    equal(
        39,
        Element::SequenceDisplayExtension,
        beside_first(first, d),
        need,
    )
}
