ghost use Rattle.std.specs.Prelude.{◌≡◌, ◌≤◌, length};
ghost use Rattle.m2v_model.specs.Faults as faults;

use crate::fault::FaultKind;
use m2v_bits::BitReader;
use m2v_macroblock::block::BlockFault;
use m2v_macroblock::head::HeadFault;
use m2v_macroblock::macro_library::MacroFault;
use m2v_macroblock::vlc::CodeFault;

/// A fault inside a unit: its kind, and how many bits of the unit are left at its place.
#[derive(Clone, Copy, Debug, PartialEq, Eq)]
pub struct Stop {
    pub kind: FaultKind,
    pub left: u64,
}

/// A fault at the place where a reader stands.
pub fn stopped(input: &BitReader, kind: FaultKind) -> Stop
    ensures kind { result.kind ≡ kind }
    ensures left { result.left ≡ length input.now.rest }
    ensures within { result.left ≤ length input.now.text }
{
    // what is left is not more than the whole text
    let _place = input.place();
    Stop {
        kind,
        left: input.left(),
    }
}

#[tactic(auto, unfolding(crate::specs::Faults::of_code))]
fn of_code(e: CodeFault) -> FaultKind
    ensures { result ≡ faults.of_code e }
{
    match e {
        CodeFault::Truncated => FaultKind::Truncated,
        CodeFault::NoCode => FaultKind::NoCode,
    }
}

/// The fault of a header as one of a stream.
#[tactic(auto, unfolding(crate::specs::Faults::of_head))]
pub fn of_head(e: HeadFault) -> FaultKind
    ensures { result ≡ faults.of_head e }
{
    match e {
        HeadFault::NoCode => FaultKind::NoCode,
        HeadFault::Truncated => FaultKind::Truncated,
        HeadFault::BadMarker => FaultKind::BadMarker,
        HeadFault::Forbidden { .. } => FaultKind::Forbidden,
        HeadFault::Unsupported { .. } => FaultKind::Unsupported,
    }
}

/// The fault of a block as one of a stream: an escape's level that may not stand there is forbidden.
#[tactic(auto, unfolding(crate::specs::Faults::of_block))]
pub fn of_block(e: BlockFault) -> FaultKind
    ensures { result ≡ faults.of_block e }
{
    match e {
        BlockFault::Code(e) => of_code(e),
        BlockFault::Overrun => FaultKind::Overrun,
        BlockFault::ForbiddenLevel => FaultKind::Forbidden,
        BlockFault::DcRange => FaultKind::DcRange,
    }
}

/// The fault of a macroblock as one of a stream: pattern 0 has no code, a quantiser code of 0 and a motion type that
/// may not stand there are forbidden.
#[tactic(auto, unfolding(crate::specs::Faults::of_macro))]
pub fn of_macro(e: MacroFault) -> FaultKind
    ensures { result ≡ faults.of_macro e }
{
    match e {
        MacroFault::Code(e) => of_code(e),
        MacroFault::SliceOrder => FaultKind::SliceOrder,
        MacroFault::MissingMacroblocks => FaultKind::MissingMacroblocks,
        MacroFault::SkipRule => FaultKind::SkipRule,
        MacroFault::QuantZero => FaultKind::Forbidden,
        MacroFault::PatternZero => FaultKind::NoCode,
        MacroFault::BadMotionType => FaultKind::Forbidden,
        MacroFault::VectorRange => FaultKind::VectorRange,
        MacroFault::Marker => FaultKind::BadMarker,
    }
}
