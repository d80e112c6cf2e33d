//! The words of the kinds of faults.
ghost use Rattle.std.specs.Prelude.{◌≡◌};
ghost use Rattle.m2v_decode.specs.FaultWords.{fault_word as word_of};

use m2v_model::FaultKind;

/// The word of a kind of fault (see `docs/BITSTREAM.md`).
#[tactic(auto, unfolding(crate::specs::FaultWords::fault_word))]
pub fn fault_word(kind: FaultKind) -> &'static str
    ensures { result.now ≡ word_of kind }
{
    match kind {
        FaultKind::NoSequence => "NoSequence",
        FaultKind::NotMpeg2 => "NotMpeg2",
        FaultKind::Unsupported => "Unsupported",
        FaultKind::Truncated => "Truncated",
        FaultKind::NoCode => "NoCode",
        FaultKind::BadMarker => "BadMarker",
        FaultKind::Forbidden => "Forbidden",
        FaultKind::SequenceChanged => "SequenceChanged",
        FaultKind::SliceOrder => "SliceOrder",
        FaultKind::MissingMacroblocks => "MissingMacroblocks",
        FaultKind::SkipRule => "SkipRule",
        FaultKind::VectorRange => "VectorRange",
        FaultKind::VectorOutside => "VectorOutside",
        FaultKind::Overrun => "Overrun",
        FaultKind::DcRange => "DcRange",
        FaultKind::MissingReference => "MissingReference",
        FaultKind::FieldPair => "FieldPair",
    }
}
