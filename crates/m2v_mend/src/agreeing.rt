ghost use Rattle.std.specs.Prelude.{◌≡◌};
ghost use Rattle.m2v_law_seam.specs.Strands as strands;

use m2v_decode::dec_unit::is_same_sequence;
use m2v_model::Sequence;

/// Whether a sequence header can follow another one in one stream.
fn are_joint(a: &Sequence, b: &Sequence) -> bool
    ensures { result ≡ strands.are_joint a.now b.now }
{
    is_same_sequence(&Some(*a), b)
        && a.info.frame_rate_code == b.info.frame_rate_code
        && a.extension.rate_n == b.extension.rate_n
        && a.extension.rate_d == b.extension.rate_d
        && a.extension.low_delay == b.extension.low_delay
}

/// Whether the first sequence header of a strand agrees with the first one that was kept, where there is one.
pub(crate) fn agrees(first: &Option<Sequence>, own: &Option<Sequence>) -> bool
    ensures { result ≡ strands.agrees first.now own.now }
{
    match (first, own) {
        (None, _) => true,
        (Some(_), None) => false,
        (Some(first), Some(own)) => are_joint(first, own),
    }
}
