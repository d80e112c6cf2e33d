//! How many groups there are.
ghost use Rattle.std.specs.Prelude.{◌≡◌, IfOk};
ghost use Rattle.m2v_law_seam.specs.Spans.{Span};
ghost use Rattle.m2v_law_seam.specs.Mending.{is_group_span, groups_behind};
ghost use Rattle.m2v_mend.specs.Members.{IsSpan};

use crate::Memory;
use crate::parts::SpanParts;
use crate::sums::sum;

/// Whether a span is a group: it begins with a sequence or group header, and has a picture.
fn is_group(parts: &SpanParts) -> bool
    ensures { (s : Span) → IsSpan s parts.now → result ≡ is_group_span s }
{
    parts.entry && parts.pictures > 0
}

/// How many groups there are with one more span.
pub(crate) fn groups_with(groups: u64, parts: &SpanParts) -> Result<u64, Memory>
    ensures { IfOk result (λ n. (s : Span) → IsSpan s parts.now → n ≡ groups_behind groups s) }
{
    if !is_group(parts) {
        return Ok(groups);
    }
    sum(groups, 1)
}
