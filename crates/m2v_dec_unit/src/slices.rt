ghost use Rattle.std.specs.Prelude.{◌≡◌, ◌<◌, ◌≤◌, List, ℕ, IfOk, IfErr, Err, Some};
ghost use Rattle.m2v_model.specs.Units.{Units};
ghost use Rattle.m2v_model.specs.States.{picture_rows as rows_in};
ghost use Rattle.m2v_model.specs.Streams.{slice_unit};

use crate::state::picture_rows;
use m2v_model::{FaultKind, Open, Sequence, State, Stop};

/// The sequence and the picture in which a slice of a row may stand: its row is neither past the last one nor above
/// that of the slice before it. `start` is how many bits are left at the slice's start code.
///
/// # Errors
/// `SliceOrder`, there.
#[tactic(auto, unfolding(m2v_model::specs::Streams::slice_unit, m2v_model::specs::Streams::slice_in, m2v_model::specs::Looking::refuse, m2v_bits::specs::Syntax::seq, m2v_bits::specs::Syntax::bind, m2v_bits::specs::Syntax::rule))]
pub fn slice_place(st: &State, row: u32, start: u64) -> Result<(Sequence, Open), Stop>
    ensures ok { IfOk result (λ x. (st.now.sequence ≡ Some x.0) × (st.now.picture ≡ Some x.1)
        × (row < rows_in x.0 x.1) × (x.1.row ≤ row)) }
    ensures err { IfErr result (λ e. (u : List ℕ) (us : Units)
        → (slice_unit st.now st.now.sequence st.now.picture row start u).read us
        ≡ Err (e.kind, e.left)) }
{
    let order = Stop {
        kind: FaultKind::SliceOrder,
        left: start,
    };
    let Some(s) = st.sequence else {
        return Err(order);
    };
    let Some(p) = st.picture else {
        return Err(order);
    };
    if u64::from(row) < picture_rows(&s, &p) && p.row <= row {
        return Ok((s, p));
    }
    Err(order)
}
