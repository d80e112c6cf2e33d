ghost use Rattle.std.specs.Prelude.{◌≡◌};
ghost use Rattle.m2v_law_seam.specs.Spans.{units_of};
ghost use Rattle.m2v_law_seam.specs.Strands.{ends_open, last_open};
ghost use Rattle.m2v_decode.specs.m2v_dec_piece.Sound.{IsSoundPiece};
ghost use Rattle.m2v_decode.specs.Decoding.{whole_of};
ghost use Rattle.m2v_mend.specs.Tail.{last_bits};

use crate::walk::{units, zeros_of};
use m2v_dec_unit::UnitReader;
use m2v_decode::Piece;

/// How many bits the last unit has; none where there is no unit.
fn last_bits(units: &mut UnitReader) -> u64
    ensures { result ≡ last_bits 0 units.old }
{
    let mut bits = 0;
    loop {
        match units.next() {
            Some(u) => bits = u.bits(),
            None => return bits,
        }
    }
}

/// Whether bytes end in the prefix of a start code.
#[tactic(auto, using(crate::proofs::Lasting::short_tail, crate::proofs::Lasting::tail_by))]
fn ends_in_prefix(bytes: &[u8]) -> bool
    ensures { result ≡ ends_open bytes.now }
{
    let end = bytes.len();
    if end < 3 {
        return false;
    }
    bytes[end - 3] == 0 && bytes[end - 2] == 0 && bytes[end - 1] == 1
}

/// Whether the last unit of a piece ends, behind its start code, in the prefix of another one.
pub(crate) fn is_open(piece: &Piece) -> bool
    requires { IsSoundPiece piece.now }
    ensures { result ≡ last_open (units_of (whole_of piece.now)) }
{
    if zeros_of(piece) > 0 {
        return false;
    }
    if !ends_in_prefix(&piece.bytes) {
        return false;
    }
    56 <= last_bits(&mut units(piece))
}
