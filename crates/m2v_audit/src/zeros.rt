//! How a piece ends: its zero bytes, and the sequence end code.
ghost use Rattle.std.specs.Prelude.{◌≡◌, ◌-◌, ◌≤◌, ◌&&◌, nat_lt, nat_eq, length, slice_index};
ghost use Rattle.m2v_model.specs.Pieces.{zeros_last};
ghost use Rattle.m2v_dec_piece.specs.Sound.{IsSoundPiece};
ghost use Rattle.m2v_strict.specs.m2v_check.m2v_decode.Decoding.{whole_of};
ghost use Rattle.m2v_audit.specs.Auditing.{ends_code};

use m2v_dec_piece::Piece;

/// The last of the first bytes, so many of them, is zero.
fn ends_in_zero(bytes: &[u8], end: usize) -> bool
    requires { end ≤ length bytes.now }
    ensures { result ≡ (nat_lt 0 end && nat_eq (slice_index bytes.now (end - 1)) 0) }
{
    if end == 0 {
        return false;
    }
    bytes[end - 1] == 0
}

/// How many zero bytes end some bytes.
#[tactic(auto, using(crate::proofs::ZeroLaws::zeros_step, crate::proofs::ZeroLaws::zeros_stop))]
fn zeros_last(bytes: &[u8]) -> u64
    ensures value { result ≡ zeros_last bytes.now }
    ensures most { result ≤ length bytes.now }
{
    let mut end = bytes.len();
    while ends_in_zero(bytes, end) {
        end -= 1;
    }
    (bytes.len() - end) as u64
}

/// How many zero bytes of a piece aren't kept.
pub(crate) fn zeros_of(piece: &Piece) -> u64
    requires { IsSoundPiece piece.now }
    ensures { result ≡ piece.now.length - length piece.now.bytes.items }
{
    piece.length - piece.bytes.len() as u64
}

/// How many zero bytes end a piece.
#[tactic(auto, using(crate::proofs::ZeroLaws::zeros_of_whole))]
pub(crate) fn zeros_at_end(piece: &Piece) -> u64
    requires { IsSoundPiece piece.now }
    ensures value { result ≡ zeros_last (whole_of piece.now) }
    ensures most { result ≤ piece.now.length }
{
    zeros_of(piece) + zeros_last(&piece.bytes)
}

/// A sequence end code ends a piece that ends in so many zero bytes.
pub(crate) fn ends_code(piece: &Piece, zeros: u64) -> bool
    requires zeros { zeros ≡ zeros_last (whole_of piece.now) }
    requires sound { IsSoundPiece piece.now }
    ensures { result ≡ ends_code (whole_of piece.now) }
{
    zeros == 0 && piece.bytes.ends_with(&[0, 0, 1, 0xB7])
}
