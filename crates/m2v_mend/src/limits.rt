//! How much of a piece counts against the limits.
ghost use Rattle.std.specs.Prelude.{◌≡◌, ◌≤◌, length, is_none};
ghost use Rattle.m2v_model.specs.Pieces.{limit, trimmed};
ghost use Rattle.m2v_decode.specs.m2v_dec_piece.Sound.{IsSoundPiece};
ghost use Rattle.m2v_decode.specs.Decoding.{whole_of};
ghost use Rattle.m2v_mend.specs.Kept.{IsUpToZeros};

use m2v_decode::Piece;

/// The most bytes that a piece may have up to its last one that isn't zero.
const MOST_BYTES: u64 = 2_097_152;

/// Of the zero bytes at its end so many are handed on.
const MOST_ZEROS: u64 = 64;

/// How many bytes stand before the zero bytes at the end.
fn up_to_zeros(bytes: &[u8]) -> usize
    ensures { IsUpToZeros bytes.now result }
{
    let mut n = bytes.len();
    while n > 0 {
        if bytes[n - 1] != 0 {
            return n;
        }
        n -= 1;
    }
    0
}

/// How many bytes of a piece are handed on: those up to the last one that isn't zero, and of the zero bytes behind that the
/// first 64.
pub(crate) fn kept_length(piece: &Piece) -> u64
    requires { IsSoundPiece piece.now }
    ensures value { result ≡ length (trimmed (whole_of piece.now)) }
    ensures most { result ≤ piece.now.length }
{
    let own = up_to_zeros(&piece.bytes) as u64;
    own + (piece.length - own).min(MOST_ZEROS)
}

/// Whether a piece is within the limits of pieces.
pub(crate) fn fits(piece: &Piece) -> bool
    requires { IsSoundPiece piece.now }
    ensures { result ≡ is_none (limit 0 0 (whole_of piece.now)) }
{
    up_to_zeros(&piece.bytes) as u64 <= MOST_BYTES
}
