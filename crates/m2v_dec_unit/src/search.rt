ghost use Rattle.std.specs.Prelude.{◌≡◌, ◌≤◌, length, drop};
ghost use Rattle.m2v_dec_unit.specs.Texts.{IsNextUnit};

use m2v_bits::next_start_code;

/// The place of the first start code at or behind `from`, or the end of the bytes where none begins there, whatever
/// number of zero bytes stands behind them.
pub fn next_unit(bytes: &[u8], from: usize) -> usize
    requires { from ≤ length bytes.now }
    ensures { IsNextUnit bytes.now from result }
{
    match next_start_code(bytes, from) {
        Some(place) => {
            if bytes.len() - place > 3 {
                place
            } else {
                bytes.len()
            }
        }
        None => bytes.len(),
    }
}

/// The bytes from a place on.
pub fn bytes_from(bytes: &[u8], place: usize) -> &[u8]
    requires { place ≤ length bytes.now }
    ensures { result.now ≡ drop place bytes.now }
{
    bytes.split_at(place).1
}
