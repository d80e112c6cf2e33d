ghost use Rattle.std.specs.Prelude.{◌≡◌, ◌+◌, ◌*◌, ◌<◌, ◌≤◌, ◌^◌};
ghost use Rattle.m2v_model.specs.Units.{unit_bits};
ghost use Rattle.m2v_model.specs.Buffering.{before_picture};

use crate::reader::UnitReader;

/// The bits of a piece up to the end of its picture start code, or those of a start code more than it has, where it has no
/// picture.
pub fn code_bits(units: &mut UnitReader) -> u64
    ensures value { result ≡ 8 * before_picture units.old + 32 }
    ensures most { result ≤ 2 ^ 41 }
{
    // the units have fewer than 2^40 bits
    let _bits = units.left();
    let mut bits = 32;
    loop {
        match units.next() {
            Some(u) => {
                if u.value() == 0x00 {
                    return bits;
                }
                bits += u.bits();
            }
            None => return bits,
        }
    }
}
