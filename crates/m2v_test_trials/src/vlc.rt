//! What the tables are outside the proofs: which bits no code begins.

ghost use Rattle.std.specs.Prelude.{◌<◌};

use m2v_bits::BitReader;
use m2v_vlc::{
    read_coefficient_one, read_coefficient_zero, read_dc_chroma, read_dc_luma, read_dmv,
    read_first_zero, read_increment, read_motion, read_pattern, read_type_b, read_type_i,
    read_type_p,
};

/// Seventeen bits, and seven zeros behind them.
fn text_of(p: u32) -> [u8; 3]
    requires { p < 131072 }
{
    [
        (p >> 9) as u8,
        ((p >> 1) % 256) as u8,
        ((p % 2) * 128) as u8,
    ]
}

// Whether seventeen bits begin with a code in each table, but for those named here.
fn begins_with_codes(p: u32) -> bool
    requires { p < 131072 }
{
    let text = text_of(p);
    read_increment(&mut BitReader::new(&text)).is_ok() == (p >> 6 > 0x17 || p >> 6 == 8)
        && read_type_i(&mut BitReader::new(&text)).is_ok() == (p >> 15 != 0)
        && read_type_p(&mut BitReader::new(&text)).is_ok() == (p >> 11 != 0)
        && read_type_b(&mut BitReader::new(&text)).is_ok() == (p >> 11 != 0)
        && read_pattern(&mut BitReader::new(&text)).is_ok() == (p >> 8 > 1)
        && read_motion(&mut BitReader::new(&text)).is_ok() == (p >> 7 > 0xB)
        && read_dmv(&mut BitReader::new(&text)).is_ok()
        && read_dc_luma(&mut BitReader::new(&text)).is_ok()
        && read_dc_chroma(&mut BitReader::new(&text)).is_ok()
        && read_coefficient_zero(&mut BitReader::new(&text)).is_ok() == (p >> 5 != 0)
        && read_first_zero(&mut BitReader::new(&text)).is_ok() == (p >> 5 != 0)
        && read_coefficient_one(&mut BitReader::new(&text)).is_ok() != is_free_of_one(p)
}

#[test]
fn every_string_begins_with_a_code(rt: HostRuntime) {
    for p in 0..131072u32 {
        assert!(rt; begins_with_codes(p), "{p}");
    }
}

/// Whether no code of table B.15 begins the bits.
fn is_free_of_one(p: u32) -> bool {
    matches!(p >> 5, 0 | 0x10 | 0x13 | 0x14 | 0x18 | 0x1B | 0x1D) || matches!(p >> 4, 0x17..=0x1A)
}
