ghost use Rattle.std.specs.Prelude.{All};
ghost use Rattle.m2v_quant.specs.Kinds.{IsTransformed};

use crate::levels::{kind, one_level};
use m2v_quant::{Levels, dequantise, quantise};

// One coefficient, kept to its range, among zeros.
fn one_coefficient(place: usize, f: i32) -> [i32; 64]
    ensures { All IsTransformed result }
{
    let mut at = [0; 64];
    at[place % 64] = f.clamp(-4096, 4095);
    at
}

#[test]
fn rebuilds_one_level(rt: HostRuntime) {
    let mut out = [0; 64];
    dequantise(&one_level(1, -2047), &kind(false, 112, false), &mut out);
    assert_eq!(rt; out[1], -2048);
    assert_eq!(rt; out[63], 1);
}

#[test]
fn quantises_one_coefficient(rt: HostRuntime) {
    let mut out = Levels { at: [0; 64] };
    quantise(&one_coefficient(8, -3), &kind(true, 2, true), &mut out);
    assert_eq!(rt; out.at[1], -2);
}
