//! The look-ups of the coefficients of table zero (table B.14).

use crate::lookup::lookup;
use crate::pair_rows::{by_17, coefficient_rows, pairs, rows_zero};
use crate::values::Coefficient;

/// The coefficients in the order of table B.14, each pair with either sign: the value, its code with the
/// sign bit, and how many bits that has.
pub static ZERO_ROWS: [(Coefficient, u16, u8); 224] = pairs!(rows_zero);

/// The row of the coefficient that begins nine bits, from 8 on.
pub static ZERO_BY_9: [u8; 504] = lookup![
    8 each [1],
    2 each [120, 121, 162, 163, 8, 9, 158, 159],
    4 each [154, 155, 148, 149, 84, 85, 142, 143],
    1 each [178, 179, 12, 13, 174, 175, 170, 171, 130, 131, 86, 87, 10, 11, 166, 167],
    8 each [6, 7, 136, 137, 128, 129],
    16 each [4, 5, 118, 119],
    32 each [82, 83],
    64 each [0, 0, 2, 3],
];

/// The row of the coefficient that begins thirteen bits, from 32 to 127, 255 for none.
pub static ZERO_BY_13: [u8; 96] = lookup![
    1 each [
        22, 23, 160, 161, 140, 141, 20, 21, 124, 125, 156, 157, 202, 203, 200, 201, 18, 19, 198,
        199, 196, 197, 90, 91, 132, 133, 16, 17, 150, 151, 194, 195
    ],
    4 each [190, 191, 144, 145, 14, 15, 122, 123, 88, 89, 186, 187, 182, 183, 138, 139],
];

/// The row of the coefficient that begins seventeen bits, up to 511, 255 for none.
pub static ZERO_BY_17: [u8; 512] = by_17![8 each [30, 31, 28, 29, 26, 27, 24, 25],];
