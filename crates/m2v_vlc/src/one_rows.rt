//! The look-ups of the coefficients of table one (table B.15).

use crate::lookup::lookup;
use crate::pair_rows::{by_17, coefficient_rows, pairs, rows_one};
use crate::values::Coefficient;

/// The coefficients in the order of table B.15, each pair with either sign: the value, its code with the
/// sign bit, and how many bits that has.
pub static ONE_ROWS: [(Coefficient, u16, u8); 224] = pairs!(rows_one);

/// The row of the coefficient that begins nine bits, from 8 on.
pub static ONE_BY_9: [u8; 504] = lookup![
    8 each [1],
    2 each [154, 155, 158, 159, 148, 149, 120, 121],
    4 each [14, 15, 12, 13, 136, 137, 142, 143],
    1 each [90, 91, 170, 171, 22, 23, 20, 21, 178, 179, 174, 175, 130, 131, 88, 89],
    8 each [118, 119, 84, 85, 128, 129],
    32 each [82, 83, 0],
    16 each [6, 7],
    64 each [2, 3],
    32 each [4, 5],
    8 each [8, 9, 10, 11],
    2 each [162, 163, 86, 87, 166, 167, 16, 17, 18, 19],
    1 each [24, 25, 26, 27, 122, 123, 138, 139, 28, 29, 30, 31],
];

/// The row of the coefficient that begins thirteen bits, from 32 to 127, 255 for none.
pub static ONE_BY_13: [u8; 96] = lookup![
    2 each [255],
    1 each [160, 161, 140, 141],
    4 each [255],
    1 each [156, 157, 202, 203, 200, 201],
    2 each [255],
    1 each [198, 199, 196, 197],
    2 each [255],
    1 each [132, 133],
    2 each [255],
    1 each [150, 151, 194, 195],
    8 each [144, 145, 182, 183],
    4 each [124, 125, 190, 191],
    8 each [186, 187],
];

/// The row of the coefficient that begins seventeen bits, up to 511, 255 for none.
pub static ONE_BY_17: [u8; 512] = by_17![64 each [255],];
