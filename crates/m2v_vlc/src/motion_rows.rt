//! The look-ups of motion codes and dmvectors (tables B.10 and B.11).

use crate::lookup::{lookup, rows_from};

/// The motion codes in the order of table B.10: the value, its code, and how many bits that has.
pub static MOTION_ROWS: [(i8, u16, u8); 33] = rows_from![
    -16;
    0x19 11, 0x1B 11, 0x1D 11, 0x1F 11, 0x21 11, 0x23 11, 0x13 10, 0x15 10, 0x17 10, 0x7 8, 0x9 8,
    0xB 8, 0x7 7, 0x3 5, 0x3 4, 0x3 3, 0x1 1, 0x2 3, 0x2 4, 0x2 5, 0x6 7, 0xA 8, 0x8 8, 0x6 8,
    0x16 10, 0x14 10, 0x12 10, 0x22 11, 0x20 11, 0x1E 11, 0x1C 11, 0x1A 11, 0x18 11,
];

/// The row of the motion code that begins eleven bits, 255 for none.
pub static MOTION_AT: [u8; 2048] = lookup![
    16 each [255],
    8 each [255],
    1 each [32, 0, 31, 1, 30, 2, 29, 3, 28, 4, 27, 5],
    2 each [26, 6, 25, 7, 24, 8],
    8 each [23, 9, 22, 10, 21, 11],
    16 each [20, 12],
    64 each [
        19, 13, 18, 18, 14, 14, 17, 17, 17, 17, 15, 15, 15, 15, 16, 16, 16, 16, 16, 16, 16, 16, 16,
        16, 16, 16, 16, 16, 16, 16
    ],
];

/// The dmvectors in the order of table B.11: the value, its code, and how many bits that has.
pub static DMV_ROWS: [(i8, u16, u8); 3] = [(-1, 0x3, 2), (0, 0x0, 1), (1, 0x2, 2)];

/// The row of the dmvector that begins two bits.
pub static DMV_AT: [u8; 4] = [1, 1, 2, 0];
