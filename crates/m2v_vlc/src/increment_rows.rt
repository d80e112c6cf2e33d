//! The look-ups of the increments of addresses (table B.1).

use crate::lookup::lookup;
use crate::values::Increment;

/// The increments in the order of table B.1: the value, its code, and how many bits that has.
pub static INCREMENT_ROWS: [(Increment, u16, u8); 34] = [
    (Increment::Step(1), 0x1, 1),
    (Increment::Step(2), 0x3, 3),
    (Increment::Step(3), 0x2, 3),
    (Increment::Step(4), 0x3, 4),
    (Increment::Step(5), 0x2, 4),
    (Increment::Step(6), 0x3, 5),
    (Increment::Step(7), 0x2, 5),
    (Increment::Step(8), 0x7, 7),
    (Increment::Step(9), 0x6, 7),
    (Increment::Step(10), 0xB, 8),
    (Increment::Step(11), 0xA, 8),
    (Increment::Step(12), 0x9, 8),
    (Increment::Step(13), 0x8, 8),
    (Increment::Step(14), 0x7, 8),
    (Increment::Step(15), 0x6, 8),
    (Increment::Step(16), 0x17, 10),
    (Increment::Step(17), 0x16, 10),
    (Increment::Step(18), 0x15, 10),
    (Increment::Step(19), 0x14, 10),
    (Increment::Step(20), 0x13, 10),
    (Increment::Step(21), 0x12, 10),
    (Increment::Step(22), 0x23, 11),
    (Increment::Step(23), 0x22, 11),
    (Increment::Step(24), 0x21, 11),
    (Increment::Step(25), 0x20, 11),
    (Increment::Step(26), 0x1F, 11),
    (Increment::Step(27), 0x1E, 11),
    (Increment::Step(28), 0x1D, 11),
    (Increment::Step(29), 0x1C, 11),
    (Increment::Step(30), 0x1B, 11),
    (Increment::Step(31), 0x1A, 11),
    (Increment::Step(32), 0x19, 11),
    (Increment::Step(33), 0x18, 11),
    (Increment::Escape, 0x8, 11),
];

/// The row of the increment that begins eleven bits, 255 for none.
pub static INCREMENT_AT: [u8; 2048] = lookup![
    8 each [255],
    1 each [33],
    8 each [255],
    4 each [255],
    2 each [255],
    1 each [255, 32, 31, 30, 29, 28, 27, 26, 25, 24, 23, 22, 21],
    2 each [20, 19, 18, 17, 16, 15],
    8 each [14, 13, 12, 11, 10, 9],
    16 each [8, 7],
    64 each [
        6, 5, 4, 4, 3, 3, 2, 2, 2, 2, 1, 1, 1, 1, 0, 0, 0, 0, 0, 0, 0, 0, 0, 0, 0, 0, 0, 0, 0, 0
    ],
];
