//! The pairs with codes of more than fourteen bits, which tables zero and one share (tables B.14 and B.15).

use crate::lookup::lookup;

/// What seventeen bits begin with, up to 255: the level and the run of the pair in tables B.14 and B.15 whose code they begin with,
/// and how many bits that has, its sign bit included. Run 64 stands for none.
pub static LONGEST: [(i16, u8, u8); 256] = lookup![
    32 each [(0, 64, 0)],
    1 both [
        (18, 1, 17), (17, 1, 17), (16, 1, 17), (15, 1, 17), (3, 6, 17), (2, 16, 17), (2, 15, 17),
        (2, 14, 17), (2, 13, 17), (2, 12, 17), (2, 11, 17), (1, 31, 17), (1, 30, 17), (1, 29, 17),
        (1, 28, 17), (1, 27, 17)
    ],
    2 both [
        (40, 0, 16), (39, 0, 16), (38, 0, 16), (37, 0, 16), (36, 0, 16), (35, 0, 16), (34, 0, 16),
        (33, 0, 16), (32, 0, 16), (14, 1, 16), (13, 1, 16), (12, 1, 16), (11, 1, 16), (10, 1, 16),
        (9, 1, 16), (8, 1, 16)
    ],
    4 both [
        (31, 0, 15), (30, 0, 15), (29, 0, 15), (28, 0, 15), (27, 0, 15), (26, 0, 15), (25, 0, 15),
        (24, 0, 15), (23, 0, 15), (22, 0, 15), (21, 0, 15), (20, 0, 15), (19, 0, 15), (18, 0, 15),
        (17, 0, 15), (16, 0, 15)
    ],
];
