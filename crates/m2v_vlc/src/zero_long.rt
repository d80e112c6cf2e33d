//! The pairs of table zero with codes of ten to fourteen bits (table B.14).

use crate::lookup::lookup;

/// What fourteen bits begin with, from 32 to 255: the level and the run of the pair in table B.14 whose code they begin with, and
/// how many bits that has, its sign bit included. Run 64 stands for none.
pub static ZERO_LONG: [(i16, u8, u8); 224] = lookup![
    1 both [
        (2, 10, 14), (2, 9, 14), (3, 5, 14), (4, 3, 14), (5, 2, 14), (7, 1, 14), (6, 1, 14),
        (15, 0, 14), (14, 0, 14), (13, 0, 14), (12, 0, 14), (1, 26, 14), (1, 25, 14), (1, 24, 14),
        (1, 23, 14), (1, 22, 14)
    ],
    2 both [
        (11, 0, 13), (2, 8, 13), (3, 4, 13), (10, 0, 13), (4, 2, 13), (2, 7, 13), (1, 21, 13),
        (1, 20, 13), (9, 0, 13), (1, 19, 13), (1, 18, 13), (5, 1, 13), (3, 3, 13), (8, 0, 13),
        (2, 6, 13), (1, 17, 13)
    ],
    8 both [
        (1, 16, 11), (2, 5, 11), (7, 0, 11), (3, 2, 11), (4, 1, 11), (1, 15, 11), (1, 14, 11),
        (2, 4, 11)
    ],
];
