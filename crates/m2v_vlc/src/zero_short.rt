//! The pairs of table zero with short codes (table B.14).

use crate::lookup::lookup;

/// What nine bits begin with, if it is the code of a pair in table B.14 of at most nine bits, its sign bit included: the level,
/// the run, and how many bits the code has. Run 128 stands for the end of the block, and run 64 for anything else.
pub static ZERO_SHORT: [(i16, u8, u8); 512] = lookup![
    16 each [(0, 64, 0)],
    2 both [(2, 2, 8), (1, 9, 8), (4, 0, 8), (1, 8, 8)],
    4 both [(1, 7, 7), (1, 6, 7), (2, 1, 7), (1, 5, 7)],
    1 both [
        (1, 13, 9), (6, 0, 9), (1, 12, 9), (1, 11, 9), (2, 3, 9), (3, 1, 9), (5, 0, 9), (1, 10, 9)
    ],
    8 both [(3, 0, 6), (1, 4, 6), (1, 3, 6)],
    16 both [(2, 0, 5), (1, 2, 5)],
    32 both [(1, 1, 4)],
    64 each [(0, 128, 2), (0, 128, 2)],
    64 both [(1, 0, 3)],
];
