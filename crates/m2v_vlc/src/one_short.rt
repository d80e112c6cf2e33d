//! The pairs of table one with short codes (table B.15).

use crate::lookup::lookup;

/// What nine bits begin with, if it is the code of a pair in table B.15 of at most nine bits, its sign bit included: the level,
/// the run, and how many bits the code has. Run 128 stands for the end of the block, and run 64 for anything else.
pub static ONE_SHORT: [(i16, u8, u8); 512] = lookup![
    16 each [(0, 64, 0)],
    2 both [(1, 7, 8), (1, 8, 8), (1, 6, 8), (2, 2, 8)],
    4 both [(7, 0, 7), (6, 0, 7), (1, 4, 7), (1, 5, 7)],
    1 both [
        (5, 1, 9), (1, 11, 9), (11, 0, 9), (10, 0, 9), (1, 13, 9), (1, 12, 9), (2, 3, 9), (4, 1, 9)
    ],
    8 both [(1, 2, 6), (2, 1, 6), (1, 3, 6)],
    32 both [(1, 1, 4)],
    32 each [(0, 128, 4)],
    16 both [(3, 0, 5)],
    64 both [(1, 0, 3)],
    32 both [(2, 0, 4)],
    8 both [(4, 0, 6), (5, 0, 6)],
    2 both [(1, 9, 8), (3, 1, 8), (1, 10, 8), (8, 0, 8), (9, 0, 8)],
    1 both [(12, 0, 9), (13, 0, 9), (3, 2, 9), (2, 4, 9), (14, 0, 9), (15, 0, 9)],
];
