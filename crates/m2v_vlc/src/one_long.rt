//! The pairs of table one with codes of ten to fourteen bits (table B.15).

use crate::lookup::lookup;

/// What fourteen bits begin with, from 32 to 255: the level and the run of the pair in table B.15 whose code they begin with, and
/// how many bits that has, its sign bit included. Run 64 stands for none.
pub static ONE_LONG: [(i16, u8, u8); 224] = lookup![
    1 both [(2, 10, 14), (2, 9, 14), (3, 5, 14), (4, 3, 14), (5, 2, 14), (7, 1, 14), (6, 1, 14)],
    8 each [(0, 64, 0)],
    1 both [(1, 26, 14), (1, 25, 14), (1, 24, 14), (1, 23, 14), (1, 22, 14)],
    4 each [(0, 64, 0)],
    2 both [(2, 8, 13), (3, 4, 13)],
    8 each [(0, 64, 0)],
    2 both [(2, 7, 13), (1, 21, 13), (1, 20, 13)],
    4 each [(0, 64, 0)],
    2 both [(1, 19, 13), (1, 18, 13)],
    4 each [(0, 64, 0)],
    2 both [(3, 3, 13)],
    4 each [(0, 64, 0)],
    2 both [(2, 6, 13), (1, 17, 13)],
    16 both [(2, 5, 10), (1, 14, 10)],
    8 both [(4, 2, 11), (1, 16, 11)],
    16 both [(1, 15, 10)],
];
