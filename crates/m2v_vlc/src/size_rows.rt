//! The look-ups of the sizes of DC differences (tables B.12 and B.13).

use crate::lookup::{lookup, rows_from};

/// The look-up of sizes: those of 64 places and more, and the others, which both tables have alike.
macro_rules! sizes_at {
    ($($near:literal),*) => {
        lookup![
            64 each [$($near),*],
            32 each [5],
            16 each [6],
            8 each [7],
            4 each [8],
            2 each [9],
            1 each [10, 11],
        ]
    };
}

/// The sizes in the order of table B.12: the value, its code, and how many bits that has.
pub static LUMA_ROWS: [(u8, u16, u8); 12] = rows_from![
    0;
    0x4 3, 0x0 2, 0x1 2, 0x5 3, 0x6 3, 0xE 4, 0x1E 5, 0x3E 6, 0x7E 7, 0xFE 8, 0x1FE 9, 0x1FF 9,
];

/// The row of the size that begins nine bits.
pub static LUMA_AT: [u8; 512] = sizes_at![1, 1, 2, 2, 0, 3, 4];

/// The sizes in the order of table B.13: the value, its code, and how many bits that has.
pub static CHROMA_ROWS: [(u8, u16, u8); 12] = rows_from![
    0;
    0x0 2, 0x1 2, 0x2 2, 0x6 3, 0xE 4, 0x1E 5, 0x3E 6, 0x7E 7, 0xFE 8, 0x1FE 9, 0x3FE 10, 0x3FF 10,
];

/// The row of the size that begins ten bits.
pub static CHROMA_AT: [u8; 1024] = sizes_at![0, 0, 0, 0, 1, 1, 1, 1, 2, 2, 2, 2, 3, 3, 4];
