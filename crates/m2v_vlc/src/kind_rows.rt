//! The look-ups of macroblock types (tables B.2 to B.4).

use crate::lookup::lookup;
use crate::values::MbType;

/// A flag, which is 0 or 1.
macro_rules! flag {
    (0) => { false };
    (1) => { true };
}

/// The rows of types, each by its flags as the tables print them: its code, and how many bits it has.
macro_rules! kind_rows {
    ($([$quant:tt $forward:tt $backward:tt $pattern:tt $intra:tt] $number:literal $len:literal),*) => {
        [$((
            MbType {
                quant: flag!($quant),
                forward: flag!($forward),
                backward: flag!($backward),
                pattern: flag!($pattern),
                intra: flag!($intra),
            },
            $number,
            $len,
        )),*]
    };
}

/// The types in the order of table B.2: the value, its code, and how many bits that has.
pub static TYPE_I_ROWS: [(MbType, u16, u8); 2] = kind_rows![[0 0 0 0 1] 0x1 1, [1 0 0 0 1] 0x1 2];

/// The row of the type that begins two bits, 255 for none.
pub static TYPE_I_AT: [u8; 4] = [255, 1, 0, 0];

/// The row of table B.2 by the flags of the type, 255 for none: 16 for quant, 8 for forward, 4 for backward,
/// 2 for pattern, 1 for intra.
pub static TYPE_I_ROW: [u8; 32] = [
    255, 0, 255, 255, 255, 255, 255, 255, 255, 255, 255, 255, 255, 255, 255, 255, 255, 1, 255, 255,
    255, 255, 255, 255, 255, 255, 255, 255, 255, 255, 255, 255,
];

/// The types in the order of table B.3: the value, its code, and how many bits that has.
pub static TYPE_P_ROWS: [(MbType, u16, u8); 7] = kind_rows![
    [0 1 0 1 0] 0x1 1, [0 0 0 1 0] 0x1 2, [0 1 0 0 0] 0x1 3, [0 0 0 0 1] 0x3 5, [1 1 0 1 0] 0x2 5,
    [1 0 0 1 0] 0x1 5, [1 0 0 0 1] 0x1 6
];

/// The row of the type that begins six bits, 255 for none.
pub static TYPE_P_AT: [u8; 64] = lookup![
    1 each [255, 6],
    2 each [5, 4, 3],
    8 each [2],
    16 each [1],
    32 each [0],
];

/// The row of table B.3 by the flags of the type, 255 for none.
pub static TYPE_P_ROW: [u8; 32] = [
    255, 3, 1, 255, 255, 255, 255, 255, 2, 255, 0, 255, 255, 255, 255, 255, 255, 6, 5, 255, 255,
    255, 255, 255, 255, 255, 4, 255, 255, 255, 255, 255,
];

/// The types in the order of table B.4: the value, its code, and how many bits that has.
pub static TYPE_B_ROWS: [(MbType, u16, u8); 11] = kind_rows![
    [0 1 1 0 0] 0x2 2, [0 1 1 1 0] 0x3 2, [0 0 1 0 0] 0x2 3, [0 0 1 1 0] 0x3 3, [0 1 0 0 0] 0x2 4,
    [0 1 0 1 0] 0x3 4, [0 0 0 0 1] 0x3 5, [1 1 1 1 0] 0x2 5, [1 1 0 1 0] 0x3 6, [1 0 1 1 0] 0x2 6,
    [1 0 0 0 1] 0x1 6
];

/// The row of the type that begins six bits, 255 for none.
pub static TYPE_B_AT: [u8; 64] = lookup![
    1 each [255, 10, 9, 8],
    2 each [7, 6],
    4 each [4, 5],
    8 each [2, 3],
    16 each [0, 1],
];

/// The row of table B.4 by the flags of the type, 255 for none.
pub static TYPE_B_ROW: [u8; 32] = [
    255, 6, 255, 255, 2, 255, 3, 255, 4, 255, 5, 255, 0, 255, 1, 255, 255, 10, 255, 255, 255, 255,
    9, 255, 255, 255, 8, 255, 255, 255, 7, 255,
];
