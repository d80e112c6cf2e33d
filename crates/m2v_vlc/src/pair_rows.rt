//! The pairs of tables B.14 and B.15, which have the same pairs in the same order.

/// Hands the pairs on to a macro, a run at a time: each level with its code in table B.14 and that in table B.15, or the one that
/// both have, as a number and how many bits it has without the sign bit.
macro_rules! pairs {
    ($table:ident) => {
        $table! {
            0:
                1 [0x3 2] [0x2 2], 2 [0x4 4] [0x6 3], 3 [0x5 5] [0x7 4], 4 [0x6 7] [0x1C 5],
                5 [0x26 8] [0x1D 5], 6 [0x21 8] [0x5 6], 7 [0xA 10] [0x4 6], 8 [0x1D 12] [0x7B 7],
                9 [0x18 12] [0x7C 7], 10 [0x13 12] [0x23 8], 11 [0x10 12] [0x22 8],
                12 [0x1A 13] [0xFA 8], 13 [0x19 13] [0xFB 8], 14 [0x18 13] [0xFE 8],
                15 [0x17 13] [0xFF 8], 16 both [0x1F 14], 17 both [0x1E 14], 18 both [0x1D 14],
                19 both [0x1C 14], 20 both [0x1B 14], 21 both [0x1A 14], 22 both [0x19 14],
                23 both [0x18 14], 24 both [0x17 14], 25 both [0x16 14], 26 both [0x15 14],
                27 both [0x14 14], 28 both [0x13 14], 29 both [0x12 14], 30 both [0x11 14],
                31 both [0x10 14], 32 both [0x18 15], 33 both [0x17 15], 34 both [0x16 15],
                35 both [0x15 15], 36 both [0x14 15], 37 both [0x13 15], 38 both [0x12 15],
                39 both [0x11 15], 40 both [0x10 15];
            1:
                1 [0x3 3] [0x2 3], 2 [0x6 6] [0x6 5], 3 [0x25 8] [0x79 7], 4 [0xC 10] [0x27 8],
                5 [0x1B 12] [0x20 8], 6 both [0x16 13], 7 both [0x15 13], 8 both [0x1F 15],
                9 both [0x1E 15], 10 both [0x1D 15], 11 both [0x1C 15], 12 both [0x1B 15],
                13 both [0x1A 15], 14 both [0x19 15], 15 both [0x13 16], 16 both [0x12 16],
                17 both [0x11 16], 18 both [0x10 16];
            2:
                1 [0x5 4] [0x5 5], 2 [0x4 7] [0x7 7], 3 [0xB 10] [0xFC 8], 4 [0x14 12] [0xC 10],
                5 both [0x14 13];
            3: 1 both [0x7 5], 2 [0x24 8] [0x26 8], 3 both [0x1C 12], 4 both [0x13 13];
            4: 1 [0x6 5] [0x6 6], 2 [0xF 10] [0xFD 8], 3 both [0x12 12];
            5: 1 both [0x7 6], 2 [0x9 10] [0x4 9], 3 both [0x12 13];
            6: 1 [0x5 6] [0x6 7], 2 both [0x1E 12], 3 both [0x14 16];
            7: 1 [0x4 6] [0x4 7], 2 both [0x15 12];
            8: 1 [0x7 7] [0x5 7], 2 both [0x11 12];
            9: 1 [0x5 7] [0x78 7], 2 both [0x11 13];
            10: 1 [0x27 8] [0x7A 7], 2 both [0x10 13];
            11: 1 [0x23 8] [0x21 8], 2 both [0x1A 16];
            12: 1 [0x22 8] [0x25 8], 2 both [0x19 16];
            13: 1 [0x20 8] [0x24 8], 2 both [0x18 16];
            14: 1 [0xE 10] [0x5 9], 2 both [0x17 16];
            15: 1 [0xD 10] [0x7 9], 2 both [0x16 16];
            16: 1 [0x8 10] [0xD 10], 2 both [0x15 16];
            17: 1 both [0x1F 12];
            18: 1 both [0x1A 12];
            19: 1 both [0x19 12];
            20: 1 both [0x17 12];
            21: 1 both [0x16 12];
            22: 1 both [0x1F 13];
            23: 1 both [0x1E 13];
            24: 1 both [0x1D 13];
            25: 1 both [0x1C 13];
            26: 1 both [0x1B 13];
            27: 1 both [0x1F 16];
            28: 1 both [0x1E 16];
            29: 1 both [0x1D 16];
            30: 1 both [0x1C 16];
            31: 1 both [0x1B 16];
        }
    };
}

/// The rows of a table: those of the end of the block and of the escape, and each pair with either sign.
macro_rules! coefficient_rows {
    ($end:literal $width:literal
        $($run:literal: $($level:literal [$number:literal $len:literal]),+;)+) => {
        [
            (Coefficient::End, $end, $width),
            (Coefficient::Escape, 0x1, 6),
            $($(
                (Coefficient::Pair { run: $run, level: $level }, 2 * $number, $len + 1),
                (Coefficient::Pair { run: $run, level: -$level }, 2 * $number + 1, $len + 1),
            )+)+
        ]
    };
}

/// The rows of table B.14.
macro_rules! rows_zero {
    ($($run:literal: $($level:literal
        $([$own:literal $len:literal] $other:tt)? $(both [$same:literal $size:literal])?),+;)+) => {
        coefficient_rows! { 0x2 2 $($run: $($level $([$own $len])? $([$same $size])?),+;)+ }
    };
}

/// The rows of table B.15.
macro_rules! rows_one {
    ($($run:literal: $($level:literal
        $([$other:literal $width:literal] $own:tt)? $(both $same:tt)?),+;)+) => {
        coefficient_rows! { 0x6 4 $($run: $($level $($own)? $($same)?),+;)+ }
    };
}

/// The row of the coefficient that seventeen bits begin with, up to 511, 255 for none: what the tables have in common, and
/// the rows of 368 to 431, where they differ.
macro_rules! by_17 {
    ($($own:tt)*) => {
        lookup![
            32 each [255],
            1 each [
                116, 117, 114, 115, 112, 113, 110, 111, 152, 153, 192, 193, 188, 189, 184, 185, 180, 181,
                176, 177, 172, 173, 222, 223, 220, 221, 218, 219, 216, 217, 214, 215
            ],
            2 each [
                80, 81, 78, 79, 76, 77, 74, 75, 72, 73, 70, 71, 68, 69, 66, 67, 64, 65, 108, 109, 106, 107,
                104, 105, 102, 103, 100, 101, 98, 99, 96, 97
            ],
            4 each [
                62, 63, 60, 61, 58, 59, 56, 57, 54, 55, 52, 53, 50, 51, 48, 49, 46, 47, 44, 45, 42, 43, 40,
                41, 38, 39, 36, 37, 34, 35, 32, 33
            ],
            8 each [168, 169, 164, 165, 146, 147, 134, 135, 126, 127, 94, 95, 92, 93],
            $($own)*
            8 each [212, 213, 210, 211, 208, 209, 206, 207, 204, 205],
        ]
    };
}

pub(crate) use by_17;
pub(crate) use coefficient_rows;
pub(crate) use pairs;
pub(crate) use rows_one;
pub(crate) use rows_zero;
