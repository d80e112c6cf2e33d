ghost use Rattle.std.specs.Prelude.{◌≡◌, ◌<◌, ◌≤◌, length, slice_index};
ghost use Rattle.m2v_quant.specs.Scans.{scan_order, scale_at};

/// The zigzag scan (figure 7-2): raster places in scan order.
static ZIGZAG: [u8; 64] = [
    0, 1, 8, 16, 9, 2, 3, 10, 17, 24, 32, 25, 18, 11, 4, 5, 12, 19, 26, 33, 40, 48, 41, 34, 27, 20,
    13, 6, 7, 14, 21, 28, 35, 42, 49, 56, 57, 50, 43, 36, 29, 22, 15, 23, 30, 37, 44, 51, 58, 59,
    52, 45, 38, 31, 39, 46, 53, 60, 61, 54, 47, 55, 62, 63,
];

/// The alternate scan (figure 7-3): raster places in scan order.
static ALTERNATE: [u8; 64] = [
    0, 8, 16, 24, 1, 9, 2, 10, 17, 25, 32, 40, 48, 56, 57, 49, 41, 33, 26, 18, 3, 11, 4, 12, 19,
    27, 34, 42, 50, 58, 35, 43, 51, 59, 20, 28, 5, 13, 6, 14, 21, 29, 36, 44, 52, 60, 37, 45, 53,
    61, 22, 30, 7, 15, 23, 31, 38, 46, 54, 62, 39, 47, 55, 63,
];

/// The scales of q_scale_type 1 (table 7-6), from code 1 on.
static SCALES: [u8; 31] = [
    1, 2, 3, 4, 5, 6, 7, 8, 10, 12, 14, 16, 18, 20, 22, 24, 28, 32, 36, 40, 44, 48, 52, 56, 64, 72,
    80, 88, 96, 104, 112,
];

/// What a table holds at i.
#[inline(always)]
pub fn entry(table: &[u8], i: u8) -> u8
    requires { i < length table.now }
    ensures { result ≡ slice_index table.now i }
{
    table[i as usize]
}

/// The raster place, 8 times the row plus the column, of position i of the zigzag or the alternate scan
/// (clause 7.3); i is below 64.
#[inline(always)]
pub fn scan(alternate: bool, i: u8) -> u8
    requires { i < 64 }
    ensures value { result ≡ slice_index (scan_order alternate) i }
    ensures below { result < 64 }
{
    if alternate {
        entry(&ALTERNATE, i)
    } else {
        entry(&ZIGZAG, i)
    }
}

/// The quantiser scale of a code from 1 to 31 (clause 7.4.2.2, table 7-6); `kind` is q_scale_type.
#[inline(always)]
pub fn scale_of(kind: bool, code: u8) -> u32
    requires { (1 ≤ code) × (code ≤ 31) }
    ensures value { result ≡ scale_at kind code }
    ensures least { 1 ≤ result }
    ensures most { result ≤ 112 }
{
    if kind {
        u32::from(entry(&SCALES, code - 1))
    } else {
        2 * u32::from(code)
    }
}
