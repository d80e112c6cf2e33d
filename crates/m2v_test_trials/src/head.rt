// What no command does: matrices that are written.
use m2v_bits::{BitReader, BitWriter};
use m2v_head::MatrixInfo;
use std::alloc::{AllocError, Global};

/// Whether bytes are read as matrices, up to their last bit, and are what is written of them.
#[tactic(auto, using(m2v_head::proofs::Lengths::matrices_most))]
fn is_matrices(
    alloc: Global,
    bytes: &[u8; 65],
    bits: u64,
    value: MatrixInfo,
) -> Result<bool, AllocError> {
    let mut input = BitReader::new(bytes);
    let Ok(matrices) = MatrixInfo::read(&mut input) else {
        return Ok(false);
    };
    let mut out = BitWriter::over(vec![in alloc; 0u8; 320]?);
    matrices.write(&mut out);
    out.align();
    let same = matrices == value && input.place() == bits;
    Ok(same && out.bit_len() % 8 == 0 && out.bytes() == bytes.as_slice())
}

/// The numbers 1 to 64 in raster order, as they stand in zigzag order (figure 7-2).
const ZIGZAG_FROM_1: [u8; 64] = [
    1, 2, 9, 17, 10, 3, 4, 11, 18, 25, 33, 26, 19, 12, 5, 6, 13, 20, 27, 34, 41, 49, 42, 35, 28,
    21, 14, 7, 8, 15, 22, 29, 36, 43, 50, 57, 58, 51, 44, 37, 30, 23, 16, 24, 31, 38, 45, 52, 59,
    60, 53, 46, 39, 32, 40, 47, 54, 61, 62, 55, 48, 56, 63, 64,
];

/// The same numbers in raster order.
fn raster_from_1() -> [u8; 64] {
    let mut raster = [0; 64];
    for i in 0..64 {
        raster[i] = (i + 1) as u8;
    }
    raster
}

#[test]
fn a_matrix_extension_both_ways(rt: HostRuntime) -> Result<(), AllocError> {
    let loaded = MatrixInfo {
        intra: None,
        non_intra: None,
        chroma_intra: None,
        chroma_non_intra: Some(raster_from_1()),
    };
    let mut bytes = [0x31; 65];
    bytes[1..].copy_from_slice(&ZIGZAG_FROM_1);
    let same = is_matrices(rt.alloc(), &bytes, 520, loaded)?;
    assert!(rt; same);
    Ok(())
}
