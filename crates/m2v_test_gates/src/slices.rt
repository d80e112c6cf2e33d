// Slices in a stream, by their start codes alone.

/// Whether a start code stands at a byte.
fn is_code(stream: &[u8], at: usize) -> bool {
    match stream.get(at..) {
        Some(rest) => rest.starts_with(&[0, 0, 1]),
        None => false,
    }
}

/// The first start code at a byte or behind it; the end of the stream where there is none.
fn next_code(stream: &[u8], from: usize) -> usize {
    for at in from..stream.len() {
        if is_code(stream, at) {
            return at;
        }
    }
    stream.len()
}

/// The value of the start code at a byte.
fn value_at(stream: &[u8], at: usize) -> Option<u8> {
    stream.get(at.saturating_add(3)).copied()
}

/// How many bits the slice of a row has, counted from 1, in the picture of a number, counted from 0: with its start code, up
/// to the next one. 0 where there is none.
pub(crate) fn slice_bits(stream: &[u8], picture: usize, row: u8) -> u64 {
    let mut pictures = 0usize;
    for at in 0..stream.len() {
        if is_code(stream, at) {
            let value = value_at(stream, at);
            if value == Some(0) {
                pictures = pictures.saturating_add(1);
            } else if value == Some(row) && pictures == picture.saturating_add(1) {
                let end = next_code(stream, at.saturating_add(3));
                return (end.saturating_sub(at) as u64).saturating_mul(8);
            }
        }
    }
    0
}
