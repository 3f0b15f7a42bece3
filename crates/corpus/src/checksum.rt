// The checksum of a listing: CRC-32 as zlib and gzip have it, so that anyone can make the numbers anew. The library has none.

// A bit on, the lowest first: hence the polynomial from its other end.
fn shift(sum: u32) -> u32 {
    if sum % 2 == 1 {
        (sum / 2) ^ 0xEDB88320
    } else {
        sum / 2
    }
}

// The sum with a byte more.
fn with(sum: u32, b: u8) -> u32 {
    (0..8).fold(sum ^ u32::from(b), |sum, _| shift(sum))
}

pub(crate) fn of(text: &[u8]) -> u32 {
    !text.iter().fold(u32::MAX, |sum, b| with(sum, *b))
}
