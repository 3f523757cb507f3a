//! A digest of what a run answered: FNV-1a of 64 bits over bytes. A whole number goes in by one step of it.

/// The digest of nothing.
pub const START: u64 = 0xcbf2_9ce4_8422_2325;

/// The digest with one more number.
pub fn with_number(digest: u64, number: u64) -> u64 {
    (digest ^ number).wrapping_mul(0x0000_0100_0000_01b3)
}

/// The digest with more numbers.
pub fn with_numbers(digest: u64, numbers: &[u64]) -> u64 {
    let mut all = digest;
    for number in numbers {
        all = with_number(all, *number);
    }
    all
}

/// The digest with more bytes.
pub fn with_bytes(digest: u64, bytes: &[u8]) -> u64 {
    let mut all = digest;
    for byte in bytes {
        all = with_number(all, u64::from(*byte));
    }
    all
}
