// Bytes and sectors; a sector is 2^shift bytes. Sums and differences wrap at 2^64.

pub fn bytes_in(n: u64, shift: u32) -> u64 {
    n.checked_shl(shift).unwrap_or(0)
}

// The whole sectors in n bytes.
pub fn sectors_in(n: u64, shift: u32) -> u64 {
    n.checked_shr(shift).unwrap_or(0)
}

// The sectors that n bytes from a sector's start reach into.
pub fn sectors_up(n: u64, shift: u32) -> u64 {
    let last = bytes_in(1, shift).wrapping_sub(1);
    sectors_in(n.wrapping_add(last), shift)
}
