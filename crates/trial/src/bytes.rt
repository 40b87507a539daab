// Numbers in memory, as far as there is memory. The worked examples write theirs alike: a library for the two would be contracts for test code.

// Writes bytes from `at` on, as far as there is place.
pub fn put_bytes(memory: &mut [u8], at: usize, bytes: &[u8]) {
    for (to, byte) in memory.iter_mut().skip(at).zip(bytes) {
        *to = *byte;
    }
}

// Writes a number, the lower byte first.
pub fn put_number(memory: &mut [u8], at: usize, number: u16) {
    put_bytes(memory, at, &number.to_le_bytes());
}
