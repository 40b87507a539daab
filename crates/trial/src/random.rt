// Numbers that look random, and are the same in each run.
use std::alloc::{AllocError, Global};

// A generator: each number follows from the one before.
#[derive(Clone, Copy, PartialEq, Eq)]
pub struct Random {
    state: u64,
}

impl Random {
    // The generator of case `number`.
    pub fn new(number: u64) -> Random {
        let mut r = Random {
            state: number.wrapping_mul(0xd134_2543_de82_ef95),
        };
        let _ = r.any();
        r
    }

    // Any 64 bits: the next ones.
    pub fn any(&mut self) -> u64 {
        self.state = self.state.wrapping_add(0x9e37_79b9_7f4a_7c15);
        let a = (self.state ^ (self.state >> 30)).wrapping_mul(0xbf58_476d_1ce4_e5b9);
        let b = (a ^ (a >> 27)).wrapping_mul(0x94d0_49bb_1331_11eb);
        b ^ (b >> 31)
    }

    // Any byte.
    pub fn byte(&mut self) -> u8 {
        (self.any() & 0xff) as u8
    }

    // So many bytes, each any.
    pub fn bytes(&mut self, heap: Global, len: usize) -> Result<Vec<u8>, AllocError> {
        (0..len).map(|_| self.byte()).collect(heap)
    }

    // Any two-byte number.
    pub fn word(&mut self) -> u16 {
        (self.any() & 0xffff) as u16
    }

    // A number below `n`, or 0 where there is none.
    pub fn below(&mut self, n: u16) -> u16 {
        if n == 0 {
            return 0;
        }
        (self.any() % n as u64) as u16
    }

    // A number up to `n`.
    pub fn up_to(&mut self, n: u16) -> u16 {
        (self.any() % (n as u64 + 1)) as u16
    }

    // True once in `n` times.
    pub fn once_in(&mut self, n: u16) -> bool {
        self.below(n) == 0
    }

    // One of these.
    pub fn pick(&mut self, from: &[u16]) -> u16 {
        let n = from.len().min(1000) as u16;
        from.get(self.below(n) as usize).copied().unwrap_or(0)
    }
}
