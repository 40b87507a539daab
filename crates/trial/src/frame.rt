// Where a guest has its ring, and what room there is beside it: by sums of its own, which those of the reading are held to.
use crate::random::Random;

// A ring of `n` descriptors from `base` on, in a memory of `size` bytes.
#[derive(Clone, Copy, PartialEq, Eq)]
pub struct Frame {
    pub n: u16,
    pub base: u16,
    pub size: u32,
}

impl Frame {
    // A ring of any number of places, mostly in a small memory.
    pub fn any(r: &mut Random) -> Frame {
        let n = r.pick(&[1, 1, 2, 2, 2, 4, 4, 4, 8, 8, 16, 16, 32, 64]);
        if r.once_in(250) {
            return Frame::of_all(r, n);
        }
        let before = r.pick(&[0, 0, 0, 1, 2, 18, 40, 90, 200]);
        let behind = r.pick(&[0, 1, 2, 18, 40, 40, 90, 90, 200, 200]);
        let more = match n {
            32 | 64 if r.once_in(100) => 4096,
            16 | 32 | 64 => 6 * n as u32,
            _ => 0,
        };
        Frame {
            n,
            base: before,
            size: before as u32 + 14 * n as u32 + 4 + behind as u32 + more,
        }
    }

    // A ring in a memory as long as may be, or one byte shorter or longer.
    fn of_all(r: &mut Random, n: u16) -> Frame {
        let last = 65532 - 14 * n.min(64);
        let base = r.pick(&[0, 1, last, last - 1, last / 2]);
        let size = 65535 + r.below(3) as u32;
        Frame { n, base, size }
    }

    // Where descriptor `i` stands.
    pub fn descriptor_at(self, i: u16) -> u32 {
        self.base as u32 + 8 * i as u32
    }

    // Where the available count stands.
    pub fn available_at(self) -> u32 {
        self.base as u32 + 8 * self.n as u32
    }

    // Where the `k`-th head stands.
    pub fn head_at(self, k: u16) -> u32 {
        self.base as u32 + 8 * self.n as u32 + 2 + 2 * (k % self.n.max(1)) as u32
    }

    // The first address behind the ring.
    pub fn end(self) -> u32 {
        self.base as u32 + 14 * self.n as u32 + 4
    }

    // The same as a two-byte number.
    pub fn end_word(self) -> u16 {
        (self.end() % 65536) as u16
    }

    // The memory's length as a two-byte number.
    pub fn size_word(self) -> u16 {
        (self.size % 65536) as u16
    }

    // How many bytes there are behind the ring.
    pub fn behind(self) -> u16 {
        self.size.saturating_sub(self.end()).min(65535) as u16
    }

    // Where a part of `len` bytes may stand, before the ring or behind it; anywhere, if it fits on neither side.
    pub fn place(self, r: &mut Random, len: u16) -> u16 {
        let behind = self.behind();
        if len <= self.base && (len > behind || r.once_in(2)) {
            return along(r, 0, self.base - len);
        }
        if len <= behind {
            return along(r, self.end_word(), behind - len);
        }
        r.word()
    }
}

// A number from `low` to `low + more`, often one of these two.
fn along(r: &mut Random, low: u16, more: u16) -> u16 {
    match r.below(6) {
        0 => low,
        1 => low.wrapping_add(more),
        _ => low.wrapping_add(r.up_to(more)),
    }
}
