// What a test starts from: a memory with a ring in it, and a device.
ghost use Rattle.std.specs.Prelude.{◌^◌, ◌<◌};

use serving::done::Done;
use serving::entries::{begin_anew, serve};
use std::alloc::{AllocError, Global};

// A ring of `places` descriptors from `begins` on in a memory, and a device's state and contents.
#[derive(Clone, Debug, PartialEq, Eq, Drop)]
pub struct Setup {
    places: u16,
    begins: u16,
    pub memory: Vec<u8>,
    pub state: Vec<u32>,
    pub kept: Vec<u8>,
}

// A descriptor, as the guest writes it. The trial has one of its own: a library for the two would be contracts for one struct.
#[derive(Clone, Copy)]
pub struct Descriptor {
    pub addr: u16,
    pub len: u16,
    pub flags: u16,
    pub next: u16,
}

// Status 0 and block 1 of the contents of the example: 16 to 31.
pub const BLOCK: &[u8; 17] =
    b"\x00\x10\x11\x12\x13\x14\x15\x16\x17\x18\x19\x1a\x1b\x1c\x1d\x1e\x1f";

// A readable descriptor, with another behind it.
pub fn readable(addr: u16, len: u16, next: u16) -> Descriptor {
    Descriptor {
        addr,
        len,
        flags: 1,
        next,
    }
}

// A writable descriptor, the last of its chain.
pub fn writable(addr: u16, len: u16) -> Descriptor {
    Descriptor {
        addr,
        len,
        flags: 2,
        next: 0,
    }
}

// Writes bytes from `at` on, as far as there is place.
fn put_bytes(into: &mut [u8], at: usize, bytes: &[u8]) {
    for (to, byte) in into.iter_mut().skip(at).zip(bytes) {
        *to = *byte;
    }
}

impl Setup {
    // An empty ring in a memory of `size` bytes, all 0, and a device that keeps 32 bytes, 0 to 31.
    pub fn empty(heap: Global, places: u16, begins: u16, size: usize) -> Result<Setup, AllocError> {
        Ok(Setup {
            places,
            begins,
            memory: vec![in heap; 0; size]?,
            state: vec![in heap; 0, 0]?,
            kept: (0..32u8).collect(heap)?,
        })
    }

    // The example that most tests vary: a ring of two at 0 in 65 bytes, with one chain, which reads block 1.
    pub fn example(heap: Global) -> Result<Setup, AllocError> {
        Setup::chain_of(heap, readable(40, 2, 1), writable(48, 17))
    }

    // The example with other descriptors.
    pub fn chain_of(heap: Global, d: Descriptor, e: Descriptor) -> Result<Setup, AllocError> {
        let mut s = Setup::empty(heap, 2, 0, 65)?;
        s.describe(0, d);
        s.describe(1, e);
        s.offer(0, 0);
        s.put(40, &[0, 1]);
        Ok(s)
    }

    // Writes bytes from `at` on.
    pub fn put(&mut self, at: u16, bytes: &[u8]) {
        put_bytes(&mut self.memory, at as usize, bytes);
    }

    // Changes the contents from `at` on.
    pub fn keep(&mut self, at: u16, bytes: &[u8]) {
        put_bytes(&mut self.kept, at as usize, bytes);
    }

    // Writes a number.
    fn put_number(&mut self, at: usize, number: u16) {
        put_bytes(&mut self.memory, at, &number.to_le_bytes());
    }

    // Writes descriptor `i`.
    pub fn describe(&mut self, i: u16, d: Descriptor) {
        let at = self.begins as usize + 8 * i as usize;
        self.put_number(at, d.addr);
        self.put_number(at + 2, d.len);
        self.put_number(at + 4, d.flags);
        self.put_number(at + 6, d.next);
    }

    // Where the available count stands: by a sum of its own, to test the ring's.
    fn available_at(&self) -> usize
        ensures { result < 2 ^ 32 }
    {
        self.begins as usize + 8 * self.places as usize
    }

    // Where the used count stands.
    fn used_at(&self) -> usize
        ensures { result < 2 ^ 32 }
    {
        self.begins as usize + 10 * self.places as usize + 2
    }

    // Sets the available count.
    pub fn count_available(&mut self, count: u16) {
        let at = self.available_at();
        self.put_number(at, count);
    }

    // Makes `head` the `k`-th available, and the last.
    pub fn offer(&mut self, k: u16, head: u16) {
        let place = k as usize % self.places.max(1) as usize;
        let at = self.available_at() + 2 + 2 * place;
        self.put_number(at, head);
        self.count_available(k.wrapping_add(1));
    }

    // Makes `head` the `k`-th used, and the last, with a response of `len` bytes.
    pub fn mark_used(&mut self, k: u16, head: u16, len: u16) {
        let place = k as usize % self.places.max(1) as usize;
        let at = self.used_at() + 2 + 4 * place;
        self.put_number(at, head);
        self.put_number(at + 2, len);
        let count_at = self.used_at();
        self.put_number(count_at, k.wrapping_add(1));
    }

    // Sets the device's state.
    pub fn put_state(&mut self, served: u32, stopped: u32) {
        for (to, number) in self.state.iter_mut().zip([served, stopped]) {
            *to = number;
        }
    }

    // Serves at most `times` chains.
    pub fn serve(&mut self, times: u64) -> Done {
        let places = self.places as u64;
        let begins = self.begins as u64;
        self.serve_as(places, begins, times)
    }

    // Serves a ring of other places, or that begins elsewhere.
    pub fn serve_as(&mut self, places: u64, begins: u64, times: u64) -> Done {
        serve(
            places,
            begins,
            &mut self.memory,
            &mut self.state,
            &mut self.kept,
            times,
        )
    }

    // Resets the device.
    pub fn reset(&mut self) -> Done {
        begin_anew(&mut self.state)
    }
}
