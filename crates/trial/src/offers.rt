// Chains that a guest offers, put together by the rules.
use crate::descriptor::Descriptor;
use crate::guest::Guest;
use crate::random::Random;

// A request: its first two bytes, and its length. The other bytes are random.
#[derive(Clone, Copy)]
struct Request {
    code: u8,
    block: u8,
    len: u16,
}

impl Request {
    // Mostly a read or a write of a block that is kept, or of the first that is not.
    fn any(r: &mut Random, kept: usize) -> Request {
        let len = r.pick(&[2, 2, 2, 2, 2, 18, 18, 18, 18, 18, 0, 1, 3, 17, 19, 30]);
        let code = if len > 2 { 1 } else { 0 };
        let blocks = (kept / 16).min(255) as u16;
        Request {
            code: if r.once_in(10) { r.byte() } else { code },
            block: if r.once_in(10) {
                r.byte()
            } else {
                (r.up_to(blocks) % 256) as u8
            },
            len,
        }
    }

    // Byte `i` of the request.
    fn byte(self, r: &mut Random, i: u16) -> u8 {
        match i {
            0 => self.code,
            1 => self.block,
            _ => r.byte(),
        }
    }
}

// An order of the descriptors of a ring, each once: `n` is a power of two and `step` is odd.
#[derive(Clone, Copy)]
struct Order {
    n: u16,
    first: u16,
    step: u16,
}

impl Order {
    // Any order.
    fn any(r: &mut Random, n: u16) -> Order {
        Order {
            n,
            first: r.below(n),
            step: r.below(32).wrapping_mul(2).wrapping_add(1),
        }
    }

    // The `i`-th descriptor.
    fn at(self, i: u16) -> u16 {
        self.first.wrapping_add(self.step.wrapping_mul(i)) % self.n.max(1)
    }
}

// How much of `left` bytes one part has, where so many parts are still to come with it.
fn share(r: &mut Random, left: u16, parts: u16) -> u16 {
    if parts <= 1 {
        return left;
    }
    match r.below(4) {
        0 => 0,
        1 => r.up_to(left),
        _ => left.min(1),
    }
}

// The flags of a descriptor; the bits that do not count are random in half of them.
fn flags(r: &mut Random, has_next: bool, is_writable: bool) -> u16 {
    let other = if r.once_in(2) { r.word() & 0xfffc } else { 0 };
    other | u16::from(has_next) | u16::from(is_writable) << 1
}

// A chain that a guest is writing: `at` of its `len` descriptors are, and they stand from `from` on in the order.
#[derive(Drop)]
struct Draft<'a> {
    guest: &'a mut Guest,
    order: Order,
    from: u16,
    len: u16,
    at: u16,
}

impl Draft<'_> {
    // Writes the next descriptor.
    fn add(&mut self, addr: u16, len: u16, is_writable: bool) {
        let i = self.from.wrapping_add(self.at);
        let has_next = self.at.wrapping_add(1) < self.len;
        let next = if has_next {
            self.order.at(i.wrapping_add(1))
        } else {
            self.guest.random.pick(&[0, 1, 63, 64, 65535])
        };
        let flags = flags(&mut self.guest.random, has_next, is_writable);
        self.guest.describe(
            self.order.at(i),
            Descriptor {
                addr,
                len,
                flags,
                next,
            },
        );
        // What is written is counted over many calls, so no loop has the index.
        self.at = self.at.wrapping_add(1);
    }

    // Writes so many readable descriptors, which have a request in them.
    fn add_request(&mut self, parts: u16) {
        let kept = self.guest.kept.len();
        let request = Request::any(&mut self.guest.random, kept);
        let mut done = 0u16;
        for i in 0..parts {
            let left = request.len.saturating_sub(done);
            let len = share(&mut self.guest.random, left, parts - i);
            let addr = self.guest.place(len);
            for j in 0..len {
                let byte = request.byte(&mut self.guest.random, done.wrapping_add(j));
                self.guest.put_byte(addr as u32 + j as u32, byte);
            }
            self.add(addr, len, false);
            done = done.wrapping_add(len);
        }
    }

    // Writes so many descriptors of 4,096 bytes each.
    fn add_lengths(&mut self, parts: u16, is_writable: bool) {
        for _ in 0..parts {
            let addr = self.guest.place(4096);
            self.add(addr, 4096, is_writable);
        }
    }

    // Writes so many writable descriptors.
    fn add_capacity(&mut self, parts: u16) {
        let r = &mut self.guest.random;
        let mut left = r.pick(&[17, 17, 17, 17, 18, 40, 1, 1, 0, 4, 16]);
        for i in 0..parts {
            let len = share(&mut self.guest.random, left, parts - i);
            let addr = self.guest.place(len);
            self.add(addr, len, true);
            left = left.saturating_sub(len);
        }
    }
}

// How many descriptors of 4,096 bytes have 65,536 bytes together.
const LONG: u16 = 16;

// How many descriptors a chain has, where there are `most` left.
fn chain_len(r: &mut Random, most: u16) -> u16 {
    let len = match r.below(8) {
        0 => most,
        1 => 1,
        2 | 3 | 4 => 2,
        5 => 3,
        _ => r.up_to(most),
    };
    len.min(most).max(1)
}

// How many descriptors of a chain are readable.
fn readable_len(r: &mut Random, len: u16) -> u16 {
    if len < 2 || r.once_in(12) {
        return r.up_to(len);
    }
    1u16.saturating_add(r.below(len - 1))
}

impl Guest {
    // Writes a chain from place `from` of the order on, and says how many descriptors it has.
    fn write_chain(&mut self, order: Order, from: u16) -> u16 {
        let most = self.frame.n.saturating_sub(from);
        let long = if most > LONG && self.frame.behind() >= 4096 {
            LONG
        } else {
            0
        };
        let r = &mut self.random;
        let short = chain_len(r, most.saturating_sub(long));
        let len = short.saturating_add(long);
        let readable = readable_len(r, short);
        let written = if r.once_in(2) { long } else { 0 };
        let mut draft = Draft {
            guest: self,
            order,
            from,
            len,
            at: 0,
        };
        draft.add_request(readable);
        draft.add_lengths(long.saturating_sub(written), false);
        draft.add_capacity(short.saturating_sub(readable));
        draft.add_lengths(written, true);
        len
    }

    // Makes chains of all descriptors of the ring, and offers them: the first one at each place that is left over.
    pub fn offer_chains(&mut self) {
        let n = self.frame.n;
        let order = Order::any(&mut self.random, n);
        let served = self.served();
        let mut from = 0u16;
        for k in 0..n {
            self.put_head(served.wrapping_add(k), order.at(from % n.max(1)));
            if from < n {
                from = from.saturating_add(self.write_chain(order, from));
            }
        }
        let waiting = match self.random.below(4) {
            0 => 1,
            1 => n,
            _ => self.random.up_to(n),
        };
        self.let_wait(waiting);
    }
}
