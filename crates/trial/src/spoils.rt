// What a guest does that it should not, or that looks so.
use crate::descriptor::{Descriptor, Field};
use crate::guest::Guest;

impl Guest {
    // An address and a length at the edge of the ring or of memory, on this side of it or on that.
    fn edge(&mut self) -> (u16, u16) {
        let r = &mut self.random;
        let len = r.pick(&[0, 1, 2, 2, 17, 18]);
        let base = self.frame.base;
        let end = self.frame.end_word();
        let size = self.frame.size_word();
        match r.below(14) {
            0 => (base.wrapping_sub(len), len),
            1 => (base.wrapping_sub(len), len.wrapping_add(1)),
            2 => (base.wrapping_add(1), 0),
            3 => (end, len),
            4 => (end.wrapping_sub(1), len),
            5 => (end.wrapping_sub(1), 1),
            6 => (size.wrapping_sub(len), len),
            7 => (size.wrapping_sub(len), len.wrapping_add(1)),
            8 => (size, 0),
            9 => (size.wrapping_add(1), 0),
            10 => (65535, r.pick(&[0, 1, 2, 65535])),
            11 => (0, base),
            12 => (end, size.wrapping_sub(end)),
            _ => (r.up_to(size), r.pick(&[65535, 65530, size])),
        }
    }

    // Any of the ring's descriptors.
    fn any_index(&mut self) -> u16 {
        self.random.below(self.frame.n)
    }

    // Gives one descriptor a part at an edge.
    fn move_to_edge(&mut self) {
        let i = self.any_index();
        let (addr, len) = self.edge();
        self.put_field(i, Field::Addr, addr);
        self.put_field(i, Field::Len, len);
    }

    // Sets the available count past what may wait, or to the most that may, or back.
    fn miscount(&mut self) {
        let n = self.frame.n;
        let r = &mut self.random;
        let waiting = match r.below(6) {
            0 | 1 => n.saturating_add(1),
            2 => n,
            3 => 65535 - r.below(40),
            4 => 0,
            _ => r.word(),
        };
        self.let_wait(waiting);
    }

    // Sets an index that is none, or any: a head or the descriptor behind another.
    fn misdirect(&mut self) {
        let index = match self.random.below(4) {
            0 => self.frame.n,
            1 => self.random.word(),
            _ => self.any_index(),
        };
        let is_head = self.random.once_in(2);
        let i = self.any_index();
        if is_head {
            self.put_head(self.served().wrapping_add(i), index);
        } else {
            let flags = self.random.pick(&[1, 1, 3]);
            self.put_field(i, Field::Flags, flags);
            self.put_field(i, Field::Next, index);
        }
    }

    // Makes each descriptor a random one, of small numbers, and each head.
    fn scramble(&mut self) {
        for i in 0..self.frame.n {
            let len = self.random.below(20);
            let addr = self.place(len);
            let flags = self.random.below(4);
            let next = self.any_index();
            self.describe(
                i,
                Descriptor {
                    addr,
                    len,
                    flags,
                    next,
                },
            );
            let head = self.any_index();
            self.put_head(i, head);
        }
    }

    // Sets one byte of the ring.
    fn damage(&mut self) {
        let len = self.frame.n.min(64) * 14 + 4;
        let r = &mut self.random;
        let at = self.frame.base as u32 + r.below(len) as u32;
        let byte = if r.once_in(2) { r.byte() & 3 } else { r.byte() };
        self.put_byte(at, byte);
    }

    // Sets one byte of memory.
    fn meddle(&mut self) {
        let at = self.random.up_to(self.frame.size_word());
        let byte = self.random.byte();
        self.put_byte(at as u32, byte);
    }

    // Sets the flags of a descriptor.
    fn reflag(&mut self, i: u16) {
        let flags = self.random.below(4);
        self.put_field(i, Field::Flags, flags);
    }

    // One change.
    pub fn spoil(&mut self) {
        let i = self.any_index();
        // A drawn number picks the step: closures in a list would say the same, with a type for the list beside.
        match self.random.below(10) {
            0 | 1 | 2 | 3 => self.move_to_edge(),
            4 => self.miscount(),
            5 => self.misdirect(),
            6 => self.scramble(),
            7 => self.damage(),
            8 => self.meddle(),
            _ => self.reflag(i),
        }
    }
}
