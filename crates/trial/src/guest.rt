// A guest with its memory, and the device that it talks to.
use crate::bytes::{put_bytes, put_number};
use crate::descriptor::{Descriptor, Field};
use crate::frame::Frame;
use crate::random::Random;
use serving::done::Done;
use serving::entries::serve;
use std::alloc::{AllocError, Global};

// All that a call is lent; `places` and `begins` are what it is told of the ring. What the guest does follows from its
// random numbers.
#[derive(Clone, PartialEq, Eq, Drop)]
pub struct Guest {
    pub random: Random,
    pub frame: Frame,
    pub places: u64,
    pub begins: u64,
    pub memory: Vec<u8>,
    pub state: Vec<u32>,
    pub kept: Vec<u8>,
}

impl Guest {
    // Guest `number`: a ring, a memory and a device, all random.
    pub fn any(heap: Global, number: u64) -> Result<Guest, AllocError> {
        let mut r = Random::new(number);
        let frame = Frame::any(&mut r);
        let memory = r.bytes(heap, frame.size as usize)?;
        let kept_len = any_kept_len(&mut r);
        let kept = r.bytes(heap, kept_len as usize)?;
        let served = starting_count(&mut r);
        let stopped = r.once_in(100);
        Ok(Guest {
            random: r,
            frame,
            places: frame.n as u64,
            begins: frame.base as u64,
            memory,
            state: vec![in heap; u32::from(served), u32::from(stopped)]?,
            kept,
        })
    }

    // Serves by the entry.
    pub fn serve(&mut self, times: u64) -> Done {
        serve(
            self.places,
            self.begins,
            &mut self.memory,
            &mut self.state,
            &mut self.kept,
            times,
        )
    }

    // How many chains the device has served, modulo 65,536.
    pub fn served(&self) -> u16 {
        (self.state.first().copied().unwrap_or(0) % 65536) as u16
    }

    // Whether the device has stopped.
    pub fn is_stopped(&self) -> bool {
        self.state.last().copied().unwrap_or(0) != 0
    }

    // Where a part of `len` bytes may stand.
    pub fn place(&mut self, len: u16) -> u16 {
        self.frame.place(&mut self.random, len)
    }

    // Sets one byte, where there is one.
    pub fn put_byte(&mut self, at: u32, byte: u8) {
        put_bytes(&mut self.memory, at as usize, &[byte]);
    }

    // Sets a number.
    fn put_number(&mut self, at: u32, number: u16) {
        put_number(&mut self.memory, at as usize, number);
    }

    // Sets one number of descriptor `i`.
    pub fn put_field(&mut self, i: u16, field: Field, number: u16) {
        let at = self.frame.descriptor_at(i).wrapping_add(field.offset());
        self.put_number(at, number);
    }

    // Sets descriptor `i`.
    pub fn describe(&mut self, i: u16, d: Descriptor) {
        self.put_field(i, Field::Addr, d.addr);
        self.put_field(i, Field::Len, d.len);
        self.put_field(i, Field::Flags, d.flags);
        self.put_field(i, Field::Next, d.next);
    }

    // Sets the `k`-th head.
    pub fn put_head(&mut self, k: u16, head: u16) {
        self.put_number(self.frame.head_at(k), head);
    }

    // Sets the available count, so that so many chains wait.
    pub fn let_wait(&mut self, waiting: u16) {
        let count = self.served().wrapping_add(waiting);
        self.put_number(self.frame.available_at(), count);
    }

    // The descriptor whose part is asked for; now and then it is none.
    pub fn asked(&mut self) -> u64 {
        match self.random.below(10) {
            0 => self.random.any(),
            1 => self.places,
            _ => self.random.up_to(self.frame.n) as u64,
        }
    }

    // Lets any number of chains wait.
    pub fn let_any_wait(&mut self) {
        let waiting = self.random.up_to(self.frame.n);
        self.let_wait(waiting);
    }
}

// How many bytes a device keeps.
fn any_kept_len(r: &mut Random) -> u16 {
    let len = r.pick(&[0, 15, 16, 17, 32, 32, 48, 64, 64, 256]);
    if r.once_in(200) { 4096 } else { len }
}

// A count of served chains: any, or one that soon goes on at 0.
fn starting_count(r: &mut Random) -> u16 {
    match r.below(4) {
        0 => 65535 - r.below(6),
        1 => r.word(),
        2 => r.below(200),
        _ => 0,
    }
}
