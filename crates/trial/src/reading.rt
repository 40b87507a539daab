// A plain reading of the rules of the ring, for the entries to be held to. It shares no code with them: so it has numbers in memory, a
// ring, a device with its state, a capacity, a response and an answer of its own.
ghost use Rattle.std.specs.Prelude.{◌^◌, ◌<◌};

use crate::bytes::put_bytes;
use crate::descriptor::Descriptor;
use crate::guest::Guest;
use std::alloc::{AllocError, Global};
use std::ops::Range;

// What a call answers.
#[derive(Clone, Copy, PartialEq, Eq)]
pub enum Answer {
    Served(u64),
    Stopped,
    Anew,
    Refused(u64),
}

// A ring of so many places, which begins there. It finds the ring's parts by sums of its own, and not by those of the guest's
// frame, so that a wrong sum on either side shows.
#[derive(Clone, Copy)]
struct Ring {
    places: u16,
    begins: u32,
    ghost some: { 0 < places },
}

// The part of memory that a descriptor names.
#[derive(Clone, Copy)]
struct Part {
    addr: u16,
    len: u16,
    is_writable: bool,
}

// What the device knows of itself.
#[derive(Clone, Copy)]
struct Device {
    served: u16,
    has_stopped: bool,
}

impl Device {
    // The device that a state says, if it says one. This and the next are the reading's own, as all of it.
    fn read_from(state: &[u32]) -> Option<Device> {
        if state.len() != 2 || state[0] >= 65536 || state[1] > 1 {
            return None;
        }
        Some(Device {
            served: state[0] as u16,
            has_stopped: state[1] == 1,
        })
    }

    // Sets the two numbers of a state.
    fn write_to(self, state: &mut [u32]) {
        if state.len() == 2 {
            state[0] = self.served as u32;
            state[1] = if self.has_stopped { 1 } else { 0 };
        }
    }
}

// The number of two bytes.
fn number(memory: &[u8], at: usize) -> u16 {
    let low = memory.get(at).copied().unwrap_or(0);
    let high = memory.get(at.wrapping_add(1)).copied().unwrap_or(0);
    low as u16 + 256 * high as u16
}

// Sets the two bytes of a number.
fn put_number(memory: &mut [u8], at: usize, number: u16) {
    put_bytes(memory, at, &[(number % 256) as u8, (number / 256) as u8]);
}

impl Part {
    // The addresses of its bytes.
    fn range(self) -> Range<usize> {
        let from = self.addr as usize;
        from..from + self.len as usize
    }
}

impl Descriptor {
    // The part that it names.
    fn part(self) -> Part {
        Part {
            addr: self.addr,
            len: self.len,
            is_writable: self.flags / 2 % 2 == 1,
        }
    }
}

impl Ring {
    // The ring, if it is one and lies in a memory of `size` bytes.
    fn new(places: u64, begins: u64, size: usize) -> Option<Ring> {
        match places {
            1 | 2 | 4 | 8 | 16 | 32 | 64 => {}
            _ => return None,
        }
        if size > 65536 || begins as u128 + 14 * places as u128 + 4 > size as u128 {
            return None;
        }
        Some(Ring {
            places: places as u16,
            begins: begins as u32,
        })
    }

    // The ring that a guest's call is told of, if it is one and lies in the guest's memory.
    fn of(g: &Guest) -> Option<Ring> {
        Ring::new(g.places, g.begins, g.memory.len())
    }

    // Descriptor `i`.
    fn descriptor(self, memory: &[u8], i: u16) -> Descriptor {
        let at = self.begins as usize + 8 * i as usize;
        Descriptor {
            addr: number(memory, at),
            len: number(memory, at + 2),
            flags: number(memory, at + 4),
            next: number(memory, at + 6),
        }
    }

    // Where the available count stands.
    fn available(self) -> usize {
        self.begins as usize + 8 * self.places as usize
    }

    // Where the `k`-th head stands.
    fn head(self, k: u16) -> usize {
        self.begins as usize + 8 * self.places as usize + 2 + 2 * (k % self.places) as usize
    }

    // Where the used count stands.
    fn used(self) -> usize {
        self.begins as usize + 10 * self.places as usize + 2
    }

    // Where the `k`-th used entry stands.
    fn entry(self, k: u16) -> usize
        ensures { result < 2 ^ 33 }
    {
        self.begins as usize + 10 * self.places as usize + 4 + 4 * (k % self.places) as usize
    }

    // The first address behind the ring.
    fn end(self) -> usize {
        self.begins as usize + 14 * self.places as usize + 4
    }

    // How many chains wait.
    fn pending(self, memory: &[u8], served: u16) -> u16 {
        ((number(memory, self.available()) as u32 + 65536 - served as u32) % 65536) as u16
    }

    // Whether a part lies in memory, and wholly before the ring or wholly behind it.
    fn is_beside(self, p: Part, size: usize) -> bool {
        let bytes = p.range();
        bytes.end <= size && (bytes.end <= self.begins as usize || self.end() <= bytes.start)
    }

    // The parts of the chain that begins with `head`, unless it is bad.
    fn follow(
        self,
        heap: Global,
        memory: &[u8],
        head: u16,
    ) -> Result<Option<Vec<Part>>, AllocError> {
        let mut parts = Vec::new(heap);
        let mut i = head;
        for _ in 0..self.places {
            if i >= self.places {
                return Ok(None);
            }
            let d = self.descriptor(memory, i);
            parts.push(d.part())?;
            if d.flags % 2 == 0 {
                return Ok(Some(parts));
            }
            i = d.next;
        }
        Ok(None)
    }

    // Whether a chain of these parts may be served.
    fn may_serve(self, parts: &[Part], size: usize) -> bool {
        parts.iter().all(|p| self.is_beside(*p, size))
            && parts
                .iter()
                .skip_while(|p| !p.is_writable)
                .all(|p| p.is_writable)
    }
}

// The bytes of the readable parts.
fn read_request(heap: Global, memory: &[u8], parts: &[Part]) -> Result<Vec<u8>, AllocError> {
    let mut request = Vec::new(heap);
    for p in parts.iter().filter(|p| !p.is_writable) {
        request.extend_from_slice(memory.get(p.range()).unwrap_or(&[]))?;
    }
    Ok(request)
}

// The length of the writable parts together.
fn capacity(parts: &[Part]) -> u64 {
    parts
        .iter()
        .filter(|p| p.is_writable)
        .fold(0u64, |sum, p| sum.saturating_add(u64::from(p.len)))
}

// Puts the response into the writable parts, as far as it goes.
fn write_response(memory: &mut [u8], parts: &[Part], response: &[u8]) {
    let places = parts
        .iter()
        .filter(|p| p.is_writable)
        .flat_map(|p| p.range());
    for (at, byte) in places.zip(response) {
        put_bytes(memory, at, &[*byte]);
    }
}

// What the device answers to a request, and does.
fn respond(heap: Global, kept: &mut [u8], request: &[u8]) -> Result<Vec<u8>, AllocError> {
    let at = 16 * request.get(1).copied().unwrap_or(0) as usize;
    let is_kept = at + 16 <= kept.len();
    let mut response = Vec::new(heap);
    if request.len() == 2 && request[0] == 0 && is_kept {
        response.push(0)?;
        response.extend_from_slice(&kept[at..at + 16])?;
    } else if request.len() == 18 && request[0] == 1 && is_kept {
        kept[at..at + 16].copy_from_slice(&request[2..18]);
        response.push(0)?;
    } else {
        response.push(255)?;
    }
    Ok(response)
}

// A ring and a device in memory that they are lent.
#[derive(Drop)]
struct Reading<'a> {
    heap: Global,
    ring: Ring,
    device: Device,
    memory: &'a mut [u8],
    kept: &'a mut [u8],
}

impl Reading<'_> {
    // How many chains wait.
    fn pending(&self) -> u16 {
        self.ring.pending(self.memory, self.device.served)
    }

    // The parts of the next chain and its head, unless the guest breaks the rules.
    fn next_chain(&self) -> Result<Option<(u16, Vec<Part>)>, AllocError> {
        if self.pending() > self.ring.places {
            return Ok(None);
        }
        let head = number(self.memory, self.ring.head(self.device.served));
        let parts = self.ring.follow(self.heap, self.memory, head)?;
        Ok(
            parts
                .filter(|parts| self.ring.may_serve(parts, self.memory.len()))
                .map(|parts| (head, parts)),
        )
    }

    // Answers a chain of these parts.
    fn finish(&mut self, head: u16, parts: &[Part]) -> Result<(), AllocError> {
        let request = read_request(self.heap, self.memory, parts)?;
        let response = respond(self.heap, self.kept, &request)?;
        let len = (response.len() as u64).min(capacity(parts));
        write_response(self.memory, parts, &response);
        let entry = self.ring.entry(self.device.served);
        put_number(self.memory, entry, head);
        put_number(self.memory, entry + 2, (len % 65536) as u16);
        self.device.served = ((self.device.served as u32 + 1) % 65536) as u16;
        put_number(self.memory, self.ring.used(), self.device.served);
        Ok(())
    }

    // Serves the next chain; false where none is served. Nothing else is answered: a stop is told by the device.
    fn serve_next(&mut self) -> Result<bool, AllocError> {
        if self.device.has_stopped || self.pending() == 0 {
            return Ok(false);
        }
        let Some((head, parts)) = self.next_chain()? else {
            self.device.has_stopped = true;
            return Ok(false);
        };
        self.finish(head, &parts)?;
        Ok(true)
    }

    // Serves chains as long as there are some, at most `times` of them.
    fn serve_all(&mut self, times: u64) -> Result<(), AllocError> {
        for _ in 0..times {
            if !self.serve_next()? {
                break;
            }
        }
        Ok(())
    }

    // What is answered then.
    fn answer(&self) -> Answer {
        if self.device.has_stopped {
            Answer::Stopped
        } else {
            Answer::Served(self.pending() as u64)
        }
    }
}

// Serves at most `times` chains.
pub fn serve(heap: Global, g: &mut Guest, times: u64) -> Result<Answer, AllocError> {
    let Some(ring) = Ring::of(g) else {
        return Ok(Answer::Refused(1));
    };
    let Some(device) = Device::read_from(&g.state) else {
        return Ok(Answer::Refused(2));
    };
    if g.kept.len() > 4096 {
        return Ok(Answer::Refused(3));
    }
    if times > 1000 {
        return Ok(Answer::Refused(4));
    }
    let mut reading = Reading {
        heap,
        ring,
        device,
        memory: &mut g.memory,
        kept: &mut g.kept,
    };
    reading.serve_all(times)?;
    reading.device.write_to(&mut g.state);
    Ok(reading.answer())
}

// Resets the device.
pub fn reset(state: &mut [u32]) -> Answer {
    if state.len() != 2 {
        return Answer::Refused(2);
    }
    state.fill(0);
    Answer::Anew
}

// The part that descriptor `at` names.
pub fn part_of(g: &Guest, at: u64) -> &[u8] {
    let nothing = &g.memory[0..0];
    match Ring::of(g) {
        Some(ring) if at < ring.places as u64 => {
            let part = ring.descriptor(&g.memory, at as u16).part();
            g.memory.get(part.range()).unwrap_or(nothing)
        }
        _ => nothing,
    }
}
