// Which refusal it is, with its number and its place.
ghost use Rattle.std.specs.Prelude.{◌≡◌};
ghost use Rattle.machine.specs.Refusals.{number_of, place_of};
ghost use Rattle.machine.specs.Bench.{bench_of};
ghost use Rattle.machine.specs.Steps.{ring_fault, state_fault, fault};

use crate::machine::{Machine, Ring};
use crate::refusal::Refusal;
use script::within::lies_in;
use vring::ring::is_size;

impl Ring {
    // What is wrong with the ring, in a memory of `n` bytes: which of the tests of a layout fails, as a layout itself does not say.
    #[tactic(auto, using(crate::proofs::Sizes::size_few))]
    fn fault(self, n: usize) -> Refusal
        ensures { result ≡ ring_fault (record { size = self.size; base = self.base }) n }
    {
        if !is_size(self.size) {
            return Refusal::Places;
        }
        // Of each place 8 bytes are its descriptor's, 2 its available entry's and 4 its used entry's; each count takes 2.
        let len = 14 * self.size + 4;
        if lies_in(n as u64, self.base, len) {
            Refusal::MemoryTooLong
        } else {
            Refusal::RingOutside
        }
    }
}

impl Machine {
    // What is wrong with the state: which of its two numbers, as the test of a state does not say.
    fn state_fault(&self) -> Refusal
        ensures { result ≡ state_fault (bench_of self.now).state }
    {
        if self.served < 65536 {
            Refusal::State(2)
        } else {
            Refusal::State(1)
        }
    }

    // What is wrong where serving is refused, by the number of the refusal.
    pub fn fault(&self, number: u64, times: u64) -> Refusal
        ensures { result ≡ fault number times (bench_of self.now) }
    {
        match number {
            1 => self.ring.fault(self.memory.len()),
            2 => self.state_fault(),
            3 => Refusal::Kept(self.kept.len() as u64),
            _ => Refusal::Times(times),
        }
    }
}

impl Refusal {
    // The number by which it is printed: that of the entries' refusal for the first four, and one that the entries do not have.
    pub fn number(&self) -> u64
        ensures { result ≡ number_of self.now }
    {
        match self {
            Refusal::Places | Refusal::RingOutside | Refusal::MemoryTooLong => 1,
            Refusal::State(_) => 2,
            Refusal::Kept(_) => 3,
            Refusal::Times(_) => 4,
            Refusal::Line(_) | Refusal::Outside(_) => 5,
        }
    }

    // The place by which it is printed.
    pub fn place(&self) -> u64
        ensures { result ≡ place_of self.now }
    {
        match self {
            Refusal::Places => 0,
            Refusal::RingOutside => 1,
            Refusal::MemoryTooLong => 2,
            Refusal::State(n)
            | Refusal::Kept(n)
            | Refusal::Times(n)
            | Refusal::Line(n)
            | Refusal::Outside(n) => *n,
        }
    }
}
