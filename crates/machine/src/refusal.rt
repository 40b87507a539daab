// Why something was refused.
use thiserror::Error;

// Each case has a number and a place, by which it is printed, and says in plain words what is wrong.
#[derive(Clone, Copy, Debug, PartialEq, Eq, Error)]
pub enum Refusal {
    #[error("a ring may have 1, 2, 4, 8, 16, 32 or 64 places, and this one has another number")]
    Places,
    #[error("the ring does not lie wholly in memory: it takes 14 bytes for each place, and 4 more")]
    RingOutside,
    #[error("a memory may have up to 65536 bytes")]
    MemoryTooLong,
    // The place says which of its numbers is wrong, as the text format has it.
    #[error("the device state is not two numbers, the first below 65536 and the second 0 or 1")]
    State(u64),
    #[error("a device may keep up to 4096 bytes, not {0}")]
    Kept(u64),
    #[error("one call may ask for up to 1000 servings, not {0}")]
    Times(u64),
    #[error("line {0} cannot be read (lines count from 0): each line is one of memory N, ring N at N, bytes N: N .., kept N, serve N, anew, piece N")]
    Line(u64),
    // Bytes from this address on; in a script that was read they do lie in memory.
    #[error("bytes from {0} on do not lie in memory")]
    Outside(u64),
}
