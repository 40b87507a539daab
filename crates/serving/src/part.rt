// The part of memory that a descriptor names.
ghost use Rattle.std.specs.Prelude.{◌≡◌};
ghost use Rattle.serving.specs.Entries.{part_place};

use vring::layout::Layout;
use vring::words::word_at;

// The `len` bytes from `at` on.
#[derive(Clone, Copy, Debug, PartialEq, Eq)]
pub struct Part {
    pub at: u16,
    pub len: u16,
}

// The part that descriptor `at` of a ring names, if it lies in memory; it takes what `piece` is given.
#[tactic(auto, unfolding(crate::specs::Entries::part_ok, chains::specs::Descriptors::descriptor_at))]
pub fn part_of(places: u64, begins: u64, memory: &[u8], at: u64) -> Option<Part>
    ensures { result ≡ part_place (record { size = places; base = begins }) memory.now at }
{
    let layout = Layout::new(places, begins, memory.len())?;
    if at >= places {
        return None;
    }
    let from = layout.base + 8 * at as usize;
    let at = word_at(memory, from);
    let len = word_at(memory, from + 2);
    (usize::from(at) + usize::from(len) <= memory.len()).then_some(Part { at, len })
}
