// Where the parts of a ring stand.
ghost use Rattle.std.specs.Prelude.{◌≡◌, ◌+◌, ◌*◌, ◌<◌, ◌≤◌, IfSome};
ghost use Rattle.vring.specs.Rings.{Ring, size_ok, available_at, used_at, ends_at, head_at, entry_at};
ghost use Rattle.vring.specs.Layouts.{ring_of, Placed};

use crate::layout::Layout;

// Whether a ring may have so many places.
#[tactic(auto, unfolding(crate::specs::Rings::size_ok))]
pub fn is_size(size: u64) -> bool
    ensures { result ≡ size_ok size }
{
    size >= 1 && size <= 64 && 65536 % size == 0
}

impl Layout {
    // The ring of `size` descriptors from `base` on, if it may stand in a memory of `n` bytes.
    #[tactic(auto, unfolding(crate::specs::Rings::placed_ok, crate::specs::Rings::ring_ok, crate::specs::Rings::size_ok))]
    pub fn new(size: u64, base: u64, n: usize) -> Option<Layout>
        ensures placed { Placed (record { size = size; base = base }) n result }
        ensures fits { IfSome result (λ l. (ends_at (ring_of l) ≤ n) × (n ≤ 65536)) }
    {
        if !is_size(size) || base > 65536 || n > 65536 {
            return None;
        }
        let layout = Layout {
            size: size as usize,
            base: base as usize,
        };
        if layout.ends_at() <= n {
            Some(layout)
        } else {
            None
        }
    }

    // Where the available count stands.
    pub fn available_at(&self) -> usize
        ensures { result ≡ available_at (ring_of self.now) }
    {
        self.base + 8 * self.size
    }

    // Where the used count stands.
    pub fn used_at(&self) -> usize
        ensures { result ≡ used_at (ring_of self.now) }
    {
        self.available_at() + (2 + 2 * self.size)
    }

    // The first address behind the ring.
    pub fn ends_at(&self) -> usize
        ensures { result ≡ ends_at (ring_of self.now) }
    {
        self.used_at() + (2 + 4 * self.size)
    }

    // Where the `k`-th head stands.
    pub fn head_at(&self, k: u16) -> usize
        ensures value { result ≡ head_at (ring_of self.now) k }
        ensures within { result + 2 ≤ used_at (ring_of self.now) }
    {
        self.available_at() + (2 + 2 * (k as usize % self.size))
    }

    // Where the `k`-th used entry stands.
    pub fn entry_at(&self, k: u16) -> usize
        ensures value { result ≡ entry_at (ring_of self.now) k }
        ensures within { result + 4 ≤ ends_at (ring_of self.now) }
    {
        self.used_at() + (2 + 4 * (k as usize % self.size))
    }
}
