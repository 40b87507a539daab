// A ring's size and base, checked.
ghost use Rattle.std.specs.Prelude.{◌<◌, ◌≤◌};

// A ring of `size` descriptors that stands in memory from `base` on.
#[derive(Clone, Copy)]
pub struct Layout {
    pub size: usize,
    pub base: usize,
    ghost some: { 0 < size },
    ghost few: { size ≤ 64 },
    ghost near: { base ≤ 65536 },
}
