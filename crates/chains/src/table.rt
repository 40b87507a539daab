// A table of descriptors in memory.
ghost use Rattle.std.specs.Prelude.{◌≤◌};

// `count` descriptors of eight bytes each, from `at` on.
#[derive(Clone, Copy)]
pub struct Table {
    pub at: usize,
    pub count: usize,
    ghost near: { at ≤ 65536 },
    ghost few: { count ≤ 64 },
}
