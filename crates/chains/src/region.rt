// A part of memory that descriptors keep clear of.

// The bytes from `from` on, up to `to` without it.
#[derive(Clone, Copy)]
pub struct Region {
    pub from: usize,
    pub to: usize,
}
