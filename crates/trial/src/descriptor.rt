// A descriptor, as the guest writes it.

// Its four numbers. The worked examples have one of their own: a library for the two would be contracts for one struct.
#[derive(Clone, Copy)]
pub struct Descriptor {
    pub addr: u16,
    pub len: u16,
    pub flags: u16,
    pub next: u16,
}

// One of the four numbers, in the order in which they stand.
#[derive(Clone, Copy)]
pub enum Field {
    Addr,
    Len,
    Flags,
    Next,
}

impl Field {
    // How many bytes stand before it in its descriptor.
    pub fn offset(self) -> u32 {
        2 * self as u32
    }
}
