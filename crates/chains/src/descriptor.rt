// One descriptor.

// A descriptor as it was read: the part of memory that it names, and its flags.
#[derive(Clone, Copy, Debug, Default, PartialEq, Eq)]
pub struct Descriptor {
    pub addr: u16,
    pub len: u16,
    pub flags: u16,
}
