// What a script works on.

// A ring of so many places, which begins there; it may be any two numbers.
#[derive(Clone, Copy, Debug, PartialEq, Eq)]
pub struct Ring {
    pub size: u64,
    pub base: u64,
}

// Guest memory, where its ring stands, and the device's state and contents.
// It has no model, and the state is two fields: contracts would no longer see what their types say, that there are two numbers and
// how large each may be.
#[derive(Drop)]
pub struct Machine {
    pub memory: Vec<u8>,
    pub ring: Ring,
    pub served: u32,
    pub stopped: u32,
    pub kept: Vec<u8>,
}
