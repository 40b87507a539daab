// What goes out to C.

// What serving or a reset answers: which case, and its number. The case is a number, since the C interface needs it.
#[derive(Clone, Copy)]
#[repr(C)]
pub struct DovrelziDone {
    pub kind: u32,
    pub value: u64,
}

// A part of memory: 1 if there is one, where it begins, and how many bytes it has. The C interface needs the flag.
#[derive(Clone, Copy)]
#[repr(C)]
pub struct DovrelziPart {
    pub present: u32,
    pub at: u64,
    pub len: u64,
}
