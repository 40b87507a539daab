// What is wrong with a guest.

// The guest breaks a rule of the ring.
#[derive(Clone, Copy, Debug, PartialEq, Eq)]
pub struct Breach;
