// What the device answers, as contracts: each function's proof is the law that its contract names.
ghost use Rattle.device.specs.Laws.{Reads, Writes, Refuses, Keeps, FirstBytes};

// A read answers 0 and the block.
pub fn reads()
    ensures { Reads }
{}

// A write answers 0, and its bytes are kept.
pub fn writes()
    ensures { Writes }
{}

// Everything else is answered 255 and changes nothing.
pub fn refuses()
    ensures { Refuses }
{}

// Contents change in one block at most, and keep their length.
pub fn keeps()
    ensures { Keeps }
{}

// Nineteen bytes of a request are enough.
pub fn first_bytes()
    ensures { FirstBytes }
{}
