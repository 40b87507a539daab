// The commands of a script.

// What a script may ask for.
#[derive(Debug, PartialEq, Eq, Drop)]
pub enum Command {
    // A memory of so many bytes, all 0.
    Memory(u64),
    // The ring has so many places and begins there.
    Ring { size: u64, base: u64 },
    // The guest writes these bytes from `at` on.
    Bytes { at: u64, bytes: Vec<u8> },
    // The device keeps so many bytes: 0, 1, 2 and on, modulo 256.
    Kept(u64),
    // Up to so many servings.
    Serve(u64),
    // The device is reset.
    Anew,
    // The part of memory that this descriptor names.
    Piece(u64),
}
