// Where bytes change.
ghost use Rattle.std.specs.Prelude.{Some};
ghost use Rattle.report.specs.Stores.{name_of};

use std::fmt;

// The guest's memory, or what the device keeps.
#[derive(Clone, Copy, Debug)]
pub enum Store {
    Memory,
    Kept,
}

impl fmt::Display for Store {
    ghost output = { λ s. Some (name_of s) };

    fn fmt<W: fmt::Write>(&self, f: &mut fmt::Formatter<W>) -> fmt::Result {
        match self {
            Store::Memory => write!(f, "memory"),
            Store::Kept => write!(f, "kept"),
        }
    }
}
