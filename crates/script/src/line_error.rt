// Why a line is not taken.
ghost use Rattle.std.specs.Prelude.{◌≡◌};
ghost use Rattle.script.specs.declared.line_error.LineError.TheVariants.{NoMemory};
ghost use Rattle.script.specs.Parses.{fault_at};

use crate::fault::Fault;
use std::alloc::AllocFailed;

// It says nothing that can be read, or no memory is left to read on. A line does not know its number, so it is no `Fault` yet.
#[derive(Clone, Copy, Debug, PartialEq, Eq)]
pub enum LineError {
    Unreadable,
    NoMemory,
}

// By hand, since what a derive writes has no contract.
impl<T: Drop> From<AllocFailed<T>> for LineError {
    ghost from_gives = { λ _ r. r ≡ NoMemory };

    fn from(_: AllocFailed<T>) -> LineError {
        LineError::NoMemory
    }
}

impl LineError {
    // The fault of a script whose line `number` is not taken.
    pub fn at(self, number: u64) -> Fault
        ensures { result ≡ fault_at number self }
    {
        match self {
            LineError::Unreadable => Fault::Line(number),
            LineError::NoMemory => Fault::NoMemory,
        }
    }
}
