// Why a script's run ended early.
ghost use Rattle.std.specs.Prelude.{◌≡◌};
ghost use Rattle.machine.specs.Runs.{halt_of};
ghost use Rattle.machine.specs.declared.halt.Halt.TheVariants.{Refused, NoMemory};

use crate::refusal::Refusal;
use script::fault::Fault;
use std::alloc::AllocError;
use std::fmt;
use thiserror::Error;

// What ended it, which it also says in plain words.
#[derive(Clone, Copy, Debug, PartialEq, Eq, Error)]
pub enum Halt {
    // A command was refused.
    #[error("{0}")]
    Refused(Refusal),
    // No memory is left to go on.
    #[error("out of memory")]
    NoMemory,
}

// The conversions are by hand, since what a derive writes has no contract.
impl From<Refusal> for Halt {
    ghost from_gives = { λ refusal r. r ≡ Refused refusal };

    fn from(refusal: Refusal) -> Halt {
        Halt::Refused(refusal)
    }
}

impl From<AllocError> for Halt {
    ghost from_gives = { λ _ r. r ≡ NoMemory };

    fn from(_: AllocError) -> Halt {
        Halt::NoMemory
    }
}

impl From<Fault> for Halt {
    ghost from_gives = { λ fault r. r ≡ halt_of fault };

    fn from(fault: Fault) -> Halt {
        match fault {
            Fault::Line(n) => Halt::Refused(Refusal::Line(n)),
            Fault::NoMemory => Halt::NoMemory,
        }
    }
}

impl From<fmt::Error> for Halt {
    ghost from_gives = { λ _ r. r ≡ NoMemory };

    fn from(_: fmt::Error) -> Halt {
        Halt::NoMemory
    }
}
