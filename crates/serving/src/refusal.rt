// Why a call is refused.
ghost use Rattle.std.specs.Prelude.{◌≡◌};
ghost use Rattle.serving.specs.declared.done.Done.TheVariants.{Refused};
ghost use Rattle.serving.specs.Refusals.{refusal_number};
ghost use Rattle.serving.specs.declared.refusal.Refusal.TheVariants.{State};

use crate::done::Done;
use device::progress::NotAState;

// The reasons, in the order in which they are looked for.
#[derive(Clone, Copy, Debug, PartialEq, Eq)]
pub enum Refusal {
    // The ring is none, or does not lie in memory, or memory is too long.
    Ring,
    // The device state is none.
    State,
    // The contents are too long.
    Contents,
    // More servings are asked for than one call may do.
    Times,
}

impl Refusal {
    // The number by which it is answered. A script's refusals have these numbers too, and cases and a number that are not here.
    pub fn number(self) -> u64
        ensures { result ≡ refusal_number self }
    {
        match self {
            Refusal::Ring => 1,
            Refusal::State => 2,
            Refusal::Contents => 3,
            Refusal::Times => 4,
        }
    }
}

impl From<NotAState> for Refusal {
    ghost from_gives = { λ _ f. f ≡ State };

    fn from(_: NotAState) -> Refusal {
        Refusal::State
    }
}

impl From<Refusal> for Done {
    ghost from_gives = { λ f d. d ≡ Refused (refusal_number f) };

    fn from(refusal: Refusal) -> Done {
        Done::Refused(refusal.number())
    }
}
