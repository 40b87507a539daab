// Answers as numbers.
ghost use Rattle.std.specs.Prelude.{◌≡◌};
ghost use Rattle.capi.specs.Numbers.{done_numbers, place_numbers};

use crate::structs::{DovrelziDone, DovrelziPart};
use serving::done::Done;
use serving::part::Part;

// The numbers of an answer.
impl From<Done> for DovrelziDone {
    ghost from_gives = { λ done d. d ≡ done_numbers done };

    fn from(done: Done) -> DovrelziDone {
        match done {
            Done::Served(n) => DovrelziDone { kind: 0, value: n },
            Done::Stopped => DovrelziDone { kind: 1, value: 0 },
            Done::Anew => DovrelziDone { kind: 2, value: 0 },
            Done::Refused(n) => DovrelziDone { kind: 3, value: n },
        }
    }
}

// The numbers of a part, or three times 0 for none.
impl From<Option<Part>> for DovrelziPart {
    ghost from_gives = { λ part d. d ≡ place_numbers part };

    fn from(part: Option<Part>) -> DovrelziPart {
        match part {
            Some(part) => DovrelziPart {
                present: 1,
                at: u64::from(part.at),
                len: u64::from(part.len),
            },
            None => DovrelziPart {
                present: 0,
                at: 0,
                len: 0,
            },
        }
    }
}
