// The entries beside the plain reading, on one memory after another.
use crate::guest::Guest;
use crate::reading::{Answer, part_of, reset, serve};
use crate::refusals::budget;
use crate::tally::Tally;
use serving::done::Done;
use serving::entries::{begin_anew, piece};
use std::alloc::{AllocError, Global};

// A guest with which both are tried, and what was seen of them.
#[derive(Drop)]
struct Contest<'a> {
    heap: Global,
    guest: Guest,
    tally: &'a mut Tally,
}

// The answer of an entry, in the reading's words.
impl From<Done> for Answer {
    fn from(done: Done) -> Answer {
        match done {
            Done::Served(n) => Answer::Served(n),
            Done::Stopped => Answer::Stopped,
            Done::Anew => Answer::Anew,
            Done::Refused(n) => Answer::Refused(n),
        }
    }
}

impl Contest<'_> {
    // Serves on both sides; true where they agree.
    fn serves(&mut self, times: u64) -> Result<bool, AllocError> {
        let mut other = self.guest.clone()?;
        let done = self.guest.serve(times);
        self.note(done, &other);
        Ok(serve(self.heap, &mut other, times)? == Answer::from(done) && other == self.guest)
    }

    // Counts what a call did to the guest that was like this one before.
    fn note(&mut self, done: Done, before: &Guest) {
        let count = self.guest.served().wrapping_sub(before.served());
        self.tally.note(done, count, before.is_stopped());
    }

    // Resets on both sides; true where they agree.
    fn resets(&mut self) -> Result<bool, AllocError> {
        let mut other = self.guest.clone()?;
        let done = begin_anew(&mut self.guest.state);
        self.tally.note(done, 0, false);
        Ok(reset(&mut other.state) == Answer::from(done) && other == self.guest)
    }

    // Asks both for the part of a descriptor; true where they agree.
    fn shows(&mut self) -> bool {
        let at = self.guest.asked();
        let g = &self.guest;
        piece(g.places, g.begins, &g.memory, at) == part_of(g, at)
    }

    // Lets the guest make its memory.
    fn begin(&mut self) {
        let g = &mut self.guest;
        if g.random.once_in(20) {
            g.let_any_wait();
            return;
        }
        g.offer_chains();
        if g.random.once_in(2) {
            g.spoil();
        }
    }

    // Resets both sides, if there is to be a reset; true where they agree on it.
    fn resets_at_times(&mut self) -> Result<bool, AllocError> {
        let resets = if self.guest.is_stopped() {
            !self.guest.random.once_in(4)
        } else {
            self.guest.random.once_in(10)
        };
        Ok(!resets || self.resets()?)
    }

    // Lets the guest go on.
    fn go_on(&mut self) -> Result<(), AllocError> {
        let g = &mut self.guest;
        // A drawn number picks the step: closures in a list would say the same, with a type for the list beside.
        match g.random.below(5) {
            0 => g.spoil(),
            1 => g.let_any_wait(),
            2 | 3 => g.offer_chains(),
            _ => {}
        }
        if g.random.once_in(15) {
            g.mislead()?;
        }
        Ok(())
    }

    // Tries the guest; true where both sides agree throughout.
    fn agrees(&mut self) -> Result<bool, AllocError> {
        self.begin();
        for _ in 0..4 {
            let times = budget(&mut self.guest.random);
            if !self.serves(times)? || !self.shows() {
                return Ok(false);
            }
            if self.guest.random.once_in(3) {
                return Ok(true);
            }
            if !self.resets_at_times()? {
                return Ok(false);
            }
            self.go_on()?;
        }
        Ok(true)
    }
}

// Tries case `number`, and notes how it came out.
pub fn hold(heap: Global, number: u64, tally: &mut Tally) -> Result<(), AllocError> {
    let guest = Guest::any(heap, number)?;
    let agree = Contest { heap, guest, tally }.agrees()?;
    tally.end(number, agree);
    Ok(())
}
