// What was seen of the entries and the plain reading.
use serving::done::Done;
use std::fmt;

// How many memories were tried, and what the calls did.
#[derive(Clone, Copy, Default)]
pub struct Tally {
    memories: u64,
    served: u64,
    stopped: u64,
    reset: u64,
    refused: u64,
    pub differ: u64,
    // The first memory at which the two differ.
    pub first: Option<u64>,
}

impl Tally {
    // Counts what a call did, which served so many chains, of a device that stood still before or did not.
    pub fn note(&mut self, done: Done, count: u16, stood: bool) {
        self.served = self.served.wrapping_add(count as u64);
        match done {
            Done::Stopped if !stood => self.stopped = self.stopped.wrapping_add(1),
            Done::Refused(_) => self.refused = self.refused.wrapping_add(1),
            Done::Anew => self.reset = self.reset.wrapping_add(1),
            _ => {}
        }
    }

    // Counts case `number`, at which the two agree or do not.
    pub fn end(&mut self, number: u64, agree: bool) {
        self.memories = self.memories.wrapping_add(1);
        if !agree {
            self.differ = self.differ.wrapping_add(1);
            self.first = self.first.or(Some(number));
        }
    }
}

impl fmt::Display for Tally {
    fn fmt<W: fmt::Write>(&self, f: &mut fmt::Formatter<W>) -> fmt::Result {
        let Tally {
            memories,
            served,
            stopped,
            reset,
            refused,
            differ,
            ..
        } = self;
        write!(
            f,
            "{memories} memories: {served} chains served, {stopped} stopped, {reset} reset, {refused} refused, {differ} differ"
        )
    }
}
