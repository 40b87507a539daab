// Calls that are refused, or nearly.
use crate::guest::Guest;
use crate::random::Random;
use std::alloc::AllocError;

impl Guest {
    // A ring of another number of places.
    fn misplace(&mut self) {
        let r = &mut self.random;
        let places = r.pick(&[0, 3, 5, 6, 63, 65, 96, 128, 256, 65535, 1, 2, 64]) as u64;
        self.places = match r.below(4) {
            0 => r.any(),
            1 => places.wrapping_add(1 << 32),
            _ => places,
        };
    }

    // A ring that begins elsewhere: where it just fits, a byte farther, or far off.
    fn shift(&mut self) {
        let ring = 14 * self.frame.n as u64 + 4;
        let size = self.frame.size as u64;
        let last = size.saturating_sub(ring);
        let r = &mut self.random;
        self.begins = match r.below(6) {
            0 => last,
            1 => last + 1,
            2 => size,
            3 => u64::MAX - r.below(1000) as u64,
            4 => self.begins.wrapping_add(1 << 32),
            _ => r.any(),
        };
    }

    // A state that is none, or another one.
    fn misstate(&mut self) -> Result<(), AllocError> {
        let r = &mut self.random;
        // A drawn number picks the step: closures in a list would say the same, with a type for the list beside.
        match r.below(6) {
            0 => self.state.clear(),
            1 => self.state.truncate(1),
            2 => self.state.resize(3, 0)?,
            3 => restate(&mut self.state, 65535 + r.below(3) as u32, 0),
            4 => restate(&mut self.state, r.word() as u32, r.below(4) as u32),
            _ => restate(&mut self.state, u32::MAX, u32::MAX),
        }
        Ok(())
    }

    // Makes a call one that is refused, in most cases, and often for two reasons.
    pub fn mislead(&mut self) -> Result<(), AllocError> {
        self.mislead_once()?;
        if self.random.once_in(2) {
            self.mislead_once()?;
        }
        Ok(())
    }

    // Changes one thing that a call may be refused for.
    fn mislead_once(&mut self) -> Result<(), AllocError> {
        // A drawn number picks the step: closures in a list would say the same, with a type for the list beside.
        match self.random.below(4) {
            0 => self.misplace(),
            1 => self.shift(),
            2 => self.misstate()?,
            _ => self.kept.resize(4096 + self.random.below(2) as usize, 7)?,
        }
        Ok(())
    }
}

// Sets the state's two numbers, if it has two.
fn restate(state: &mut [u32], served: u32, stopped: u32) {
    if let [first, second] = state {
        *first = served;
        *second = stopped;
    }
}

// How many servings a call may do.
pub fn budget(r: &mut Random) -> u64 {
    match r.below(60) {
        0 => 1000 + r.below(3) as u64,
        1 => r.any(),
        2 => 0,
        n if n < 20 => 1,
        _ => r.below(71) as u64,
    }
}
