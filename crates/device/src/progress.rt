// How far a device has come.
ghost use Rattle.std.specs.Prelude.{◌≡◌, true, false, List, MatchResult};
ghost use Rattle.device.specs.States.{state_ok, device_in, numbers_of};
ghost use Rattle.device.specs.Responds.{device_of};

// How many chains were served, modulo 65,536, and whether the device has stopped.
#[derive(Clone, Copy, Debug, PartialEq, Eq)]
pub struct Progress {
    pub served: u16,
    pub stopped: bool,
}

// Numbers that are no state of a device.
#[derive(Clone, Copy, Debug, PartialEq, Eq)]
pub struct NotAState;

// The state that two numbers say, if they say one.
impl TryFrom<&[u32]> for Progress {
    type Error = NotAState;

    ghost try_from_gives = { λ state r. MatchResult r (λ p. (state_ok state.now ≡ true) × ((k : List _) → device_of p k ≡ device_in state.now k)) (λ _. state_ok state.now ≡ false) };

    fn try_from(state: &[u32]) -> Result<Progress, NotAState> {
        match *state {
            [served, stopped] if served < 65536 && stopped <= 1 => Ok(Progress {
                served: served as u16,
                stopped: stopped == 1,
            }),
            _ => Err(NotAState),
        }
    }
}

// The two numbers that say a state.
impl From<Progress> for [u32; 2] {
    ghost from_gives = { λ p state. (k : List _) → state ≡ numbers_of (device_of p k) };

    fn from(progress: Progress) -> [u32; 2] {
        [u32::from(progress.served), u32::from(progress.stopped)]
    }
}
