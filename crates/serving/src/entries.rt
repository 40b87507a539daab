// The entries: they take whatever they are lent, or refuse it and change nothing.
// What they take and answer is as it was given, for callers in Rattle and in C.
ghost use Rattle.std.specs.Prelude.{◌≡◌, OnOk};
ghost use Rattle.vring.specs.Layouts.{ring_of};
ghost use Rattle.device.specs.Responds.{device_of};
ghost use Rattle.model.specs.Promises.{Sound};
ghost use Rattle.device.specs.States.{numbers_of};
ghost use Rattle.serving.specs.Entries.{state_in, refusal, ServeSays, Serves, Promised, AnewSays, part};
ghost use Rattle.serving.specs.Refusals.{said};

use crate::done::Done;
use crate::job::Job;
use crate::part::part_of;
use crate::refusal::Refusal;
use crate::turn::run;
use device::progress::Progress;
use vring::layout::Layout;
use vring::memory::GuestMemory;
use vring::plain::Plain;

// At most `times` servings of memory as it stands, from one state to the next, and what is answered then.
fn serve_plain(
    layout: &Layout,
    memory: &mut [u8],
    progress: &mut Progress,
    kept: &mut [u8],
    times: u64,
) -> Done
    requires { Sound (ring_of layout.now) (record { memory = memory.old; device = device_of progress.old kept.old }) }
    ensures { Serves (ring_of layout.now) (record { memory = memory.old; device = device_of progress.old kept.old }) times result memory.new (numbers_of (device_of progress.new kept.new)) kept.new }
{
    let mut m = Plain { bytes: memory };
    let mut job = Job::new();
    run(layout, &mut m, progress, kept, &mut job, times);
    if progress.stopped {
        return Done::Stopped;
    }
    Done::Served(
        m.number(layout.available_at())
            .wrapping_sub(progress.served) as u64,
    )
}

// Serves the chains of a ring, if nothing is wrong with what is lent.
pub fn try_serve(
    places: u64,
    begins: u64,
    memory: &mut [u8],
    state: &mut [u32],
    kept: &mut [u8],
    times: u64,
) -> Result<Done, Refusal>
    ensures does { ServeSays (refusal (record { size = places; base = begins }) memory.old state.old kept.old times) (record { size = places; base = begins }) memory.old state.old kept.old times (said result) memory.new state.new kept.new }
    ensures promises { refusal (record { size = places; base = begins }) memory.old state.old kept.old times ≡ 0 → Promised (record { size = places; base = begins }) (state_in memory.old state.old kept.old) times (said result) (state_in memory.new state.new kept.new) }
    ensures ok { OnOk result (refusal (record { size = places; base = begins }) memory.old state.old kept.old times ≡ 0) }
{
    let layout = Layout::new(places, begins, memory.len()).ok_or(Refusal::Ring)?;
    let mut progress = Progress::try_from(&*state)?;
    if kept.len() > 4096 {
        return Err(Refusal::Contents);
    }
    if times > 1000 {
        return Err(Refusal::Times);
    }
    let done = serve_plain(&layout, memory, &mut progress, kept, times);
    state.copy_from_slice(&<[u32; 2]>::from(progress));
    Ok(done)
}

// Serves the chains of a ring of `places` descriptors that begins at `begins`, at most `times` of them.
pub fn serve(
    places: u64,
    begins: u64,
    memory: &mut [u8],
    state: &mut [u32],
    kept: &mut [u8],
    times: u64,
) -> Done
    ensures does { ServeSays (refusal (record { size = places; base = begins }) memory.old state.old kept.old times) (record { size = places; base = begins }) memory.old state.old kept.old times result memory.new state.new kept.new }
    ensures promises { refusal (record { size = places; base = begins }) memory.old state.old kept.old times ≡ 0 → Promised (record { size = places; base = begins }) (state_in memory.old state.old kept.old) times result (state_in memory.new state.new kept.new) }
{
    match try_serve(places, begins, memory, state, kept, times) {
        Ok(done) => done,
        Err(refusal) => Done::from(refusal),
    }
}

// Makes both numbers of the state 0, if it has two.
fn reset(state: &mut [u32]) -> Done
    ensures { AnewSays state.old result state.new }
{
    if state.len() != 2 {
        return Done::from(Refusal::State);
    }
    state.fill(0);
    Done::Anew
}

// Resets the device, whose contents stay. It hands its state on to `reset`, and is proved by hand.
pub fn begin_anew(state: &mut [u32]) -> Done
    ensures { AnewSays state.old result state.new }
{
    reset(state)
}

// The part of memory that descriptor `at` names, or an empty one.
#[tactic(auto, unfolding(crate::specs::Entries::part_ok, crate::specs::Entries::part))]
pub fn piece<'a>(places: u64, begins: u64, memory: &'a [u8], at: u64) -> &'a [u8]
    ensures { result.now ≡ part (record { size = places; base = begins }) memory.now at }
{
    let Some(part) = part_of(places, begins, memory, at) else {
        return &[];
    };
    let from = part.at as usize;
    &memory[from..from + part.len as usize]
}
