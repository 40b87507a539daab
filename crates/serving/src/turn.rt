// One serving, and a budget of them.
// Ring and memory, state and contents stay parameters of their own: a struct that borrows them would owe in each contract that its
// references are the same as before (as `View` does), a clause more for each parameter less.
ghost use Rattle.std.specs.Prelude.{◌≡◌, ◌≤◌, false};
ghost use Rattle.vring.specs.Programs.{ends, leaves};
ghost use Rattle.vring.specs.Rings.{ends_at};
ghost use Rattle.vring.specs.Layouts.{ring_of};
ghost use Rattle.chains.specs.Chains.{listed};
ghost use Rattle.transfer.specs.Responses.{finish_prog, Within};
ghost use Rattle.device.specs.Responds.{device_of};
ghost use Rattle.model.specs.Serving.{cut, device_after};
ghost use Rattle.serving.specs.Turns.{turned, turn_prog, run_prog};

use crate::job::Job;
use crate::look::look;
use chains::breach::Breach;
use device::progress::Progress;
use device::respond::respond;
use transfer::finish::{capacity, finish};
use vring::layout::Layout;
use vring::memory::GuestMemory;

// Answers a job: the response, cut off at the capacity, goes into the chain, and the chain is used.
fn complete<M: GuestMemory>(
    layout: &Layout,
    m: &mut M,
    progress: &mut Progress,
    kept: &mut [u8],
    job: &Job,
)
    requires ring { ends_at (ring_of layout.now) ≤ M.holds m.old }
    requires parts { Within (M.holds m.old) (listed job.now.chain) }
    requires running { progress.old.stopped ≡ false }
    ensures device { device_of progress.new kept.new ≡ device_after (device_of progress.old kept.old) job.now.request.items }
    ensures then { m.new ≡ leaves M.acts (finish_prog (ring_of layout.now) progress.old.served job.now.head (listed job.now.chain) (cut kept.old (listed job.now.chain) job.now.request.items)) m.old }
    ensures size { M.holds m.new ≡ M.holds m.old }
{
    let response = respond(kept, job.request.as_slice());
    let n = response.len().min(capacity(&job.chain));
    finish(
        layout,
        m,
        progress.served,
        job.head,
        &job.chain,
        &response.as_slice()[..n],
    );
    progress.served = progress.served.wrapping_add(1);
}

// One serving; true where a chain was served. Nothing else is answered: a stop is told by the state, which is lent.
pub fn turn<M: GuestMemory>(
    layout: &Layout,
    m: &mut M,
    progress: &mut Progress,
    kept: &mut [u8],
    job: &mut Job,
) -> bool
    requires { ends_at (ring_of layout.now) ≤ M.holds m.old }
    ensures value { ends M.acts (turn_prog (ring_of layout.now) (M.holds m.old) (device_of progress.old kept.old)) m.old ≡ turned result (device_of progress.new kept.new) }
    ensures then { m.new ≡ leaves M.acts (turn_prog (ring_of layout.now) (M.holds m.old) (device_of progress.old kept.old)) m.old }
    ensures size { M.holds m.new ≡ M.holds m.old }
{
    if progress.stopped {
        return false;
    }
    match look(layout, m, progress.served, job) {
        Ok(false) => false,
        Ok(true) => {
            complete(layout, m, progress, kept, job);
            true
        }
        Err(Breach) => {
            progress.stopped = true;
            false
        }
    }
}

// At most `times` servings, as long as each serves a chain.
pub fn run<M: GuestMemory>(
    layout: &Layout,
    m: &mut M,
    progress: &mut Progress,
    kept: &mut [u8],
    job: &mut Job,
    times: u64,
)
    requires { ends_at (ring_of layout.now) ≤ M.holds m.old }
    ensures value { ends M.acts (run_prog times (ring_of layout.now) (M.holds m.old) (device_of progress.old kept.old)) m.old ≡ device_of progress.new kept.new }
    ensures then { m.new ≡ leaves M.acts (run_prog times (ring_of layout.now) (M.holds m.old) (device_of progress.old kept.old)) m.old }
    ensures size { M.holds m.new ≡ M.holds m.old }
{
    for _done in 0..times {
        if !turn(layout, m, progress, kept, job) {
            break;
        }
    }
}
