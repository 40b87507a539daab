// A look at the ring: it only reads, and all that a serving needs is in the job behind it, so that nothing is read a second time.
// That the ring lies in memory, and a chain's parts, are facts of two parameters; no type of one of them could say them.
ghost use Rattle.std.specs.Prelude.{◌≡◌, ◌<◌, ◌≤◌, true, Ok, OnOk};
ghost use Rattle.vring.specs.Programs.{ends, leaves};
ghost use Rattle.vring.specs.Rings.{ends_at};
ghost use Rattle.vring.specs.Layouts.{ring_of};
ghost use Rattle.chains.specs.Chains.{listed};
ghost use Rattle.transfer.specs.Responses.{Within};
ghost use Rattle.serving.specs.Turns.{look_prog, next_prog};
ghost use Rattle.serving.specs.Sees.{Sees, Takes};

use crate::job::Job;
use crate::view::View;
use chains::breach::Breach;
use chains::region::Region;
use transfer::gather::gather;
use vring::layout::Layout;
use vring::memory::GuestMemory;

// Whether a chain waits, which is then in the job, for a device that has served so many; an error where the guest breaks the rules.
// The job is filled and not answered, as there is one for a call and no heap.
pub fn look<M: GuestMemory>(
    layout: &Layout,
    m: &mut M,
    served: u16,
    job: &mut Job,
) -> Result<bool, Breach>
    requires { ends_at (ring_of layout.now) ≤ M.holds m.old }
    ensures value { Sees (ends M.acts (look_prog (ring_of layout.now) (M.holds m.old) served) m.old) result job.new }
    ensures then { m.new ≡ leaves M.acts (look_prog (ring_of layout.now) (M.holds m.old) served) m.old }
    ensures within { result ≡ Ok true → Within (M.holds m.old) (listed job.new.chain) }
    ensures size { M.holds m.new ≡ M.holds m.old }
{
    let waiting = m.number(layout.available_at()).wrapping_sub(served) as usize;
    if waiting == 0 {
        return Ok(false);
    }
    if waiting > layout.size {
        return Err(Breach);
    }
    take_next(layout, m, served, job)?;
    Ok(true)
}

// The chain that is next, if it may be served.
fn take_next<M: GuestMemory>(
    layout: &Layout,
    m: &mut M,
    served: u16,
    job: &mut Job,
) -> Result<(), Breach>
    requires { ends_at (ring_of layout.now) ≤ M.holds m.old }
    ensures value { Takes (ends M.acts (next_prog (ring_of layout.now) (M.holds m.old) served) m.old) result job.new }
    ensures then { m.new ≡ leaves M.acts (next_prog (ring_of layout.now) (M.holds m.old) served) m.old }
    ensures within { OnOk result (Within (M.holds m.old) (listed job.new.chain)) }
    ensures size { M.holds m.new ≡ M.holds m.old }
{
    let mut view = View::next(layout, m, served);
    job.head = view.head;
    job.chain.clear();
    let followed = view.follow(&mut job.chain);
    let m = view.into_memory();
    followed?;
    if !job.chain.is_usable(&[Region::from(layout)], m.len()) {
        return Err(Breach);
    }
    gather(m, &job.chain, &mut job.request);
    Ok(())
}
