// A view of one chain: guest memory and the ring in it, borrowed while the chain is followed.
ghost use Rattle.std.specs.Prelude.{◌≡◌, ◌≤◌, []};
ghost use Rattle.vring.specs.Programs.{pair, ends, leaves};
ghost use Rattle.vring.specs.Rings.{ends_at, head_at};
ghost use Rattle.vring.specs.Layouts.{ring_of};
ghost use Rattle.chains.specs.Chains.{chain_prog, listed, Follows};

use chains::breach::Breach;
use chains::chain::Chain;
use chains::follow::follow;
use chains::table::Table;
use vring::layout::Layout;
use vring::memory::GuestMemory;

// A ring's layout and the guest memory that it stands in, both borrowed.
#[derive(Drop)]
pub struct Queue<'l, 'm, M> {
    pub layout: &'l Layout,
    pub memory: &'m mut M,
}

// The same for one chain, with its head.
#[derive(Drop)]
pub struct View<'l, 'm, M> {
    pub head: u16,
    pub queue: Queue<'l, 'm, M>,
}

impl<'l, 'm, M: GuestMemory> Queue<'l, 'm, M> {
    // The chain from `head` on, listed in `out`, which lists nothing yet; an error where it is bad.
    // `View` asks for it with its own head: no proof is generated where a `&mut` is used from two fields deep.
    fn follow(&mut self, head: u16, out: &mut Chain) -> Result<(), Breach>
        requires ring { ends_at (ring_of self.old.layout.now) ≤ M.holds self.old.memory.now }
        requires empty { listed out.old ≡ [] }
        ensures value { Follows (ends M.acts (chain_prog self.old.layout.now.size self.old.layout.now.base self.old.layout.now.size head) self.old.memory.now) result (listed out.old) (listed out.new) }
        ensures then { self.new.memory.now ≡ leaves M.acts (chain_prog self.old.layout.now.size self.old.layout.now.base self.old.layout.now.size head) self.old.memory.now }
        ensures size { M.holds self.new.memory.now ≡ M.holds self.old.memory.now }
        ensures same { self.new.memory.ghost_name ≡ self.old.memory.ghost_name }
    {
        let table = Table::from(self.layout);
        let left = self.layout.size;
        follow(&table, self.memory, head as usize, left, out)
    }
}

impl<'l, 'm, M: GuestMemory> View<'l, 'm, M> {
    // The chain that a device which has served so many is to serve next.
    pub fn next(layout: &'l Layout, memory: &'m mut M, served: u16) -> View<'l, 'm, M>
        requires { ends_at (ring_of layout.now) ≤ M.holds memory.old }
        ensures head { result.head ≡ M.acts.reads memory.old pair (head_at (ring_of layout.now) served) }
        ensures then { result.queue.memory.now ≡ M.acts.after memory.old pair (head_at (ring_of layout.now) served) }
        ensures size { M.holds result.queue.memory.now ≡ M.holds memory.old }
        ensures ring { result.queue.layout.now ≡ layout.now }
        ensures same { result.queue.memory.ghost_name ≡ memory.entry.ghost_name }
    {
        let head = memory.number(layout.head_at(served));
        View {
            head,
            queue: Queue { layout, memory },
        }
    }

    // The chain, listed in `out`, which lists nothing yet; an error where it is bad. There is one list for a call and no heap.
    pub fn follow(&mut self, out: &mut Chain) -> Result<(), Breach>
        requires ring { ends_at (ring_of self.old.queue.layout.now) ≤ M.holds self.old.queue.memory.now }
        requires empty { listed out.old ≡ [] }
        ensures value { Follows (ends M.acts (chain_prog self.old.queue.layout.now.size self.old.queue.layout.now.base self.old.queue.layout.now.size self.old.head) self.old.queue.memory.now) result (listed out.old) (listed out.new) }
        ensures then { self.new.queue.memory.now ≡ leaves M.acts (chain_prog self.old.queue.layout.now.size self.old.queue.layout.now.base self.old.queue.layout.now.size self.old.head) self.old.queue.memory.now }
        ensures size { M.holds self.new.queue.memory.now ≡ M.holds self.old.queue.memory.now }
        ensures same { self.new.queue.memory.ghost_name ≡ self.old.queue.memory.ghost_name }
    {
        let head = self.head;
        self.queue.follow(head, out)
    }
}

impl<'l, 'm, M> View<'l, 'm, M> {
    // The guest memory again, for as long as it was borrowed; the view is spent.
    // It is proved by hand: no proof is generated where a `&mut` is handed on from two fields deep.
    pub fn into_memory(self) -> &'m mut M
        ensures value { result.now ≡ self.entry.queue.memory.now }
        ensures same { result.ghost_name ≡ self.entry.queue.memory.ghost_name }
    {
        self.queue.memory
    }
}
