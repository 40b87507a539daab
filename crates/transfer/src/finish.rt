// What a serving writes into guest memory.
// That the ring lies in memory, and a chain's parts, are facts of two parameters; no type of one of them could say them.
ghost use Rattle.std.specs.Prelude.{◌≡◌, ◌+◌, ◌<◌, ◌≤◌, length};
ghost use Rattle.vring.specs.Programs.{leaves};
ghost use Rattle.vring.specs.Rings.{ends_at};
ghost use Rattle.vring.specs.Layouts.{ring_of};
ghost use Rattle.chains.specs.Chains.{listed};
ghost use Rattle.transfer.specs.Responses.{capacity, fill_prog, used_prog, finish_prog, Within};

use chains::chain::Chain;
use vring::layout::Layout;
use vring::memory::GuestMemory;

// How many bytes a response may have.
pub fn capacity(chain: &Chain) -> usize
    ensures { result ≡ capacity (listed chain.now) }
{
    chain
        .descriptors()
        .iter()
        .map(|d| if d.is_writable() { d.len as usize } else { 0 })
        .sum()
}

// The response into the writable descriptors, in order; what finds no place is cut off. Its parts are found by an index: with what is left
// as a slice the library for C needs `memmove` beside `memcpy` and `memset`.
fn fill<M: GuestMemory>(m: &mut M, chain: &Chain, response: &[u8])
    requires { Within (M.holds m.old) (listed chain.now) }
    ensures then { m.new ≡ leaves M.acts (fill_prog (listed chain.now) response.now) m.old }
    ensures size { M.holds m.new ≡ M.holds m.old }
{
    let mut used = 0;
    for d in chain.descriptors() {
        if d.is_writable() {
            let left = response.len() - used;
            let n = (d.len as usize).min(left);
            m.put_bytes(d.addr as usize, &response[used..used + n]);
            used += n;
        }
    }
}

// The `k`-th used entry, and then the used count.
fn put_used<M: GuestMemory>(layout: &Layout, m: &mut M, k: u16, head: u16, len: u16)
    requires { ends_at (ring_of layout.now) ≤ M.holds m.old }
    ensures then { m.new ≡ leaves M.acts (used_prog (ring_of layout.now) k head len) m.old }
    ensures size { M.holds m.new ≡ M.holds m.old }
{
    let at = layout.entry_at(k);
    m.put_number(at, head);
    m.put_number(at + 2, len);
    m.put_number(layout.used_at(), k.wrapping_add(1));
}

// The response into the chain, which is the `k`-th and begins with `head`, and then that it is used.
#[tactic(auto, using(vring::proofs::Binds::leaves_then), unfolding(crate::specs::Responses::finish_prog))]
pub fn finish<M: GuestMemory>(
    layout: &Layout,
    m: &mut M,
    k: u16,
    head: u16,
    chain: &Chain,
    response: &[u8],
)
    requires ring { ends_at (ring_of layout.now) ≤ M.holds m.old }
    requires parts { Within (M.holds m.old) (listed chain.now) }
    requires long { length response.now < 65536 }
    ensures then { m.new ≡ leaves M.acts (finish_prog (ring_of layout.now) k head (listed chain.now) response.now) m.old }
    ensures size { M.holds m.new ≡ M.holds m.old }
{
    fill(m, chain, response);
    put_used(layout, m, k, head, response.len() as u16);
}
