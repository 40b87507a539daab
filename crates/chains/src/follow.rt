// Chains followed through guest memory into a snapshot.
ghost use Rattle.std.specs.Prelude.{◌≡◌, ◌+◌, ◌*◌, ◌≤◌, length};
ghost use Rattle.vring.specs.Programs.{ends, leaves};
ghost use Rattle.chains.specs.Descriptors.{descriptor_prog};
ghost use Rattle.chains.specs.Chains.{chain_prog, listed, Follows};

use crate::breach::Breach;
use crate::chain::Chain;
use crate::descriptor::Descriptor;
use crate::table::Table;
use vring::memory::GuestMemory;

// The descriptor at an address, each of its numbers read once.
fn read_descriptor<M: GuestMemory>(m: &mut M, at: usize) -> Descriptor
    requires near { at ≤ 131072 }
    requires fits { at + 8 ≤ M.holds m.old }
    ensures value { result ≡ ends M.acts (descriptor_prog at) m.old }
    ensures then { m.new ≡ leaves M.acts (descriptor_prog at) m.old }
    ensures size { M.holds m.new ≡ M.holds m.old }
{
    let addr = m.number(at);
    let len = m.number(at + 2);
    let flags = m.number(at + 4);
    Descriptor { addr, len, flags }
}

// The chain from descriptor `i` on, of at most `left`, listed behind what `out` lists; an error where it is bad.
// The list is filled and not answered, as there is one for a call and no heap.
pub fn follow<M: GuestMemory>(
    table: &Table,
    m: &mut M,
    i: usize,
    left: usize,
    out: &mut Chain,
) -> Result<(), Breach>
    requires fits { table.now.at + 8 * table.now.count ≤ M.holds m.old }
    requires room { length (listed out.old) + left ≤ 64 }
    ensures value { Follows (ends M.acts (chain_prog left table.now.at table.now.count i) m.old) result (listed out.old) (listed out.new) }
    ensures then { m.new ≡ leaves M.acts (chain_prog left table.now.at table.now.count i) m.old }
    ensures size { M.holds m.new ≡ M.holds m.old }
{
    let mut next = i;
    for _taken in 0..left {
        if next >= table.count {
            return Err(Breach);
        }
        let at = table.at + 8 * next;
        let d = read_descriptor(m, at);
        out.push(d);
        if !d.has_next() {
            return Ok(());
        }
        next = m.number(at + 6) as usize;
    }
    Err(Breach)
}
