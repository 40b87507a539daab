// A request gathered from guest memory byte by byte.
ghost use Rattle.std.specs.Prelude.{◌≡◌, ◌+◌, ◌≤◌, ◌++◌};
ghost use Rattle.arrayvec.specs.ArrayVec.{array_vec_len};
ghost use Rattle.vring.specs.Programs.{ends, leaves, get_bytes};
ghost use Rattle.chains.specs.Chains.{listed};
ghost use Rattle.transfer.specs.Requests.{request_prog};
ghost use Rattle.transfer.specs.Responses.{Within};

use crate::request::Request;
use chains::chain::Chain;
use vring::memory::GuestMemory;

// The `n` bytes from an address on, behind what `out` has.
fn take_bytes<M: GuestMemory>(m: &mut M, at: usize, n: usize, out: &mut Request)
    requires fits { at + n ≤ M.holds m.old }
    requires near { at + n ≤ 131072 }
    requires room { array_vec_len out.old + n ≤ 19 }
    ensures value { out.new.items ≡ out.old.items ++ ends M.acts (get_bytes n at) m.old }
    ensures long { array_vec_len out.new ≡ array_vec_len out.old + n }
    ensures then { m.new ≡ leaves M.acts (get_bytes n at) m.old }
    ensures size { M.holds m.new ≡ M.holds m.old }
{
    for address in at..at + n {
        let byte = m.byte(address);
        out.push(byte);
    }
}

// The first bytes of what a chain asks, into `out`, which is filled and not answered, as there is one for a call and no heap.
pub fn gather<M: GuestMemory>(m: &mut M, chain: &Chain, out: &mut Request)
    requires { Within (M.holds m.old) (listed chain.now) }
    ensures value { out.new.items ≡ ends M.acts (request_prog 19 (listed chain.now)) m.old }
    ensures few { array_vec_len out.new ≤ 19 }
    ensures then { m.new ≡ leaves M.acts (request_prog 19 (listed chain.now)) m.old }
    ensures size { M.holds m.new ≡ M.holds m.old }
{
    out.clear();
    for d in chain.descriptors() {
        if !d.is_writable() {
            let n = (d.len as usize).min(out.remaining_capacity());
            take_bytes(m, d.addr as usize, n, out);
        }
    }
}
