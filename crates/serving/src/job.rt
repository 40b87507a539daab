// What a look finds.
ghost use Rattle.std.specs.Prelude.{◌≡◌, ◌≤◌, [], length};
ghost use Rattle.chains.specs.Chains.{listed};

use arrayvec::ArrayVec;
use chains::chain::Chain;
use transfer::request::Request;

// A chain to be served, all of it as it was read. One is made for a call and filled again by each of its servings: there is no heap,
// and a chain of its own for each would have its 64 places written each time.
#[derive(Drop)]
pub struct Job {
    pub chain: Chain,
    pub request: Request,
    pub head: u16,
    ghost few: { length request.items ≤ 19 },
}

impl Job {
    // A job with nothing in it.
    pub fn new() -> Job
        ensures head { result.head ≡ 0 }
        ensures chain { listed result.chain ≡ [] }
        ensures request { result.request.items ≡ [] }
    {
        Job {
            chain: Chain::new(),
            request: ArrayVec::new(),
            head: 0,
        }
    }
}
