// What a chain lists.
ghost use Rattle.std.specs.Prelude.{◌≡◌, ◌<◌, ◌≤◌, [], ◌∷◌, ◌++◌, length};
ghost use Rattle.chains.specs.Chains.{listed};

use crate::chain::Chain;
use crate::descriptor::Descriptor;
use arrayvec::ArrayVec;

impl Chain {
    // A chain of no descriptors.
    pub fn new() -> Chain
        ensures { listed result ≡ [] }
    {
        Chain {
            descriptors: ArrayVec::new(),
        }
    }

    // Lists nothing any more.
    pub fn clear(&mut self)
        ensures { listed self.new ≡ [] }
    {
        self.descriptors.clear();
    }

    // Lists one descriptor more.
    pub(crate) fn push(&mut self, d: Descriptor)
        requires { length (listed self.old) < 64 }
        ensures { listed self.new ≡ listed self.old ++ d ∷ [] }
    {
        self.descriptors.push(d);
    }

    // The descriptors, in the order of the chain.
    pub fn descriptors(&self) -> &[Descriptor]
        ensures value { result.now ≡ listed self.now }
        ensures fits { length result.now ≤ 64 }
    {
        self.descriptors.as_slice()
    }
}
