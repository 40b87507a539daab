// What a descriptor's flags say.
ghost use Rattle.std.specs.Prelude.{◌≡◌};
ghost use Rattle.chains.specs.Descriptors.{has_next, writable};

use crate::descriptor::Descriptor;

impl Descriptor {
    // Whether another descriptor follows.
    pub fn has_next(&self) -> bool
        ensures { result ≡ has_next self.now }
    {
        self.flags & 1 != 0
    }

    // Whether the device writes its part.
    pub fn is_writable(&self) -> bool
        ensures { result ≡ writable self.now }
    {
        self.flags & 2 != 0
    }
}
