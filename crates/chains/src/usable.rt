// Whether a chain may be served.
ghost use Rattle.std.specs.Prelude.{◌≡◌, false};
ghost use Rattle.chains.specs.Chains.{listed};
ghost use Rattle.chains.specs.Usable.{clear, fits, usable};

use crate::chain::Chain;
use crate::descriptor::Descriptor;
use crate::region::Region;

impl Descriptor {
    // Whether its part lies wholly before or wholly behind each region.
    #[tactic(auto, unfolding(crate::specs::Usable::clear))]
    fn is_clear_of(&self, regions: &[Region]) -> bool
        ensures { result ≡ clear regions.now self.now }
    {
        let start = self.addr as usize;
        let end = start + self.len as usize;
        regions.iter().all(|g| end <= g.from || g.to <= start)
    }

    // Whether its part also lies in a memory of `n` bytes.
    #[tactic(auto, unfolding(crate::specs::Usable::fits))]
    fn fits(&self, regions: &[Region], n: usize) -> bool
        ensures { result ≡ fits regions.now n self.now }
    {
        self.addr as usize + self.len as usize <= n && self.is_clear_of(regions)
    }
}

impl Chain {
    // Whether each part fits and no readable descriptor stands behind a writable one.
    pub fn is_usable(&self, regions: &[Region], n: usize) -> bool
        ensures { result ≡ usable regions.now n false (listed self.now) }
    {
        let mut written = false;
        for d in self.descriptors() {
            if !d.fits(regions, n) {
                return false;
            }
            if d.is_writable() {
                written = true;
            } else if written {
                return false;
            }
        }
        true
    }
}
