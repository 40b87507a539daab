// A ring's own table, and the region that it takes.
ghost use Rattle.std.specs.Prelude.{◌≡◌};
ghost use Rattle.vring.specs.Rings.{ends_at};
ghost use Rattle.vring.specs.Layouts.{ring_of};

use crate::region::Region;
use crate::table::Table;
use vring::layout::Layout;

// The table of the ring's descriptors.
impl From<&Layout> for Table {
    ghost from_gives = { λ l t. (t.at ≡ l.now.base) × (t.count ≡ l.now.size) };

    fn from(layout: &Layout) -> Table {
        Table {
            at: layout.base,
            count: layout.size,
        }
    }
}

// All bytes of the ring, its last one too.
impl From<&Layout> for Region {
    ghost from_gives = { λ l g. g ≡ record { from = l.now.base; to = ends_at (ring_of l.now) } };

    fn from(layout: &Layout) -> Region {
        Region {
            from: layout.base,
            to: layout.ends_at(),
        }
    }
}
