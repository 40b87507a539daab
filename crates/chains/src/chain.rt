// A chain's descriptors as they were read.
ghost use Rattle.std.specs.Prelude.{◌≤◌, length};

use crate::descriptor::Descriptor;
use arrayvec::ArrayVec;

// Its descriptors in order, at most as many as the largest ring has. With a model in place of the field contracts would see the list
// alone, and no more that it is so short.
#[derive(Drop)]
pub struct Chain {
    pub descriptors: ArrayVec<Descriptor, 64>,
    ghost few: { length descriptors.items ≤ 64 },
}
