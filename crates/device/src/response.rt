// A response.

use arrayvec::ArrayVec;

// A status, and behind it what was read.
pub type Response = ArrayVec<u8, 17>;
