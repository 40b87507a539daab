// The first bytes of a request.
use arrayvec::ArrayVec;

// At most nineteen bytes, one more than any request that the device understands: so these tell a longer one from those.
pub type Request = ArrayVec<u8, 19>;
