// Which bytes lie in a memory.
ghost use Rattle.std.specs.Prelude.{◌≡◌, ◌+◌, nat_le};

// Whether `len` bytes from `at` on lie in a memory of `size` bytes.
pub fn lies_in(size: u64, at: u64, len: u64) -> bool
    ensures { result ≡ nat_le (at + len) size }
{
    len <= size && at <= size - len
}
