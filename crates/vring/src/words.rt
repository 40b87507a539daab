// Numbers in memory.
ghost use Rattle.std.specs.Prelude.{◌≡◌, ◌+◌, ◌<◌, length};
ghost use Rattle.vring.specs.Words.{word};

// The number of two bytes at an address, the lower first.
pub fn word_at(memory: &[u8], at: usize) -> u16
    requires { at + 1 < length memory.now }
    ensures { result ≡ word memory.now at }
{
    u16::from_le_bytes([memory[at], memory[at + 1]])
}
