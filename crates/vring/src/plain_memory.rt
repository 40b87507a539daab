// Memory as it stands, as guest memory.
ghost use Rattle.std.specs.Prelude.{◌≡◌, length};
ghost use Rattle.vring.specs.Plain.{lent};

use crate::memory::GuestMemory;
use crate::plain::Plain;
use crate::words::word_at;

impl Plain<'_> {
    // The bytes, to be read.
    fn bytes(&self) -> &[u8]
        ensures { result.now ≡ self.now.bytes.now }
    {
        self.bytes
    }
}

impl GuestMemory for Plain<'_> {
    ghost holds = { λ s. length s.bytes.now };

    ghost acts = { lent };

    fn len(&self) -> usize {
        self.bytes.len()
    }

    fn byte(&mut self, at: usize) -> u8 {
        self.bytes[at]
    }

    fn number(&mut self, at: usize) -> u16 {
        word_at(self.bytes(), at)
    }

    fn put_number(&mut self, at: usize, value: u16) {
        let [low, high] = value.to_le_bytes();
        self.bytes[at] = low;
        self.bytes[at + 1] = high;
    }

    fn put_bytes(&mut self, at: usize, from: &[u8]) {
        let end = at + from.len();
        self.bytes[at..end].copy_from_slice(from);
    }
}
